//! Tables of records: the records as `csv` reads them, and a whole table read up to its first refusal.
#![tactic(auto)]

mod fields;
mod lists;
mod name_lists;
mod records;
mod table;
mod values;

pub use fields::Fields;
pub use lists::{Item, list_of};
pub use name_lists::names;
pub use records::Records;
pub use table::{NoRow, Row, read_table};
pub use values::{name_in, number_in, optional_name_in, stamp_in};
