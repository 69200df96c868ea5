//! What readers answer on small tables, and what is refused.

mod books;
mod fleets;
mod outside;
mod quotas;
mod record_texts;
mod records;
mod rules_files;
mod seeds;
mod shown;
mod timetables;
mod values;
mod whole_tables;
mod zones;
