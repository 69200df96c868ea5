//! The lines of certificates: what each says, how it is spelled, and how it is read back.
#![tactic(auto)]

mod cert_line;
mod keyword;
pub mod laws;
mod line_reader;
mod spelling;
mod version;
mod words;

pub use cert_line::{BadLine, CertLine, LENGTH_LIMIT, VALUE_LIMIT};
pub use line_reader::read_line;
pub use spelling::write_line;
pub use version::Version;
