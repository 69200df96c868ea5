//! Certificates, written line by line to a sink: the header, what a search tells of its tree, the plan and the claim.
#![tactic(auto)]

mod cert_log;
mod event_lines;
mod trailer;

pub use cert_log::CertLog;
