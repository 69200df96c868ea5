//! What is found, audited, reported and certified on small books.

mod audits;
mod books;
mod cert_logs;
mod certificates;
mod enumeration;
mod lines;
mod pieces;
mod plans_in_pools;
mod pools;
mod quotas;
mod reports;
