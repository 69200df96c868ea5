//! What a book is, and what the rules and the counters say of small ones.

mod books;
mod counters;
mod curfews;
mod quotas;
mod rows;
mod turns;
