//! Trials of the book, of the rules of flying and of the counters, by hand at their edges, and by chance, where tables that are
//! made once say what the rules say. It has nothing but tests.
#![tactic(auto)]

#[cfg(test)]
mod tests;
