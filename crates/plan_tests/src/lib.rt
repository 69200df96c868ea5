//! Trials of plans: of their audit and its report, of the enumeration, of pools and the plans in them, and of certificates that
//! are written, and changed byte by byte. It has nothing but tests.
#![tactic(auto)]

#[cfg(test)]
mod tests;
