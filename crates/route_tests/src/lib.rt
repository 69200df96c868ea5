//! Trials of least routes, of dives and of the plan finder: on books by hand, whose answers are known from outside, and of the
//! first two on books by chance too, beside all routes of an aircraft. It has nothing but tests.
#![tactic(auto)]

#[cfg(test)]
mod tests;
