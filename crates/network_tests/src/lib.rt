//! Trials of the network, of marks, of floors and of what follows from marks: on small books by hand, and by chance beside
//! plain and slow programs. It has nothing but tests.
#![tactic(auto)]

#[cfg(test)]
mod tests;
