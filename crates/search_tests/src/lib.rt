//! Trials of the search: small books of every kind by chance, as the texts of three tables, are searched beside the
//! enumeration, and so are books that make the search branch; and callers are called. It has nothing but tests.
#![tactic(auto)]

#[cfg(test)]
mod chance;
#[cfg(test)]
mod moments;
#[cfg(test)]
mod tables;
#[cfg(test)]
mod tests;
