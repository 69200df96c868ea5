//! What a reader answers to a text that is not in its grammar. It has no code: that is for the reader of the field,
//! which knows what was wanted there.

/// The text is not in the grammar.
#[derive(Clone, Copy, PartialEq, Eq, Debug)]
pub struct Bad;
