//! What plans are looked for in: a book, a table of its costs and its network, borrowed as one and the same for all
//! that seek.

use connection_net::Net;
use tail_book::{Book, CostTable};

/// A book with the table of its costs and its network.
#[derive(Clone, Copy)]
pub struct Problem<'a> {
    pub book: &'a Book,
    pub table: &'a CostTable,
    pub net: &'a Net,
}
