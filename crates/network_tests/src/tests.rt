//! What is linked, what marks leave open, and what follows from them, on small books.

mod books;
mod floors;
mod marks;
mod networks;
mod plain_facts;
mod propagation;
mod tree_logs;
