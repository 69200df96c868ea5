//! What is read, as a text: each value by its field, and names as they are written.

use std::alloc::{AllocError, Global};
use tail_text::name;

// How a name is shown, by its bytes; nothing of a text that is no name.
fn by_bytes(alloc: Global, written: &str) -> Result<String, AllocError> {
    match name(written.as_bytes()) {
        Ok(name) => format!(in alloc; "{name:?}"),
        Err(_) => Ok(String::new(alloc)),
    }
}

// A text of values, where each of these names stands as it is written and no longer by its bytes.
pub fn with_names(alloc: Global, values: String, names: &[&str]) -> Result<String, AllocError> {
    let mut text = values;
    for &written in names {
        text = text.replace(alloc, by_bytes(alloc, written)?.as_str(), written)?;
    }
    Ok(text)
}
