//! How the values of the rules are given up.
//!
//! A table that is dropped drops its values, and each of these its own before it is gone, so what lies deep takes a
//! deep stack. A text of 13 kilobytes can nest thousands of tables in one another. Here one container after the other
//! is emptied, over a list of those that are open, so that any nesting takes the same stack.

use std::alloc::Global;
use toml::{Table, Value};

/// Drops a table and all that it holds, whatever its nesting. Where the list of open containers finds no memory, the
/// rest is dropped as a whole.
pub(crate) fn give_up(alloc: Global, table: Table) {
    let mut open = Vec::new(alloc);
    if open.push(Value::Table(table)).is_err() {
        return;
    }
    for _ in 0..u64::MAX {
        let Some(last) = open.last_mut() else {
            return;
        };
        let Some(inner) = next_container(last) else {
            let _emptied = open.pop();
            continue;
        };
        if open.push(inner).is_err() {
            return;
        }
    }
}

// Takes values out of a container up to the next one that is a container itself.
fn next_container(value: &mut Value) -> Option<Value> {
    match value {
        Value::Array(values) => next_in_array(values),
        Value::Table(table) => next_in_table(table),
        _ => None,
    }
}

fn next_in_array(values: &mut Vec<Value>) -> Option<Value> {
    for _ in 0..u64::MAX {
        let value = values.pop()?;
        if is_container(&value) {
            return Some(value);
        }
    }
    None
}

fn next_in_table(table: &mut Table) -> Option<Value> {
    for _ in 0..u64::MAX {
        let (_key, value) = table.pop_last()?;
        if is_container(&value) {
            return Some(value);
        }
    }
    None
}

fn is_container(value: &Value) -> bool {
    matches!(value, Value::Array(_) | Value::Table(_))
}
