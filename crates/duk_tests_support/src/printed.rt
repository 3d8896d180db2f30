//! What values print.

use std::alloc::{AllocError, Global};
use std::fmt::Display;

/// The first value of a table that prints another text than the one beside it.
pub fn misprinted<T: Display>(
    alloc: Global,
    table: &[(T, &str)],
) -> Result<Option<usize>, AllocError> {
    for (place, (value, text)) in table.iter().enumerate() {
        let printed = format!(in alloc; "{value}")?;
        if printed.as_str() != *text {
            return Ok(Some(place));
        }
    }
    Ok(None)
}
