//! What standard error says of a command that goes on.

use std::str;

/// Whether a text is the line of a note: of how much is done, or how many numbers were passed over.
pub(crate) fn is_note(text: &[u8]) -> bool {
    let Ok(text) = str::from_utf8(text) else {
        return false;
    };
    match text.strip_suffix('\n') {
        Some(line) => are_numbers_behind(line, "tried ")
            || are_numbers_behind(line, "progress ")
            || are_numbers_behind(line, "passed over "),
        None => false,
    }
}

/// Whether a line is these words, and behind them a number, or one of another.
fn are_numbers_behind(line: &str, words: &str) -> bool {
    let Some(numbers) = line.strip_prefix(words) else {
        return false;
    };
    match numbers.split_once(" of ") {
        Some((number, other)) => is_number(number) && is_number(other),
        None => is_number(numbers),
    }
}

/// Whether a text is a number in decimal digits.
fn is_number(text: &str) -> bool {
    !text.is_empty() && text.as_bytes().iter().all(u8::is_ascii_digit)
}
