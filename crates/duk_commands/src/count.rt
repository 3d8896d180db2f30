//! Numbers written in decimal: COUNT and K, how many numbers to print and to skip.

ghost use Rattle.std.specs.Prelude.{◌≡◌, ℕ, IfSome, IfNone};
ghost use Rattle.std.specs.Option.{option_copied};
ghost use Rattle.duk_commands.specs.Decimal.{IsDecimal};
ghost use Rattle.duk_commands.specs.Walk.{IsCount, IsSkip};

/// The greatest number that may be asked for: one more than a terminal has.
const MOST_NUMBERS: u32 = 1_048_576;

/// Reads one or more decimal digits with a value of at most 1,048,576; leading zeros are allowed.
pub fn read_count(text: &str) -> Option<u32>
    ensures found { IfSome result (IsCount text.now) }
    ensures none { IfNone result ((count : ℕ) → ¬ IsCount text.now count) }
{
    read_decimal(text, MOST_NUMBERS)
}

/// Reads one or more decimal digits with a value of at most `most`; leading zeros are allowed.
pub fn read_decimal(text: &str, most: u32) -> Option<u32>
    ensures found { IfSome result (IsDecimal most text.now) }
    ensures none { IfNone result ((number : ℕ) → ¬ IsDecimal most text.now number) }
{
    if text.is_empty() {
        return None;
    }
    let mut number = 0;
    for digit in text.as_bytes() {
        match *digit {
            b'0'..=b'9' => number = 10 * number + u64::from(*digit - b'0'),
            _ => return None,
        }
        if number > u64::from(most) {
            return None;
        }
    }
    Some(number as u32)
}

/// Reads such a number, which is zero where it is not given.
pub fn read_skip(text: Option<&str>) -> Option<u32>
    ensures found { IfSome result (IsSkip (option_copied text.entry)) }
    ensures none { IfNone result ((skip : ℕ) → ¬ IsSkip (option_copied text.entry) skip) }
{
    match text {
        None => Some(0),
        Some(text) => read_count(text),
    }
}
