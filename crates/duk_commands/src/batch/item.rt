//! A line as an item.

ghost use Rattle.std.specs.Prelude.{◌≡◌, IfNone, IfSome};
ghost use Rattle.std.specs.Str.Lines.{strip_carriage_return};
ghost use Rattle.duk_commands.specs.Item.{IsItem};

use std::str;

/// The most bytes that an item has.
pub(crate) const LONGEST_ITEM: usize = 16_384;

/// A line that ended in LF, without the CR before that, where there is one.
pub(crate) fn strip_return(line: &[u8]) -> &[u8]
    ensures { result.now ≡ strip_carriage_return line.now }
{
    match line.last() {
        Some(b'\r') => &line[..line.len() - 1],
        _ => line,
    }
}

/// The item of a line. None: the line has more than 16,384 bytes, or is not UTF-8.
pub(crate) fn read_item(line: &[u8]) -> Option<&str>
    ensures found { IfSome result (λ item. item.now ≡ line.now) }
    ensures item { IfSome result (λ item. IsItem line.now) }
    ensures none { IfNone result (¬ IsItem line.now) }
{
    if line.len() > LONGEST_ITEM {
        return None;
    }
    str::from_utf8(line).ok()
}
