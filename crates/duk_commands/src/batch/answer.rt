//! The answer to a line.

ghost use Rattle.std.specs.Prelude.{◌≡◌};
ghost use Rattle.duk_commands.specs.Item.{IsItemAnswer, no_item_line};
ghost use Rattle.duk_commands.specs.inner.Batch.{answer_text};

use crate::batch::item::read_item;
use crate::batch::items::Items;
use crate::batch::kept::Kept;
use crate::lines::{Lines, push_end, push_text};
use std::alloc::Global;

/// The answer to a line: its text, what explains that, and whether it is what the command writes.
#[derive(Drop)]
pub(crate) struct Answer {
    pub(crate) text: Lines,
    pub(crate) explanation: Lines,
    pub(crate) done: bool,
}

/// The answer to a line, which is that of its item, or else that it is none.
/// `ahead` are the bytes behind the line.
pub(crate) fn answer_line<I: Items>(
    alloc: Global,
    items: &I,
    line: &[u8],
    ahead: &[u8],
    kept: &mut Kept,
) -> Answer
    ensures { IsItemAnswer (I.command items.now) line.now (answer_text result) result.done }
{
    let Some(item) = read_item(line) else {
        return Answer {
            text: no_item(),
            explanation: Lines::new(),
            done: false,
        };
    };
    match items.lines(alloc, item, ahead, kept) {
        Ok(text) => Answer {
            text,
            explanation: Lines::new(),
            done: true,
        },
        Err(why) => Answer {
            text: why.line,
            explanation: why.explanation,
            done: false,
        },
    }
}

/// What stands in the place of a line that is no item.
fn no_item() -> Lines
    ensures { result.items ≡ no_item_line }
{
    let mut line = Lines::new();
    push_text(&mut line, b"line refused");
    push_end(&mut line);
    line
}
