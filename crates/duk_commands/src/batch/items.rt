//! A command over one item.

ghost use Rattle.std.specs.Prelude.{◌≡◌, [], ℕ, List, IfErr, IfOk};
ghost use Rattle.duk_commands.specs.Item.{IsRefusal, ItemCommand};

use crate::batch::kept::Kept;
use crate::lines::Lines;
use std::alloc::Global;

/// What stands in the place of an item that is refused.
#[derive(Drop)]
pub struct Refused {
    /// The line of the fault.
    pub line: Lines,
    /// The line that explains it, or nothing.
    pub explanation: Lines,
}

impl Refused {
    /// The line of a fault, which nothing explains.
    pub fn unexplained(line: Lines) -> Self
        ensures line { result.line.items ≡ line.items }
        ensures explanation { result.explanation.items ≡ [] }
    {
        Refused {
            line,
            explanation: Lines::new(),
        }
    }
}

/// A command of which one argument is an item, and the others are given.
pub trait Items {
    /// The command over an item.
    ghost command: { Self → List ℕ → ItemCommand };

    /// The lines of an item, or the line of the fault for which it is refused. `ahead` are the bytes
    /// behind its line, as far as they have come, and `kept` is what earlier items have left.
    fn lines(
        &self,
        alloc: Global,
        item: &str,
        ahead: &[u8],
        kept: &mut Kept,
    ) -> Result<Lines, Refused>
        ensures lines { IfOk result (λ lines. (command self.now item.now).writes lines.items) }
        ensures refused { IfErr result (IsRefusal (command self.now item.now)) };
}
