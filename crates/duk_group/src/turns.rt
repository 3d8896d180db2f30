//! What each lane does in a turn that not all lanes take part in.
//!
//! Which lanes go on is no secret: it follows from counters and from the lengths of messages.

ghost use Rattle.std.specs.Prelude.{◌≡◌, ◌<◌, ℕ};
ghost use Rattle.duk_des.specs.Block.{IsBlock};
ghost use Rattle.duk_lanes.specs.Words.{wide_lane};
ghost use Rattle.duk_group.specs.Blocks.{block_of};
ghost use Rattle.duk_group.specs.inner.Turns.{turn_at};
ghost use Rattle.duk_group.specs.declared.transposed.TheConstants.{WIDTH};

use crate::transposed::{WIDTH, Word, gather_blocks};
use duk_lanes::word_of_flags;

/// What a lane does.
#[derive(Clone, Copy)]
pub(crate) struct Turn {
    /// Whether it goes on.
    pub(crate) goes: bool,
    /// The block that it goes on with.
    pub(crate) block: [u8; 8],
}

/// A lane that does not go on.
pub(crate) const PAUSE: Turn = Turn {
    goes: false,
    block: [0; 8],
};

/// A word with a one bit in each lane that goes on.
pub(crate) fn going(turns: &[Turn; WIDTH]) -> Word
    ensures { (i : ℕ) → i < WIDTH → wide_lane result i ≡ (turn_at turns.now i).goes }
{
    let mut flags = [false; WIDTH];
    for i in 0..WIDTH {
        flags[i] = turns[i].goes;
    }
    word_of_flags(&flags)
}

/// The block of each lane.
pub(crate) fn blocks_of_turns(turns: &[Turn; WIDTH]) -> [Word; 64]
    ensures { (i : ℕ) → i < WIDTH → IsBlock (turn_at turns.now i).block
        → block_of wide_lane i result ≡ (turn_at turns.now i).block }
{
    let mut blocks = [[0; 8]; WIDTH];
    for i in 0..WIDTH {
        blocks[i] = turns[i].block;
    }
    gather_blocks(&blocks)
}
