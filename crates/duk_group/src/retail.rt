//! The retail MACs of many messages at once (ANSI X9.19), each under a key of its own.

ghost use Rattle.std.specs.Prelude.{◌≡◌, ◌<◌, ◌≤◌, ◌-◌, ◌*◌, ◌^◌, ◌++◌, ℕ, length, replicate};
ghost use Rattle.duk_lanes.specs.Words.{wide_lane};
ghost use Rattle.duk_mac.specs.Retail.{retail_of};
ghost use Rattle.duk_group.specs.Blocks.{block_of, key_of};
ghost use Rattle.duk_group.specs.Numbers.{message_at};
ghost use Rattle.duk_group.specs.inner.Messages.{IsNextBlock};
ghost use Rattle.duk_group.specs.inner.Turns.{turn_at};
ghost use Rattle.duk_group.specs.declared.transposed.TheConstants.{WIDTH};

use crate::cipher::{des_decrypt, des_encrypt};
use crate::key::LaneKeys;
use crate::masks::{chosen, xor};
use crate::transposed::{WIDTH, Word};
use crate::turns::{PAUSE, Turn, blocks_of_turns, going};
use duk_lanes::spread_wide;

/// The retail MACs of at most `WIDTH` messages, each under the key of its lane.
pub fn retail_macs(keys: &LaneKeys<Word>, messages: &[&[u8]]) -> [Word; 64]
    requires { length messages.now ≤ WIDTH }
    ensures { (i : ℕ) → i < length messages.now → block_of wide_lane i result
        ≡ retail_of (key_of wide_lane i keys.now.left keys.now.right) (message_at messages.now i) }
{
    let mut chain = spread_wide([0; 8]);
    for count in 0..most_blocks(messages) {
        let turns = next_blocks(messages, count);
        let next = des_encrypt(&keys.left, &xor(&chain, &blocks_of_turns(&turns)));
        chain = chosen(going(&turns), &next, &chain);
    }
    des_encrypt(&keys.left, &des_decrypt(&keys.right, &chain))
}

/// How many blocks the longest message has.
fn most_blocks(messages: &[&[u8]]) -> usize
    ensures all { (i : ℕ) → i < length messages.now
        → length (message_at messages.now i) ≤ 8 * result }
    ensures fits { 8 * (result - 1) < 2 ^ 64 }
{
    let mut most = 0;
    for message in messages {
        most = block_count(message).max(most);
    }
    most
}

/// How many blocks a message has, the last of which may be a part of one.
fn block_count(message: &[u8]) -> usize
    ensures all { length message.now ≤ 8 * result }
    ensures fits { 8 * (result - 1) < 2 ^ 64 }
{
    let whole = message.len() / 8;
    if message.len() % 8 == 0 {
        whole
    } else {
        whole + 1
    }
}

/// The next block of each message after so many.
fn next_blocks(messages: &[&[u8]], count: usize) -> [Turn; WIDTH]
    requires few { length messages.now ≤ WIDTH }
    requires fits { 8 * count < 2 ^ 64 }
    ensures { (i : ℕ) → i < length messages.now
        → IsNextBlock (message_at messages.now i) count (turn_at result i) }
{
    let mut turns = [PAUSE; WIDTH];
    for (i, message) in messages.iter().enumerate() {
        turns[i] = next_block(message, count);
    }
    turns
}

/// The next block of one message after so many.
fn next_block(message: &[u8], count: usize) -> Turn
    requires { 8 * count < 2 ^ 64 }
    ensures { IsNextBlock message.now count result }
{
    let done = 8 * count;
    if done < message.len() {
        let rest = &message[done..];
        Turn {
            goes: true,
            block: filled(&rest[..rest.len().min(8)]),
        }
    } else {
        PAUSE
    }
}

/// The block with zero bytes after what is there.
fn filled(part: &[u8]) -> [u8; 8]
    requires { length part.now ≤ 8 }
    ensures { result ≡ part.now ++ replicate (8 - length part.now) 0 }
{
    let mut block = [0; 8];
    block[..part.len()].copy_from_slice(part);
    block
}
