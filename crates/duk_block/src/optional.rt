//! The optional blocks after a header.

ghost use Rattle.std.specs.Prelude.{◌≡◌, ◌<◌, ◌≤◌, ℕ, List, [], MatchOption, length, take, drop};
ghost use Rattle.std.specs.List.{All};
ghost use Rattle.duk_block.specs.Optional.{AreOptionalBlocks, HasOtherId, IsFirstContent, Leaves};
ghost use Rattle.duk_block.specs.inner.Optional.{LeavesOne};

use crate::digits::read_hex;
use crate::header::are_printable;

/// What follows so many optional blocks, where the text begins with them.
pub fn after_optional(count: u8, text: &[u8]) -> Option<&[u8]>
    ensures { MatchOption result ((rest : List ℕ) → Leaves count text.now rest → ⊥)
        (λ rest. Leaves count text.now rest.now) }
{
    let mut rest = text;
    let mut left = count;
    while left > 0 {
        rest = after_one(rest)?;
        left -= 1;
    }
    Some(rest)
}

/// How many optional blocks the text is, where a key block may be written with it.
pub fn count_written(text: &[u8]) -> Option<u8>
    ensures { MatchOption result (¬ AreOptionalBlocks text.now)
        (λ count. AreOptionalBlocks text.now × (count < 100) × Leaves count text.now []) }
{
    if text.len() % 8 == 0 && are_printable(text) {
        count_whole(text)
    } else {
        None
    }
}

/// How many optional blocks the text is, where it is nothing else, and their number has two digits.
fn count_whole(text: &[u8]) -> Option<u8>
    ensures { MatchOption result ((count : ℕ) → count < 100 → Leaves count text.now [] → ⊥)
        (λ count. (count < 100) × Leaves count text.now []) }
{
    let mut rest = text;
    for count in 0..100 {
        if rest.is_empty() {
            return Some(count);
        }
        rest = after_one(rest)?;
    }
    None
}

/// The content of the first of so many optional blocks with this id, where the text begins with
/// them.
pub fn first_content(count: u8, text: &[u8], id: [u8; 2]) -> Option<&[u8]>
    ensures { (rest : List ℕ) (leaves : Leaves count text.now rest)
        → MatchOption result (All (HasOtherId id) leaves.optional_blocks)
        (λ content. IsFirstContent leaves.optional_blocks id content.now) }
{
    let mut rest = text;
    let mut left = count;
    while left > 0 {
        let next = after_one(rest)?;
        let content = content_with(&rest[..rest.len() - next.len()], id);
        if content.is_some() {
            return content;
        }
        rest = next;
        left -= 1;
    }
    None
}

/// The content of an optional block, where it has this id.
fn content_with(block: &[u8], id: [u8; 2]) -> Option<&[u8]>
    requires { 4 ≤ length block.now }
    ensures { MatchOption result (HasOtherId id block.now)
        (λ content. (take 2 block.now ≡ id) × (content.now ≡ drop 4 block.now)) }
{
    if block[..2] == id[..] {
        Some(&block[4..])
    } else {
        None
    }
}

/// What follows one optional block, where the text begins with one.
fn after_one(text: &[u8]) -> Option<&[u8]>
    ensures { MatchOption result ((rest : List ℕ) → LeavesOne text.now rest → ⊥)
        (λ rest. LeavesOne text.now rest.now) }
{
    if text.len() < 4 {
        return None;
    }
    let mut length = [0; 1];
    if !read_hex(&text[2..4], &mut length) {
        return None;
    }
    let length = usize::from(length[0]);
    if length < 4 || length > text.len() {
        return None;
    }
    Some(&text[length..])
}
