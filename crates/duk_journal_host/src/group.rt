//! A group of frames, as it is answered.

ghost use Rattle.std.specs.Prelude.{◌≡◌, ◌<◌, ◌≤◌, ◌++◌, ◌∷◌, [], IfOk, length, map};
ghost use Rattle.std.specs.Option.{option_to_list};
ghost use Rattle.duk_journal_host.specs.Group.{most_frames};

use duk_frame::Frame;
use duk_journal::Entry;
use std::alloc::{AllocError, Global};
use std::marker::Model;

/// The most frames of a group.
pub const MOST_FRAMES: usize = 1024;

/// The answers to a group of frames, in the order of these, and the entries that the group adds.
/// Only `new` takes memory: room for the answers to as many frames as a group may have.
#[derive(Drop)]
pub struct Group {
    answers: Vec<Frame>,
    entries: Vec<Entry>,
}

impl Model for Group {
    ghost use Rattle.std.specs.Prelude.{map};
    ghost use Rattle.duk_journal_host.specs.Group.{GroupOf};
    ghost use Rattle.duk_journal_host.specs.inner.Group.{HasRoom};

    ghost Value = { GroupOf };

    ghost view = { λ group. record {
      answers = map (λ answer. answer.items) group.answers.items;
      entries = group.entries.items;
    } };

    ghost invariant = { λ group. HasRoom group.answers group.entries };
}

impl Group {
    /// An empty group.
    pub fn new(alloc: Global) -> Result<Self, AllocError>
        ensures answers { IfOk result (λ group. group.answers ≡ []) }
        ensures entries { IfOk result (λ group. group.entries ≡ []) }
    {
        let answers = Vec::with_capacity(alloc, MOST_FRAMES)?;
        let entries = Vec::with_capacity(alloc, MOST_FRAMES)?;
        Ok(Group { answers, entries })
    }

    /// The answers, at most as many as a group may have frames.
    pub fn answers(&self) -> &[Frame]
        ensures answers { map (λ answer. answer.items) result.now ≡ self.now.answers }
        ensures few { length result.now ≤ most_frames }
    {
        &self.answers
    }

    /// The entries.
    pub(crate) fn entries(&self) -> &[Entry]
        ensures { result.now ≡ self.now.entries }
    {
        &self.entries
    }

    /// Empties the group.
    pub(crate) fn clear(&mut self)
        ensures answers { self.new.answers ≡ [] }
        ensures entries { self.new.entries ≡ [] }
    {
        self.answers.clear();
        self.entries.clear();
    }

    /// Adds the answer to the next frame.
    pub(crate) fn push_answer(&mut self, answer: Frame)
        requires { length self.old.answers < most_frames }
        ensures answers { self.new.answers ≡ self.old.answers ++ answer.items ∷ [] }
        ensures entries { self.new.entries ≡ self.old.entries }
    {
        self.answers.push_reserved(answer);
    }

    /// Adds the entry of the next frame, if it makes one.
    pub(crate) fn push_entry(&mut self, entry: Option<Entry>)
        requires { length self.old.entries < most_frames }
        ensures answers { self.new.answers ≡ self.old.answers }
        ensures entries { self.new.entries ≡ self.old.entries ++ option_to_list entry }
    {
        if let Some(entry) = entry {
            self.entries.push_reserved(entry);
        }
    }
}
