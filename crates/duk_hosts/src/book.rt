//! A book in memory, plain and slow: what it settles is what the laws of many hosts demand, so each other
//! book can be compared with it.

ghost use Rattle.std.specs.Prelude.{◌≡◌, ◌++◌, [], IfOk, OnErr, OnOk, flat_map, length, take};
ghost use Rattle.duk_journal_host.specs.Steps.{added_by};
ghost use Rattle.duk_hosts.specs.Book.{AreSettledInTurn, NoBound};

use crate::settle::settle_one;
use duk_journal::Entry;
use duk_journal_host::{Candidate, Settled};
use std::alloc::{AllocError, Global};
use std::marker::Model;

/// A book without bound. For each candidate it looks at all that it keeps.
#[derive(Drop)]
pub struct MemBook {
    /// The oldest first.
    entries: Vec<Entry>,
}

impl Model for MemBook {
    ghost use Rattle.duk_journal.specs.Groups.{Entries};

    ghost Value = { Entries };

    ghost view = { λ book. book.entries.items };
}

impl MemBook {
    /// A book that keeps nothing.
    pub fn new(alloc: Global) -> MemBook
        ensures { result ≡ [] }
    {
        MemBook {
            entries: Vec::new(alloc),
        }
    }

    /// Settles a group in turn: each candidate by what is kept with those before it. Where memory is
    /// refused, nothing of the group is kept.
    pub fn settle(&mut self, alloc: Global, group: &[Candidate]) -> Result<Vec<Settled>, AllocError>
        ensures settled { IfOk result (λ done.
            AreSettledInTurn NoBound self.old group.now done.items) }
        ensures kept { IfOk result (λ done. self.new ≡ self.old ++ flat_map added_by done.items) }
        ensures refused { OnErr result (self.new ≡ self.old) }
    {
        settle_all(alloc, &mut self.entries, group)
    }
}

/// Settles a group, all of it or nothing.
fn settle_all(
    alloc: Global,
    entries: &mut Vec<Entry>,
    group: &[Candidate],
) -> Result<Vec<Settled>, AllocError>
    ensures settled { IfOk result (λ done.
        AreSettledInTurn NoBound entries.old.items group.now done.items) }
    ensures kept { IfOk result (λ done.
        entries.new.items ≡ entries.old.items ++ flat_map added_by done.items) }
    ensures refused { OnErr result (entries.new.items ≡ entries.old.items) }
{
    let kept = entries.len();
    let settled = settle_in_turn(alloc, entries, group);
    if settled.is_err() {
        entries.truncate(kept);
    }
    settled
}

/// Settles a group in turn. Where memory is refused, what was kept stands before some of the group.
fn settle_in_turn(
    alloc: Global,
    entries: &mut Vec<Entry>,
    group: &[Candidate],
) -> Result<Vec<Settled>, AllocError>
    ensures settled { IfOk result (λ done.
        AreSettledInTurn NoBound entries.old.items group.now done.items) }
    ensures kept { IfOk result (λ done.
        entries.new.items ≡ entries.old.items ++ flat_map added_by done.items) }
    ensures refused { OnErr result
        (take (length entries.old.items) entries.new.items ≡ entries.old.items) }
{
    let mut settled = Vec::new(alloc);
    for candidate in group {
        let done = settle_one(entries.as_slice(), candidate);
        keep(entries, &done)?;
        settled.push(done)?;
    }
    Ok(settled)
}

/// Keeps the entry of what was settled, if it has one.
fn keep(entries: &mut Vec<Entry>, done: &Settled) -> Result<(), AllocError>
    ensures kept { OnOk result (entries.new.items ≡ entries.old.items ++ added_by done.now) }
    ensures refused { OnErr result (entries.new.items ≡ entries.old.items) }
{
    if let Some(entry) = done.entry() {
        entries.push(entry)?;
    }
    Ok(())
}
