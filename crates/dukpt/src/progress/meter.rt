//! Counts items, and tells how many are done.

ghost use Rattle.std.specs.Prelude.{◌≡◌, ◌≤◌};
ghost use Rattle.duk_commands.specs.Progress.{AreTried};
ghost use Rattle.dukpt.specs.inner.Progress.{HasItems, progress_line, progress_lines};
ghost use Rattle.dukpt.specs.inner.Meter.{HasAdded, HasReached};

use crate::progress::pace::Pace;
use duk_commands::{Lines, push_end, push_text, tell};
use duk_io::Sink;
use itoa::Buffer;

/// How many items are done, and where that is told.
#[derive(Drop)]
pub(crate) struct Meter<E> {
    pace: Pace,
    done: u64,
    errors: E,
}

impl<E: Sink> Meter<E> {
    /// No item is done.
    pub(crate) fn new(pace: Pace, errors: E) -> Self
        ensures { result ≡ record { pace = pace; done = 0; errors = errors } }
    {
        Meter {
            pace,
            done: 0,
            errors,
        }
    }

    /// So many more items are done.
    pub(crate) fn add(&mut self, count: u64)
        ensures { HasAdded E.known self.old self.new count }
    {
        self.reach(self.done.saturating_add(count));
    }

    /// So many items are done in all, unless more were done before. The lines that come to stand are
    /// written, and what cannot be written of them is lost.
    pub(crate) fn reach(&mut self, done: u64)
        ensures { HasReached E.known self.old self.new done }
    {
        let (before, done) = (self.done, self.pace.within(done));
        if before < done {
            tell_items(self.pace, before, done, &mut self.errors);
            self.done = done;
        }
    }
}

/// Tells that so many items are done, where so many were done before, by each line that comes to stand.
fn tell_items<E: Sink>(pace: Pace, before: u64, done: u64, errors: &mut E)
    requires order { before ≤ done }
    requires has { HasItems pace.total done }
    ensures { AreTried (E.known errors.old) (E.known errors.new)
        (progress_lines pace.total before done) }
{
    let mut told = before;
    while let Some(item) = pace.next(told, done) {
        tell(errors, line_of(pace.total(), item).as_slice());
        told = item;
    }
}

/// The line after an item.
fn line_of(total: Option<u64>, item: u64) -> Lines
    ensures { result.items ≡ progress_line total item }
{
    let mut digits = Buffer::new();
    let mut line = Lines::new();
    push_text(&mut line, b"progress ");
    push_text(&mut line, digits.format(item).as_bytes());
    if let Some(total) = total {
        push_text(&mut line, b" of ");
        push_text(&mut line, digits.format(total).as_bytes());
    }
    push_end(&mut line);
    line
}
