//! A cell of one's own, over any other.

ghost use Rattle.std.specs.Prelude.{◌≡◌, ◌+◌, ◌-◌, ◌^◌, IfErr, IfOk, OnErr, OnOk, min};
ghost use Rattle.duk_store.specs.Cell.{IsPut, PutFailed};
ghost use Rattle.duk_store.specs.Restart.{RestartFailed, Restarted};
ghost use Rattle.duk_store.specs.StoreState.{StaysButCalm};
ghost use Rattle.duk_embedding.specs.Counted.{counted_meaning};

use duk_store::{Body, Cell, StoreFault};
use std::marker::Model;

/// A cell that counts the bodies that it keeps, for a medium that stands so many writes.
#[derive(Drop)]
pub struct CountedCell<C: Cell> {
    cell: C,
    puts: u64,
}

impl<C: Cell> Model for CountedCell<C> {
    ghost use Rattle.duk_embedding.specs.Counted.{CountedCellOf};

    ghost Value = { CountedCellOf C };

    ghost view = { λ counted. record { cell = counted.cell; puts = counted.puts } };
}

impl<C: Cell> CountedCell<C> {
    /// This cell, with nothing counted.
    pub fn new(cell: C) -> Self
        ensures { result ≡ record { cell = cell; puts = 0 } }
    {
        CountedCell { cell, puts: 0 }
    }

    /// How many bodies were kept since `new`, 2^64 - 1 at most.
    pub fn puts(&self) -> u64
        ensures { result ≡ self.now.puts }
    {
        self.puts
    }
}

impl<C: Cell> Cell for CountedCell<C> {
    // It means what the cell below it means. So all that is proved of a terminal over a cell is
    // proved of one over this.
    ghost meaning = { counted_meaning C.meaning };

    fn restart(&mut self) -> Result<Option<Body>, StoreFault>
        ensures found { IfOk result (Restarted ((counted_meaning C.meaning).state_of self.old)
            ((counted_meaning C.meaning).state_of self.new)) }
        ensures failed { IfErr result
            (RestartFailed ((counted_meaning C.meaning).state_of self.old)
            ((counted_meaning C.meaning).state_of self.new)) }
        ensures disarmed { (counted_meaning C.meaning).disarmed self.new }
        ensures puts { self.new.puts ≡ self.old.puts }
    {
        self.cell.restart()
    }

    fn put(&mut self, body: &Body) -> Result<(), StoreFault>
        ensures kept { IfOk result
            (λ _. IsPut (counted_meaning C.meaning) self.old self.new body.now) }
        ensures after_put { IfOk result
            (λ _. (counted_meaning C.meaning).after_put self.new body.now) }
        ensures failed { IfErr result
            (PutFailed (counted_meaning C.meaning) self.old self.new body.now) }
        ensures counted { OnOk result (self.new.puts ≡ min (self.old.puts + 1) (2 ^ 64 - 1)) }
        ensures not_counted { OnErr result (self.new.puts ≡ self.old.puts) }
    {
        self.cell.put(body)?;
        self.puts = self.puts.saturating_add(1);
        Ok(())
    }

    fn arm(&mut self, steps: u32)
        ensures stays { StaysButCalm ((counted_meaning C.meaning).state_of self.old)
            ((counted_meaning C.meaning).state_of self.new) }
        ensures armed { (counted_meaning C.meaning).arms self.old steps self.new }
        ensures puts { self.new.puts ≡ self.old.puts }
    {
        self.cell.arm(steps);
    }
}
