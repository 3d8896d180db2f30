//! The trait `Cell`: where a terminal keeps its image.

ghost use Rattle.std.specs.Prelude.{IfOk, IfErr};
ghost use Rattle.duk_store.specs.StoreState.{StaysButCalm};
ghost use Rattle.duk_store.specs.Cell.{CellMeaning, IsPut, PutFailed};
ghost use Rattle.duk_store.specs.Restart.{Restarted, RestartFailed};

use crate::fault::StoreFault;

/// The bytes of a body.
pub const BODY_LENGTH: usize = 503;

/// What a cell keeps: the image of a terminal, with zero bytes after it.
pub type Body = [u8; BODY_LENGTH];

/// A place for one body, which outlives a stop. It is made stopped, and `restart` brings it up.
pub trait Cell: Drop {
    /// What the cell means: its state, whether it is worn or disarmed, how `arm` leaves it, and
    /// what it promises of itself after `put`.
    ghost meaning: { CellMeaning Self };

    /// Brings the cell up and reports what it keeps, a body or nothing yet. It disarms first.
    ///
    /// Refused with `Device` where a device step failed, and with `Damaged` where the medium holds
    /// what no cell of this kind leaves. The cell is stopped then.
    fn restart(&mut self) -> Result<Option<Body>, StoreFault>
        ensures found { IfOk result
            (Restarted (meaning.state_of self.old) (meaning.state_of self.new)) }
        ensures failed { IfErr result
            (RestartFailed (meaning.state_of self.old) (meaning.state_of self.new)) }
        ensures disarmed { meaning.disarmed self.new };

    /// Keeps a body in place of what was kept.
    ///
    /// Refused with `Stopped` where the cell is stopped, with `Worn` where it can take no further
    /// body, and both leave it as it was; and with `Device` where a device step failed, which stops
    /// the cell.
    fn put(&mut self, body: &Body) -> Result<(), StoreFault>
        ensures kept { IfOk result (λ _. IsPut meaning self.old self.new body.now) }
        ensures after_put { IfOk result (λ _. meaning.after_put self.new body.now) }
        ensures failed { IfErr result (PutFailed meaning self.old self.new body.now) };

    /// Lets the next `steps` device steps pass and each later one fail, until a restart.
    fn arm(&mut self, steps: u32)
        ensures stays { StaysButCalm (meaning.state_of self.old) (meaning.state_of self.new) }
        ensures armed { meaning.arms self.old steps self.new };
}
