//! How far the records of a file are written.

ghost use Rattle.std.specs.Prelude.{◌≡◌, ◌<◌, ◌+◌, ◌/◌, Some};
ghost use Rattle.std.specs.Io.Iter.{u64_saturate};
ghost use Rattle.dukpt.specs.inner.Meter.{HasReached};

use crate::progress::meter::Meter;
use crate::progress::pace::Pace;
use duk_io::Sink;

/// Records of one length, in bytes, and how many are written, in their order.
#[derive(Drop)]
pub(crate) struct Written<E> {
    length: u64,
    records: Meter<E>,
    ghost some: { 0 < length },
}

impl<E: Sink> Written<E> {
    /// None is written of those that a file of so many bytes has.
    pub(crate) fn new(length: u64, size: u64, errors: E) -> Self
        requires { 0 < length }
        ensures length { result.length ≡ length }
        ensures total { result.records.pace.total ≡ Some (size / length) }
        ensures none { result.records.done ≡ 0 }
    {
        Written {
            length,
            records: Meter::new(Pace::of(size / length), errors),
        }
    }

    /// So many bytes are written at a place, and all before it were.
    pub(crate) fn add(&mut self, at: u64, count: usize)
        ensures length { self.new.length ≡ self.old.length }
        ensures records { HasReached E.known self.old.records self.new.records
            (u64_saturate (at + count) / self.old.length) }
    {
        let end = at.saturating_add(count as u64);
        self.records.reach(end / self.length);
    }
}
