//! A command over the lines of an input.

ghost use Rattle.std.specs.Prelude.{◌≡◌, IfErr, OnOk};
ghost use Rattle.duk_commands.specs.Batch.{IsBatchDone, IsBatchNotDone, input_of};
ghost use Rattle.duk_commands.specs.inner.Batch.{IsEnd, end_of};

use crate::batch::fault::BatchFault;
use crate::batch::items::Items;
use crate::batch::under_way::Batch;
use duk_io::{Sink, Source, WriteFailed};
use std::alloc::Global;

/// How many bytes are read at a time, at most.
const PIECE: usize = 65_536;

/// How the lines of an input were answered.
#[derive(Clone, Copy)]
enum End {
    /// All were; and whether the command was done for each.
    Answered(bool),
    /// The input could not be read to its end.
    Unread,
    /// The answers could not be written.
    Unwritten,
}

/// Answers each line of the input, in turn, with the lines of its item, or with the line of the
/// fault for which the item is refused.
///
/// Lines end with LF or CR LF, which the last may lack. One that has more than 16,384 bytes, or is
/// not UTF-8, is answered with `line refused`. The answers to what a read gave are written before
/// the next read. The faults: `batch: items refused`, where one was; `batch: read failed`, after the
/// lines that had ended were answered; `write failed`, where a write of the answers failed or took
/// no byte.
pub fn do_batch<I: Items, R: Source, W: Sink>(
    alloc: Global,
    items: &I,
    input: &mut R,
    output: &mut W,
) -> Result<(), BatchFault>
    ensures done { OnOk result (IsBatchDone (I.command items.now)
        (input_of (R.known input.old) (R.known input.new) (R.reads input.old) (R.reads input.new))
        (W.known output.old) (W.known output.new)) }
    ensures not_done { IfErr result (λ why. IsBatchNotDone (I.command items.now)
        (input_of (R.known input.old) (R.known input.new) (R.reads input.old) (R.reads input.new))
        why (W.known output.old) (W.known output.new)) }
{
    match answer_all(alloc, items, input, output) {
        End::Answered(true) => Ok(()),
        End::Answered(false) => Err(BatchFault::ItemsRefused),
        End::Unread => Err(BatchFault::ReadFailed),
        End::Unwritten => Err(BatchFault::WriteFailed),
    }
}

/// Answers the lines of the input.
fn answer_all<I: Items, R: Source, W: Sink>(
    alloc: Global,
    items: &I,
    input: &mut R,
    output: &mut W,
) -> End
    ensures { IsEnd (I.command items.now)
        (input_of (R.known input.old) (R.known input.new) (R.reads input.old) (R.reads input.new))
        (W.known output.old) (W.known output.new) result }
{
    duk_io::laws::reads();
    duk_io::laws::writes();
    let mut piece = [0; PIECE];
    let mut batch = Batch::new();
    for _ in 0..u64::MAX {
        let Ok(count) = input.get(&mut piece) else {
            return End::Unread;
        };
        if count == 0 {
            return answered(batch.end(alloc, items, output));
        }
        if batch
            .take_piece(alloc, items, &piece[..count], output)
            .is_err()
        {
            return End::Unwritten;
        }
    }
    End::Unread
}

/// How the lines were answered, when the last is.
fn answered(last: Result<bool, WriteFailed>) -> End
    ensures { result ≡ end_of last }
{
    match last {
        Ok(done) => End::Answered(done),
        Err(_) => End::Unwritten,
    }
}
