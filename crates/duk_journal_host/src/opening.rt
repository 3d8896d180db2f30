//! The numbers of frames, which are opened together before the frames are judged.

ghost use Rattle.std.specs.Prelude.{◌≤◌, length, map, take};
ghost use Rattle.duk_hsm.specs.Group.{numbers_of};
ghost use Rattle.duk_journal_host.specs.inner.Judged.{AreNumbersOf, IsNumberOf, OpensFrames};

use duk_frame::{Frame, mac_text, read_request};
use duk_group::WIDTH;
use duk_hsm::{Asked, Hsm, OpenedGroup};
use duk_reversal::{Reversal, read_reversal};
use duk_tree::Ksn;

/// Opens the numbers of frames together, and has the module make what these are going to ask of it.
pub(crate) fn open_frames<const N: usize>(hsm: &Hsm<N>, frames: &[Frame]) -> OpenedGroup
    requires few { length frames.now ≤ WIDTH }
    ensures opened { OpensFrames hsm.now (map (λ frame. frame.items) frames.now) result }
{
    hsm.open_group(&asked_by_all(frames)[..frames.len()])
}

/// What frames ask of the module, in their order, and nothing at the places that are left.
fn asked_by_all(frames: &[Frame]) -> [Asked; WIDTH]
    requires few { length frames.now ≤ WIDTH }
    ensures numbers { AreNumbersOf (map (λ frame. frame.items) frames.now)
        (numbers_of (take (length frames.now) result)) }
{
    let mut asked = [nothing(); WIDTH];
    for (place, frame) in frames.iter().enumerate() {
        asked[place] = asked_by(frame.as_slice());
    }
    asked
}

/// What a frame asks of the module: a reversal its MAC, and a request its MAC and its PIN block.
fn asked_by(frame: &[u8]) -> Asked
    ensures number { IsNumberOf frame.now result.ksn }
{
    if let Some(reversal) = read_reversal(frame) {
        let text = Reversal::text(reversal.numbers);
        return Asked::reversal(reversal.numbers.ksn(), text.as_slice());
    }
    duk_frame::laws::mac_texts();
    duk_frame::laws::one_reading();
    match read_request(frame) {
        Some(request) => {
            Asked::request(request.ksn, mac_text(frame), request.block, &request.pan)
        }
        None => nothing(),
    }
}

/// A number of zeros, of which nothing is asked.
fn nothing() -> Asked {
    Asked::reversal(Ksn::from_bytes([0; 10]), &[])
}
