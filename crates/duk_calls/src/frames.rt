//! What all frames have in common.

ghost use Rattle.std.specs.Prelude.{◌≡◌, ◌≤◌, length};
ghost use Rattle.duk_calls.specs.Answer.{buffer, filled};
ghost use Rattle.duk_calls.specs.Frames.{FrameLengthAnswers};

use crate::arguments::fill;
use crate::fault::Fault;
use byteorder::{BigEndian, ByteOrder};
use duk_frame::Frame;

/// The bytes of a frame's length.
const LENGTH: usize = 2;

/// The most bytes that the contents of a frame may have.
const LONGEST_CONTENTS: u16 = 62;

/// The bytes that a frame has room for.
pub(crate) const FRAME_ROOM: usize = 64;

/// Writes how many bytes the frame has with which these begin, its two length bytes counted.
///
/// Refused with, in this order: `PartOfFrame`, where fewer than two bytes are there; `TooLong`,
/// where they say a length above 62.
pub fn frame_length(bytes: &[u8], count: &mut u32) -> Result<(), Fault>
    ensures { FrameLengthAnswers bytes.now count.old count.new result }
{
    if bytes.len() < LENGTH {
        return Err(Fault::PartOfFrame);
    }
    let contents = BigEndian::read_u16(bytes);
    if contents > LONGEST_CONTENTS {
        return Err(Fault::TooLong);
    }
    *count = 2 + u32::from(contents);
    Ok(())
}

/// Writes a frame in the front of a slice with room for any, and the number of its bytes.
pub(crate) fn fill_frame(frame: &Frame, bytes: &mut [u8], count: &mut u32)
    requires { FRAME_ROOM ≤ length bytes.old }
    ensures { buffer bytes.new count.new ≡ filled frame.now.items (buffer bytes.old count.old) }
{
    fill(frame.as_slice(), bytes, count);
}
