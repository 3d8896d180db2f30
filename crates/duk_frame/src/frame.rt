//! What all frames have in common.

ghost use Rattle.std.specs.Prelude.{◌≡◌, ◌↔◌, ◌≤◌, ◌+◌, ◌++◌, [], ◌∷◌, IsTrue, length};
ghost use Rattle.arrayvec.specs.ArrayVec.{array_vec_len};
ghost use Rattle.byteorder.specs.Endian.{big_bytes};
ghost use Rattle.duk_frame.specs.Frame.{mac_text_of};
ghost use Rattle.duk_frame.specs.inner.Frame.{HasKind};

use arrayvec::ArrayVec;
use byteorder::{BigEndian, ByteOrder};

/// The bytes that a frame has room for. The longest, a request with a PAN of 19 digits, has 54.
const FRAME_ROOM: usize = 64;

/// A whole frame with its length.
pub type Frame = ArrayVec<u8, FRAME_ROOM>;

/// The bytes of a frame's head: the length of its contents, and the contents's version and kind.
const HEAD: usize = 4;

/// The first byte of every contents.
const VERSION: u8 = 1;

/// The bytes that the MAC of a frame is made over: those between its length, the first 2, and its
/// MAC, the last 8.
pub fn mac_text(frame: &[u8]) -> &[u8]
    requires { 10 ≤ length frame.now }
    ensures { result.now ≡ mac_text_of frame.now }
{
    &frame[2..frame.len() - 8]
}

/// Whether the bytes are a frame, and no longer than any may be, whose contents has version 1 and
/// this kind.
pub(crate) fn has_kind(bytes: &[u8], kind: u8) -> bool
    ensures { IsTrue result ↔ HasKind bytes.now kind }
{
    (HEAD..=FRAME_ROOM).contains(&bytes.len())
        && bytes[..HEAD] == head(bytes.len() as u16 - 2, kind)[..]
}

/// A frame as far as its contents's version and kind, where the contents is to have this length.
pub(crate) fn begin_frame(length: u16, kind: u8) -> Frame
    ensures bytes { result.items ≡ big_bytes 2 length ++ 1 ∷ kind ∷ [] }
    ensures len { array_vec_len result ≡ 4 }
{
    let mut frame = Frame::new();
    append(&mut frame, &head(length, kind));
    frame
}

/// The head of a frame: the length of its contents, and the contents's version and kind.
fn head(length: u16, kind: u8) -> [u8; HEAD]
    ensures { result ≡ big_bytes 2 length ++ 1 ∷ kind ∷ [] }
{
    let mut head = [0, 0, VERSION, kind];
    BigEndian::write_u16(&mut head, length);
    head
}

/// Appends bytes to a frame that has room for them.
pub(crate) fn append(frame: &mut Frame, bytes: &[u8])
    requires { array_vec_len frame.old + length bytes.now ≤ FRAME_ROOM }
    ensures bytes { frame.new.items ≡ frame.old.items ++ bytes.now }
    ensures len { array_vec_len frame.new ≡ array_vec_len frame.old + length bytes.now }
{
    frame.try_extend_from_slice(bytes).unwrap();
}
