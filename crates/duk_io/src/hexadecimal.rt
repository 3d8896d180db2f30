//! Bytes in hexadecimal.
//!
//! The crate `hex` reads hexadecimal, in either case. It writes upper case only into memory that it
//! takes, or into a slice of a fixed length, so it is written by a table here.

ghost use Rattle.std.specs.Prelude.{◌≡◌, ◌+◌, ◌*◌, ◌≤◌, ◌++◌, length};
ghost use Rattle.hex.specs.Hex.{encode_upper};

use arrayvec::ArrayVec;

const UPPER_CASE: [u8; 16] = *b"0123456789ABCDEF";

/// Appends bytes in hexadecimal: two digits for each, the higher four bits first, in upper case.
pub fn append_hex<const CAP: usize>(text: &mut ArrayVec<u8, CAP>, bytes: &[u8])
    requires { length text.old.items + 2 * length bytes.now ≤ CAP }
    ensures digits { text.new.items ≡ text.old.items ++ encode_upper bytes.now }
    ensures len { length text.new.items ≡ length text.old.items + 2 * length bytes.now }
{
    for byte in bytes {
        text.push(UPPER_CASE[usize::from(*byte / 16)]);
        text.push(UPPER_CASE[usize::from(*byte % 16)]);
    }
}
