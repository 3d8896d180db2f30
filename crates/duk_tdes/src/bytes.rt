//! Arrays of bytes, as keys and blocks are made of them.
//!
//! Slices become arrays by `array_of` and not by `TryFrom`: it asks for the length, and its
//! contract says that each element is a byte. The answer of `try_into` has to be unwrapped, with a
//! proof at each place.

ghost use Rattle.std.specs.Prelude.{◌≡◌, length};
ghost use Rattle.duk_tdes.specs.Key.{IsKey};

/// The array of these bytes.
pub fn array_of<const N: usize>(bytes: &[u8]) -> [u8; N]
    requires { length bytes.now ≡ N }
    ensures bytes { result ≡ bytes.now }
    ensures key { IsKey N result }
{
    let mut array = [0; N];
    array.copy_from_slice(bytes);
    array
}
