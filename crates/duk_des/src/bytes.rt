//! Arrays of bytes, as keys and blocks are made of them.

ghost use Rattle.std.specs.Prelude.{◌≡◌};
ghost use Rattle.duk_des.specs.Bytes.{xor_bytes};

/// Each byte xored with the mask's byte at its place.
pub fn xor_bytes<const N: usize>(bytes: &[u8; N], mask: &[u8; N]) -> [u8; N]
    ensures { result ≡ xor_bytes bytes.now mask.now }
{
    let mut sum = *bytes;
    for (i, byte) in mask.iter().enumerate() {
        sum[i] ^= *byte;
    }
    sum
}
