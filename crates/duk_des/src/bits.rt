//! Bits of bytes, the most significant first.

ghost use Rattle.std.specs.Prelude.{◌≡◌, ◌+◌, ◌++◌, IsTrue, length};
ghost use Rattle.duk_des.specs.Bits.{xor_bits, permute, bits_of, bits_of_bytes, bytes_of_bits, number_of};
ghost use Rattle.duk_des.specs.inner.Bits.{are_places};

/// The eight bits of each byte, one byte after another.
macro_rules! eights {
    ($($byte:ident)*) => {
        [$($byte[0], $byte[1], $byte[2], $byte[3], $byte[4], $byte[5], $byte[6], $byte[7]),*]
    };
}

/// The bits of a block.
pub fn bits_of_bytes(bytes: &[u8; 8]) -> [bool; 64]
    ensures { result ≡ bits_of_bytes bytes.now }
{
    let first = bits_of_byte(bytes[0]);
    let second = bits_of_byte(bytes[1]);
    let third = bits_of_byte(bytes[2]);
    let fourth = bits_of_byte(bytes[3]);
    let fifth = bits_of_byte(bytes[4]);
    let sixth = bits_of_byte(bytes[5]);
    let seventh = bits_of_byte(bytes[6]);
    let eighth = bits_of_byte(bytes[7]);
    eights!(first second third fourth fifth sixth seventh eighth)
}

/// The block that the bits spell.
pub fn bytes_of_bits(bits: &[bool; 64]) -> [u8; 8]
    ensures { result ≡ bytes_of_bits 8 bits.now }
{
    let mut bytes = [0; 8];
    for i in 0..8 {
        bytes[i] = byte_of_bits(&bits[8 * i..8 * i + 8]);
    }
    bytes
}

fn bits_of_byte(byte: u8) -> [bool; 8]
    ensures { result ≡ bits_of 8 byte }
{
    [
        byte / 128 % 2 == 1,
        byte / 64 % 2 == 1,
        byte / 32 % 2 == 1,
        byte / 16 % 2 == 1,
        byte / 8 % 2 == 1,
        byte / 4 % 2 == 1,
        byte / 2 % 2 == 1,
        byte % 2 == 1,
    ]
}

fn byte_of_bits(bits: &[bool]) -> u8
    requires { length bits.now ≡ 8 }
    ensures { result ≡ number_of bits.now }
{
    128 * bits[0] as u8
        + 64 * bits[1] as u8
        + 32 * bits[2] as u8
        + 16 * bits[3] as u8
        + 8 * bits[4] as u8
        + 4 * bits[5] as u8
        + 2 * bits[6] as u8
        + bits[7] as u8
}

/// The bits of two arrays, xored.
pub fn xor<const N: usize>(left: &[bool; N], right: &[bool; N]) -> [bool; N]
    ensures { result ≡ xor_bits left.now right.now }
{
    let mut sum = *left;
    for i in 0..N {
        sum[i] = left[i] ^ right[i];
    }
    sum
}

/// The bits with the numbers of a table, counted from 1, in its order.
pub fn permute<const N: usize, const M: usize>(places: &[u8; M], bits: &[bool; N]) -> [bool; M]
    requires { IsTrue (are_places N places.now) }
    ensures { result ≡ permute places.now bits.now }
{
    let mut chosen = [false; M];
    for i in 0..M {
        chosen[i] = bits[places[i] as usize - 1];
    }
    chosen
}

/// Two halves, one after the other.
pub fn join<const N: usize, const M: usize>(first: &[bool; N], second: &[bool; N]) -> [bool; M]
    requires { M ≡ N + N }
    ensures { result ≡ first.now ++ second.now }
{
    let mut both = [false; M];
    for i in 0..N {
        both[i] = first[i];
        both[N + i] = second[i];
    }
    both
}
