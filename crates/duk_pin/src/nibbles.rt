//! Nibbles, the halves of bytes.

ghost use Rattle.std.specs.Prelude.{◌≡◌, ◌/◌, ◌%◌, ◌<◌};
ghost use Rattle.duk_pin.specs.Nibbles.{nibbles, xor_nibbles};
ghost use Rattle.duk_pin.specs.inner.Nibbles.{IsField};

/// The two nibbles of each byte.
pub fn split(block: &[u8; 8]) -> [u8; 16]
    ensures nibbles { result ≡ nibbles block.now }
    ensures field { IsField result }
{
    let mut nibbles = [0; 16];
    for i in 0..8 {
        nibbles[2 * i] = block[i] / 16;
        nibbles[2 * i + 1] = block[i] % 16;
    }
    nibbles
}

/// The byte with these two nibbles.
pub fn join(left: u8, right: u8) -> u8
    requires left { left < 16 }
    requires right { right < 16 }
    ensures left { result / 16 ≡ left }
    ensures right { result % 16 ≡ right }
{
    (left << 4) | right
}

/// The exclusive or of two fields, nibble by nibble.
#[tactic(auto, using(std::proofs::lemmas::Grind::common_steps, crate::proofs::XorOfNibbles::xor_more))]
pub fn xor(left: &[u8; 16], right: &[u8; 16]) -> [u8; 16]
    ensures { result ≡ xor_nibbles left.now right.now }
{
    let mut nibbles = [0; 16];
    for i in 0..16 {
        nibbles[i] = left[i] ^ right[i];
    }
    nibbles
}
