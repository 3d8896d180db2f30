//! The initial and the final permutation, by exchanges of bits of the two halves of a block.

ghost use Rattle.std.specs.Prelude.{◌≡◌, ◌<◌, ◌++◌, take, drop};
ghost use Rattle.duk_des.specs.Bits.{permute, bits_of_bytes, bytes_of_bits};
ghost use Rattle.duk_des.specs.Tables.{initial_places, final_places};
ghost use Rattle.duk_des.specs.Words.{word_bits};
ghost use Rattle.duk_des.specs.inner.Words.{first_exchanged, second_exchanged};

/// One exchange after another, each of bits of two words.
macro_rules! exchange {
    ($($first:ident $second:ident by $count:literal under $mask:literal),*) => {
        $(let ($first, $second) = exchange_bits($first, $second, $count, $mask);)*
    };
}

/// The halves of the initial permutation of a block.
#[inline(always)]
pub fn initial_permutation(block: &[u8; 8]) -> (u32, u32)
    ensures left { word_bits result.0 ≡ take 32 (permute initial_places (bits_of_bytes block.now)) }
    ensures right { word_bits result.1
        ≡ drop 32 (permute initial_places (bits_of_bytes block.now)) }
{
    let (left, right) = halves_of(block);
    exchange!(
        left right by 4 under 0x0f0f0f0f,
        left right by 16 under 0x0000ffff,
        right left by 2 under 0x33333333,
        right left by 8 under 0x00ff00ff,
        left right by 1 under 0x55555555
    );
    (left, right)
}

/// The block that the final permutation makes of one half followed by the other.
#[inline(always)]
pub fn final_permutation(first: u32, second: u32) -> [u8; 8]
    ensures { result
        ≡ bytes_of_bits 8 (permute final_places (word_bits first ++ word_bits second)) }
{
    exchange!(
        first second by 1 under 0x55555555,
        second first by 8 under 0x00ff00ff,
        second first by 2 under 0x33333333,
        first second by 16 under 0x0000ffff,
        first second by 4 under 0x0f0f0f0f
    );
    block_of(first, second)
}

/// Two words once each bit of the second under the mask is exchanged with the bit of the first that
/// stands `count` places before it.
#[inline(always)]
fn exchange_bits(first: u32, second: u32, count: u32, mask: u32) -> (u32, u32)
    requires { count < 32 }
    ensures first { word_bits result.0
        ≡ first_exchanged count (word_bits mask) (word_bits first) (word_bits second) }
    ensures second { word_bits result.1
        ≡ second_exchanged count (word_bits mask) (word_bits first) (word_bits second) }
{
    let differing = ((first >> count) ^ second) & mask;
    (first ^ (differing << count), second ^ differing)
}

/// The two words of a block.
#[inline(always)]
fn halves_of(block: &[u8; 8]) -> (u32, u32)
    ensures { word_bits result.0 ++ word_bits result.1 ≡ bits_of_bytes block.now }
{
    let word = u64::from_be_bytes(*block);
    ((word >> 32) as u32, (word & 0xffff_ffff) as u32)
}

/// The block of two words.
#[inline(always)]
fn block_of(first: u32, second: u32) -> [u8; 8]
    ensures { result ≡ bytes_of_bits 8 (word_bits first ++ word_bits second) }
{
    ((first as u64) << 32 | second as u64).to_be_bytes()
}
