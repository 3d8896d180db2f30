//! The permuted choices of the key schedule as tables of words (NIST SP 800-67 appendix A).

ghost use Rattle.std.specs.Prelude.{◌≡◌, ◌++◌};
ghost use Rattle.duk_des.specs.Bits.{permute, bits_of_bytes};
ghost use Rattle.duk_des.specs.inner.Words.{half_bits, long_bits, halves_places, groups_places};

/// The words of 64 bits that hold each of seven bits at its place, counted from 1, by the number
/// that the seven bits spell. A bit with no place, `_`, is in none.
macro_rules! spread {
    (@from $($word:expr),*;) => { [$($word),*] };
    (@from $($word:expr),*; _ $($rest:tt)*) => { spread!(@from $($word, $word),*; $($rest)*) };
    (@from $($word:expr),*; $place:literal $($rest:tt)*) => {
        spread!(@from $($word, $word ^ 1 << (64 - $place)),*; $($rest)*)
    };
    ($($place:tt)*) => { spread!(@from 0; $($place)*) };
}

/// Permuted choice 1, a table for the upper seven bits of each byte of a key: C is at the places 5
/// to 32, and D at the places 37 to 64.
const BYTE1: [u64; 128] = spread!(12 20 28 64 60 52 44);

const BYTE2: [u64; 128] = spread!(11 19 27 63 59 51 43);

const BYTE3: [u64; 128] = spread!(10 18 26 62 58 50 42);

const BYTE4: [u64; 128] = spread!(9 17 25 61 57 49 41);

const BYTE5: [u64; 128] = spread!(8 16 24 32 56 48 40);

const BYTE6: [u64; 128] = spread!(7 15 23 31 55 47 39);

const BYTE7: [u64; 128] = spread!(6 14 22 30 54 46 38);

const BYTE8: [u64; 128] = spread!(5 13 21 29 53 45 37);

/// Permuted choice 2, a table for each seven bits of C and then of D: the words of a round key,
/// `odd` followed by `even`.
const SEVEN1: [u64; 128] = spread!(7 48 35 14 8 38 44);

const SEVEN2: [u64; 128] = spread!(16 _ 40 5 13 47 3);

const SEVEN3: [u64; 128] = spread!(37 43 4 _ 12 46 39);

const SEVEN4: [u64; 128] = spread!(_ 11 6 _ 15 45 36);

const SEVEN5: [u64; 128] = spread!(63 51 21 64 55 31 _);

const SEVEN6: [u64; 128] = spread!(62 22 _ 29 52 19 60);

const SEVEN7: [u64; 128] = spread!(_ 27 54 59 23 56 28);

const SEVEN8: [u64; 128] = spread!(61 53 20 32 _ 24 30);

/// C and D of a key, each in the lower 28 bits of a half of the word.
#[inline(always)]
pub fn halves_of_key(key: &[u8; 8]) -> u64
    ensures { long_bits result ≡ permute halves_places (bits_of_bytes key.now) }
{
    BYTE1[(key[0] >> 1 & 127) as usize]
        ^ BYTE2[(key[1] >> 1 & 127) as usize]
        ^ BYTE3[(key[2] >> 1 & 127) as usize]
        ^ BYTE4[(key[3] >> 1 & 127) as usize]
        ^ BYTE5[(key[4] >> 1 & 127) as usize]
        ^ BYTE6[(key[5] >> 1 & 127) as usize]
        ^ BYTE7[(key[6] >> 1 & 127) as usize]
        ^ BYTE8[(key[7] >> 1 & 127) as usize]
}

/// The two words of the round key of C and D.
#[inline(always)]
pub fn words_of_halves(c: u32, d: u32) -> u64
    ensures { long_bits result ≡ permute groups_places (half_bits c ++ half_bits d) }
{
    SEVEN1[(c >> 21 & 127) as usize]
        ^ SEVEN2[(c >> 14 & 127) as usize]
        ^ SEVEN3[(c >> 7 & 127) as usize]
        ^ SEVEN4[(c & 127) as usize]
        ^ SEVEN5[(d >> 21 & 127) as usize]
        ^ SEVEN6[(d >> 14 & 127) as usize]
        ^ SEVEN7[(d >> 7 & 127) as usize]
        ^ SEVEN8[(d & 127) as usize]
}
