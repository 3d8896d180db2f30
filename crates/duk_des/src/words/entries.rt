//! The boxes and the permutation P as tables of words (NIST SP 800-67 appendix A).

ghost use Rattle.std.specs.Prelude.{◌≡◌, ◌-◌, ◌≤◌, ◌<◌, take, drop};
ghost use Rattle.duk_des.specs.Bits.{bits_of};
ghost use Rattle.duk_des.specs.Words.{word_bits, selected};

/// The words of the selection functions, 64 for each, by its six bits as a number from 0 to 63: the
/// four bits of its entry, each at the place, counted from 1, that P gives it. The first and the
/// last of the six bits distinguish the rows, so the words of the first two rows alternate, and
/// then those of the other two.
macro_rules! words {
    ($(at $places:tt:
        ($($a:literal)*) ($($b:literal)*) ($($c:literal)*) ($($d:literal)*);)*) => {
        [$(
            $(words!(@one $a $places), words!(@one $b $places),)*
            $(words!(@one $c $places), words!(@one $d $places),)*
        )*]
    };
    (@one $four:literal ($first:literal $second:literal $third:literal $fourth:literal)) => {
        ($four / 8 % 2) << (32 - $first)
            ^ ($four / 4 % 2) << (32 - $second)
            ^ ($four / 2 % 2) << (32 - $third)
            ^ ($four % 2) << (32 - $fourth)
    };
}

/// The words of S1 to S8, one box after another. They stand in one table, so that one address
/// serves all look-ups of a round.
const WORDS: [u32; 512] = words!(
    at (9 17 23 31):
        (14 4 13 1 2 15 11 8 3 10 6 12 5 9 0 7)
        (0 15 7 4 14 2 13 1 10 6 12 11 9 5 3 8)
        (4 1 14 8 13 6 2 11 15 12 9 7 3 10 5 0)
        (15 12 8 2 4 9 1 7 5 11 3 14 10 0 6 13);
    at (13 28 2 18):
        (15 1 8 14 6 11 3 4 9 7 2 13 12 0 5 10)
        (3 13 4 7 15 2 8 14 12 0 1 10 6 9 11 5)
        (0 14 7 11 10 4 13 1 5 8 12 6 9 3 2 15)
        (13 8 10 1 3 15 4 2 11 6 7 12 0 5 14 9);
    at (24 16 30 6):
        (10 0 9 14 6 3 15 5 1 13 12 7 11 4 2 8)
        (13 7 0 9 3 4 6 10 2 8 5 14 12 11 15 1)
        (13 6 4 9 8 15 3 0 11 1 2 12 5 10 14 7)
        (1 10 13 0 6 9 8 7 4 15 14 3 11 5 2 12);
    at (26 20 10 1):
        (7 13 14 3 0 6 9 10 1 2 8 5 11 12 4 15)
        (13 8 11 5 6 15 0 3 4 7 2 12 1 10 14 9)
        (10 6 9 0 12 11 7 13 15 1 3 14 5 2 8 4)
        (3 15 0 6 10 1 13 8 9 4 5 11 12 7 2 14);
    at (8 14 25 3):
        (2 12 4 1 7 10 11 6 8 5 3 15 13 0 14 9)
        (14 11 2 12 4 7 13 1 5 0 15 10 3 9 8 6)
        (4 2 1 11 10 13 7 8 15 9 12 5 6 3 0 14)
        (11 8 12 7 1 14 2 13 6 15 0 9 10 4 5 3);
    at (4 29 11 19):
        (12 1 10 15 9 2 6 8 0 13 3 4 14 7 5 11)
        (10 15 4 2 7 12 9 5 6 1 13 14 0 11 3 8)
        (9 14 15 5 2 8 12 3 7 0 4 10 1 13 11 6)
        (4 3 2 12 9 5 15 10 11 14 1 7 6 0 8 13);
    at (32 12 22 7):
        (4 11 2 14 15 0 8 13 3 12 9 7 5 10 6 1)
        (13 0 11 7 4 9 1 10 14 3 5 12 2 15 8 6)
        (1 4 11 13 12 3 7 14 10 15 6 8 0 5 9 2)
        (6 11 13 8 1 4 10 7 9 5 0 15 14 2 3 12);
    at (5 27 15 21):
        (13 2 8 4 6 15 11 1 10 9 3 14 5 0 12 7)
        (1 15 13 8 10 3 7 4 12 5 6 11 0 14 9 2)
        (7 11 4 1 9 12 14 2 0 6 10 13 15 3 5 8)
        (2 1 14 7 4 10 8 13 15 12 9 0 3 5 6 11);
);

/// P of the 32 bits that hold what box `i`, of S1 to S8, gives of the six bits of `x` at its four
/// places and zeros elsewhere.
#[inline(always)]
pub fn entry(i: u8, x: u8) -> u32
    requires from_one { 1 ≤ i }
    requires to_eight { i ≤ 8 }
    requires six_bits { x < 64 }
    ensures { word_bits result ≡ selected i (bits_of 6 x) }
{
    let x = x as usize;
    match i {
        1 => WORDS[x],
        2 => WORDS[64 + x],
        3 => WORDS[128 + x],
        4 => WORDS[192 + x],
        5 => WORDS[256 + x],
        6 => WORDS[320 + x],
        7 => WORDS[384 + x],
        _ => WORDS[448 + x],
    }
}

/// The six bits of a word that stand before the lowest `after` bits.
#[inline(always)]
pub(super) fn group_of(word: u32, after: u32) -> u8
    requires { after ≤ 26 }
    ensures six_bits { result < 64 }
    ensures bits { bits_of 6 result ≡ take 6 (drop (26 - after) (word_bits word)) }
{
    ((word >> after) & 63) as u8
}
