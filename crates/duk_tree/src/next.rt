//! The order in which a terminal uses its numbers.

ghost use Rattle.std.specs.Prelude.{◌≡◌, ◌<◌, ◌≤◌, ◌^◌, ◌↔◌, IsNone, IfSome};
ghost use Rattle.duk_tree.specs.Path.{last_place, path_of};
ghost use Rattle.duk_tree.specs.Next.{IsNextUsable, IsLast};

/// The greatest usable counter: the ten highest bits of 21.
const LAST_USABLE: u32 = 0x1F_F800;

/// The most one bits of a usable counter. A node of the key tree with so many has no usable child.
pub const MOST_ONES: u32 = 10;

/// The number that a terminal uses after this counter: the least usable one above it, or none from
/// 1FF800 on (ANSI X9.24-1:2009 annex A). A counter of ten one bits has no usable number before the
/// next multiple of its lowest one bit, since each number in between keeps the ten and has a
/// further one.
pub fn next_usable(counter: u32) -> Option<u32>
    ensures found { IfSome result (IsNextUsable counter) }
    ensures none { IsNone result ↔ IsLast counter }
    ensures spent { IsNone result ↔ (0x1F_F800 ≤ counter) }
{
    if counter >= LAST_USABLE {
        return None;
    }
    if counter.count_ones() < MOST_ONES {
        return Some(counter + 1);
    }
    let mut next = counter + shift_bit(counter);
    while next.count_ones() > MOST_ONES {
        next += shift_bit(next);
    }
    Some(next)
}

/// The lowest one bit of a counter.
fn shift_bit(counter: u32) -> u32
    requires some { 0 < counter }
    requires fits { counter < 2 ^ 21 }
    ensures value { result ≡ 2 ^ last_place (path_of counter) }
    ensures fits { result < 2 ^ 21 }
{
    1 << counter.trailing_zeros()
}
