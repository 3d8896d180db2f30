//! Where the station or frame of a number stands in its list: numbers count from 1, places from 0.

ghost use Rattle.std.specs.Prelude.{◌≡◌, ◌+◌, ◌<◌, ◌⊎◌, ◌++◌, ◌∷◌, [], MatchOption};
ghost use Rattle.std.specs.Vec.{vec_capacity, vec_len};

/// The place of the thing with this number, where a list of `length` things has one.
pub fn place_of(number: u32, length: usize) -> Option<usize>
    ensures { MatchOption result ((number ≡ 0) ⊎ (length < number))
        (λ place. (number ≡ place + 1) × (place < length)) }
{
    let place = number.checked_sub(1)? as usize;
    if place < length { Some(place) } else { None }
}

/// Puts a thing at the end of a list that has room for it.
pub fn push_within<T: Drop>(things: &mut Vec<T>, thing: T)
    requires { vec_len things.old < vec_capacity things.old }
    ensures { things.new.items ≡ things.old.items ++ thing ∷ [] }
{
    things.push(thing).unwrap();
}
