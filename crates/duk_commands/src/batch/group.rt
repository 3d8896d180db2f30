//! The keys of many key serial numbers at once, a lane for each (ANSI X9.24-1:2009 annex A).

ghost use Rattle.std.specs.Prelude.{◌≡◌, ◌<◌, ℕ, Some, IfSome, length, take};
ghost use Rattle.duk_commands.specs.inner.Group.{AreKeysOf, AreUsable, HasKeysOf, root_key_of};
ghost use Rattle.duk_des.specs.Block.{IsBlock};
ghost use Rattle.duk_group.specs.Numbers.{bytes_at, number_at};
ghost use Rattle.duk_tree.specs.Derivation.{transaction_key_of};
ghost use Rattle.duk_tree.specs.Path.{IsUsable};
ghost use Rattle.duk_tree.specs.Serial.{iksn_bytes, ksn_of_text};

use crate::batch::item::{read_item, strip_return};
use duk_group::{WIDTH, gather_blocks, initial_keys, scatter_keys, spread_key, transaction_keys};
use duk_tdes::{Key, array_of};
use duk_tree::{Ksn, usable};

/// A group takes as long as some 20 numbers one by one: fewer are not derived together.
const LEAST: usize = 20;

/// The bytes of a key's text.
const TEXT: usize = 32;

/// Key serial numbers, and the keys of each at its place, by a base derivation key, or by the
/// initial key of one terminal.
#[derive(Drop)]
pub(crate) struct Group {
    /// The text of the key.
    pub(crate) text: [u8; TEXT],
    /// Whether it is an initial key.
    pub(crate) is_initial: bool,
    pub(crate) numbers: [Ksn; WIDTH],
    pub(crate) initial: [Key<16>; WIDTH],
    pub(crate) keys: [Key<16>; WIDTH],
}

/// The initial key and the transaction key of a number.
#[derive(Clone, Copy)]
pub(crate) struct Derived {
    pub(crate) initial: Key<16>,
    pub(crate) key: Key<16>,
}

/// The keys of a number by a key's text, where they stand at this place.
pub(crate) fn keys_at(
    group: &Option<Group>,
    place: usize,
    bdk: &str,
    initial: bool,
    number: Ksn,
) -> Option<Derived>
    requires { IfSome group.now AreKeysOf }
    ensures { IfSome result
        (λ derived. HasKeysOf bdk.now initial number derived.initial derived.key) }
{
    let group = group.as_ref()?;
    if place < WIDTH
        && group.numbers[place] == number
        && group.is_initial == initial
        && group.text.as_slice() == bdk.as_bytes()
    {
        Some(Derived {
            initial: group.initial[place],
            key: group.keys[place],
        })
    } else {
        None
    }
}

/// The group of a number and of those in the lines ahead. None: they are too few, or the text is no
/// key.
pub(crate) fn group_of(bdk: &str, initial: bool, first: Ksn, ahead: &[u8]) -> Option<Group>
    requires { IsUsable first.counter }
    ensures { IfSome result AreKeysOf }
{
    if bdk.len() != TEXT {
        return None;
    }
    let key = Key::<16>::parse(bdk)?;
    let numbers = numbers_ahead(first, ahead)?;
    let (first_keys, keys) = keys_of(initial, &key, &numbers);
    Some(Group {
        text: array_of(bdk.as_bytes()),
        is_initial: initial,
        numbers,
        initial: first_keys,
        keys,
    })
}

/// The number of an item, if it has keys.
pub(crate) fn usable_number(item: &str) -> Option<Ksn>
    ensures { IfSome result
        (λ number. (ksn_of_text item.now ≡ Some number) × IsUsable number.counter) }
{
    let number = Ksn::parse(item)?;
    if usable(number.counter()) {
        Some(number)
    } else {
        None
    }
}

/// A number, and behind it those of the next lines that are whole, up to the width of a group. A line
/// that is no usable number is passed over, and the first number stands in the places that are left.
/// None: there are too few.
fn numbers_ahead(first: Ksn, ahead: &[u8]) -> Option<[Ksn; WIDTH]>
    requires { IsUsable first.counter }
    ensures { IfSome result AreUsable }
{
    let mut numbers = [first; WIDTH];
    let mut count = 1;
    let mut rest = ahead;
    while count < WIDTH {
        let Some(end) = end_of_line(rest) else {
            return if_enough(numbers, count);
        };
        let (line, others) = rest.split_at(end);
        if let Some(number) = number_of_line(line) {
            numbers[count] = number;
            count += 1;
        }
        rest = &others[1..];
    }
    Some(numbers)
}

/// The numbers, where so many are enough.
fn if_enough(numbers: [Ksn; WIDTH], count: usize) -> Option<[Ksn; WIDTH]>
    ensures { IfSome result (λ all. all ≡ numbers) }
{
    if count < LEAST { None } else { Some(numbers) }
}

/// Where the first line ends.
fn end_of_line(bytes: &[u8]) -> Option<usize>
    ensures { IfSome result (λ end. end < length bytes.now) }
{
    bytes.iter().position(|byte| *byte == b'\n')
}

/// The number of a line, if it is one that has keys.
fn number_of_line(line: &[u8]) -> Option<Ksn>
    ensures { IfSome result (λ number. IsUsable number.counter) }
{
    usable_number(read_item(strip_return(line))?)
}

/// The initial key and the transaction key of each number, at its place.
fn keys_of(
    initial: bool,
    key: &Key<16>,
    numbers: &[Ksn; WIDTH],
) -> ([Key<16>; WIDTH], [Key<16>; WIDTH])
    ensures initial { (i : ℕ) → i < WIDTH → bytes_at result.0 i
        ≡ root_key_of initial key.now (number_at numbers.now i).iksn }
    ensures keys { (i : ℕ) → i < WIDTH → bytes_at result.1 i
        ≡ transaction_key_of (bytes_at result.0 i) (number_at numbers.now i).iksn
        (number_at numbers.now i).counter }
{
    let every = spread_key(key);
    let roots = if initial {
        every
    } else {
        initial_keys(&every, &gather_blocks(&first_blocks(numbers)))
    };
    let keys = transaction_keys(&roots, numbers);
    (scatter_keys(&roots), scatter_keys(&keys))
}

/// The first eight bytes of each initial key serial number, at its place.
fn first_blocks(numbers: &[Ksn; WIDTH]) -> [[u8; 8]; WIDTH]
    ensures { (i : ℕ) → i < WIDTH
        → (bytes_at result i ≡ take 8 (iksn_bytes (number_at numbers.now i).iksn))
        × IsBlock (bytes_at result i) }
{
    duk_tree::laws::serials();
    let mut blocks = [[0; 8]; WIDTH];
    for (i, number) in numbers.iter().enumerate() {
        blocks[i] = array_of(&number.iksn().bytes()[..8]);
    }
    blocks
}
