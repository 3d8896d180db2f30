//! Terminals over a cell that kept a body before.

use crate::loading::begin_number;
use duk_store::{BODY_LENGTH, Body, Cell, MemCell, StoreFault};
use duk_term::{Next, TermFault, Terminal};
use duk_tests_support::images::{FIRST_IN_VERSION_1, SECOND};
use duk_tests_support::sample::{INITIAL_BLOCK, LOADING, iksn, key, ksn};
use duk_tree::{Iksn, Ksn};
use std::test::Fail;

/// A terminal over a cell that kept this body, which was brought up.
fn open(body: &Body) -> Result<Terminal<MemCell>, TermFault> {
    let mut cell = MemCell::new();
    if cell.restart().is_err() || cell.put(body).is_err() {
        return Err(TermFault::Malformed);
    }
    let mut terminal = Terminal::new(cell);
    terminal.restart()?;
    Ok(terminal)
}

/// Sets a byte of a body.
fn set(body: &mut Body, place: usize, value: u8) {
    if let Some(byte) = body.get_mut(place) {
        *byte = value;
    }
}

/// The body of a spent terminal.
fn spent_body() -> Body {
    let mut body = [0; BODY_LENGTH];
    body[0] = 2;
    body[11] = 0x20;
    body
}

/// Whether a terminal over that body with three of its bytes changed is spent.
fn is_spent(changes: [(usize, u8); 3]) -> Result<bool, TermFault> {
    let mut body = spent_body();
    for (place, value) in changes {
        set(&mut body, place, value);
    }
    Ok(open(&body)?.next() == Next::Spent)
}

/// No change, and a history of two.
static SPENT: [[(usize, u8); 3]; 2] = [
    [(0, 2), (11, 0x20), (350, 0)],
    [(350, 2), (351, 7), (361, 8)],
];

/// A register that can hold no key; nine past numbers; one twice; the present one among them; one
/// with a bit of its counter; a byte in a place that is not used; and bytes after the image.
static DAMAGED: [[(usize, u8); 3]; 8] = [
    [(0, 2), (11, 0x20), (62, 1)],
    [(350, 9), (351, 7), (361, 8)],
    [(350, 2), (351, 7), (361, 7)],
    [(350, 2), (351, 7), (361, 0)],
    [(350, 1), (351, 7), (360, 1)],
    [(350, 1), (351, 7), (361, 8)],
    [(350, 1), (351, 7), (431, 1)],
    [(0, 2), (11, 0x20), (502, 1)],
];

#[test]
fn changed_bodies(rt: HostRuntime) {
    for changes in SPENT {
        assert_eq!(rt; is_spent(changes), Ok(true));
    }
    let damaged = Err(TermFault::Store(StoreFault::Damaged));
    for changes in DAMAGED {
        assert_eq!(rt; is_spent(changes), damaged);
    }
}

/// What comes to a spent terminal: a begin, and loads under its own initial key serial number and
/// under another one. Then its next number.
fn of_spent_terminal(own: Iksn) -> Result<([TermFault; 2], Next), TermFault> {
    let mut terminal = open(&spent_body())?;
    let begun = begin_number(&mut terminal).err();
    let again = terminal.load(&key(LOADING), INITIAL_BLOCK, own).err();
    terminal.load(&key(LOADING), INITIAL_BLOCK, iksn())?;
    match (begun, again) {
        (Some(begun), Some(again)) => Ok(([begun, again], terminal.next())),
        _ => Err(TermFault::Malformed),
    }
}

#[test]
fn a_spent_terminal(rt: HostRuntime) {
    let own = Ksn::from_bytes([0; 10]).iksn();
    assert_eq!(rt;
        of_spent_terminal(own),
        Ok(([TermFault::Spent, TermFault::IksnSpent], Next::At(ksn(1))))
    );
}

/// The body of the loaded sample terminal in version 1.
fn first_body() -> Body {
    let mut body = [0; BODY_LENGTH];
    body[..350].copy_from_slice(FIRST_IN_VERSION_1);
    body
}

/// The body before its second number in version 2.
fn second_body() -> Body {
    let mut body = [0; BODY_LENGTH];
    body[..431].copy_from_slice(SECOND);
    body
}

/// The number of a begin over the first body, and whether the cell then keeps the second.
fn of_version_1() -> Result<(Option<Ksn>, bool), TermFault> {
    let mut terminal = open(&first_body())?;
    let begun = begin_number(&mut terminal)?;
    let kept = terminal.into_cell().restart();
    Ok((begun, kept == Ok(Some(second_body()))))
}

#[test]
fn version_1(rt: HostRuntime) {
    assert_eq!(rt; of_version_1(), Ok((Some(ksn(1)), true)));
}
