//! Terminals that are loaded with the sample initial key, and a payment.

use duk_block::BlockFault;
use duk_frame::{Frame, read_request};
use duk_pin::Pin;
use duk_store::{Cell, MemCell, StoreFault};
use duk_term::{Purchase, TermFault, Terminal};
use duk_tests_support::frames::REQUEST_OF_500;
use duk_tests_support::printed::misprinted;
use duk_tests_support::sample::{INITIAL_BLOCK, LMK, LOADING, PIN, PUBLISHED, iksn, key, pan};
use duk_tree::Ksn;
use std::test::Fail;

/// A terminal over this cell that was loaded.
pub fn loaded<C: Cell>(cell: C) -> Result<Terminal<C>, TermFault> {
    let mut terminal = Terminal::new(cell);
    terminal.restart()?;
    terminal.load(&key(LOADING), INITIAL_BLOCK, iksn())?;
    Ok(terminal)
}

/// A payment of 500.
pub fn purchase() -> Option<Purchase> {
    Some(Purchase {
        pan: pan().ok()?,
        pin: Pin::parse(PIN).ok()?,
        amount: 500,
    })
}

/// The request of a payment of 500. A payment that cannot be made is reported as malformed, which
/// no begin reports.
pub fn begin<C: Cell>(terminal: &mut Terminal<C>) -> Result<Frame, TermFault> {
    match purchase() {
        Some(purchase) => terminal.begin(&purchase),
        None => Err(TermFault::Malformed),
    }
}

/// The key serial number in the request of a payment.
pub fn begin_number<C: Cell>(terminal: &mut Terminal<C>) -> Result<Option<Ksn>, TermFault> {
    let request = begin(terminal)?;
    Ok(read_request(request.as_slice()).map(|request| request.ksn))
}

#[test]
fn a_request(rt: HostRuntime) -> Result<(), Fail> {
    let mut terminal = loaded(MemCell::new())?;
    assert!(rt; begin(&mut terminal)?.as_slice() == REQUEST_OF_500.as_slice());
    Ok(())
}

/// What a load of a published key block for PIN encryption comes to.
fn load_published() -> Result<(), TermFault> {
    let mut terminal = Terminal::new(MemCell::new());
    terminal.restart()?;
    terminal.load(&key(LMK), PUBLISHED, iksn())
}

#[test]
fn a_key_for_another_use(rt: HostRuntime) {
    assert_eq!(rt; load_published(), Err(TermFault::WrongUse));
}

static FAULTS: [(TermFault, &str); 12] = [
    (TermFault::NotLoaded, "NotLoaded"),
    (TermFault::Block(BlockFault::Mac), "Block Mac"),
    (TermFault::WrongUse, "WrongUse"),
    (TermFault::Spent, "Spent"),
    (TermFault::Stopped, "Stopped"),
    (TermFault::Store(StoreFault::Device), "Store Device"),
    (TermFault::Malformed, "Malformed"),
    (TermFault::NotPending, "NotPending"),
    (TermFault::NotMine, "NotMine"),
    (TermFault::BadMac, "BadMac"),
    (TermFault::IksnSpent, "IksnSpent"),
    (TermFault::LoadsSpent, "LoadsSpent"),
];

#[test]
fn names_of_faults(rt: HostRuntime) {
    assert_eq!(rt; misprinted(rt.alloc(), &FAULTS), Ok(None));
}
