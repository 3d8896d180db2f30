//! Tills: a purchase whose reply is lost is undone; where a cell fails at a device step of a call, a
//! restart tells what was before the call or what is after it; where the terminal's cell lost its
//! last put, the purchase stays open.

use crate::loading::purchase;
use duk_reversal::ReversalState;
use duk_store::{Cell, MemCell, MemDisk, SlotCell, StoreFault};
use duk_term::{Next, ReversalAnswer, TermFault};
use duk_tests_support::frames::{FIRST_REPLY, FIRST_REVERSAL, REQUEST_OF_500};
use duk_tests_support::sample::{INITIAL_BLOCK, LOADING, iksn, key, ksn};
use duk_till::{Last, Till, TillFault, TillState};
use duk_tree::Ksn;
use std::alloc::Global;
use std::test::Fail;

/// The reply to the reversal of the first number: its payment is undone.
const REVERSAL_REPLY: &[u8; 33] =
    b"\x00\x1F\x01\x05\xFF\xFF\x98\x76\x54\x32\x10\xE0\x00\x02\xFF\xFF\x98\x76\x54\x32\x10\xE0\x00\x01\x01\x2D\xEB\xE2\x73\x52\xA6\x9B\x94";

const DEVICE: TillFault = TillFault::Store(StoreFault::Device);

const NOTHING: TillState = TillState::Running(None);

/// The first number's purchase of 500: open, approved, and undone.
fn open() -> TillState {
    TillState::Running(Some(Last::Open {
        ksn: ksn(1),
        amount: 500,
    }))
}

fn approved() -> TillState {
    TillState::Running(Some(Last::Approved {
        ksn: ksn(1),
        amount: 500,
    }))
}

fn undone() -> TillState {
    TillState::Running(Some(Last::Undone { ksn: ksn(1) }))
}

/// A till over this book that was loaded.
fn loaded_till<J: Cell>(book: J) -> Result<Till<MemCell, J>, TillFault> {
    let mut till = Till::new(MemCell::new(), book);
    till.restart()?;
    till.load(&key(LOADING), INITIAL_BLOCK, iksn())?;
    Ok(till)
}

/// The number of a purchase of 500 that begins.
fn begin<J: Cell>(till: &mut Till<MemCell, J>) -> Result<Ksn, TillFault> {
    match purchase() {
        Some(purchase) => Ok(till.begin(&purchase)?.ksn),
        None => Err(TillFault::Terminal(TermFault::Malformed)),
    }
}

/// Whether the first purchase of 500 begins with its request.
fn sends_request(till: &mut Till<MemCell, MemCell>) -> bool {
    match purchase() {
        Some(purchase) => match till.begin(&purchase) {
            Ok(begun) => begun.frame.as_slice() == REQUEST_OF_500.as_slice(),
            Err(_) => false,
        },
        None => false,
    }
}

/// A till that is made anew over the same cells.
fn made_anew(till: Till<MemCell, MemCell>) -> Till<MemCell, MemCell> {
    let (cell, book) = till.into_cells();
    Till::new(cell, book)
}

/// Whether a restart finds the purchase open, to which no reply is taken and beside which none
/// begins.
fn waits_for_reversal(till: &mut Till<MemCell, MemCell>) -> bool {
    till.restart() == Ok(open())
        && till.reply(FIRST_REPLY) == Err(TillFault::Terminal(TermFault::NotPending))
        && begin(till) == Err(TillFault::Open)
}

/// Whether its reversal goes out, and the host's reply to that closes it.
fn is_reversed(till: &mut Till<MemCell, MemCell>) -> bool {
    match till.reverse() {
        Ok(begun) => {
            begun.frame.as_slice() == FIRST_REVERSAL.as_slice()
                && till.reversal_reply(REVERSAL_REPLY)
                    == Ok(ReversalAnswer::Done(ReversalState::Undone))
        }
        Err(_) => false,
    }
}

#[test]
fn a_lost_reply(rt: HostRuntime) -> Result<(), Fail> {
    let mut till = loaded_till(MemCell::new())?;
    assert!(rt; sends_request(&mut till));
    let mut again = made_anew(till);
    assert!(rt; waits_for_reversal(&mut again));
    assert!(rt; is_reversed(&mut again));
    assert!(rt; again.state() == undone());
    assert!(rt; begin(&mut again) == Ok(ksn(3)));
    Ok(())
}

/// A till with an open purchase, whose terminal's cell lost the put of its begin.
fn till_with_lost_put() -> Result<Till<MemCell, MemCell>, TillFault> {
    let mut till = loaded_till(MemCell::new())?;
    begin(&mut till)?;
    let (_kept, book) = till.into_cells();
    let (cell, _empty) = loaded_till(MemCell::new())?.into_cells();
    Ok(Till::new(cell, book))
}

/// Whether a restart finds the purchase open, though its number comes next, and refuses its reversal
/// and another purchase.
fn stays_open(till: &mut Till<MemCell, MemCell>) -> bool {
    till.restart() == Ok(open())
        && till.next() == Next::At(ksn(1))
        && matches!(
            &till.reverse(),
            Err(TillFault::Terminal(TermFault::NotMine))
        )
        && begin(till) == Err(TillFault::Open)
}

#[test]
fn a_cell_that_lost_its_last_put(rt: HostRuntime) -> Result<(), Fail> {
    let mut till = till_with_lost_put()?;
    assert!(rt; stays_open(&mut till));
    Ok(())
}

/// A call in which the book fails.
#[derive(Clone, Copy, PartialEq, Eq)]
enum Call {
    Begin,
    Reply,
    ReversalReply,
}

impl Call {
    /// What the book keeps before the call, and after it.
    fn before(self) -> TillState {
        match self {
            Call::Begin => NOTHING,
            Call::Reply | Call::ReversalReply => open(),
        }
    }

    fn after(self) -> TillState {
        match self {
            Call::Begin => open(),
            Call::Reply => approved(),
            Call::ReversalReply => undone(),
        }
    }

    /// A till with its book on a disk, before the call.
    fn till(self, alloc: Global) -> Result<Till<MemCell, SlotCell<MemDisk>>, Fail> {
        let mut till = loaded_till(SlotCell::new(MemDisk::new(alloc, 1024)?))?;
        if self != Call::Begin {
            begin(&mut till)?;
        }
        if self == Call::ReversalReply {
            till.reverse()?;
        }
        Ok(till)
    }

    /// Makes the call.
    fn make(self, till: &mut Till<MemCell, SlotCell<MemDisk>>) -> Result<(), TillFault> {
        match self {
            Call::Begin => {
                begin(till)?;
            }
            Call::Reply => {
                till.reply(FIRST_REPLY)?;
            }
            Call::ReversalReply => {
                till.reversal_reply(REVERSAL_REPLY)?;
            }
        }
        Ok(())
    }

    /// Whether the book may fail after so many device steps of the call: the call is done where all
    /// eight pass, and from the fourth on a till that is made anew over the disk tells what is
    /// after it, and else what was before it.
    fn may_fail(self, alloc: Global, steps: u32) -> Result<bool, Fail> {
        let mut till = self.till(alloc)?;
        till.arm_book(steps);
        let done = self.make(&mut till);
        let wanted = if steps < 8 { Err(DEVICE) } else { Ok(()) };
        let kept = if steps < 4 {
            self.before()
        } else {
            self.after()
        };
        Ok(done == wanted && told_anew(till)? == kept)
    }
}

/// What a till that is made anew over the same terminal's cell and the book's disk tells.
fn told_anew(till: Till<MemCell, SlotCell<MemDisk>>) -> Result<TillState, TillFault> {
    let (cell, book) = till.into_cells();
    Till::new(cell, SlotCell::new(book.into_disk())).restart()
}

#[test]
fn a_book_that_fails(rt: HostRuntime) -> Result<(), Fail> {
    for steps in 0..9 {
        assert!(rt; Call::Begin.may_fail(rt.alloc(), steps)?);
        assert!(rt; Call::Reply.may_fail(rt.alloc(), steps)?);
        assert!(rt; Call::ReversalReply.may_fail(rt.alloc(), steps)?);
    }
    Ok(())
}

/// What a begin comes to whose terminal's cell fails after so many steps, what a restart tells then,
/// and which number comes next.
fn with_failing_terminal(
    steps: u32,
) -> Result<(Result<Ksn, TillFault>, TillState, Next), TillFault> {
    let mut till = loaded_till(MemCell::new())?;
    till.arm_terminal(steps);
    let begun = begin(&mut till);
    let told = till.restart()?;
    Ok((begun, told, till.next()))
}

/// A begin whose image the terminal does not keep leaves the book as it was. Its number is lost
/// where it failed in the second step.
#[test]
fn a_terminal_that_fails(rt: HostRuntime) -> Result<(), Fail> {
    let failed = Err(TillFault::Terminal(TermFault::Store(StoreFault::Device)));
    assert!(rt; with_failing_terminal(0)? == (failed, NOTHING, Next::At(ksn(1))));
    assert!(rt; with_failing_terminal(1)? == (failed, NOTHING, Next::At(ksn(2))));
    assert!(rt; with_failing_terminal(2)? == (Ok(ksn(1)), open(), Next::At(ksn(2))));
    Ok(())
}
