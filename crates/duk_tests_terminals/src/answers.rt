//! Answers to a terminal that waits for one to its first number.

use crate::loading::{begin, loaded};
use duk_frame::Code;
use duk_store::MemCell;
use duk_term::{Answer, TermFault, Terminal};
use duk_tests_support::frames::{FIRST_REPLY, MALFORMED, SECOND_REPLY};
use std::test::Fail;

/// The reply to the first number with one bit of its MAC turned, and without its last byte.
const CHANGED: &[u8; 24] =
    b"\x00\x16\x01\x02\xFF\xFF\x98\x76\x54\x32\x10\xE0\x00\x0100\x59\x1B\x50\xE0\xCA\x98\xFE\x71";

const CUT: &[u8; 23] =
    b"\x00\x16\x01\x02\xFF\xFF\x98\x76\x54\x32\x10\xE0\x00\x0100\x59\x1B\x50\xE0\xCA\x98\xFE";

/// The refusal of that number for reason 4, and without its last byte.
const REFUSAL: &[u8; 15] = b"\x00\x0D\x01\x03\xFF\xFF\x98\x76\x54\x32\x10\xE0\x00\x01\x04";

const CUT_REFUSAL: &[u8; 14] = b"\x00\x0D\x01\x03\xFF\xFF\x98\x76\x54\x32\x10\xE0\x00\x01";

/// Frames that come one after the other, and what is reported of each. Only the right reply
/// completes the transaction.
static ANSWERS: [(&[u8], Result<Answer, TermFault>); 9] = [
    (CHANGED, Err(TermFault::BadMac)),
    (REFUSAL, Ok(Answer::Refused(4))),
    (MALFORMED, Err(TermFault::NotMine)),
    (SECOND_REPLY, Err(TermFault::NotMine)),
    (CUT, Err(TermFault::Malformed)),
    (CUT_REFUSAL, Err(TermFault::Malformed)),
    (FIRST_REPLY, Ok(Answer::Done(Code::Approved))),
    (FIRST_REPLY, Err(TermFault::NotPending)),
    (REFUSAL, Err(TermFault::NotPending)),
];

/// A terminal that waits for an answer.
fn pending() -> Result<Terminal<MemCell>, TermFault> {
    let mut terminal = loaded(MemCell::new())?;
    begin(&mut terminal)?;
    Ok(terminal)
}

#[test]
fn a_transaction(rt: HostRuntime) -> Result<(), Fail> {
    let mut terminal = pending()?;
    for (frame, reported) in &ANSWERS {
        assert_eq!(rt; terminal.reply(frame), *reported);
    }
    Ok(())
}
