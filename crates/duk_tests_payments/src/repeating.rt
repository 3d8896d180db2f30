//! A host over a log in memory to which requests come again.

use crate::hosts::{SmallHost, host};
use duk_frame::{Frame, payment_request};
use duk_pin::Pin;
use duk_tests_support::frames::{FIRST_REPLY, FIRST_REQUEST, SECOND_REPLY, SECOND_REQUEST};
use duk_tests_support::sample::{BDK, PIN, key, ksn, pan};
use duk_tree::derive;
use std::alloc::Global;
use std::test::Fail;

/// The request of a payment of 1 at the number of this counter.
fn request(counter: u16) -> Option<Frame> {
    let pan = pan().ok()?;
    let pin = Pin::parse(PIN).ok()?;
    let transaction = derive(&key(BDK), ksn(counter));
    Some(payment_request(&transaction, ksn(counter), &pan, &pin, 1))
}

/// The answer to a request.
fn answer_to(host: &mut SmallHost, request: &[u8]) -> Option<Frame> {
    host.handle(request).ok()
}

/// Whether a request is given this reply.
fn is_replied(host: &mut SmallHost, request: &[u8], reply: &[u8]) -> bool {
    match answer_to(host, request) {
        Some(answer) => answer.as_slice() == reply,
        None => false,
    }
}

/// Whether a request is refused as used.
fn is_refused(host: &mut SmallHost, request: &[u8]) -> bool {
    match answer_to(host, request) {
        Some(answer) => answer.get(3) == Some(&3) && answer.get(14) == Some(&5),
        None => false,
    }
}

/// Whether the numbers from this counter to that one are accepted in turn.
fn accepts_all(host: &mut SmallHost, from: u16, to: u16) -> Option<bool> {
    for counter in from..=to {
        let answer = answer_to(host, request(counter)?.as_slice())?;
        if answer.get(3) != Some(&2) {
            return Some(false);
        }
    }
    Some(true)
}

/// Of 65 requests that are accepted, the first is refused then, the second is given its reply, and
/// the first is refused still.
#[test]
fn the_last_64(rt: HostRuntime) -> Result<(), Fail> {
    let mut host = host(rt.alloc(), 65).ok_or("a host")?;
    assert!(rt; is_replied(&mut host, FIRST_REQUEST, FIRST_REPLY));
    assert_eq!(rt; accepts_all(&mut host, 2, 65), Some(true));
    assert!(rt; is_refused(&mut host, FIRST_REQUEST));
    assert!(rt; is_replied(&mut host, SECOND_REQUEST, SECOND_REPLY));
    assert!(rt; is_refused(&mut host, FIRST_REQUEST));
    Ok(())
}
