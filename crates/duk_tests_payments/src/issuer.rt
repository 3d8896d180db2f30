//! When a host asks its issuer: once for each request that it accepts, after its log; and else
//! never.

ghost use Rattle.duk_frame.specs.declared.code.Code.TheVariants.{Approved};

use crate::hosts::{CUT, ELEVEN_ONES, NO_PIN, OF_501, OTHER_MAC, OTHER_SET};
use crate::security_module::security_module;
use duk_frame::Code;
use duk_host::{Host, HostFault, Issuer};
use duk_pin::Pan;
use duk_store::{MemLog, StoreFault};
use duk_tests_support::frames::{REQUEST_OF_500, THIRD_REQUEST};
use std::alloc::Global;
use std::cell::Cell;

/// An issuer who approves of all, and counts how often it is asked.
#[derive(Drop)]
pub struct Counting<'a> {
    pub asked: &'a Cell<u32>,
}

impl Issuer for Counting<'_> {
    ghost decides = { λ _ _ _ _. Approved };

    fn decide(&self, _pan: &Pan, _amount: u32, _block: [u8; 8]) -> Code {
        self.asked.set(self.asked.get().saturating_add(1));
        Code::Approved
    }
}

type CountedHost<'a> = Host<16, MemLog, Counting<'a>>;

/// A host that was brought up, with room for two numbers, whose issuer counts here.
fn counted_host(alloc: Global, asked: &Cell<u32>) -> Option<CountedHost<'_>> {
    let hsm = security_module().ok()?;
    if !hsm.has_zone() {
        return None;
    }
    let log = MemLog::new(alloc, 2).ok()?;
    let mut host = Host::new(alloc, hsm, Counting { asked }, log);
    host.restart().ok()?;
    Some(host)
}

/// Requests in turn, and how often the issuer was asked after each: of what is refused for reasons
/// 1 to 4, of one that is accepted, of the same once more, of its number with another amount
/// (reason 5), of a block of no PIN (code 30), of that once more, and where the log is full (reason
/// 6).
static ASKED: [(&[u8], u32); 10] = [
    (CUT, 0),
    (OTHER_SET, 0),
    (ELEVEN_ONES, 0),
    (OTHER_MAC, 0),
    (REQUEST_OF_500, 1),
    (REQUEST_OF_500, 1),
    (OF_501, 1),
    (NO_PIN, 1),
    (NO_PIN, 1),
    (THIRD_REQUEST, 1),
];

/// The first of these requests after which the issuer was asked more often or less.
fn asked_otherwise(alloc: Global) -> Option<Option<usize>> {
    let asked = Cell::new(0);
    let mut host = counted_host(alloc, &asked)?;
    for (place, (request, count)) in ASKED.iter().enumerate() {
        host.handle(request).ok()?;
        if asked.get() != *count {
            return Some(Some(place));
        }
    }
    Some(None)
}

#[test]
fn whom_the_issuer_is_asked_for(rt: HostRuntime) {
    assert_eq!(rt; asked_otherwise(rt.alloc()), Some(None));
}

/// What a host answers to a request that it would accept where its log fails, and how often the
/// issuer is asked.
fn of_a_log_that_fails(alloc: Global) -> Option<(bool, u32)> {
    let asked = Cell::new(0);
    let mut host = counted_host(alloc, &asked)?;
    host.arm(0);
    let reported = host.handle(REQUEST_OF_500).err()?;
    Some((
        reported == HostFault::Store(StoreFault::Device),
        asked.get(),
    ))
}

/// The number goes into the log first: where that fails, the issuer is not asked.
#[test]
fn the_issuer_is_asked_after_the_log(rt: HostRuntime) {
    assert_eq!(rt; of_a_log_that_fails(rt.alloc()), Some((true, 0)));
}
