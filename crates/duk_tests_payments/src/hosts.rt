//! A host over a log in memory: requests, one after the other, and the answer to each.

use crate::security_module::security_module;
use duk_host::{Card, Host, TableIssuer};
use duk_pin::Pin;
use duk_store::MemLog;
use duk_tdes::KeyBytes;
use duk_tests_support::frames::{FIRST_REPLY, MALFORMED, REQUEST_OF_500, THIRD_REQUEST};
use duk_tests_support::sample::{PIN, ZONE, key, ksn, pan};
use std::alloc::Global;
use std::test::Fail;

pub type SmallHost = Host<16, MemLog, TableIssuer>;

/// The issuer of the sample card, with a limit of 10,000.
pub fn issuer(alloc: Global) -> Option<TableIssuer> {
    let mut cards = Vec::new(alloc);
    let card = Card {
        pan: pan().ok()?,
        pin: Pin::parse(PIN).ok()?,
        limit: 10_000,
    };
    cards.push(card).ok()?;
    Some(TableIssuer::new(KeyBytes::Double(key(ZONE)), cards))
}

/// A host that was brought up, whose log has room for so many numbers.
pub fn host(alloc: Global, room: usize) -> Option<SmallHost> {
    let hsm = security_module().ok()?;
    if !hsm.has_zone() {
        return None;
    }
    let log = MemLog::new(alloc, room).ok()?;
    let mut host = Host::new(alloc, hsm, issuer(alloc)?, log);
    host.restart().ok()?;
    Some(host)
}

/// The request of 500 without its last byte, with one bit of its MAC turned, with a number of
/// another key set, with a counter of eleven ones, and with an amount of 501 and the MAC of that.
pub const CUT: &[u8; 47] =
    b"\x00\x2E\x01\x01\xFF\xFF\x98\x76\x54\x32\x10\xE0\x00\x01\x0D4012345678909\x00\x00\x01\xF4\x1B\x9C\x18\x45\xEB\x99\x3A\x7A\xB4\x28\x6B\x83\x8A\x2B\x62";

pub const OTHER_MAC: &[u8; 48] =
    b"\x00\x2E\x01\x01\xFF\xFF\x98\x76\x54\x32\x10\xE0\x00\x01\x0D4012345678909\x00\x00\x01\xF4\x1B\x9C\x18\x45\xEB\x99\x3A\x7A\xB4\x28\x6B\x83\x8A\x2B\x62\x19";

pub const OTHER_SET: &[u8; 48] =
    b"\x00\x2E\x01\x01\x00\xFF\x98\x76\x54\x32\x10\xE0\x00\x01\x0D4012345678909\x00\x00\x01\xF4\x1B\x9C\x18\x45\xEB\x99\x3A\x7A\xB4\x28\x6B\x83\x8A\x2B\x62\x18";

pub const ELEVEN_ONES: &[u8; 48] =
    b"\x00\x2E\x01\x01\xFF\xFF\x98\x76\x54\x32\x10\xE0\x07\xFF\x0D4012345678909\x00\x00\x01\xF4\x1B\x9C\x18\x45\xEB\x99\x3A\x7A\xB4\x28\x6B\x83\x8A\x2B\x62\x18";

pub const OF_501: &[u8; 48] =
    b"\x00\x2E\x01\x01\xFF\xFF\x98\x76\x54\x32\x10\xE0\x00\x01\x0D4012345678909\x00\x00\x01\xF5\x1B\x9C\x18\x45\xEB\x99\x3A\x7A\xB2\x4A\xD6\x40\xE3\x50\xAF\xFE";

/// A request of the second number whose block is of no PIN, with its MAC, and the reply with code
/// 30. The MACs were computed with OpenSSL.
pub const NO_PIN: &[u8; 48] =
    b"\x00\x2E\x01\x01\xFF\xFF\x98\x76\x54\x32\x10\xE0\x00\x02\x0D4012345678909\x00\x00\x01\xF4\x1B\x9C\x18\x45\xEB\x99\x3A\x7A\x63\x98\x83\x52\xA7\xF0\x70\xA8";

const REPLY_OF_30: &[u8; 24] =
    b"\x00\x16\x01\x02\xFF\xFF\x98\x76\x54\x32\x10\xE0\x00\x0230\x72\xA7\xCE\xB7\x78\xE8\xB2\x5D";

/// Refusals of these numbers, for the reason in the last byte.
const NO_KEY_SET: &[u8; 15] = b"\x00\x0D\x01\x03\x00\xFF\x98\x76\x54\x32\x10\xE0\x00\x01\x02";

const BAD_COUNTER: &[u8; 15] = b"\x00\x0D\x01\x03\xFF\xFF\x98\x76\x54\x32\x10\xE0\x07\xFF\x03";

const BAD_MAC: &[u8; 15] = b"\x00\x0D\x01\x03\xFF\xFF\x98\x76\x54\x32\x10\xE0\x00\x01\x04";

const FIRST_IS_USED: &[u8; 15] = b"\x00\x0D\x01\x03\xFF\xFF\x98\x76\x54\x32\x10\xE0\x00\x01\x05";

const SECOND_IS_USED: &[u8; 15] = b"\x00\x0D\x01\x03\xFF\xFF\x98\x76\x54\x32\x10\xE0\x00\x02\x05";

const LOG_IS_FULL: &[u8; 15] = b"\x00\x0D\x01\x03\xFF\xFF\x98\x76\x54\x32\x10\xE0\x00\x03\x06";

/// Requests and their answers, of a host with room for two numbers.
static EXCHANGES: [(&[u8], &[u8]); 11] = [
    (CUT, MALFORMED),
    (OTHER_SET, NO_KEY_SET),
    (ELEVEN_ONES, BAD_COUNTER),
    (OTHER_MAC, BAD_MAC),
    (REQUEST_OF_500, FIRST_REPLY),
    (REQUEST_OF_500, FIRST_REPLY),
    (OF_501, FIRST_IS_USED),
    (OTHER_MAC, BAD_MAC),
    (NO_PIN, REPLY_OF_30),
    (THIRD_REQUEST, LOG_IS_FULL),
    (NO_PIN, REPLY_OF_30),
];

/// The same after a restart.
static AFTER_RESTART: [(&[u8], &[u8]); 3] = [
    (REQUEST_OF_500, FIRST_IS_USED),
    (NO_PIN, SECOND_IS_USED),
    (THIRD_REQUEST, LOG_IS_FULL),
];

/// The first of these requests that is answered otherwise.
fn answered_otherwise(host: &mut SmallHost, exchanges: &[(&[u8], &[u8])]) -> Option<usize> {
    for (place, (request, answer)) in exchanges.iter().enumerate() {
        match host.handle(request) {
            Ok(frame) if frame.as_slice() == *answer => {}
            _ => return Some(place),
        }
    }
    None
}

#[test]
fn requests(rt: HostRuntime) -> Result<(), Fail> {
    let mut host = host(rt.alloc(), 2).ok_or("a host")?;
    assert_eq!(rt; answered_otherwise(&mut host, &EXCHANGES), None);
    assert!(rt; host.is_used(ksn(2)));
    assert_eq!(rt; host.restart(), Ok(2));
    assert_eq!(rt; answered_otherwise(&mut host, &AFTER_RESTART), None);
    Ok(())
}
