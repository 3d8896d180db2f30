//! A configuration, a log, and frames of the sample sequence of ANSI X9.24-1. The MACs were computed
//! with an independent implementation.

use duk_store::{MemLog, StoreFault, UsedLog};
use duk_tree::Ksn;
use std::alloc::Global;

/// Three terminals, a log for a hundred numbers, one base derivation key and one card.
pub const BANK: &str = "lmk = 'DD7515F2BFC17F85CE48F3CA25CB21F6'
loading = '4CF15134A2850DD58A3D10BA80570D38'
zone = '3F419E1CB7079442AA37474C2EFBF8B8'
terminals = 3
log = 100
[[bdk]]
prefix = 'FFFF987654'
key = '0123456789ABCDEFFEDCBA9876543210'
[[card]]
pan = '4012345678909'
pin = '1234'
limit = 10000
";

/// Requests of the first and the second number, and their replies.
pub const FIRST: &[u8; 48] =
    b"\x00\x2E\x01\x01\xFF\xFF\x98\x76\x54\x32\x10\xE0\x00\x01\x0D4012345678909\x00\x00\x00\x01\x1B\x9C\x18\x45\xEB\x99\x3A\x7A\xA0\x56\x19\x89\x6B\x68\x3F\x13";

pub const SECOND: &[u8; 48] =
    b"\x00\x2E\x01\x01\xFF\xFF\x98\x76\x54\x32\x10\xE0\x00\x02\x0D4012345678909\x00\x00\x00\x01\x10\xA0\x1C\x8D\x02\xC6\x91\x07\x3E\xB1\xB1\x12\x3F\x0A\xBE\x82";

pub const FIRST_REPLY: &[u8; 24] =
    b"\x00\x16\x01\x02\xFF\xFF\x98\x76\x54\x32\x10\xE0\x00\x0100\x59\x1B\x50\xE0\xCA\x98\xFE\x70";

pub const SECOND_REPLY: &[u8; 24] =
    b"\x00\x16\x01\x02\xFF\xFF\x98\x76\x54\x32\x10\xE0\x00\x0200\xEC\x70\xAA\x0A\x71\xE6\xC9\xDE";

/// The sample number of this counter.
pub fn number(counter: u16) -> Ksn {
    let [high, low] = counter.to_be_bytes();
    Ksn::from_bytes([0xFF, 0xFF, 0x98, 0x76, 0x54, 0x32, 0x10, 0xE0, high, low])
}

/// A log that was brought up and keeps the numbers from this counter on, below that one.
pub fn log_of(alloc: Global, from: u16, to: u16) -> Result<MemLog, StoreFault> {
    let mut log = MemLog::new(alloc, 100)?;
    log.restart()?;
    for counter in from..to {
        if log.room() > 0 {
            log.append(number(counter))?;
        }
    }
    Ok(log)
}

/// A script of every event, and its lines.
pub const SCRIPT: &str = "load t1 FFFF9876543210E00000
begin t1 4012345678909 1234 1
begin t1 4012345678909 1234 10001
up 2
up 1
up 1
down 2 t1
down 1 t1
restart host
up 1
arm host 0
restart host
restart t1
begin t1 4012345678909 4321 1
up 3
";

pub const LINES: &str = "t1 loaded FFFF9876543210E00000
t1 sent 1 FFFF9876543210E00001
t1 sent 2 FFFF9876543210E00002
answer 1 accepted FFFF9876543210E00002 51
answer 2 accepted FFFF9876543210E00001 00
answer 3 repeated FFFF9876543210E00001 00
t1 fault NotMine
t1 done FFFF9876543210E00002 51
host used 2
answer 4 refused FFFF9876543210E00001 5
host armed 0
host used 2
t1 next FFFF9876543210E00003
t1 sent 3 FFFF9876543210E00003
answer 5 accepted FFFF9876543210E00003 55
";
