//! Requests of payments, and a host that handles them over a log in memory.

use crate::random::Random;
use anyhow::{Result, bail};
use duk_config::read_config;
use duk_frame::payment_request;
use duk_host::{Host, TableIssuer};
use duk_pin::{Pan, Pin};
use duk_store::{MemLog, UsedLog};
use duk_tdes::{Key, KeyBytes};
use duk_tree::derive;
use std::alloc::Global;
use std::io::Write;

/// The configuration of the host: one base derivation key, and one card.
const BANK: &[u8] = b"
lmk = 'DD7515F2BFC17F85CE48F3CA25CB21F6'
loading = '4CF15134A2850DD58A3D10BA80570D38'
zone = '3F419E1CB7079442AA37474C2EFBF8B8'
terminals = 1
log = 1
[[bdk]]
prefix = 'FFFF987654'
key = '0123456789ABCDEFFEDCBA9876543210'
[[card]]
pan = '4012345678909'
pin = '1234'
limit = 10000
";

const BDK: u128 = 0x01234567_89ABCDEF_FEDCBA98_76543210;

const PREFIX: [u8; 5] = [0xFF, 0xFF, 0x98, 0x76, 0x54];

/// Where the numbers of the requests begin, and those that are used before.
const OF_REQUESTS: u64 = 1;

const OF_USED: u64 = 2;

/// The bytes of each request's frame, as its PAN has 13 digits.
const REQUEST: usize = 48;

type MemoryHost = Host<16, MemLog, TableIssuer>;

/// Writes the frames of so many requests, each under another key serial number.
pub fn write_requests<W: Write>(count: u32, output: &mut W) -> Result<()> {
    let bdk = Key::new(BDK.to_be_bytes());
    let pan = Pan::parse("4012345678909")?;
    let pin = Pin::parse("1234")?;
    let mut random = Random::from(OF_REQUESTS);
    for _ in 0..count {
        let ksn = random.serial_of(PREFIX);
        let frame = payment_request(&derive(&bdk, ksn), ksn, &pan, &pin, 500);
        output.write_all(frame.as_slice())?;
    }
    Ok(())
}

/// Handles requests that stand one after the other, over a log of so many used numbers, and writes
/// the frames of the answers.
pub fn handle_requests<W: Write>(
    alloc: Global,
    used: u32,
    requests: &[u8],
    output: &mut W,
) -> Result<()> {
    let room = used as usize + requests.len() / REQUEST;
    let mut host = new_host(alloc, log_of(alloc, used, room)?)?;
    host.restart()?;
    for request in requests.chunks_exact(REQUEST) {
        output.write_all(host.handle(request)?.as_slice())?;
    }
    Ok(())
}

/// A log with so many numbers, and room for so many in all.
fn log_of(alloc: Global, used: u32, room: usize) -> Result<MemLog> {
    let mut log = MemLog::new(alloc, room)?;
    let mut random = Random::from(OF_USED);
    log.restart()?;
    for _ in 0..used {
        if log.room() > 0 {
            log.append(random.serial_of(PREFIX))?;
        }
    }
    Ok(log)
}

/// A stopped host of the configuration over this log.
fn new_host(alloc: Global, log: MemLog) -> Result<MemoryHost> {
    let config = read_config(alloc, BANK)?;
    let KeyBytes::Double(lmk) = &config.lmk else {
        bail!("the local master key has not 16 bytes");
    };
    Ok(duk_config::new_host(alloc, lmk, &config, log)?)
}
