//! Tokens of steps, and tokens for what came of them.

use crate::trouble::Trouble;
use duk_term::Next;
use duk_tree::Ksn;
use std::alloc::Global;
use std::fmt::Display;

/// What comes of a step: a line without its end.
pub type Reported = Result<String, Trouble>;

/// The bytes that a token writes in hexadecimal.
pub fn bytes(alloc: Global, token: &str) -> Result<Vec<u8>, Trouble> {
    Ok(hex::decode(alloc, token)?)
}

/// A token, and bytes in hexadecimal.
pub fn with_bytes(alloc: Global, token: &str, bytes: &[u8]) -> Reported {
    let digits = hex::encode_upper(alloc, bytes)?;
    Ok(format!(in alloc; "{token} {digits}")?)
}

/// A number that a token writes in decimal.
pub fn number(token: &str) -> Result<u32, Trouble> {
    token.parse().ok().ok_or(Trouble::NotAStep)
}

/// A key serial number that a token writes.
pub fn serial(token: &str) -> Result<Ksn, Trouble> {
    Ksn::parse(token).ok_or(Trouble::NotAStep)
}

/// That something was done.
pub fn done(alloc: Global, token: &str) -> Reported {
    Ok(String::from_str(alloc, token)?)
}

/// A fault.
pub fn fault(alloc: Global, why: &impl Display) -> Reported {
    Ok(format!(in alloc; "fault {why}")?)
}

/// Whether something holds.
pub fn yes_or_no(alloc: Global, holds: bool) -> Reported {
    done(alloc, if holds { "yes" } else { "no" })
}

/// The number that comes next at a terminal.
pub fn next(alloc: Global, next: Next) -> Reported {
    match next {
        Next::At(ksn) => with_bytes(alloc, "next", &ksn.bytes()),
        Next::Spent => done(alloc, "spent"),
        Next::Empty => done(alloc, "empty"),
        Next::Stopped => done(alloc, "stopped"),
    }
}
