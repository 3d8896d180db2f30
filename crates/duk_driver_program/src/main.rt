//! Makes one call of the program's crate, to which memory is refused at one growth, and writes what
//! came of it: the status, how much of the output was handed on, the output, and the fault. It
//! judges nothing.
#![tactic(auto)]

mod calls;
mod streams;

use calls::Call;
use std::alloc::Global;
use std::io::Read;
use std::process::ExitCode;
use std::{env, io, str};

/// The number of the allocation that is to fail, after those for the program's tokens and input.
const REFUSED_AT: u32 = 4000;

/// So many bytes the input may have without a second allocation for it.
const MOST_GIVEN: usize = 2048;

/// A call, and the growth that is refused to it, from the first of what the call needs on.
#[derive(Clone, Copy)]
struct Asked<'a> {
    name: &'a str,
    call: Call<'a>,
    growth: u32,
}

fn main(rt: HostRuntime) -> io::Result<ExitCode> {
    let tokens: Vec<String> = env::args(&rt)?.collect(rt.alloc())?;
    let mut given = Vec::with_capacity(rt.alloc(), MOST_GIVEN)?;
    rt.stdin().read_to_end(&mut given)?;
    match read_tokens(tokens.as_slice(), given.as_slice()) {
        Some(asked) => {
            make(&rt, asked)?;
            Ok(ExitCode::SUCCESS)
        }
        None => {
            eprintln!(rt; "not a call")?;
            Ok(ExitCode::from(2))
        }
    }
}

/// What is asked by the tokens: the program's name, `refuse`, the name of the call, and the growth.
fn read_tokens<'a>(tokens: &'a [String], given: &'a [u8]) -> Option<Asked<'a>> {
    let [_, token, name, growth] = tokens else {
        return None;
    };
    if token.as_str() != "refuse" {
        return None;
    }
    let name = name.as_str();
    Some(Asked {
        name,
        call: Call::of(name, str::from_utf8(given).ok()?)?,
        growth: growth.parse().ok()?,
    })
}

/// Makes the call, and writes what came of it, or that what it needs was refused.
fn make(rt: &(impl Print + AllocGlobal), asked: Asked<'_>) -> io::Result<()> {
    let Asked { name, call, growth } = asked;
    pad(rt.alloc(), growth);
    match call.make(rt.alloc()) {
        Ok(came) => println!(rt; "{name} {growth}: {came}"),
        Err(_) => println!(rt; "{name} {growth}: before"),
    }
}

/// Takes as many allocations as put the one of number `REFUSED_AT` at this growth.
fn pad(alloc: Global, growth: u32) {
    for _ in 0..REFUSED_AT.saturating_sub(growth) {
        let _ = Vec::<u8>::with_capacity(alloc, 1);
    }
}
