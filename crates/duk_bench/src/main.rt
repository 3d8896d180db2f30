//! Work to be timed: what it does over the crates, a program in `bench/openssl` does over OpenSSL.
//! The same arguments have the same output there, but for the work of a host.
#![tactic(auto)]

mod derivations;
mod messages;
mod payments;
mod random;

use anyhow::{Result, bail};
use derivations::{derive_at_random, derive_in_groups};
use messages::Work;
use payments::{handle_requests, write_requests};
use std::alloc::Global;
use std::io::{BufWriter, Read, Write};
use std::rt::Env;
use std::{env, io};

fn main(rt: HostRuntime) -> Result<()> {
    let arguments: Vec<String> = env::args(&rt)?.collect(rt.alloc())?;
    let mut output = BufWriter::new(rt.alloc(), rt.stdout())?;
    do_work(
        rt.alloc(),
        arguments.as_slice(),
        &mut rt.stdin(),
        &mut output,
    )?;
    output.flush()?;
    Ok(())
}

/// Does the work that the arguments name: `derive COUNT`, `derive-groups COUNT`, `requests COUNT`, `handle USED` with the
/// requests from `input`, and `cmac`, `retail`, `cbc-encrypt` and `cbc-decrypt LENGTH COUNT`.
fn do_work<R: Read, W: Write>(
    alloc: Global,
    arguments: &[String],
    input: &mut R,
    output: &mut W,
) -> Result<()> {
    match arguments {
        [_, name, number] => do_keyed(alloc, name.as_str(), number.parse()?, input, output),
        [_, name, length, count] => {
            do_messages(
                alloc,
                name.as_str(),
                length.parse()?,
                count.parse()?,
                output,
            )
        }
        _ => bail!("which work?"),
    }
}

/// Does the work that takes a number alone.
fn do_keyed<R: Read, W: Write>(
    alloc: Global,
    name: &str,
    number: u32,
    input: &mut R,
    output: &mut W,
) -> Result<()> {
    match name {
        "derive" => Ok(derive_at_random(number, output)?),
        "derive-groups" => Ok(derive_in_groups(number, output)?),
        "requests" => write_requests(number, output),
        "handle" => {
            let mut requests = Vec::new(alloc);
            input.read_to_end(&mut requests)?;
            handle_requests(alloc, number, requests.as_slice(), output)
        }
        _ => bail!("no such work: {name}"),
    }
}

/// Does the work of this name so many times with a message whose bytes count from 0 up, and writes
/// the message's first and last block.
fn do_messages<W: Write>(
    alloc: Global,
    name: &str,
    length: usize,
    count: u32,
    output: &mut W,
) -> Result<()> {
    let Some(work) = Work::named(name) else {
        bail!("no such work: {name}");
    };
    let mut message = Vec::new(alloc);
    for place in 0..length {
        message.push((place % 256) as u8)?;
    }
    work.repeat(count, message.as_mut_slice());
    Ok(output.write_all(message.as_slice())?)
}
