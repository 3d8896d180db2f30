//! Settles groups of payments and reversals in a book in memory, which is proved. A line is a group, and
//! what was settled of it is written in a line; an empty line begins a new book. It judges nothing.
#![tactic(auto)]

mod texts;
mod trouble;

use duk_hosts::MemBook;
use std::alloc::Global;
use std::io::Read;
use std::process::ExitCode;
use std::{io, str};
use texts::{read_group, settled_text};
use trouble::Trouble;

fn main(rt: HostRuntime) -> io::Result<ExitCode> {
    let mut lines = Vec::new(rt.alloc());
    rt.stdin().read_to_end(&mut lines)?;
    match settle_lines(&rt, lines.as_slice()) {
        Ok(()) => Ok(ExitCode::SUCCESS),
        Err(trouble) => {
            eprintln!(rt; "{trouble}")?;
            Ok(ExitCode::from(2))
        }
    }
}

/// Settles the group of each line, and writes what became of it.
fn settle_lines(rt: &(impl Print + AllocGlobal), lines: &[u8]) -> Result<(), Trouble> {
    let alloc = rt.alloc();
    let mut book = MemBook::new(alloc);
    for line in str::from_utf8(lines)?.lines() {
        if line.is_empty() {
            book = MemBook::new(alloc);
        }
        let settled = settle_line(alloc, &mut book, line)?;
        println!(rt; "{settled}")?;
    }
    Ok(())
}

/// Settles the group of a line, and gives what became of it.
fn settle_line(alloc: Global, book: &mut MemBook, line: &str) -> Result<String, Trouble> {
    let group = read_group(alloc, line)?;
    let settled = book.settle(alloc, group.as_slice())?;
    Ok(settled_text(alloc, settled.as_slice())?)
}
