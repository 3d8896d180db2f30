//! Candidates and settlements, as texts.

use crate::trouble::Trouble;
use duk_frame::Code;
use duk_journal_host::{Candidate, Purchase, Settled, Settlement};
use duk_reversal::{Reversal, ReversalNumbers, ReversalState};
use duk_tree::Ksn;
use hex::FromHex;
use std::alloc::{AllocError, Global};

/// The candidates of a line, a comma between them. An empty line has none.
pub fn read_group(alloc: Global, line: &str) -> Result<Vec<Candidate>, Trouble> {
    let mut group = Vec::new(alloc);
    if line.is_empty() {
        return Ok(group);
    }
    for text in line.split(',') {
        group.push(read_candidate(alloc, text)?)?;
    }
    Ok(group)
}

/// A candidate: `pay NUMBER MAC AMOUNT CODE`, or `reverse NUMBER MAC REVERSED`.
fn read_candidate(alloc: Global, text: &str) -> Result<Candidate, Trouble> {
    let words: Vec<&str> = text.split(' ').collect(alloc)?;
    match words.as_slice() {
        ["pay", number, mac, amount, code] => {
            let purchase = Purchase {
                number: read_number(number)?,
                amount: amount.parse().ok().ok_or(Trouble::NotAGroup)?,
                mac: <[u8; 8]>::from_hex(mac)?,
            };
            Ok(Candidate::Payment(purchase, read_code(code)?))
        }
        ["reverse", number, mac, reversed] => {
            let numbers = ReversalNumbers::new(read_number(number)?, read_number(reversed)?);
            let mac = <[u8; 8]>::from_hex(mac)?;
            Ok(Candidate::Reversal(Reversal {
                numbers: numbers.ok_or(Trouble::NotAGroup)?,
                mac,
            }))
        }
        _ => Err(Trouble::NotAGroup),
    }
}

fn read_number(text: &str) -> Result<Ksn, Trouble> {
    Ksn::parse(text).ok_or(Trouble::NotAGroup)
}

fn read_code(text: &str) -> Result<Code, Trouble> {
    match text {
        "00" => Ok(Code::Approved),
        "14" => Ok(Code::NoCard),
        "55" => Ok(Code::WrongPin),
        "51" => Ok(Code::OverLimit),
        "30" => Ok(Code::Unreadable),
        _ => Err(Trouble::NotAGroup),
    }
}

/// What became of a group, a comma between: of each `kept CODE`, `again CODE`, `used` or `full`, with the
/// state that it found in the place of the code where it is a reversal.
pub fn settled_text(alloc: Global, group: &[Settled]) -> Result<String, AllocError> {
    let mut text = String::new(alloc);
    for settled in group {
        if !text.is_empty() {
            text.push_str(",")?;
        }
        let (word, said) = words_of(settled);
        text.push_str(word)?;
        text.push_str(said)?;
    }
    Ok(text)
}

/// What became of one: a word, and what was said of it.
fn words_of(settled: &Settled) -> (&'static str, &'static str) {
    match settled {
        Settled::Payment(_, Settlement::Kept(code)) => ("kept", code_text(*code)),
        Settled::Payment(_, Settlement::KnownAgain(code)) => ("again", code_text(*code)),
        Settled::Reversal(_, Settlement::Kept(state)) => ("kept", state_text(*state)),
        Settled::Reversal(_, Settlement::KnownAgain(state)) => ("again", state_text(*state)),
        Settled::Payment(_, Settlement::Used) | Settled::Reversal(_, Settlement::Used) => {
            ("used", "")
        }
        Settled::Payment(_, Settlement::Full) | Settled::Reversal(_, Settlement::Full) => {
            ("full", "")
        }
    }
}

fn code_text(code: Code) -> &'static str {
    match code {
        Code::Approved => " 00",
        Code::NoCard => " 14",
        Code::WrongPin => " 55",
        Code::OverLimit => " 51",
        Code::Unreadable => " 30",
    }
}

fn state_text(state: ReversalState) -> &'static str {
    match state {
        ReversalState::Undone => " 01",
        ReversalState::NoneStands => " 00",
    }
}
