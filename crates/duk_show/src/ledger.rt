//! The command `show ledger`.

ghost use Rattle.std.specs.Prelude.{◌≡◌, ◌≤◌, ◌*◌, ◌+◌, ◌++◌, All, IfErr, IfNone, IfOk, IfSome, OnOk, flat_map, length};
ghost use Rattle.arrayvec.specs.ArrayVec.{array_vec_len};
ghost use Rattle.duk_ledger.specs.Issued.{AreFields, AreMadeFields};
ghost use Rattle.duk_ledger.specs.IssuedFormat.{SaysIssued};
ghost use Rattle.duk_ledger.specs.declared.issued.Issued.{Issued as IssuedValue};
ghost use Rattle.duk_store.specs.Records.{after_gate};
ghost use Rattle.duk_show.specs.Ledger.{IsLedger, IsLedgerRefused, IsLedgerText, header_text, issued_line, ledger_text, made_words};
ghost use Rattle.duk_show.specs.declared.fault.ShowFault.TheVariants.{OutOfMemory};
ghost use Rattle.duk_show.specs.inner.Ledger.{AreOpenIssues, IsHeaded};

use crate::decimal::{push_decimal, push_number_line};
use crate::fault::ShowFault;
use crate::journal::first_open;
use duk_commands::{LINES_ROOM, Lines, push_end, push_text};
use duk_io::append_hex;
use duk_journal::{OPEN, identity_in};
use duk_ledger::{Issued, IssuedFormat, Made, RECORD_LENGTH, is_ledger_header};
use duk_store::Format;
use std::alloc::Global;

/// The lines of the bytes of a ledger: the version of its format and the identity of its file; each key
/// that was issued, in order: its initial key serial number, its check value, that of its base
/// derivation key and the number of its run, or the number alone where no more is known; how many
/// numbers there are, and for how many more there is room.
///
/// Refused with `LedgerRefused` and the place of the first record that is in no ledger, counted in
/// records, from 0, the header being the first. Memory for issues and lines may be refused.
pub fn ledger_lines(alloc: Global, bytes: &[u8]) -> Result<Vec<u8>, ShowFault>
    ensures lines { IfOk result (λ text. IsLedgerText bytes.now text.items) }
    ensures refused { IfErr result (IsLedgerRefused bytes.now) }
{
    let issues = read_ledger(alloc, bytes)?;
    lines_of_ledger(alloc, bytes, issues.as_slice())
}

/// What a ledger keeps.
fn read_ledger(alloc: Global, bytes: &[u8]) -> Result<Vec<Issued>, ShowFault>
    ensures ledger { IfOk result (λ issues. IsLedger bytes.now issues.items) }
    ensures refused { IfErr result (IsLedgerRefused bytes.now) }
{
    if bytes.len() < RECORD_LENGTH || !is_ledger_header(&bytes[..RECORD_LENGTH]) {
        return Err(ShowFault::LedgerRefused { place: 0 });
    }
    let issues = read_open(alloc, bytes)?;
    if let Some(place) = first_open(bytes, 1 + issues.len()) {
        return Err(ShowFault::LedgerRefused { place });
    }
    if bytes.len() % RECORD_LENGTH != 0 {
        let place = bytes.len() / RECORD_LENGTH;
        return Err(ShowFault::LedgerRefused { place });
    }
    Ok(issues)
}

/// The issues of the records behind the header, up to the first closed one.
fn read_open(alloc: Global, bytes: &[u8]) -> Result<Vec<Issued>, ShowFault>
    requires { IsHeaded bytes.now }
    ensures issues { IfOk result (λ issues. AreOpenIssues bytes.now issues.items) }
    ensures refused { IfErr result (IsLedgerRefused bytes.now) }
{
    duk_tree::laws::serials();
    let identity = identity_in(&bytes[..RECORD_LENGTH]);
    let mut issues = Vec::new(alloc);
    for place in 1..bytes.len() / RECORD_LENGTH {
        let start = RECORD_LENGTH * place;
        let record = &bytes[start..start + RECORD_LENGTH];
        if record[0] != OPEN {
            return Ok(issues);
        }
        let Some(issued) = issue_of(identity, place, record) else {
            return Err(ShowFault::LedgerRefused { place });
        };
        match issues.push(issued) {
            Ok(()) => {}
            Err(_) => return Err(ShowFault::OutOfMemory),
        }
    }
    Ok(issues)
}

/// The issue in the record at a place of the file with an identity, where it has one.
fn issue_of(identity: u64, place: usize, record: &[u8]) -> Option<Issued>
    requires { length record.now ≡ 32 }
    ensures found { IfSome result (λ issue.
        SaysIssued identity place 0 issue (after_gate record.now)) }
    ensures none { IfNone result ((issue : IssuedValue)
        → ¬ SaysIssued identity place 0 issue (after_gate record.now)) }
{
    match (IssuedFormat {}).read(identity, place as u64, &record[1..]) {
        Some((_, issued)) => Some(issued),
        None => None,
    }
}

/// The lines of a ledger that keeps these issues.
fn lines_of_ledger(alloc: Global, bytes: &[u8], issues: &[Issued]) -> Result<Vec<u8>, ShowFault>
    requires ledger { IsLedger bytes.now issues.now }
    ensures lines { IfOk result (λ text. text.items ≡ ledger_text bytes.now issues.now) }
    ensures refused { IfErr result (λ why. why ≡ OutOfMemory) }
{
    let mut text = Vec::new(alloc);
    push(&mut text, &lines_of_header(bytes))?;
    push_issues(&mut text, issues)?;
    let mut counts = Lines::new();
    push_number_line(&mut counts, b"numbers", issues.len());
    push_number_line(
        &mut counts,
        b"room",
        bytes.len() / RECORD_LENGTH - 1 - issues.len(),
    );
    push(&mut text, &counts)?;
    Ok(text)
}

/// The lines of a header.
fn lines_of_header(bytes: &[u8]) -> Lines
    requires { 32 ≤ length bytes.now }
    ensures { result.items ≡ header_text bytes.now }
{
    let mut lines = Lines::new();
    push_text(&mut lines, b"version 2\nidentity ");
    append_hex(
        &mut lines,
        &identity_in(&bytes[..RECORD_LENGTH]).to_be_bytes(),
    );
    push_end(&mut lines);
    lines
}

/// Appends the lines of issues.
fn push_issues(text: &mut Vec<u8>, issues: &[Issued]) -> Result<(), ShowFault>
    requires { All AreFields issues.now }
    ensures lines { OnOk result (text.new.items ≡ text.old.items ++ flat_map issued_line issues.now) }
    ensures refused { IfErr result (λ why. why ≡ OutOfMemory) }
{
    for issued in issues {
        push(text, &line_of_issued(issued))?;
    }
    Ok(())
}

/// The line of an issue.
fn line_of_issued(issued: &Issued) -> Lines
    requires { AreFields issued.now }
    ensures { result.items ≡ issued_line issued.now }
{
    let mut line = Lines::new();
    push_text(&mut line, b"issued ");
    append_hex(&mut line, &issued.number.bytes());
    if let Some(made) = issued.made {
        push_made(&mut line, made);
    }
    push_end(&mut line);
    line
}

/// Appends how a key was made.
fn push_made(line: &mut Lines, made: Made)
    requires room { array_vec_len line.old + 60 ≤ LINES_ROOM }
    requires fields { AreMadeFields made }
    ensures words { line.new.items ≡ line.old.items ++ made_words made }
    ensures len { array_vec_len line.new ≤ array_vec_len line.old + 60 }
{
    push_text(line, b" ");
    append_hex(line, &made.key);
    push_text(line, b" ");
    append_hex(line, &made.key_set);
    push_text(line, b" ");
    push_decimal(line, made.run as usize);
}

/// Appends lines.
fn push(text: &mut Vec<u8>, lines: &Lines) -> Result<(), ShowFault>
    ensures text { OnOk result (text.new.items ≡ text.old.items ++ lines.now.items) }
    ensures refused { IfErr result (λ why. why ≡ OutOfMemory) }
{
    match text.extend_from_slice(lines.as_slice()) {
        Ok(()) => Ok(()),
        Err(_) => Err(ShowFault::OutOfMemory),
    }
}
