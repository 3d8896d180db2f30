//! The command `show log`.

ghost use Rattle.std.specs.Prelude.{◌≡◌, ◌<◌, ◌≤◌, ◌/◌, ◌^◌, ◌++◌, [], IfErr, IfOk, MatchOption, OnOk, codes, decimal, flat_map, length};
ghost use Rattle.duk_commands.specs.Lines.{text_line};
ghost use Rattle.duk_show.specs.Log.{AreOfOneLog, IsDamagedAt, IsLogRefused, IsLogText, IsSomeLog, terminal_lines};
ghost use Rattle.duk_show.specs.declared.fault.ShowFault.TheVariants.{OutOfMemory};
ghost use Rattle.duk_show.specs.inner.Log.{AreFirstNumbers, CountsRecord, IsDamagedLog, IsNextRecord, IsNumberRefused, IsOutOfPlace, IsRecordRefused};
ghost use Rattle.duk_show.specs.inner.Tallies.{tally_line};
ghost use Rattle.duk_store.specs.RecordFormat.{IsLogSize};

use crate::decimal::{push_decimal, push_number_line};
use crate::fault::ShowFault;
use crate::one_log::first_other;
use crate::tallies::{Tally, tallies_of};
use duk_commands::{Lines, push_end, push_text};
use duk_io::append_hex;
use duk_regs::are_zeros;
use duk_store::RECORD_LENGTH;
use duk_tdes::array_of;
use duk_tree::Ksn;
use std::alloc::Global;

/// The lines of the bytes of a log of used numbers or of a ledger: how many numbers it keeps, for how many more it has
/// room, and for each initial key serial number, in the order of their first records, how many
/// numbers it has, the first and the last. The time grows with the numbers alone, however many
/// terminals they are of.
///
/// Refused with `LogRefused` and the place of the first record that is in no log, counted in
/// records, or else of the first whose number a host or a ledger does not keep with those before it:
/// it stands before, or it has the counter of neither, or of the other one. Memory for numbers and
/// lines may be refused.
pub fn log_lines(alloc: Global, bytes: &[u8]) -> Result<Vec<u8>, ShowFault>
    ensures lines { IfOk result (λ text. IsLogText bytes.now text.items) }
    ensures refused { IfErr result (IsLogRefused bytes.now) }
{
    let numbers = read_numbers(alloc, bytes)?;
    test_numbers(alloc, numbers.as_slice())?;
    let room = bytes.len() / RECORD_LENGTH - numbers.len();
    lines_of_numbers(alloc, numbers.as_slice(), room)
}

/// Refuses numbers that no log of a host or of a ledger keeps.
fn test_numbers(alloc: Global, numbers: &[Ksn]) -> Result<(), ShowFault>
    ensures of_one_log { OnOk result (AreOfOneLog numbers.now) }
    ensures refused { IfErr result (IsNumberRefused numbers.now) }
{
    match first_other(alloc, numbers) {
        Ok(None) => Ok(()),
        Ok(Some(place)) => Err(ShowFault::LogRefused { place }),
        Err(_) => Err(ShowFault::OutOfMemory),
    }
}

/// The place of the first record that is in no log, counted in records; `None` where the bytes are
/// those of a log. This takes no memory.
pub fn damaged_record(bytes: &[u8]) -> Option<u64>
    ensures { MatchOption result (IsSomeLog bytes.now) (IsDamagedAt bytes.now) }
{
    let mut count = 0;
    let whole = bytes.len() / RECORD_LENGTH;
    for place in 0..whole {
        let start = RECORD_LENGTH * place;
        match count_record(&bytes[start..start + RECORD_LENGTH], place, count) {
            Some(next) => count = next,
            None => return Some(place as u64),
        }
    }
    if whole == 0 || bytes.len() % RECORD_LENGTH != 0 {
        return Some(whole as u64);
    }
    None
}

/// How many records have numbers, with that at a place, before which so many have; `None` where it
/// is in no log.
fn count_record(bytes: &[u8], place: usize, count: usize) -> Option<usize>
    requires size { length bytes.now ≡ 16 }
    requires within { count ≤ place }
    requires fits { place < 2 ^ 63 }
    ensures { MatchOption result (IsOutOfPlace bytes.now place count)
        (CountsRecord bytes.now place count) }
{
    if bytes[0] != 1 {
        return Some(count);
    }
    if count < place || !are_zeros(&bytes[11..]) {
        return None;
    }
    Some(count + 1)
}

/// The numbers that a log keeps.
fn read_numbers(alloc: Global, bytes: &[u8]) -> Result<Vec<Ksn>, ShowFault>
    ensures size { OnOk result (IsLogSize (length bytes.now)) }
    ensures numbers { IfOk result
        (λ numbers. AreFirstNumbers (length bytes.now / 16) bytes.now numbers.items) }
    ensures refused { IfErr result (IsDamagedLog bytes.now) }
{
    let mut numbers = Vec::new(alloc);
    let records = bytes.len() / RECORD_LENGTH;
    for place in 0..records {
        let start = RECORD_LENGTH * place;
        push_number(&mut numbers, &bytes[start..start + RECORD_LENGTH], place)?;
    }
    if records == 0 || bytes.len() % RECORD_LENGTH != 0 {
        return Err(ShowFault::LogRefused { place: records });
    }
    Ok(numbers)
}

/// Appends the number of the record at a place, where it has one.
fn push_number(numbers: &mut Vec<Ksn>, record: &[u8], place: usize) -> Result<(), ShowFault>
    requires size { length record.now ≡ 16 }
    requires within { length numbers.old.items ≤ place }
    ensures next { OnOk result
        (IsNextRecord record.now place numbers.old.items numbers.new.items) }
    ensures refused { IfErr result
        (IsRecordRefused record.now place (length numbers.old.items)) }
{
    if record[0] != 1 {
        return Ok(());
    }
    if numbers.len() < place || !are_zeros(&record[11..]) {
        return Err(ShowFault::LogRefused { place });
    }
    match numbers.push(Ksn::from_bytes(array_of(&record[1..11]))) {
        Ok(()) => Ok(()),
        Err(_) => Err(ShowFault::OutOfMemory),
    }
}

/// The lines of a log that keeps these numbers and has room for so many more.
fn lines_of_numbers(alloc: Global, numbers: &[Ksn], room: usize) -> Result<Vec<u8>, ShowFault>
    ensures lines { IfOk result (λ text. text.items
        ≡ text_line (codes "numbers") (decimal (length numbers.now))
        ++ text_line (codes "room") (decimal room) ++ terminal_lines [] numbers.now) }
    ensures refused { IfErr result (λ why. why ≡ OutOfMemory) }
{
    let mut counts = Lines::new();
    push_number_line(&mut counts, b"numbers", numbers.len());
    push_number_line(&mut counts, b"room", room);
    let mut text = Vec::new(alloc);
    push_lines(&mut text, &counts)?;
    push_terminals(alloc, &mut text, numbers)?;
    Ok(text)
}

/// Appends lines.
fn push_lines(text: &mut Vec<u8>, lines: &Lines) -> Result<(), ShowFault>
    ensures lines { OnOk result (text.new.items ≡ text.old.items ++ lines.now.items) }
    ensures refused { IfErr result (λ why. why ≡ OutOfMemory) }
{
    match text.extend_from_slice(lines.as_slice()) {
        Ok(()) => Ok(()),
        Err(_) => Err(ShowFault::OutOfMemory),
    }
}

/// Appends the lines of the terminals of these numbers.
fn push_terminals(alloc: Global, text: &mut Vec<u8>, numbers: &[Ksn]) -> Result<(), ShowFault>
    ensures lines { OnOk result (text.new.items ≡ text.old.items ++ terminal_lines [] numbers.now) }
    ensures refused { IfErr result (λ why. why ≡ OutOfMemory) }
{
    let tallies = tallies_of(alloc, numbers)?;
    push_tallies(text, tallies.values().as_slice())
}

/// Appends the lines of tallies.
fn push_tallies(text: &mut Vec<u8>, tallies: &[Tally]) -> Result<(), ShowFault>
    ensures lines { OnOk result
        (text.new.items ≡ text.old.items ++ flat_map tally_line tallies.now) }
    ensures refused { IfErr result (λ why. why ≡ OutOfMemory) }
{
    for tally in tallies {
        push_lines(text, &line_of_tally(tally))?;
    }
    Ok(())
}

/// The line of a tally.
fn line_of_tally(tally: &Tally) -> Lines
    ensures { result.items ≡ tally_line tally.now }
{
    let mut line = Lines::new();
    push_text(&mut line, b"terminal ");
    append_hex(&mut line, &tally.first.iksn().bytes());
    push_text(&mut line, b" ");
    push_decimal(&mut line, tally.count);
    push_text(&mut line, b" ");
    append_hex(&mut line, &tally.first.bytes());
    push_text(&mut line, b" ");
    append_hex(&mut line, &tally.last.bytes());
    push_end(&mut line);
    line
}
