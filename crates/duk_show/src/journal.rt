//! The command `show journal`.

ghost use Rattle.std.specs.Prelude.{◌≡◌, ◌<◌, ◌≤◌, ◌^◌, ◌*◌, ◌/◌, ◌++◌, ◌+◌, [], All, IfErr, IfOk, MatchOption, OnOk, codes, count_by, decimal, flat_map, length};
ghost use Rattle.hex.specs.Hex.{encode_upper};
ghost use Rattle.arrayvec.specs.ArrayVec.{array_vec_len};
ghost use Rattle.duk_frame.specs.Code.{code_text};
ghost use Rattle.duk_journal.specs.Entry.{MayStandUnder};
ghost use Rattle.duk_journal.specs.RecordFormat.{IsOpen};
ghost use Rattle.duk_journal.specs.Standing.{is_payment};
ghost use Rattle.duk_tree.specs.Path.{IsUsable};
ghost use Rattle.duk_tree.specs.Serial.{serial_bytes};
ghost use Rattle.duk_show.specs.Frame.{code_words, state_words};
ghost use Rattle.duk_show.specs.Journal.{IsJournal, IsJournalRefused, IsJournalText, count_lines, entry_line, entry_lines, header_lines, payer_lines, record_words, reversals_line, stored_lines, undone_words};
ghost use Rattle.duk_show.specs.Stored.{IsStored};
ghost use Rattle.duk_show.specs.declared.fault.ShowFault.TheVariants.{OutOfMemory};
ghost use Rattle.duk_show.specs.inner.Journal.{AreClosedBetween, AreGroups, AreNoGroups, AreUsedBy, IsLeftAfter, IsNewEntry, IsNextIn, IsNoneNext, IsNotNew, IsOpenAt, IsRecordNotTaken, IsRecordTaken};
ghost use Rattle.duk_show.specs.inner.JournalTallies.{payer_line};

use crate::decimal::{push_amount, push_decimal, push_number_line};
use crate::fault::ShowFault;
use crate::frame::{words_of_code, words_of_state};
use crate::journal_tallies::{Payer, payers_of};
use crate::standing::{payments_in, reversed_by_all, take_reversed};
use crate::stored::Stored;
use duk_commands::{LINES_ROOM, Lines, push_end, push_text};
use duk_frame::Code;
use duk_host::UsedNumbers;
use duk_io::append_hex;
use duk_journal::{Decided, Entry, OPEN, RECORD_LENGTH};
use duk_journal_copy::Version;
use duk_reversal::ReversalState;
use duk_store::Format;
use duk_tree::Ksn;
use std::alloc::Global;

/// The lines of the bytes of a journal of either version: of version 2 the version and the identity of
/// the file; each payment and each reversal that it keeps, in the order in
/// which they were appended, with the places of its record and of the first one of its group; how many
/// payments there are, how many reversals, if any, and for how many more there is room; and for each
/// initial key serial number, in the order of their first entries, how many payments it has, the first
/// number and the last, the sum of the amounts that stand (approved, and no reversal of it kept), and
/// how many payments are undone, if any. The time grows with the entries alone.
///
/// Places are counted in records, from 0, behind the header. Refused with `JournalRefused` and the place
/// of the first record that is in no journal. Memory for entries and lines may be refused.
pub fn journal_lines(alloc: Global, bytes: &[u8]) -> Result<Vec<u8>, ShowFault>
    ensures lines { IfOk result (λ text. IsJournalText bytes.now text.items) }
    ensures refused { IfErr result (IsJournalRefused bytes.now) }
{
    let stored = Stored::of(bytes);
    let entries = read_journal(alloc, bytes, stored)?;
    lines_of_journal(alloc, stored, entries.as_slice())
}

/// The entries that a journal keeps.
fn read_journal(alloc: Global, bytes: &[u8], stored: Stored<'_>) -> Result<Vec<Entry>, ShowFault>
    requires { IsStored bytes.now stored }
    ensures journal { IfOk result (λ entries. IsJournal bytes.now entries.items) }
    ensures fits { IfOk result (λ entries.
        32 * length entries.items ≤ length stored.entry.records.now) }
    ensures refused { IfErr result (IsJournalRefused bytes.now) }
{
    duk_journal_copy::laws::headed();
    stored.version.laws();
    let entries = read_groups(alloc, stored)?;
    let records = stored.records.len() / RECORD_LENGTH;
    if let Some(place) = first_open(stored.records, entries.len()) {
        return Err(ShowFault::JournalRefused { place });
    }
    if bytes.is_empty() || stored.records.len() % RECORD_LENGTH != 0 {
        return Err(ShowFault::JournalRefused { place: records });
    }
    Ok(entries)
}

/// The entries of the groups, up to the first record in a group's place that is closed.
fn read_groups(alloc: Global, stored: Stored<'_>) -> Result<Vec<Entry>, ShowFault>
    ensures groups { IfOk result (λ entries. AreGroups stored.entry entries.items) }
    ensures refused { IfErr result (AreNoGroups stored.entry) }
{
    stored.version.laws();
    let mut entries = Vec::new(alloc);
    let mut used = UsedNumbers::new(alloc);
    let mut left = 0;
    let records = stored.records.len() / RECORD_LENGTH;
    for place in 0..records {
        let start = RECORD_LENGTH * place;
        let record = &stored.records[start..start + RECORD_LENGTH];
        if left == 0 && record[0] != OPEN {
            return Ok(entries);
        }
        left = take_record(&mut entries, &mut used, left, stored, record)?;
    }
    if left != 0 {
        return Err(ShowFault::JournalRefused { place: records });
    }
    Ok(entries)
}

/// Takes the record behind these entries, where so many of the last group are to come, and gives how
/// many are to come then.
fn take_record(
    entries: &mut Vec<Entry>,
    used: &mut UsedNumbers,
    left: u16,
    stored: Stored<'_>,
    bytes: &[u8],
) -> Result<u16, ShowFault>
    requires whole { length bytes.now ≡ 32 }
    requires place { length entries.old.items < 2 ^ 63 }
    requires first { left ≡ 0 → IsOpen bytes.now }
    requires listed { AreUsedBy entries.old.items used.old }
    ensures taken { IfOk result
        (IsRecordTaken stored.entry left bytes.now entries.old.items entries.new.items) }
    ensures listed { IfOk result (λ _. AreUsedBy entries.new.items used.new) }
    ensures refused { IfErr result (IsRecordNotTaken stored.entry left bytes.now entries.old.items) }
{
    stored.version.laws();
    let place = entries.len();
    let Some((followers, entry)) = next_contents(stored, place, left, bytes) else {
        return Err(ShowFault::JournalRefused { place });
    };
    take_entry(entries, used, entry)?;
    Ok(left_after(left, followers))
}

/// Takes an entry behind these, if none of them uses its number.
fn take_entry(
    entries: &mut Vec<Entry>,
    used: &mut UsedNumbers,
    entry: Entry,
) -> Result<(), ShowFault>
    requires usable { IsUsable entry.number.counter }
    requires stands { MayStandUnder entry.number entry.decided }
    requires listed { AreUsedBy entries.old.items used.old }
    ensures taken { OnOk result (IsNewEntry entries.old.items entry entries.new.items) }
    ensures listed { OnOk result (AreUsedBy entries.new.items used.new) }
    ensures refused { IfErr result (IsNotNew entries.old.items entry) }
{
    let place = entries.len();
    match used.insert(entry.number) {
        Ok(true) => {}
        Ok(false) => return Err(ShowFault::JournalRefused { place }),
        Err(_) => return Err(ShowFault::OutOfMemory),
    }
    if take_reversed(used, &entry).is_err() {
        return Err(ShowFault::OutOfMemory);
    }
    match entries.push(entry) {
        Ok(()) => Ok(()),
        Err(_) => Err(ShowFault::OutOfMemory),
    }
}

/// The contents of a record that stands where so many of a group are to come: none, where the record
/// is open inside a group, or says there that others follow.
fn next_contents(stored: Stored<'_>, place: usize, left: u16, bytes: &[u8]) -> Option<(u16, Entry)>
    requires whole { length bytes.now ≡ 32 }
    requires place { place < 2 ^ 63 }
    requires first { left ≡ 0 → IsOpen bytes.now }
    ensures { MatchOption result (IsNoneNext stored.entry place left bytes.now) (λ found.
        IsNextIn stored.entry place left found.0 found.1 bytes.now) }
{
    let Some((followers, entry)) = stored.contents_at(place, bytes) else {
        return None;
    };
    if left != 0 && (bytes[0] == OPEN || followers != 0) {
        return None;
    }
    Some((followers, entry))
}

/// How many of a group are to come after a record that says so many follow.
fn left_after(left: u16, followers: u16) -> u16
    ensures { IsLeftAfter left followers result }
{
    if left == 0 { followers } else { left - 1 }
}

/// The first open record from this place on, where there is one.
pub(crate) fn first_open(bytes: &[u8], from: usize) -> Option<usize>
    ensures { MatchOption result (AreClosedBetween from (length bytes.now / 32) bytes.now)
        (IsOpenAt from bytes.now) }
{
    for place in from..bytes.len() / RECORD_LENGTH {
        if bytes[RECORD_LENGTH * place] == OPEN {
            return Some(place);
        }
    }
    None
}

/// The lines of a journal that keeps these entries.
fn lines_of_journal(
    alloc: Global,
    stored: Stored<'_>,
    entries: &[Entry],
) -> Result<Vec<u8>, ShowFault>
    requires fits { 32 * length entries.now ≤ length stored.records.now }
    requires stand { All (λ entry. MayStandUnder entry.number entry.decided) entries.now }
    ensures lines { IfOk result (λ text. text.items ≡ stored_lines stored.entry entries.now) }
    ensures refused { IfErr result (λ why. why ≡ OutOfMemory) }
{
    let mut text = Vec::new(alloc);
    push(&mut text, lines_of_header(stored).as_slice())?;
    push_entries(&mut text, stored.records, entries)?;
    push_counts(&mut text, stored.records.len() / RECORD_LENGTH, entries)?;
    push_terminals(alloc, &mut text, entries)?;
    Ok(text)
}

/// The lines of a header, where there is one.
fn lines_of_header(stored: Stored<'_>) -> Lines
    ensures { result.items ≡ header_lines stored.entry }
{
    let mut lines = Lines::new();
    if stored.version == Version::Two {
        push_text(&mut lines, b"version 2\nidentity ");
        append_hex(&mut lines, &stored.identity.to_be_bytes());
        push_end(&mut lines);
    }
    lines
}

/// Appends a text.
fn push(text: &mut Vec<u8>, more: &[u8]) -> Result<(), ShowFault>
    ensures text { OnOk result (text.new.items ≡ text.old.items ++ more.now) }
    ensures refused { IfErr result (λ why. why ≡ OutOfMemory) }
{
    match text.extend_from_slice(more) {
        Ok(()) => Ok(()),
        Err(_) => Err(ShowFault::OutOfMemory),
    }
}

/// Appends the lines of how many payments there are, how many reversals, if any, and for how many more
/// of so many records there is room.
fn push_counts(text: &mut Vec<u8>, records: usize, entries: &[Entry]) -> Result<(), ShowFault>
    requires { length entries.now ≤ records }
    ensures lines { OnOk result
        (text.new.items ≡ text.old.items ++ count_lines records entries.now) }
    ensures refused { IfErr result (λ why. why ≡ OutOfMemory) }
{
    let payments = count_payments(entries);
    let mut counts = Lines::new();
    push_number_line(&mut counts, b"payments", payments);
    push_reversals(&mut counts, entries.len() - payments);
    push_number_line(&mut counts, b"room", records - entries.len());
    push(text, counts.as_slice())
}

/// How many of the entries are payments.
fn count_payments(entries: &[Entry]) -> usize
    ensures count { result ≡ count_by is_payment entries.now }
    ensures fits { result ≤ length entries.now }
{
    let mut count = 0;
    for entry in entries {
        count += payments_in(entry.decided);
    }
    count
}

/// Appends the line of how many reversals there are, where there are any.
fn push_reversals(lines: &mut Lines, count: usize)
    requires { array_vec_len lines.old + 40 ≤ LINES_ROOM }
    ensures lines { lines.new.items ≡ lines.old.items ++ reversals_line count }
    ensures len { array_vec_len lines.new ≤ array_vec_len lines.old + 40 }
{
    if count != 0 {
        push_number_line(lines, b"reversals", count);
    }
}

/// Appends the lines of entries.
fn push_entries(text: &mut Vec<u8>, bytes: &[u8], entries: &[Entry]) -> Result<(), ShowFault>
    requires fits { 32 * length entries.now ≤ length bytes.now }
    requires stand { All (λ entry. MayStandUnder entry.number entry.decided) entries.now }
    ensures lines { OnOk result
        (text.new.items ≡ text.old.items ++ entry_lines bytes.now 0 0 entries.now) }
    ensures refused { IfErr result (λ why. why ≡ OutOfMemory) }
{
    let mut group = 0;
    let mut line = Lines::new();
    for (place, entry) in entries.iter().enumerate() {
        if bytes[RECORD_LENGTH * place] == OPEN {
            group = place;
        }
        put_entry(&mut line, place, group, entry);
        push(text, line.as_slice())?;
    }
    Ok(())
}

/// Puts the line of the entry in the record at a place, whose group begins at this place or before
/// it, in place of another line. Its buffer is used again, since a new one for each costs more than
/// all the rest.
fn put_entry(line: &mut Lines, place: usize, group: usize, entry: &Entry)
    requires { MayStandUnder entry.now.number entry.now.decided }
    ensures { line.new.items ≡ entry_line place group entry.now }
{
    duk_tree::laws::paths();
    line.clear();
    match entry.decided {
        Decided::Payment { amount, code } => {
            push_text(line, b"payment ");
            push_record(line, place, group, entry.number);
            push_payment(line, amount, entry.mac, code);
        }
        Decided::Reversal { counter, state } => {
            push_text(line, b"reversal ");
            push_record(line, place, group, entry.number);
            push_reversal(line, entry.number.with_counter(counter), entry.mac, state);
        }
    }
    push_end(line);
}

/// Appends where a record stands, and its key serial number.
fn push_record(line: &mut Lines, place: usize, group: usize, number: Ksn)
    requires { array_vec_len line.old + 80 ≤ LINES_ROOM }
    ensures words { line.new.items ≡ line.old.items ++ record_words place group number }
    ensures len { array_vec_len line.new ≤ array_vec_len line.old + 80 }
{
    push_decimal(line, place);
    push_text(line, b" group ");
    push_decimal(line, group);
    push_text(line, b" ksn ");
    append_hex(line, &number.bytes());
}

/// Appends what a payment says behind its key serial number.
fn push_payment(line: &mut Lines, amount: u32, mac: [u8; 8], code: Code)
    requires { array_vec_len line.old + 90 ≤ LINES_ROOM }
    ensures words { line.new.items ≡ line.old.items ++ codes " amount " ++ decimal amount
        ++ codes " mac " ++ encode_upper mac
        ++ codes " code " ++ code_text code ++ codes " " ++ code_words code }
    ensures len { array_vec_len line.new ≤ array_vec_len line.old + 90 }
{
    push_text(line, b" amount ");
    push_decimal(line, amount as usize);
    push_text(line, b" mac ");
    append_hex(line, &mac);
    push_text(line, b" code ");
    push_text(line, &code.text());
    push_text(line, b" ");
    push_text(line, words_of_code(code).as_bytes());
}

/// Appends what a reversal says behind its key serial number.
fn push_reversal(line: &mut Lines, reversed: Ksn, mac: [u8; 8], state: ReversalState)
    requires { array_vec_len line.old + 90 ≤ LINES_ROOM }
    ensures words { line.new.items ≡ line.old.items
        ++ codes " of " ++ encode_upper (serial_bytes reversed)
        ++ codes " mac " ++ encode_upper mac ++ codes " state " ++ state_words state }
    ensures len { array_vec_len line.new ≤ array_vec_len line.old + 90 }
{
    push_text(line, b" of ");
    append_hex(line, &reversed.bytes());
    push_text(line, b" mac ");
    append_hex(line, &mac);
    push_text(line, b" state ");
    push_text(line, words_of_state(state).as_bytes());
}

/// Appends the lines of the terminals of these entries.
fn push_terminals(alloc: Global, text: &mut Vec<u8>, entries: &[Entry]) -> Result<(), ShowFault>
    requires { All (λ entry. MayStandUnder entry.number entry.decided) entries.now }
    ensures lines { OnOk result
        (text.new.items ≡ text.old.items ++ payer_lines entries.now [] entries.now) }
    ensures refused { IfErr result (λ why. why ≡ OutOfMemory) }
{
    let reversed = reversed_by_all(alloc, entries)?;
    let payers = payers_of(alloc, entries, &reversed)?;
    push_payers(text, payers.values().as_slice())
}

/// Appends the lines of terminals.
fn push_payers(text: &mut Vec<u8>, payers: &[Payer]) -> Result<(), ShowFault>
    ensures lines { OnOk result
        (text.new.items ≡ text.old.items ++ flat_map payer_line payers.now) }
    ensures refused { IfErr result (λ why. why ≡ OutOfMemory) }
{
    for payer in payers {
        push(text, line_of_payer(payer).as_slice())?;
    }
    Ok(())
}

/// The line of a terminal.
fn line_of_payer(payer: &Payer) -> Lines
    ensures { result.items ≡ payer_line payer.now }
{
    let mut line = Lines::new();
    push_text(&mut line, b"terminal ");
    append_hex(&mut line, &payer.first.iksn().bytes());
    push_text(&mut line, b" ");
    push_decimal(&mut line, payer.payments);
    push_text(&mut line, b" ");
    append_hex(&mut line, &payer.first.bytes());
    push_text(&mut line, b" ");
    append_hex(&mut line, &payer.last.bytes());
    push_text(&mut line, b" approved ");
    push_amount(&mut line, payer.approved);
    push_undone(&mut line, payer.undone);
    push_end(&mut line);
    line
}

/// Appends how many payments are undone, where any is.
fn push_undone(line: &mut Lines, undone: usize)
    requires { array_vec_len line.old + 28 ≤ LINES_ROOM }
    ensures words { line.new.items ≡ line.old.items ++ undone_words undone }
    ensures len { array_vec_len line.new ≤ array_vec_len line.old + 28 }
{
    if undone != 0 {
        push_text(line, b" undone ");
        push_decimal(line, undone);
    }
}
