//! The command `show`: prints a frame, a key block, an image, a log or a journal.

ghost use Rattle.std.specs.Prelude.{◌≡◌, ◌⊎◌, IfErr, IfOk, OnOk, codes};
ghost use Rattle.duk_program.specs.CommandLine.{row_of};
ghost use Rattle.duk_program.specs.inner.CommandLine.{row_of_usage};
ghost use Rattle.duk_arguments.specs.Request.{text_in};
ghost use Rattle.duk_io.specs.Sink.{IsHandedOn};
ghost use Rattle.duk_program.specs.Show.{HasNotShownAsked, HasNotShownText, HasShownAsked, HasShownText, IsJournalFileRefused, IsJournalFileText, IsLedgerFileRefused, IsLedgerFileText, IsKeyOfFrame, IsLogFileRefused, IsLogFileText, IsNotShown, IsShowRefused, IsShowText, IsShown, show_arguments};
ghost use Rattle.duk_show.specs.Block.{IsBlockRefused, IsBlockText};
ghost use Rattle.duk_show.specs.Frame.{IsFrameRefused, IsFrameText};
ghost use Rattle.duk_show.specs.CheckedFrame.{IsCheckRefused, IsCheckedText};
ghost use Rattle.duk_show.specs.Image.{IsImageRefused, IsImageText};
ghost use Rattle.duk_show.specs.declared.fault.ShowFault.TheVariants.{OutOfMemory};
ghost use Rattle.duk_program.specs.Fits.{has_key_of_frame};

use crate::command_line::arguments::Form::{Plain, Reference};
use crate::command_line::arguments::{Argument, INITIAL_KEY, Usage, Way};
use crate::command_line::{CommandName, Request};
use crate::fault::Fault;
use crate::shape::{Answers, Shape};
use duk_commands::{KeyArgument, hand_on};
use duk_io::{Sink, write_text};
use duk_service::{FileFault, FileSystem};
use duk_show::{
    ShowFault, block_lines, checked_frame_lines, frame_lines, image_lines, journal_lines,
    ledger_lines, log_lines,
};
use std::alloc::Global;

/// `show KIND WHAT [--show] [--key BDK] [--initial]`
pub(crate) fn usage<'a>() -> Usage<'a>
    ensures { row_of_usage result ≡ row_of CommandName.Show }
{
    Usage {
        name: "show",
        way: Way::Files,
        answers: Answers::OfKind,
        about: "Prints the fields of a frame, a key block, a terminal's image, a log, a journal or a ledger",
        after_help: HELP,
        conflict: Some(CONFLICT),
        arguments: &[
            Argument::Needed(
                Plain,
                "KIND",
                "What WHAT is: frame, block, image, log, journal or ledger",
            ),
            Argument::Needed(
                Reference,
                "WHAT",
                "A frame or an image in hexadecimal, a key block, or the file of a log, a journal or a ledger",
            ),
            Argument::Flag(
                "show",
                "Prints the keys of an image's registers too; with --key a request's PIN block",
            ),
            Argument::Valued(
                Reference,
                "key",
                "BDK",
                "Tests the MAC of a frame under this base derivation key",
            ),
            INITIAL_KEY,
        ],
    }
}

/// Whether `show` is told of the key of a frame alone, and of an initial key where it is told of one.
pub(crate) fn fits(request: &Request<'_>) -> bool
    ensures { result ≡ has_key_of_frame request.now }
{
    if request.flag("key") {
        request.text("KIND") == "frame"
    } else {
        !request.flag("initial")
    }
}

/// What is told of arguments that exclude each other.
const CONFLICT: &str =
    "'--key <BDK>' requires the KIND frame, and '--initial' requires '--key <BDK>'";

/// The most bytes of a log, a journal or a ledger that comes through a pipe, and of a log that a fault is
/// explained by.
pub(crate) const LONGEST_LOG: usize = 1 << 30;

/// Prints what a request asks for of its text or its file, and hands that on.
pub(crate) fn show_asked<S: FileSystem, W: Sink>(
    alloc: Global,
    files: &S,
    request: &Request<'_>,
    output: &mut W,
) -> Result<(), Fault>
    ensures done { OnOk result (HasShownAsked request.now
        (S.held files.now (text_in (codes "WHAT") request.now)) (W.known output.old)
        (W.known output.new)) }
    ensures handed_on { OnOk result (IsHandedOn (W.held_back output.new)) }
    ensures not_done { IfErr result (λ why. HasNotShownAsked request.now
        (S.held files.now (text_in (codes "WHAT") request.now)) (W.known output.old) why
        (W.known output.new)) }
{
    show_text(
        alloc,
        files,
        request.text("KIND"),
        request.text("WHAT"),
        request.flag("show"),
        key_of_frame(request),
        output,
    )
}

/// The key that a request has for the MAC of a frame.
fn key_of_frame<'a>(request: &Request<'a>) -> Option<KeyArgument<'a>>
    ensures { IsKeyOfFrame request.now result }
{
    let key = request.value("key")?;
    Some(KeyArgument::new(key, request.flag("initial")))
}

/// Prints what a text of its kind says, or the log or the journal in the file under a path, and hands
/// that on. A key tests the MAC of a frame.
fn show_text<S: FileSystem, W: Sink>(
    alloc: Global,
    files: &S,
    kind: &str,
    what: &str,
    show: bool,
    key: Option<KeyArgument<'_>>,
    output: &mut W,
) -> Result<(), Fault>
    ensures done { OnOk result (HasShownText
        (show_arguments kind.now what.now show key.entry (S.held files.now what.now))
        (W.known output.old) (W.known output.new)) }
    ensures handed_on { OnOk result (IsHandedOn (W.held_back output.new)) }
    ensures not_done { IfErr result (λ why. HasNotShownText
        (show_arguments kind.now what.now show key.entry (S.held files.now what.now))
        (W.known output.old) why (W.known output.new)) }
{
    let ended = print_text(alloc, files, kind, what, show, key, output);
    hand_on(
        ended,
        Fault::Command(duk_commands::Fault::WriteFailed),
        output,
    )
}

/// The same, but what is printed may still be held back.
fn print_text<S: FileSystem, W: Sink>(
    alloc: Global,
    files: &S,
    kind: &str,
    what: &str,
    show: bool,
    key: Option<KeyArgument<'_>>,
    output: &mut W,
) -> Result<(), Fault>
    ensures done { OnOk result (IsShown
        (show_arguments kind.now what.now show key.entry (S.held files.now what.now))
        (W.known output.old) (W.known output.new)) }
    ensures not_done { IfErr result (λ why. IsNotShown
        (show_arguments kind.now what.now show key.entry (S.held files.now what.now))
        (W.known output.old) why (W.known output.new)) }
{
    duk_io::laws::writes();
    let text = match shown_text(alloc, files, kind, what, show, key) {
        Ok(text) => text,
        Err(why) => return Err(Fault::Show(why)),
    };
    match write_text(output, text.as_slice()) {
        Ok(()) => Ok(()),
        Err(_) => Err(Fault::Command(duk_commands::Fault::WriteFailed)),
    }
}

/// What is shown of a text of its kind, or of the log, the journal or the ledger in the file under a
/// path; or why not.
fn shown_text<S: FileSystem>(
    alloc: Global,
    files: &S,
    kind: &str,
    what: &str,
    show: bool,
    key: Option<KeyArgument<'_>>,
) -> Result<Vec<u8>, ShowFault>
    ensures text { IfOk result (λ text. IsShowText
        (show_arguments kind.now what.now show key.entry (S.held files.now what.now)) text.items) }
    ensures refused { IfErr result (IsShowRefused
        (show_arguments kind.now what.now show key.entry (S.held files.now what.now))) }
{
    match kind {
        "frame" => match key {
            None => frame_text(alloc, what),
            Some(key) => checked_text(alloc, what, show, key),
        },
        "block" => block_text(alloc, what),
        "image" => image_text(alloc, what, show),
        "log" => log_text(alloc, files, what),
        "journal" => journal_text(alloc, files, what),
        "ledger" => ledger_text(alloc, files, what),
        _ => Err(ShowFault::KindRefused),
    }
}

/// The text of a frame.
fn frame_text(alloc: Global, what: &str) -> Result<Vec<u8>, ShowFault>
    ensures text { IfOk result (λ text. IsFrameText what.now text.items) }
    ensures refused { IfErr result (λ why. IsFrameRefused what.now why ⊎ (why ≡ OutOfMemory)) }
{
    match frame_lines(alloc, what) {
        Ok(lines) => text_of(alloc, lines.as_slice()),
        Err(why) => Err(why),
    }
}

/// The text of a frame whose MAC is tested.
fn checked_text(
    alloc: Global,
    what: &str,
    show: bool,
    key: KeyArgument<'_>,
) -> Result<Vec<u8>, ShowFault>
    ensures text { IfOk result (λ text. IsCheckedText key.entry what.now show text.items) }
    ensures refused { IfErr result (λ why. IsCheckRefused key.entry what.now why ⊎ (why ≡ OutOfMemory)) }
{
    match checked_frame_lines(alloc, key, what, show) {
        Ok(lines) => text_of(alloc, lines.as_slice()),
        Err(why) => Err(why),
    }
}

/// The text of a key block.
fn block_text(alloc: Global, what: &str) -> Result<Vec<u8>, ShowFault>
    ensures text { IfOk result (λ text. IsBlockText what.now text.items) }
    ensures refused { IfErr result (λ why. IsBlockRefused what.now why ⊎ (why ≡ OutOfMemory)) }
{
    match block_lines(what) {
        Ok(lines) => text_of(alloc, lines.as_slice()),
        Err(why) => Err(why),
    }
}

/// The text of a terminal's image.
fn image_text(alloc: Global, what: &str, show: bool) -> Result<Vec<u8>, ShowFault>
    ensures text { IfOk result (λ text. IsImageText what.now show text.items) }
    ensures refused { IfErr result (λ why. IsImageRefused what.now why ⊎ (why ≡ OutOfMemory)) }
{
    match image_lines(alloc, what, show) {
        Ok(lines) => text_of(alloc, lines.as_slice()),
        Err(why) => Err(why),
    }
}

/// These bytes, in a vector.
fn text_of(alloc: Global, lines: &[u8]) -> Result<Vec<u8>, ShowFault>
    ensures text { IfOk result (λ text. text.items ≡ lines.now) }
    ensures refused { IfErr result (λ why. why ≡ OutOfMemory) }
{
    Vec::from_slice(alloc, lines).map_err(|_| ShowFault::OutOfMemory)
}

/// The text of the log in the file under a path.
fn log_text<S: FileSystem>(alloc: Global, files: &S, path: &str) -> Result<Vec<u8>, ShowFault>
    ensures text { IfOk result (λ text. IsLogFileText (S.held files.now path.now) text.items) }
    ensures refused { IfErr result (IsLogFileRefused (S.held files.now path.now)) }
{
    match files.read_stored(alloc, path, LONGEST_LOG) {
        Ok(bytes) => log_lines(alloc, bytes.as_slice()),
        Err(FileFault::NoMemory) => Err(ShowFault::OutOfMemory),
        Err(FileFault::TooLong) => Err(ShowFault::LogTooLong),
        Err(FileFault::CannotRead) => Err(ShowFault::LogUnread),
    }
}

/// The text of the journal in the file under a path.
fn journal_text<S: FileSystem>(alloc: Global, files: &S, path: &str) -> Result<Vec<u8>, ShowFault>
    ensures text { IfOk result (λ text. IsJournalFileText (S.held files.now path.now) text.items) }
    ensures refused { IfErr result (IsJournalFileRefused (S.held files.now path.now)) }
{
    match files.read_stored(alloc, path, LONGEST_LOG) {
        Ok(bytes) => journal_lines(alloc, bytes.as_slice()),
        Err(FileFault::NoMemory) => Err(ShowFault::OutOfMemory),
        Err(FileFault::TooLong) => Err(ShowFault::JournalTooLong),
        Err(FileFault::CannotRead) => Err(ShowFault::JournalUnread),
    }
}

/// The text of the ledger in the file under a path.
fn ledger_text<S: FileSystem>(alloc: Global, files: &S, path: &str) -> Result<Vec<u8>, ShowFault>
    ensures text { IfOk result (λ text. IsLedgerFileText (S.held files.now path.now) text.items) }
    ensures refused { IfErr result (IsLedgerFileRefused (S.held files.now path.now)) }
{
    match files.read_stored(alloc, path, LONGEST_LOG) {
        Ok(bytes) => ledger_lines(alloc, bytes.as_slice()),
        Err(FileFault::NoMemory) => Err(ShowFault::OutOfMemory),
        Err(FileFault::TooLong) => Err(ShowFault::LedgerTooLong),
        Err(FileFault::CannotRead) => Err(ShowFault::LedgerUnread),
    }
}

/// The shape of what is shown of a kind.
pub(crate) fn shape_of_kind(kind: &str) -> Shape {
    match kind {
        "frame" => Shape::Items(FRAME),
        "block" => Shape::Items(BLOCK),
        "image" => Shape::Items(IMAGE),
        _ => Shape::Whole,
    }
}

/// The names of the lines of a frame.
const FRAME: &[&str] = &[
    "frame",
    "ksn",
    "pan",
    "amount",
    "pin-block",
    "code",
    "reason",
    "reversed",
    "state",
    "mac",
    "mac-expected",
    "mac-check",
    "clear-pin-block",
];

/// The names of the lines of a key block.
const BLOCK: &[&str] = &[
    "version",
    "length",
    "usage",
    "algorithm",
    "mode",
    "key-version",
    "exportability",
    "optional-blocks",
    "reserved",
    "optional-block",
    "ciphertext",
    "mac",
];

/// The names of the lines of an image.
const IMAGE: &[&str] = &["version", "iksn", "next", "register", "past"];

/// At the end of its help.
const HELP: &str = "\
Prints each field on a line, its name first. KIND says what WHAT is: `frame` a frame in hexadecimal,
`block` a key block, `image` a terminal's image in hexadecimal, `log` the file of a log of used
numbers, `journal` the file of a journal of payments, `ledger` the file of a ledger of issued keys.
--show prints the keys of an image's registers.
With --key, of a frame alone, `mac-expected` is its MAC under the key of its number, and `mac-check` is
`right` or `wrong`; with --show too a request's PIN block is deciphered. A refusal has no MAC.
Without --key nothing is deciphered and no MAC is tested.
With - for WHAT of the first three, and no --key, texts of KIND are read from standard input, one a line; one that
is refused has the line of its fault in its place.

WHAT and BDK are better written as @FILE (the first line of a file) or @- (of standard input): every
user of the machine sees the words of a process, of a frame the PAN and of an image the keys. WHAT of a
log, a journal or a ledger is its path, with ./ before one that begins with @.

Examples:
  $ echo 002E0101FFFF9876543210E000010D34303132333435363738393039000003E81B9C1845EB993A7A25ECC2EEB37FB551 >frame.txt
  $ dukpt show frame @frame.txt
  frame request
  ksn FFFF9876543210E00001
  pan 4012345678909
  amount 1000
  pin-block 1B9C1845EB993A7A
  mac 25ECC2EEB37FB551
  $ echo 0123456789ABCDEFFEDCBA9876543210 >bdk.txt
  $ dukpt show frame @frame.txt --key @bdk.txt | tail -n 2
  mac-expected 25ECC2EEB37FB551
  mac-check right

Faults, on standard error with status 1, the first alone; --explain says more:
  NAME: ..                The argument NAME as @FILE or @-: cannot read, too long, not UTF-8
  KIND refused            KIND is not frame, block, image, log, journal or ledger
  BDK refused             BDK is not 32 hexadecimal digits
  initial refused         The same, with --initial
  frame refused at N: ..  WHAT is no frame: the place where reading stopped, from 0, and why
  KSN refused             With --key: the counter of the frame is zero or has more than ten one bits
  block refused at N: ..  WHAT is no key block: the same
  image refused at N: ..  WHAT is no image: the same
  log refused at N: ..    WHAT is a damaged log: the same, of its records
  log: ..                 WHAT is the path of a file: cannot read, too long
  journal refused at N    WHAT is a damaged journal: the same, of its records
  journal: ..             WHAT is the path of a file: cannot read, too long
  ledger refused at N     WHAT is a damaged ledger: the same, of its records
  ledger: ..              WHAT is the path of a file: cannot read, too long
  batch: ..               With - for WHAT: items refused, read failed
  write failed            Standard output takes no more
  out of memory           Memory was refused";
