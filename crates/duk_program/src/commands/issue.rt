//! The command `issue`: makes loading blocks of new terminals, each number once.

ghost use Rattle.std.specs.Prelude.{◌*◌, ◌≡◌, ◌≤◌, IfErr, IfOk, IfSome, OnOk, codes, length};
ghost use Rattle.duk_program.specs.CommandLine.{row_of};
ghost use Rattle.duk_program.specs.inner.CommandLine.{row_of_usage};
ghost use Rattle.std.specs.Option.{option_copied};
ghost use Rattle.duk_arguments.specs.Request.{text_in, value_in};
ghost use Rattle.duk_commands.specs.Answer.{streams};
ghost use Rattle.duk_io.specs.Sink.{IsHandedOn};
ghost use Rattle.duk_ledger.specs.Ledger.{ledger_meaning};
ghost use Rattle.duk_commands.specs.Issue.{ends};
ghost use Rattle.duk_commands.specs.Order.{IsOrderOf, IsOrderRefused};
ghost use Rattle.duk_program.specs.Random.{random_device};
ghost use Rattle.duk_service.specs.Files.{IsFrontRead};
ghost use Rattle.duk_program.specs.IssueFiles.{HasIssuedFiles, HasMadeLines, HasNotIssuedFiles, HasNotMadeLines, IsIssuedOver, IsIssuedTo, IsIssuedToFile, IsLedgerOpened, IsLedgerUnopened, IsNotIssuedOver, IsNotIssuedTo, IsNotIssuedToFile, IsNoted, IsPaddingRefused, if_issued_in, issue_files_known, issuing, order_in};
ghost use Rattle.duk_program.specs.inner.IssueFiles.{task_of};

use crate::command_line::arguments::Form::{Plain, Reference};
use crate::command_line::arguments::{Argument, BDK, Usage, Way};
use crate::command_line::{CommandName, Request};
use crate::random::RANDOM;
use crate::shape::{Answers, Shape};
use duk_commands::hand_on;
use duk_commands::issue::{
    IssueFault, Order, PADDING_LENGTH, issue, issue_again, note_passed_over,
};
use duk_io::Sink;
use duk_ledger::{IssuedFormat, Ledger};
use duk_service::{Access, FileFault, FileSystem, LogFiles, OpenFault, RecordFormat, open_own};
use duk_store::{Disk, Records};
use std::alloc::Global;

/// `issue BDK LOADING IKSN COUNT --ledger FILE [--bdk-kcv KCV] [--out FILE] [--skip-issued] [--again]`
pub(crate) fn usage<'a>() -> Usage<'a>
    ensures { row_of_usage result ≡ row_of CommandName.Issue }
{
    Usage {
        name: "issue",
        way: Way::Told,
        answers: Answers::Are(Shape::Issued),
        about: "Issues the initial keys (IPEK) of terminals as loading blocks, each once",
        after_help: HELP,
        conflict: None,
        arguments: &[
            BDK,
            Argument::Needed(
                Reference,
                "LOADING",
                "The key block protection key of the loading blocks, 32 or 48 hexadecimal digits",
            ),
            Argument::Needed(
                Reference,
                "IKSN",
                "The first initial key serial number, 20 hexadecimal digits",
            ),
            Argument::Needed(
                Reference,
                "COUNT",
                "How many initial keys to issue, at most 524288",
            ),
            Argument::Named(
                Plain,
                "ledger",
                "FILE",
                "Keeps the issued numbers in this file, which has to be there",
            ),
            Argument::Valued(
                Reference,
                "bdk-kcv",
                "KCV",
                "Issues nothing unless BDK has this check value, 6 hexadecimal digits",
            ),
            Argument::Valued(
                Plain,
                "out",
                "FILE",
                "Writes the lines to this file, which is made, and syncs each before the next",
            ),
            Argument::Flag(
                "skip-issued",
                "Passes over the numbers that are issued already, and says how many",
            ),
            Argument::Flag(
                "again",
                "Makes the lines of numbers that are issued already again, and issues none",
            ),
        ],
    }
}

/// What becomes of numbers that are issued already.
#[derive(Clone, Copy, Debug, PartialEq, Eq)]
pub(crate) enum IfIssued {
    /// With one of them nothing is issued.
    Refuse,
    /// They are passed over.
    PassOver,
    /// Their lines are made again, and no number is issued.
    MakeAgain,
}

impl IfIssued {
    /// By what a request says: that numbers are made again goes before that they are passed over.
    fn by(request: &Request<'_>) -> IfIssued
        ensures { result ≡ if_issued_in request.now }
    {
        match (request.flag("again"), request.flag("skip-issued")) {
            (true, _) => IfIssued::MakeAgain,
            (false, true) => IfIssued::PassOver,
            (false, false) => IfIssued::Refuse,
        }
    }
}

/// An order of initial keys, what becomes of those that are issued already, and the bytes of padding
/// for its key blocks.
#[derive(Clone, Copy)]
pub(crate) struct Task<'a> {
    order: &'a Order,
    if_issued: IfIssued,
    padding: &'a [u8],
}

/// Issues the initial keys that a request asks for, or makes their lines again, over the ledger in its
/// file. The lines go to `output`, or to a new file, where each is kept before the
/// next number is. How many numbers were passed over stands on `fault` where there are any.
///
/// The faults, in this order: `BDK refused`, `loading refused`, `IKSN refused`, `count refused`, `KCV
/// refused`, `KCV differs`; `padding: cannot read`, where the system gives no random bytes; `ledger:
/// cannot open`, `ledger: failed`, `ledger: version 1, use copy-ledger`, where it has the form of a
/// log, and `ledger: damaged`, where its bytes are none that a ledger leaves; `out: cannot make`; then
/// those of `issue` or `issue_again`. `write failed` stands in place of any behind which lines could
/// not be handed on.
pub(crate) fn issue_files<S: FileSystem + LogFiles, W: Sink, F: Sink>(
    alloc: Global,
    files: &S,
    request: &Request<'_>,
    output: &mut W,
    fault: &mut F,
) -> Result<(), IssueFault>
    requires write { S.may_write files.now (text_in (codes "ledger") request.now) }
    requires make { IfSome (value_in (codes "out") request.now) (S.may_make files.now) }
    ensures done { OnOk result (HasIssuedFiles S.Disk.meaning
        (issue_files_known (S.held files.now)
        (S.disks files.now (text_in (codes "ledger") request.now)) (S.making files.now))
        request.now (streams (W.known output.old) (W.known output.new)
        (F.known fault.old) (F.known fault.new))) }
    ensures handed_on { OnOk result (IsHandedOn (W.held_back output.new)) }
    ensures not_done { IfErr result (HasNotIssuedFiles S.Disk.meaning
        (issue_files_known (S.held files.now)
        (S.disks files.now (text_in (codes "ledger") request.now)) (S.making files.now))
        request.now (streams (W.known output.old) (W.known output.new)
        (F.known fault.old) (F.known fault.new))) }
{
    duk_io::laws::writes();
    let order = read_order(request)?;
    let padding = match read_padding(alloc, files, order.count) {
        Ok(padding) => padding,
        Err(why) => return Err(why),
    };
    let disk = match open_ledger(files, request.text("ledger")) {
        Ok(disk) => disk,
        Err(why) => return Err(why),
    };
    let task = Task {
        order: &order,
        if_issued: IfIssued::by(request),
        padding: padding.as_slice(),
    };
    let ledger = Records::new(disk, IssuedFormat {});
    let out = request.value("out");
    issue_to(alloc, files, &task, out, ledger, output, fault)
}

/// Reads the order of a request.
fn read_order(request: &Request<'_>) -> Result<Order, IssueFault>
    ensures read { IfOk result (IsOrderOf (order_in request.now)) }
    ensures refused { IfErr result (IsOrderRefused (order_in request.now)) }
{
    Order::read(
        request.text("BDK"),
        request.text("LOADING"),
        request.text("IKSN"),
        request.text("COUNT"),
        request.value("bdk-kcv"),
    )
}

/// Random bytes of the system, for the key blocks of so many terminals.
fn read_padding<S: FileSystem>(alloc: Global, files: &S, count: u32) -> Result<Vec<u8>, IssueFault>
    requires { count ≤ 524288 }
    ensures read { IfOk result
        (λ bytes. IsFrontRead (S.held files.now random_device) (6 * count) bytes.items) }
    ensures refused { IfErr result
        (IsPaddingRefused (S.held files.now random_device) count) }
{
    match files.read_front(alloc, RANDOM, PADDING_LENGTH * count as usize) {
        Ok(bytes) => Ok(bytes),
        Err(FileFault::NoMemory) => Err(IssueFault::OutOfMemory),
        Err(_) => Err(IssueFault::PaddingUnread),
    }
}

/// Opens the file of a ledger. It keeps what `issue` kept there, or nothing is opened.
fn open_ledger<S: LogFiles>(files: &S, ledger: &str) -> Result<S::Disk, IssueFault>
    requires { S.may_write files.now ledger.now }
    ensures opened { IfOk result (IsLedgerOpened S.Disk.meaning (S.disks files.now ledger.now)) }
    ensures refused { IfErr result (IsLedgerUnopened S.Disk.meaning (S.disks files.now ledger.now)) }
{
    match open_own(files, ledger, RecordFormat::Ledger, Access::Write) {
        Ok(disk) => Ok(disk),
        Err(OpenFault::Unopened) => Err(IssueFault::LedgerUnopened),
        Err(OpenFault::Failed) => Err(IssueFault::LedgerFailed),
        Err(OpenFault::OldVersion) => Err(IssueFault::LedgerOldVersion),
        Err(OpenFault::Foreign) => Err(IssueFault::LedgerDamaged),
    }
}

/// Does a task over a ledger, with its lines on `output`, or in a new file under a path.
fn issue_to<S: LogFiles, D: Disk, W: Sink, F: Sink>(
    alloc: Global,
    files: &S,
    task: &Task<'_>,
    out: Option<&str>,
    ledger: Ledger<D>,
    output: &mut W,
    fault: &mut F,
) -> Result<(), IssueFault>
    requires padding { 6 * task.now.order.now.count ≤ length task.now.padding.now }
    requires make { IfSome (option_copied out) (S.may_make files.now) }
    ensures done { OnOk result (IsIssuedTo (ledger_meaning D.meaning) (S.making files.now)
        (option_copied out.entry) (task_of task.now) (issuing ledger (streams
        (W.known output.old) (W.known output.new) (F.known fault.old) (F.known fault.new)))) }
    ensures handed_on { OnOk result (IsHandedOn (W.held_back output.new)) }
    ensures not_done { IfErr result (IsNotIssuedTo (ledger_meaning D.meaning) (S.making files.now)
        (option_copied out.entry) (task_of task.now) (issuing ledger (streams
        (W.known output.old) (W.known output.new) (F.known fault.old) (F.known fault.new)))) }
{
    match out {
        Some(path) => issue_to_file(alloc, files, task, path, ledger, output, fault),
        None => issue_over(alloc, task, ledger, output, fault),
    }
}

/// Does a task over a ledger, with its lines in a new file under a path. Of a file that was made, and
/// in which there is no line, nothing is left, if it can be removed.
fn issue_to_file<S: LogFiles, D: Disk, W: Sink, F: Sink>(
    alloc: Global,
    files: &S,
    task: &Task<'_>,
    path: &str,
    ledger: Ledger<D>,
    output: &mut W,
    fault: &mut F,
) -> Result<(), IssueFault>
    requires padding { 6 * task.now.order.now.count ≤ length task.now.padding.now }
    requires make { S.may_make files.now path.now }
    ensures done { OnOk result (IsIssuedToFile (ledger_meaning D.meaning) (S.making files.now path.now).lines
        (task_of task.now) (issuing ledger (streams
        (W.known output.old) (W.known output.new) (F.known fault.old) (F.known fault.new)))) }
    ensures handed_on { OnOk result (IsHandedOn (W.held_back output.new)) }
    ensures not_done { IfErr result (IsNotIssuedToFile (ledger_meaning D.meaning)
        (S.making files.now path.now).lines (task_of task.now) (issuing ledger (streams
        (W.known output.old) (W.known output.new) (F.known fault.old) (F.known fault.new)))) }
{
    duk_io::laws::writes();
    if output.flush().is_err() {
        return Err(IssueFault::WriteFailed);
    }
    let mut lines = match files.make_lines(path) {
        Ok(lines) => lines,
        Err(_) => return Err(IssueFault::OutUnmade),
    };
    let ended = issue_over(alloc, task, ledger, &mut lines, fault);
    files.remove_empty(path, lines);
    ended
}

/// Does a task over a ledger, hands the lines on, and notes how many numbers were passed over, where
/// there are any.
fn issue_over<D: Disk, W: Sink, F: Sink>(
    alloc: Global,
    task: &Task<'_>,
    ledger: Ledger<D>,
    output: &mut W,
    fault: &mut F,
) -> Result<(), IssueFault>
    requires { 6 * task.now.order.now.count ≤ length task.now.padding.now }
    ensures done { OnOk result (IsIssuedOver (ledger_meaning D.meaning) (task_of task.now)
        (issuing ledger (streams (W.known output.old) (W.known output.new)
        (F.known fault.old) (F.known fault.new)))) }
    ensures handed_on { OnOk result (IsHandedOn (W.held_back output.new)) }
    ensures not_done { IfErr result (IsNotIssuedOver (ledger_meaning D.meaning) (task_of task.now)
        (issuing ledger (streams (W.known output.old) (W.known output.new)
        (F.known fault.old) (F.known fault.new)))) }
{
    duk_io::laws::writes();
    let mut ledger = ledger;
    let made = make_lines(alloc, task, &mut ledger, output);
    match hand_on(made, IssueFault::WriteFailed, output) {
        Ok(passed_over) => {
            note(passed_over, fault);
            Ok(())
        }
        Err(why) => Err(why),
    }
}

/// Notes how many numbers were passed over, where there are any.
fn note<F: Sink>(passed_over: u32, fault: &mut F)
    ensures { IsNoted passed_over (F.known fault.old) (F.known fault.new) }
{
    duk_io::laws::writes();
    if passed_over > 0 {
        note_passed_over(fault, passed_over);
    }
}

/// Writes the lines of a task, and gives how many numbers were passed over.
fn make_lines<D: Disk, W: Sink>(
    alloc: Global,
    task: &Task<'_>,
    ledger: &mut Ledger<D>,
    output: &mut W,
) -> Result<u32, IssueFault>
    requires { 6 * task.now.order.now.count ≤ length task.now.padding.now }
    ensures made { IfOk result (HasMadeLines (ledger_meaning D.meaning) (task_of task.now)
        (ends ledger.old (W.known output.old)) (ends ledger.new (W.known output.new))) }
    ensures unmade { IfErr result (HasNotMadeLines (ledger_meaning D.meaning) (task_of task.now)
        (ends ledger.old (W.known output.old)) (ends ledger.new (W.known output.new))) }
{
    let (order, padding) = (task.order, task.padding);
    match task.if_issued {
        IfIssued::Refuse => issue(alloc, order, false, padding, ledger, output),
        IfIssued::PassOver => issue(alloc, order, true, padding, ledger, output),
        IfIssued::MakeAgain => match issue_again(alloc, order, padding, ledger, output) {
            Ok(()) => Ok(0),
            Err(why) => Err(why),
        },
    }
}

/// At the end of its help.
const HELP: &str = "\
Issues COUNT initial keys, the first of IKSN and each at the next initial key serial number, as lines
`issued IKSN BLOCK KCV`. BLOCK is a key block under LOADING with the fields B1TX00N and random
padding, KCV the key's check value. All numbers have the first 40 bits of IKSN, which choose the base
derivation key. FILE of --ledger is a ledger, as new-ledger makes one: each number is in it before its
line is printed, with the check values of its key and of BDK, and the number of this run. None is issued
where it has one already; with --skip-issued those are passed over, and standard error says how many.
--again makes the lines of such numbers again. FILE of --out has each line on its medium before the next
number is spent.

BDK and LOADING are better written as @FILE (the first line of a file) or @- (of standard input):
every user of the machine sees the words of a process.

Example:
  $ echo 0123456789ABCDEFFEDCBA9876543210 >bdk.txt
  $ echo DD7515F2BFC17F85CE48F3CA25CB21F6 >loading.txt
  $ dukpt new-ledger issued.ledger 1000
  $ dukpt issue @bdk.txt @loading.txt FFFF9876543210E00000 1 --ledger issued.ledger | cut -d ' ' -f 1,2,4
  issued FFFF9876543210E00000 AF8C07

Faults, on standard error with status 1, the first alone; --explain says more:
  NAME: ..          The argument NAME as @FILE or @-: cannot read, too long, not UTF-8
  BDK refused       BDK is not 32 hexadecimal digits
  loading refused   LOADING is not 32 or 48 hexadecimal digits
  IKSN refused      IKSN is not 20 hexadecimal digits with a counter of zero
  count refused     COUNT is no number, zero, or more than are left with the first 40 bits of IKSN
  KCV refused       KCV is not 6 hexadecimal digits
  KCV differs       BDK has another check value
  padding: ..       The system's random device: cannot read
  ledger: ..        The ledger: cannot open, failed, version 1, damaged
  out: cannot make  There is such a file, or none can be made
  IKSN: issued      The first of the numbers that the ledger has already
  IKSN: not issued  The first of the numbers that it does not have, with --again
  ledger: full      It has no room for all that are to be issued, or its largest run is 4294967295
  write failed      Standard output, or the file of --out, takes no more
  out of memory     Memory was refused";
