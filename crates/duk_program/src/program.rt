//! A run of the program.

ghost use Rattle.std.specs.Prelude.{◌≡◌};
ghost use Rattle.std.specs.Io.KnownBytes.{Keeps};
ghost use Rattle.duk_program.specs.Asked.{AreRefused, Asks, texts_of};
ghost use Rattle.duk_arguments.specs.Request.{Written};
ghost use Rattle.duk_io.specs.Sink.{IsHandedOn};
ghost use Rattle.duk_program.specs.Fault.{IsTold};
ghost use Rattle.duk_program.specs.Meant.{IsEndedAs, IsRequestDone, IsRequestNotDone, IsUnended};
ghost use Rattle.duk_program.specs.Options.{is_marked, without_explain};
ghost use Rattle.duk_program.specs.Own.{MayUseOwn};
ghost use Rattle.duk_program.specs.Program.{IsProgramDone, IsProgramNotDone, IsToldAfter};
ghost use Rattle.duk_program.specs.Refusal.{IsDoneStatus, IsProgramStatus};
ghost use Rattle.duk_program.specs.Roots.{IsNoteOf};
ghost use Rattle.duk_program.specs.Scene.{scene};
ghost use Rattle.duk_program.specs.inner.Status.{IsRequestStatus};
ghost use Rattle.duk_service.specs.Serve.{serving_of};

use crate::answer::answer;
use crate::command_line::{CommandName, Request, read_request};
use crate::commands::reply::end_status;
use crate::explaining::{equal_roots, explanation};
use crate::fault::Fault;
use crate::meant::meant_by;
use crate::options::take_option;
use crate::references::read_texts;
use crate::shown::show;
use duk_commands::tell;
use duk_io::{Sink, Source};
use duk_service::{FileSystem, LogFiles};
use std::alloc::Global;

/// Does what the arguments ask, the first of which is the program's name, and gives the status: 0
/// where that is done and handed on, and 3 where it is `reply` of a refusal; 1 with the line of a fault
/// on `fault`; 2 where the arguments are refused, with the reason there. With the option `--explain`
/// among them another line tells, behind that of a fault, what was found, and what is wanted, and
/// before all else a line of a configuration in which two prefixes have one key. The option is taken
/// out of the arguments.
///
/// That line tells nothing of a secret but its length, and the first place that is wrong. What it
/// tells of a file is what the system says of it after the fault.
pub fn run_program<S: FileSystem + LogFiles, R: Source, W: Sink, F: Sink>(
    alloc: Global,
    files: &S,
    arguments: &mut Vec<String>,
    input: &mut R,
    output: &mut W,
    fault: &mut F,
) -> u8
    requires { (asked : Written) → Asks (without_explain (texts_of arguments.old.items)) asked
        → MayUseOwn (S.may_write files.now) (S.may_make files.now) asked }
    ensures status { IsProgramStatus result }
    ensures handed_on { IsDoneStatus result → IsHandedOn (W.held_back output.old)
        → IsHandedOn (W.held_back output.new) }
    ensures refused { result ≡ 2
        → Keeps (W.known output.old).contents (W.known output.new).contents }
    ensures left { result ≡ 2 → R.known input.new ≡ R.known input.old }
    ensures arguments_refused { result ≡ 2
        → AreRefused (without_explain (texts_of arguments.old.items)) }
    ensures done { IsDoneStatus result → IsProgramDone result
        (is_marked (texts_of arguments.old.items)) S.Disk.meaning (without_explain (texts_of arguments.old.items)) (scene
        (S.held files.now) (S.disks files.now) (S.making files.now) (serving_of R.known R.reads W.known input.old
        input.new output.old output.new) (F.known fault.old) (F.known fault.new)) }
    ensures not_done { result ≡ 1 → IsProgramNotDone (is_marked (texts_of arguments.old.items))
        S.Disk.meaning (without_explain (texts_of arguments.old.items)) (scene
        (S.held files.now) (S.disks files.now) (S.making files.now) (serving_of R.known R.reads W.known input.old
        input.new output.old output.new) (F.known fault.old) (F.known fault.new)) }
{
    let explain = take_option(arguments, "--explain");
    match read_request(alloc, arguments.as_slice()) {
        Ok(request) => run_request(alloc, files, request, explain, input, output, fault),
        Err(answer) => show(&answer, output, fault),
    }
}

/// Does a request, and gives the status: 0, of a refusal 3, or 1 with a fault that is told. Its secrets
/// are read first.
fn run_request<S: FileSystem + LogFiles, R: Source, W: Sink, F: Sink>(
    alloc: Global,
    files: &S,
    request: Request<'_>,
    explain: bool,
    input: &mut R,
    output: &mut W,
    fault: &mut F,
) -> u8
    requires { MayUseOwn (S.may_write files.now) (S.may_make files.now) request }
    ensures status { IsRequestStatus result }
    ensures handed_on { IsDoneStatus result → IsHandedOn (W.held_back output.old)
        → IsHandedOn (W.held_back output.new) }
    ensures done { IsDoneStatus result → IsRequestDone result explain S.Disk.meaning (scene (S.held files.now)
        (S.disks files.now) (S.making files.now) (serving_of R.known R.reads W.known input.old input.new output.old
        output.new) (F.known fault.old) (F.known fault.new)) request.entry }
    ensures not_done { result ≡ 1 → IsToldAfter explain (IsRequestNotDone explain S.Disk.meaning)
        (scene (S.held files.now) (S.disks files.now) (S.making files.now) (serving_of R.known R.reads W.known
        input.old input.new output.old output.new) (F.known fault.old) (F.known fault.new))
        request.entry }
{
    duk_io::laws::writes();
    let texts = match read_texts(alloc, files, &request, input) {
        Ok(texts) => texts,
        Err(why) => return end_with(
            alloc,
            files,
            &request,
            &request,
            explain,
            &Fault::Secret(why),
            fault,
        ),
    };
    match meant_by(alloc, &request, texts.as_slice()) {
        Ok(meant) => run_meant(
            alloc, files, &request, &meant, explain, input, output, fault,
        ),
        Err(why) => end_with(
            alloc,
            files,
            &request,
            &request,
            explain,
            &Fault::Secret(why),
            fault,
        ),
    }
}

/// The same of a request whose secrets are read: as it was written, and as it was read. Its note comes
/// first.
fn run_meant<S: FileSystem + LogFiles, R: Source, W: Sink, F: Sink>(
    alloc: Global,
    files: &S,
    written: &Request<'_>,
    meant: &Request<'_>,
    explain: bool,
    input: &mut R,
    output: &mut W,
    fault: &mut F,
) -> u8
    requires { MayUseOwn (S.may_write files.now) (S.may_make files.now) meant.now }
    ensures status { IsRequestStatus result }
    ensures handed_on { IsDoneStatus result → IsHandedOn (W.held_back output.old)
        → IsHandedOn (W.held_back output.new) }
    ensures done { IsDoneStatus result → IsEndedAs result explain S.Disk.meaning (scene (S.held files.now)
        (S.disks files.now) (S.making files.now) (serving_of R.known R.reads W.known input.old input.new output.old
        output.new) (F.known fault.old) (F.known fault.new)) meant.now }
    ensures not_done { result ≡ 1 → IsToldAfter explain (IsUnended explain S.Disk.meaning)
        (scene (S.held files.now) (S.disks files.now) (S.making files.now) (serving_of R.known R.reads W.known
        input.old input.new output.old output.new) (F.known fault.old) (F.known fault.new))
        meant.now }
{
    tell_roots(alloc, files, written, meant, explain, fault);
    match answer(alloc, files, meant, explain, input, output, fault) {
        Ok(()) => end_status(meant),
        Err(why) => end_with(alloc, files, written, meant, explain, &why, fault),
    }
}

/// With `explain`, tells that two prefixes of a configuration have one key, where that is so.
fn tell_roots<S: FileSystem, F: Sink>(
    alloc: Global,
    files: &S,
    written: &Request<'_>,
    about: &Request<'_>,
    explain: bool,
    fault: &mut F,
)
    ensures { IsNoteOf about.now.command explain (F.known fault.old) (F.known fault.new) }
{
    duk_io::laws::writes();
    if !explain {
        return;
    }
    match about.command() {
        CommandName::Run | CommandName::Serve => {
            if let Some(line) = equal_roots(alloc, files, written, about) {
                tell(fault, line.as_slice());
            }
        }
        _ => {}
    }
}

/// Tells the fault of a request, with `explain` with a line that explains it behind, and gives the
/// status 1.
fn end_with<S: FileSystem + LogFiles, F: Sink>(
    alloc: Global,
    files: &S,
    written: &Request<'_>,
    about: &Request<'_>,
    explain: bool,
    why: &Fault,
    fault: &mut F,
) -> u8
    requires { MayUseOwn (S.may_write files.now) (S.may_make files.now) about.now }
    ensures status { result ≡ 1 }
    ensures told { IsTold explain why.now (F.known fault.old) (F.known fault.new) }
{
    why.tell(fault);
    if explain {
        let text = explanation(alloc, files, written, about, why);
        tell(fault, text.as_slice());
    }
    1
}
