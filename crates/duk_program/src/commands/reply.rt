//! The command `reply`: tells what an answer to a request is.

ghost use Rattle.std.specs.Prelude.{◌≡◌, IfErr, IfOk, MatchBool};
ghost use Rattle.duk_program.specs.CommandLine.{row_of};
ghost use Rattle.duk_program.specs.inner.CommandLine.{row_of_usage};
ghost use Rattle.duk_program.specs.Refusal.{AsksOfRefusal, IsEndStatus, IsRefusalText};
ghost use Rattle.duk_program.specs.Commands.{command_by};

use crate::command_line::arguments::Form::Reference;
use crate::command_line::arguments::{Argument, BDK, INITIAL_KEY, Usage, Way};
use crate::command_line::{CommandName, Request};
use crate::commands::key_of;
use crate::shape::{Answers, Shape};
use duk_commands::{Fault, Lines, reply_lines};
use duk_frame::{AnswerFrame, read_answer};
use std::alloc::Global;

/// `reply BDK REQUEST ANSWER [--initial]`
pub(crate) fn usage<'a>() -> Usage<'a>
    ensures { row_of_usage result ≡ row_of CommandName.Reply }
{
    Usage {
        name: "reply",
        way: Way::Lines,
        answers: Answers::Are(Shape::Whole),
        about: "Checks the answer frame to a request frame or to a reversal",
        after_help: HELP,
        conflict: None,
        arguments: &[
            BDK,
            Argument::Needed(
                Reference,
                "REQUEST",
                "The request frame or reversal in hexadecimal",
            ),
            Argument::Needed(Reference, "ANSWER", "The answer frame in hexadecimal"),
            INITIAL_KEY,
        ],
    }
}

/// The bytes of a refusal's frame.
const REFUSAL_LENGTH: usize = 15;

/// The status of a request that is done: 0, or 3 where it asks `reply` of a refusal, which nothing
/// authenticates.
pub(crate) fn end_status(request: &Request<'_>) -> u8
    ensures { IsEndStatus request.now result }
{
    if asks_of_refusal(request) { 3 } else { 0 }
}

/// Whether a request asks `reply` of a refusal.
fn asks_of_refusal(request: &Request<'_>) -> bool
    ensures { MatchBool result (AsksOfRefusal request.now) (¬ AsksOfRefusal request.now) }
{
    match request.command() {
        CommandName::Reply => is_refusal(request.text("ANSWER")),
        _ => false,
    }
}

/// Whether a text is the frame of a refusal in hexadecimal.
fn is_refusal(text: &str) -> bool
    ensures { MatchBool result (IsRefusalText text.now) (¬ IsRefusalText text.now) }
{
    duk_tree::laws::serials();
    let mut bytes = [0; REFUSAL_LENGTH];
    if hex::decode_to_slice(text, &mut bytes).is_err() {
        return false;
    }
    match read_answer(&bytes) {
        Some(AnswerFrame::Refusal { .. }) => true,
        Some(AnswerFrame::Reply { .. }) => false,
        None => false,
    }
}

/// The lines of a request, or why it is refused.
pub(super) fn lines(alloc: Global, request: &Request<'_>) -> Result<Lines, Fault>
    ensures lines { IfOk result
        (λ lines. (command_by CommandName.Reply request.now).writes lines.items) }
    ensures refused { IfErr result (command_by CommandName.Reply request.now).refuses }
{
    let (sent, answer) = (request.text("REQUEST"), request.text("ANSWER"));
    Ok(reply_lines(alloc, key_of(request), sent, answer)?.lines)
}

/// At the end of its help.
const HELP: &str = "\
`accepted` is printed of a reply with a right MAC, with its code; `refused` of a refusal, which has
no MAC, with its reason: the status is 3 then, since nothing authenticates it. A refusal of no
number has a key serial number of zeros. Of a reversal's reply with a right MAC it is `undone` or
`none stands`, with the number that is reversed.

BDK is better written as @FILE (the first line of a file) or @- (of standard input): every user of
the machine sees the words of a process.

Example:
  $ echo 0123456789ABCDEFFEDCBA9876543210 >bdk.txt
  $ dukpt reply @bdk.txt 002E0101FFFF9876543210E000010D34303132333435363738393039000003E81B9C1845EB993A7A25ECC2EEB37FB551 00160102FFFF9876543210E000013030591B50E0CA98FE70
  accepted FFFF9876543210E00001 00

Faults, on standard error with status 1, the first alone; --explain says more:
  NAME: ..         The argument NAME as @FILE or @-: cannot read, too long, not UTF-8
  BDK refused      BDK is not 32 hexadecimal digits
  initial refused  The same, with --initial
  request refused  REQUEST is no request frame and no reversal, or its counter is not usable
  answer refused   ANSWER is no answer frame
  NotMine          ANSWER is to another number, or of another kind
  BadMac           ANSWER was changed, or BDK is another key
  write failed     Standard output takes no more
  out of memory    Memory was refused";
