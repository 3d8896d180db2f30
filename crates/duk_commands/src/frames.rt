//! The commands over frames: `request` and `reply`.

ghost use Rattle.std.specs.Prelude.{◌≡◌, ◌⊎◌, ◌<◌, ◌≤◌, ◌+◌, ◌++◌, ℕ, List, IfErr, IfOk, codes, decimal, length};
ghost use Rattle.arrayvec.specs.ArrayVec.{array_vec_len};
ghost use Rattle.hex.specs.Hex.{encode_upper};
ghost use Rattle.duk_commands.specs.Lines.{named_line, text_line};
ghost use Rattle.duk_commands.specs.declared.fault.Fault.TheVariants.{OutOfMemory, RequestRefused};
ghost use Rattle.duk_frame.specs.Answer.{AreAnswerFields};
ghost use Rattle.duk_frame.specs.Code.{code_text};
ghost use Rattle.duk_frame.specs.Payment.{payment_request};
ghost use Rattle.duk_commands.specs.Frames.{IsAsked, IsReply, IsReplyRefused, IsRequestRefused, IsRequestText, IsTold, WritesAsked, answer_line, is_refusal, reply_arguments, request_arguments, state_name, told_line};
ghost use Rattle.duk_commands.specs.inner.Frames.{IsToldLine, IsToldRefused};
ghost use Rattle.duk_tree.specs.Derivation.{transaction_key_of};
ghost use Rattle.duk_tree.specs.Serial.{serial_bytes};

use crate::asked::{Asked, read_asked};
use crate::count::read_decimal;
use crate::fault::Fault;
use crate::hexadecimal::decode;
use crate::key_argument::KeyArgument;
use crate::lines::{LINES_ROOM, Lines, push_end, push_line, push_text};
use crate::small_number::push_small;
use crate::start::{Start, read_start};
use crate::told::{Told, has_its_mac, is_told_of, read_told};
use duk_frame::{AnswerFrame, Code, payment_request};
use duk_io::append_hex;
use duk_pin::{Pan, Pin};
use duk_reversal::{ReversalReply, ReversalState};
use duk_tree::{Ksn, usable};
use std::alloc::Global;

/// The greatest amount: four bytes.
const MOST_AMOUNT: u32 = 0xFFFF_FFFF;

/// The line of a payment's request, as a terminal makes it.
///
/// The faults, in this order: `BDK refused`, or `initial refused` of an initial key; `KSN refused`;
/// `counter refused`; `PanLength`, `PanDigit`; `PinLength`, `PinDigit`; `amount refused` (no decimal
/// digits of a value up to 4,294,967,295).
pub fn request_lines(
    given: KeyArgument<'_>,
    ksn: &str,
    pan: &str,
    pin: &str,
    amount: &str,
) -> Result<Lines, Fault>
    ensures lines { IfOk result (λ lines. IsRequestText
        (request_arguments given.entry ksn.now pan.now pin.now amount.now) lines.items) }
    ensures refused { IfErr result (IsRequestRefused
        (request_arguments given.entry ksn.now pan.now pin.now amount.now)) }
{
    let start = read_start(given, ksn)?;
    let pan = Pan::parse(pan).map_err(Fault::PinRefused)?;
    let pin = Pin::parse(pin).map_err(Fault::PinRefused)?;
    let amount = read_decimal(amount, MOST_AMOUNT).ok_or(Fault::AmountRefused)?;
    Ok(line_of_request(&start, &pan, &pin, amount))
}

/// The line of a payment's request.
fn line_of_request(start: &Start, pan: &Pan, pin: &Pin, amount: u32) -> Lines
    ensures { result.items ≡ named_line (codes "request") (payment_request
        (transaction_key_of start.now.initial start.now.ksn.iksn start.now.ksn.counter)
        start.now.ksn pan.now pin.now amount) }
{
    let frame = payment_request(&start.key(), start.ksn, pan, pin, amount);
    let mut lines = Lines::new();
    push_line(&mut lines, b"request", frame.as_slice());
    lines
}

/// What `reply` tells.
#[derive(Drop)]
pub struct Reply {
    /// The line.
    pub lines: Lines,
    /// Whether it tells of a refusal.
    pub refused: bool,
}

/// The line of what was told of a terminal's frame, both as frames in hexadecimal, and whether that
/// is a refusal: of a payment's request an accepted reply, of a reversal its reply, each with the MAC
/// of its text under the transaction key of the terminal's frame; or a refusal, which has no MAC.
///
/// The faults, in this order: `BDK refused`, or `initial refused` of an initial key; `request
/// refused` (no request's frame and no reversal's, or of a counter that numbers no transaction);
/// `answer refused` (no answer's frame and no reversal's reply); `NotMine`, where it answers another
/// number, or another kind of frame; `BadMac`. Memory for the frames may be refused.
pub fn reply_lines(
    alloc: Global,
    given: KeyArgument<'_>,
    request: &str,
    answer: &str,
) -> Result<Reply, Fault>
    ensures reply { IfOk result (λ reply. IsReply
        (reply_arguments given.entry request.now answer.now) reply.refused reply.lines.items) }
    ensures refused { IfErr result (IsReplyRefused
        (reply_arguments given.entry request.now answer.now)) }
{
    one_reading();
    let key = given.read()?;
    let asked = asked_in(alloc, request)?;
    let answer = decode(alloc, answer.as_bytes(), Fault::AnswerRefused)?;
    let ksn = asked.ksn();
    let initial = given.initial_key(&key, ksn.iksn());
    let start = Start { initial, ksn };
    line_of_told(&start, &asked, answer.as_slice())
}

/// Bytes are one frame of a terminal at most, and one of the host.
fn one_reading()
    ensures asked { (bytes : List ℕ) (one other : Asked) → IsAsked bytes one → IsAsked bytes other
        → one ≡ other }
    ensures told { (bytes : List ℕ) (one other : Told) → IsTold bytes one → IsTold bytes other
        → one ≡ other }
{
    duk_frame::laws::one_reading();
    duk_reversal::laws::one_reading();
    duk_reversal::laws::apart_from_payments();
}

/// What a frame of the host tells of what was asked under a number.
fn line_of_told(start: &Start, asked: &Asked, bytes: &[u8]) -> Result<Reply, Fault>
    ensures reply { IfOk result (λ reply. IsToldLine start.now asked.now bytes.now
        reply.refused reply.lines.items) }
    ensures refused { IfErr result (IsToldRefused start.now asked.now bytes.now) }
{
    match read_told(bytes) {
        Some(told) => line_of_read(start, asked, bytes, &told),
        None => Err(Fault::AnswerRefused),
    }
}

/// What was told, as it was read.
fn line_of_read(start: &Start, asked: &Asked, bytes: &[u8], told: &Told) -> Result<Reply, Fault>
    requires { IsTold bytes.now told.now }
    ensures reply { IfOk result (λ reply. IsToldLine start.now asked.now bytes.now
        reply.refused reply.lines.items) }
    ensures refused { IfErr result (IsToldRefused start.now asked.now bytes.now) }
{
    if !is_told_of(asked, told) {
        return Err(Fault::NotMine);
    }
    if has_its_mac(&start.key(), bytes, told) {
        Ok(Reply {
            lines: line_of(told),
            refused: is_refusal(told),
        })
    } else {
        Err(Fault::BadMac)
    }
}

/// The frame of a terminal that a text writes in hexadecimal. Refused with `RequestRefused`, or
/// where memory is refused with `OutOfMemory`.
fn asked_in(alloc: Global, text: &str) -> Result<Asked, Fault>
    ensures read { IfOk result (WritesAsked text.now) }
    ensures refused { IfErr result (λ why. (why ≡ OutOfMemory) ⊎ ((why ≡ RequestRefused)
        × ((asked : Asked) → ¬ WritesAsked text.now asked))) }
{
    let bytes = decode(alloc, text.as_bytes(), Fault::RequestRefused)?;
    let asked = read_asked(bytes.as_slice()).ok_or(Fault::RequestRefused)?;
    if !usable(asked.ksn().counter()) {
        return Err(Fault::RequestRefused);
    }
    Ok(asked)
}

/// Whether what was told is a refusal.
fn is_refusal(told: &Told) -> bool
    ensures { result ≡ is_refusal told.now }
{
    matches!(told, Told::Answer(AnswerFrame::Refusal { .. }))
}

/// The line of what was told.
fn line_of(told: &Told) -> Lines
    requires { (bytes : List ℕ) × IsTold bytes told.now }
    ensures { result.items ≡ told_line told.now }
{
    match told {
        Told::Answer(answer) => line_of_answer(answer),
        Told::Undoing(reply) => line_of_undoing(reply),
    }
}

/// The line of what answers a payment.
fn line_of_answer(answer: &AnswerFrame) -> Lines
    requires { AreAnswerFields answer.now }
    ensures { result.items ≡ answer_line answer.now }
{
    let mut lines = Lines::new();
    match answer {
        AnswerFrame::Reply { ksn, code, .. } => push_accepted(&mut lines, *ksn, *code),
        AnswerFrame::Refusal { ksn, reason } => push_refused(&mut lines, *ksn, *reason),
    }
    lines
}

/// The line of a reversal's reply.
fn line_of_undoing(reply: &ReversalReply) -> Lines
    ensures { result.items
        ≡ named_line (state_name reply.now.state) (serial_bytes reply.now.numbers.reversed) }
{
    let mut lines = Lines::new();
    let number = reply.numbers.reversed().bytes();
    push_line(&mut lines, name_of(reply.state).as_bytes(), &number);
    lines
}

/// What a reversal found, in words.
fn name_of(state: ReversalState) -> &'static str
    ensures name { result.now ≡ state_name state }
    ensures short { length result.now ≤ 11 }
{
    match state {
        ReversalState::Undone => "undone",
        ReversalState::NoneStands => "none stands",
    }
}

/// Appends the line of an accepted reply.
fn push_accepted(lines: &mut Lines, ksn: Ksn, code: Code)
    requires { array_vec_len lines.old + 33 ≤ LINES_ROOM }
    ensures { lines.new.items ≡ lines.old.items ++ text_line (codes "accepted")
        (encode_upper (serial_bytes ksn) ++ codes " " ++ code_text code) }
{
    push_text(lines, b"accepted");
    push_text(lines, b" ");
    append_hex(lines, &ksn.bytes());
    push_text(lines, b" ");
    push_text(lines, &code.text());
    push_end(lines);
}

/// Appends the line of a refusal.
fn push_refused(lines: &mut Lines, ksn: Ksn, reason: u8)
    requires room { array_vec_len lines.old + 33 ≤ LINES_ROOM }
    requires reason { reason < 10 }
    ensures { lines.new.items ≡ lines.old.items ++ text_line (codes "refused")
        (encode_upper (serial_bytes ksn) ++ codes " " ++ decimal reason) }
{
    push_text(lines, b"refused");
    push_text(lines, b" ");
    append_hex(lines, &ksn.bytes());
    push_text(lines, b" ");
    push_small(lines, u32::from(reason));
    push_end(lines);
}
