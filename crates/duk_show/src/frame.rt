//! The command `show frame`.

ghost use Rattle.std.specs.Prelude.{◌≡◌, ◌≢◌, ◌≤◌, ◌+◌, ◌++◌, ℕ, List, IfErr, IfOk, MatchBool, codes, decimal, length};
ghost use Rattle.arrayvec.specs.ArrayVec.{array_vec_len};
ghost use Rattle.duk_commands.specs.Lines.{text_line};
ghost use Rattle.duk_frame.specs.Answer.{AreAnswerFields, IsAnswer};
ghost use Rattle.duk_frame.specs.Code.{code_text};
ghost use Rattle.duk_frame.specs.Request.{AreRequestFields, IsRequest};
ghost use Rattle.duk_frame.specs.declared.answer.AnswerFrame.{AnswerFrame as AnswerValue};
ghost use Rattle.duk_frame.specs.declared.request.Request.{Request as RequestValue};
ghost use Rattle.duk_reversal.specs.Numbers.{Reverses};
ghost use Rattle.duk_reversal.specs.Reply.{AreReversalReplyFields, IsReversalReply};
ghost use Rattle.duk_reversal.specs.Reversal.{AreReversalFields, IsReversal};
ghost use Rattle.duk_reversal.specs.declared.reply.ReversalReply.{ReversalReply as ReversalReplyValue};
ghost use Rattle.duk_reversal.specs.declared.reversal.Reversal.{Reversal as ReversalValue};
ghost use Rattle.duk_block.specs.Hexadecimal.{IsHexadecimal};
ghost use Rattle.duk_show.specs.FrameFault.{frame_place};
ghost use Rattle.duk_show.specs.Frame.{IsBytesShown, IsFrameFault, IsFrameRefused, IsFrameText, MeetsFrame, answer_lines, code_words, number_at, reason_words, request_lines, reversal_lines, reversal_reply_lines, state_words};

use crate::decimal::{push_decimal, push_number_line};
use crate::fault::ShowFault;
use crate::frame_fault::FrameFault;
use crate::hexadecimal::{HexFault, decode};
use byteorder::{BigEndian, ByteOrder};
use duk_commands::{LINES_ROOM, Lines, push_end, push_line, push_text, push_text_line};
use duk_frame::{AnswerFrame, Code, Request, read_answer, read_request};
use duk_reversal::{
    Reversal, ReversalNumbers, ReversalReply, ReversalState, read_reversal, read_reversal_reply,
};
use duk_tdes::array_of;
use duk_tree::Ksn;
use std::alloc::Global;

/// The lines of a frame in hexadecimal: its kind, and each of its fields.
///
/// Refused with `FrameRefused`, where the text is no frame: with `Hex` and the first character that
/// is no digit, or with the first wrong field and the byte at which it begins. Memory for the bytes
/// may be refused.
pub fn frame_lines(alloc: Global, text: &str) -> Result<Lines, ShowFault>
    ensures lines { IfOk result (λ lines. IsFrameText text.now lines.items) }
    ensures refused { IfErr result (IsFrameRefused text.now) }
{
    let bytes = frame_bytes(alloc, text)?;
    match lines_of_bytes(bytes.as_slice()) {
        Ok(lines) => Ok(lines),
        Err(why) => Err(refused_by(why)),
    }
}

/// The bytes that the text of a frame writes.
pub(crate) fn frame_bytes(alloc: Global, text: &str) -> Result<Vec<u8>, ShowFault>
    ensures read { IfOk result (λ bytes. IsHexadecimal text.now bytes.items) }
    ensures refused { IfErr result (IsFrameRefused text.now) }
{
    match decode(alloc, text) {
        Ok(bytes) => Ok(bytes),
        Err(HexFault::OutOfMemory) => Err(ShowFault::OutOfMemory),
        Err(HexFault::At(place)) => {
            let why = FrameFault::Hex;
            Err(ShowFault::FrameRefused { place, why })
        }
    }
}

/// The fault of bytes with this first wrong field.
pub(crate) fn refused_by(why: FrameFault) -> ShowFault
    ensures { result ≡ ShowFault.FrameRefused (frame_place why) why }
{
    let place = why.place();
    ShowFault::FrameRefused { place, why }
}

/// The lines of the frame that the bytes are, or their first wrong field.
fn lines_of_bytes(bytes: &[u8]) -> Result<Lines, FrameFault>
    ensures lines { IfOk result (λ lines. IsBytesShown bytes.now lines.items) }
    ensures wrong { IfErr result (IsFrameFault bytes.now) }
    ensures not_hex { IfErr result (λ why. why ≢ FrameFault.Hex) }
    ensures no_frame { IfErr result (λ _. (text : List ℕ) → ¬ IsBytesShown bytes.now text) }
{
    if let Some(request) = read_request(bytes) {
        return Ok(lines_of_request(&request));
    }
    if let Some(answer) = read_answer(bytes) {
        return Ok(lines_of_answer(&answer));
    }
    if let Some(reversal) = read_reversal(bytes) {
        return Ok(lines_of_reversal(&reversal));
    }
    match read_reversal_reply(bytes) {
        Some(reply) => Ok(lines_of_reversal_reply(&reply)),
        None => Err(first_wrong(bytes)),
    }
}

/// The first wrong field of bytes that are no frame.
pub(crate) fn first_wrong(bytes: &[u8]) -> FrameFault
    requires no_request { (request : RequestValue) → ¬ IsRequest bytes.now request }
    requires no_answer { (answer : AnswerValue) → ¬ IsAnswer bytes.now answer }
    requires no_reversal { (reversal : ReversalValue) → ¬ IsReversal bytes.now reversal }
    requires no_reply { (reply : ReversalReplyValue) → ¬ IsReversalReply bytes.now reply }
    ensures wrong { IsFrameFault bytes.now result }
    ensures not_hex { result ≢ FrameFault.Hex }
{
    if !has_its_length(bytes) {
        FrameFault::Length
    } else if bytes.get(2) != Some(&1) {
        FrameFault::Version
    } else if bytes.len() < 4 || !(1..=5).contains(&bytes[3]) {
        FrameFault::Kind
    } else if !has_size_of_kind(bytes) {
        FrameFault::Size
    } else {
        wrong_field(bytes)
    }
}

/// Whether the length in front is that of the bytes after it.
fn has_its_length(bytes: &[u8]) -> bool
    ensures { MatchBool result (MeetsFrame bytes.now FrameFault.Length)
        (¬ MeetsFrame bytes.now FrameFault.Length) }
{
    bytes.len() >= 2 && usize::from(BigEndian::read_u16(bytes)) + 2 == bytes.len()
}

/// Whether the bytes are as many as a frame of their kind has.
fn has_size_of_kind(bytes: &[u8]) -> bool
    requires { 4 ≤ length bytes.now }
    ensures { MatchBool result (MeetsFrame bytes.now FrameFault.Size)
        (¬ MeetsFrame bytes.now FrameFault.Size) }
{
    match bytes[3] {
        1 => (47..=54).contains(&bytes.len()),
        2 => bytes.len() == 24,
        3 => bytes.len() == 15,
        4 => bytes.len() == 32,
        5 => bytes.len() == 33,
        _ => false,
    }
}

/// The first wrong field of bytes that are no frame, after their kind.
fn wrong_field(bytes: &[u8]) -> FrameFault
    requires no_request { (request : RequestValue) → ¬ IsRequest bytes.now request }
    requires no_answer { (answer : AnswerValue) → ¬ IsAnswer bytes.now answer }
    requires no_reversal { (reversal : ReversalValue) → ¬ IsReversal bytes.now reversal }
    requires no_reply { (reply : ReversalReplyValue) → ¬ IsReversalReply bytes.now reply }
    requires length { MeetsFrame bytes.now FrameFault.Length }
    requires version { MeetsFrame bytes.now FrameFault.Version }
    requires kind { MeetsFrame bytes.now FrameFault.Kind }
    requires size { MeetsFrame bytes.now FrameFault.Size }
    ensures wrong { IsFrameFault bytes.now result }
    ensures not_hex { result ≢ FrameFault.Hex }
{
    match bytes[3] {
        1 if usize::from(bytes[14]) + 35 != bytes.len() => FrameFault::PanLength,
        1 => FrameFault::PanDigit,
        2 => FrameFault::Code,
        3 => FrameFault::Reason,
        5 if has_its_numbers(bytes) => FrameFault::State,
        _ => FrameFault::Reversed,
    }
}

/// Whether the first number of a reversal's reply may reverse the second.
fn has_its_numbers(bytes: &[u8]) -> bool
    requires { 24 ≤ length bytes.now }
    ensures { MatchBool result (Reverses (number_at 4 bytes.now) (number_at 14 bytes.now))
        (¬ Reverses (number_at 4 bytes.now) (number_at 14 bytes.now)) }
{
    let ksn = Ksn::from_bytes(array_of(&bytes[4..14]));
    let reversed = Ksn::from_bytes(array_of(&bytes[14..24]));
    ReversalNumbers::new(ksn, reversed).is_some()
}

/// The lines of a request.
pub(crate) fn lines_of_request(request: &Request) -> Lines
    requires { AreRequestFields request.now }
    ensures lines { result.items ≡ request_lines request.now }
    ensures short { array_vec_len result ≤ 200 }
{
    let mut lines = Lines::new();
    push_text_line(&mut lines, b"frame", b"request");
    push_line(&mut lines, b"ksn", &request.ksn.bytes());
    push_text_line(&mut lines, b"pan", request.pan.digits().as_bytes());
    push_number_line(&mut lines, b"amount", request.amount as usize);
    push_line(&mut lines, b"pin-block", &request.block);
    push_line(&mut lines, b"mac", &request.mac);
    lines
}

/// The lines of an answer.
pub(crate) fn lines_of_answer(answer: &AnswerFrame) -> Lines
    requires { AreAnswerFields answer.now }
    ensures lines { result.items ≡ answer_lines answer.now }
    ensures short { array_vec_len result ≤ 200 }
{
    let mut lines = Lines::new();
    match answer {
        AnswerFrame::Reply { ksn, code, mac } => {
            push_text_line(&mut lines, b"frame", b"reply");
            push_line(&mut lines, b"ksn", &ksn.bytes());
            push_code(&mut lines, *code);
            push_line(&mut lines, b"mac", mac);
        }
        AnswerFrame::Refusal { ksn, reason } => {
            push_text_line(&mut lines, b"frame", b"refusal");
            push_line(&mut lines, b"ksn", &ksn.bytes());
            push_reason(&mut lines, *reason);
        }
    }
    lines
}

/// The lines of a reversal.
pub(crate) fn lines_of_reversal(reversal: &Reversal) -> Lines
    requires { AreReversalFields reversal.now }
    ensures lines { result.items ≡ reversal_lines reversal.now }
    ensures short { array_vec_len result ≤ 200 }
{
    let mut lines = Lines::new();
    push_text_line(&mut lines, b"frame", b"reversal");
    push_line(&mut lines, b"ksn", &reversal.numbers.ksn().bytes());
    push_line(
        &mut lines,
        b"reversed",
        &reversal.numbers.reversed().bytes(),
    );
    push_line(&mut lines, b"mac", &reversal.mac);
    lines
}

/// The lines of a reversal's reply.
pub(crate) fn lines_of_reversal_reply(reply: &ReversalReply) -> Lines
    requires { AreReversalReplyFields reply.now }
    ensures lines { result.items ≡ reversal_reply_lines reply.now }
    ensures short { array_vec_len result ≤ 200 }
{
    let mut lines = Lines::new();
    push_text_line(&mut lines, b"frame", b"reversal-reply");
    push_line(&mut lines, b"ksn", &reply.numbers.ksn().bytes());
    push_line(&mut lines, b"reversed", &reply.numbers.reversed().bytes());
    push_text_line(&mut lines, b"state", words_of_state(reply.state).as_bytes());
    push_line(&mut lines, b"mac", &reply.mac);
    lines
}

/// Appends the line of a code.
fn push_code(lines: &mut Lines, code: Code)
    requires { array_vec_len lines.old + 40 ≤ LINES_ROOM }
    ensures line { lines.new.items ≡ lines.old.items
        ++ text_line (codes "code") (code_text code ++ codes " " ++ code_words code) }
    ensures len { array_vec_len lines.new ≤ array_vec_len lines.old + 40 }
{
    push_text(lines, b"code ");
    push_text(lines, &code.text());
    push_text(lines, b" ");
    push_text(lines, words_of_code(code).as_bytes());
    push_end(lines);
}

/// Appends the line of a reason.
fn push_reason(lines: &mut Lines, reason: u8)
    requires { array_vec_len lines.old + 60 ≤ LINES_ROOM }
    ensures line { lines.new.items ≡ lines.old.items
        ++ text_line (codes "reason") (decimal reason ++ codes " " ++ reason_words reason) }
    ensures len { array_vec_len lines.new ≤ array_vec_len lines.old + 60 }
{
    push_text(lines, b"reason ");
    push_decimal(lines, usize::from(reason));
    push_text(lines, b" ");
    push_text(lines, words_of_reason(reason).as_bytes());
    push_end(lines);
}

/// A code in words.
pub(crate) fn words_of_code(code: Code) -> &'static str
    ensures words { result.now ≡ code_words code }
    ensures short { length result.now ≤ 21 }
{
    match code {
        Code::Approved => "approved",
        Code::NoCard => "no such card",
        Code::WrongPin => "wrong PIN",
        Code::OverLimit => "over the card's limit",
        Code::Unreadable => "PIN block unreadable",
    }
}

/// A reason, from 1 to 6, in words.
fn words_of_reason(reason: u8) -> &'static str
    ensures words { result.now ≡ reason_words reason }
    ensures short { length result.now ≤ 15 }
{
    match reason {
        1 => "malformed",
        2 => "unknown key set",
        3 => "bad counter",
        4 => "bad MAC",
        5 => "used",
        _ => "log full",
    }
}

/// A state's byte, and what it says in words.
pub(crate) fn words_of_state(state: ReversalState) -> &'static str
    ensures words { result.now ≡ state_words state }
    ensures short { length result.now ≤ 14 }
{
    match state {
        ReversalState::Undone => "01 undone",
        ReversalState::NoneStands => "00 none stands",
    }
}
