//! The line of an outcome.

ghost use Rattle.std.specs.Prelude.{◌≡◌, ◌∷◌, ◌<◌, ◌≤◌, [], codes, decimal, length};
ghost use Rattle.duk_script.specs.Script.{spaced, terminal_name};
ghost use Rattle.duk_script.specs.OutcomeText.{ksn_text, line_of, next_tokens, outcome_tokens};

use crate::line::{LINE_ROOM, Line, LineText};
use duk_net::Outcome;
use duk_term::Next;
use duk_tree::Ksn;

/// The line of an outcome, with its end: tokens with one space between each two. Key serial numbers
/// stand in hexadecimal in upper case, numbers in decimal, and a fault by its name, followed by
/// that of the fault inside it.
pub fn outcome_line(outcome: Outcome) -> LineText
    ensures { result.items ≡ line_of outcome }
{
    tokens_of(outcome).end()
}

/// The tokens of an outcome.
fn tokens_of(outcome: Outcome) -> Line
    ensures text { result ≡ spaced (outcome_tokens outcome) }
    ensures bound { length result < LINE_ROOM }
{
    match outcome {
        Outcome::Loaded { t, iksn } => Line::of_terminal(t).token(b"loaded").iksn(iksn),
        Outcome::Sent { t, k, ksn } => Line::of_terminal(t).token(b"sent").number(k).ksn(ksn),
        Outcome::Accepted { k, ksn, code } => answer_line(k, b"accepted", ksn).code(code),
        Outcome::Repeated { k, ksn, code } => answer_line(k, b"repeated", ksn).code(code),
        Outcome::Refused { k, ksn, reason } => answer_line(k, b"refused", ksn).number(u64::from(
            reason,
        )),
        Outcome::Done { t, ksn, code } => Line::of_terminal(t).token(b"done").ksn(ksn).code(code),
        Outcome::GotRefusal { t, ksn, reason } => {
            Line::of_terminal(t)
                .token(b"refused")
                .ksn(ksn)
                .number(u64::from(reason))
        }
        Outcome::TermNext { t, next } => restart_line(t, next),
        Outcome::HostUsed(n) => Line::of_token(b"host").token(b"used").number(n),
        Outcome::Armed { end, n } => Line::of_end(end).token(b"armed").number(u64::from(n)),
        Outcome::TermFaulted { t, fault } => Line::of_terminal(t).token(b"fault").term_fault(fault),
        Outcome::HostFaulted(fault) => Line::of_token(b"host").token(b"fault").host_fault(fault),
        Outcome::IksnElsewhere { t } => Line::of_terminal(t).token(b"IKSN").token(b"elsewhere"),
        Outcome::NoKeySet { t } => Line::of_terminal(t)
            .token(b"no")
            .token(b"key")
            .token(b"set"),
        Outcome::NoSuchTerminal => Line::of_token(b"no").token(b"such").token(b"terminal"),
        Outcome::NoSuchFrame => Line::of_token(b"no").token(b"such").token(b"frame"),
    }
}

/// The tokens of an answer of the host, as far as its key serial number.
fn answer_line(k: u64, verdict: &[u8], ksn: Ksn) -> Line
    requires { length verdict.now ≤ 8 }
    ensures text { result
        ≡ spaced (codes "answer" ∷ decimal k ∷ verdict.now ∷ ksn_text ksn ∷ []) }
    ensures bound { length result ≤ 57 }
{
    Line::of_token(b"answer").number(k).token(verdict).ksn(ksn)
}

/// The line of a terminal's restart, of at most 37 bytes: which number it uses next.
pub fn restart_line(t: u32, next: Next) -> Line
    ensures text { result ≡ spaced (terminal_name t ∷ next_tokens next) }
    ensures bound { length result ≤ 37 }
{
    let line = Line::of_terminal(t);
    match next {
        Next::At(ksn) => line.token(b"next").ksn(ksn),
        Next::Spent => line.token(b"spent"),
        Next::Empty => line.token(b"empty"),
        Next::Stopped => line.token(b"stopped"),
    }
}
