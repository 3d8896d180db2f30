//! The line of an outcome.

ghost use Rattle.std.specs.Prelude.{◌≡◌, ◌+◌, ◌∷◌, ◌++◌, ◌<◌, ◌≤◌, [], Some, codes, decimal, length};
ghost use Rattle.duk_books.specs.declared.outcome.Outcome.TheVariants as came;
ghost use Rattle.duk_play.specs.OutcomeText.{last_tokens, line_of, same_outcome, state_text, till_tokens};
ghost use Rattle.duk_script.specs.OutcomeText.{ksn_text, next_tokens};
ghost use Rattle.duk_script.specs.Script.{spaced, terminal_name};

use duk_books::{End, Outcome};
use duk_reversal::ReversalState;
use duk_script::{LINE_ROOM, Line, LineText, restart_line};
use duk_term::{Next, TermFault};
use duk_till::{Last, TillFault, TillState};
use duk_tree::Ksn;

/// The line of an outcome, with its end: that of terminals where they have the same outcome
/// (`duk_script::outcome_line`), and else tokens with one space between each two. Key serial numbers
/// stand in hexadecimal in upper case, numbers in decimal, and a fault by its name, followed by that
/// of the fault inside it.
pub fn outcome_line(outcome: Outcome) -> LineText
    ensures { result.items ≡ line_of outcome }
{
    line_at(&outcome)
}

/// The line of an outcome that stands somewhere.
fn line_at(outcome: &Outcome) -> LineText
    ensures { result.items ≡ line_of outcome.now }
{
    match same(*outcome) {
        Some(same) => duk_script::outcome_line(same),
        None => till_line(*outcome),
    }
}

/// The line of an outcome that terminals do not have.
fn till_line(outcome: Outcome) -> LineText
    ensures { result.items ≡ spaced (till_tokens outcome) ++ codes "\n" }
{
    tokens_of(outcome).end()
}

/// The same outcome of terminals, where they have it.
fn same(outcome: Outcome) -> Option<duk_net::Outcome>
    ensures { result ≡ same_outcome outcome }
{
    match outcome {
        Outcome::Loaded { t, iksn } => Some(duk_net::Outcome::Loaded { t, iksn }),
        Outcome::Sent { t, k, ksn } => Some(duk_net::Outcome::Sent { t, k, ksn }),
        Outcome::Accepted { k, ksn, code } => Some(duk_net::Outcome::Accepted { k, ksn, code }),
        Outcome::Repeated { k, ksn, code } => Some(duk_net::Outcome::Repeated { k, ksn, code }),
        Outcome::Refused { k, ksn, reason } => Some(duk_net::Outcome::Refused { k, ksn, reason }),
        Outcome::Done { t, ksn, code } => Some(duk_net::Outcome::Done { t, ksn, code }),
        Outcome::GotRefusal { t, ksn, reason } => {
            Some(duk_net::Outcome::GotRefusal { t, ksn, reason })
        }
        Outcome::HostKeeps(n) => Some(duk_net::Outcome::HostUsed(n)),
        Outcome::Armed { end, n } => armed(end, n),
        Outcome::TillFaulted { t, fault } => faulted(t, fault),
        Outcome::HostFaulted(fault) => Some(duk_net::Outcome::HostFaulted(fault)),
        Outcome::IksnElsewhere { t } => Some(duk_net::Outcome::IksnElsewhere { t }),
        Outcome::NoKeySet { t } => Some(duk_net::Outcome::NoKeySet { t }),
        Outcome::NoSuchTill => Some(duk_net::Outcome::NoSuchTerminal),
        Outcome::NoSuchFrame => Some(duk_net::Outcome::NoSuchFrame),
        Outcome::Reversing { .. }
        | Outcome::Reversed { .. }
        | Outcome::Undone { .. }
        | Outcome::TillNext { .. } => None,
    }
}

/// That the store of an end was armed, as of terminals, which have no book.
fn armed(end: End, n: u32) -> Option<duk_net::Outcome>
    ensures { result ≡ same_outcome (came.Armed end n) }
{
    match end {
        End::Host => Some(duk_net::Outcome::Armed {
            end: duk_net::End::Host,
            n,
        }),
        End::Terminal(t) => Some(duk_net::Outcome::Armed {
            end: duk_net::End::Term(t),
            n,
        }),
        End::Book(_) => None,
    }
}

/// That a till refused, as of its terminal; a fault of its book as one of its terminal's cell.
fn faulted(t: u32, fault: TillFault) -> Option<duk_net::Outcome>
    ensures { result ≡ same_outcome (came.TillFaulted t fault) }
{
    match fault {
        TillFault::Terminal(fault) => Some(duk_net::Outcome::TermFaulted { t, fault }),
        TillFault::Store(inside) => Some(duk_net::Outcome::TermFaulted {
            t,
            fault: TermFault::Store(inside),
        }),
        TillFault::Stopped | TillFault::Open | TillFault::NothingOpen => None,
    }
}

/// The tokens of an outcome that terminals do not have; none of another.
fn tokens_of(outcome: Outcome) -> Line
    ensures text { result ≡ spaced (till_tokens outcome) }
    ensures bound { length result < LINE_ROOM }
{
    match outcome {
        Outcome::Reversing {
            t,
            k,
            ksn,
            reversed,
        } => reversing_line(t, k, ksn, reversed),
        Outcome::Reversed {
            k,
            ksn,
            reversed,
            state,
        } => answer_line(k, ksn, reversed, state),
        Outcome::Undone { t, ksn, .. } => kept_line(Line::of_terminal(t), b"undone", ksn),
        Outcome::TillNext { t, next, state } => restart_tokens(t, next, state),
        Outcome::Armed { end, n } => armed_tokens(end, n),
        Outcome::TillFaulted { t, fault } => fault_tokens(t, fault),
        _ => Line::of_token(b""),
    }
}

/// The tokens of a reversal that a till sent.
fn reversing_line(t: u32, k: u64, ksn: Ksn, reversed: Ksn) -> Line
    ensures text { result ≡ spaced (terminal_name t ∷ codes "reversing" ∷ decimal k
        ∷ ksn_text ksn ∷ codes "of" ∷ ksn_text reversed ∷ []) }
    ensures bound { length result ≤ 87 }
{
    Line::of_terminal(t)
        .token(b"reversing")
        .number(k)
        .ksn(ksn)
        .token(b"of")
        .ksn(reversed)
}

/// The tokens of the host's answer to a reversal.
fn answer_line(k: u64, ksn: Ksn, reversed: Ksn, state: ReversalState) -> Line
    ensures text { result ≡ spaced (codes "answer" ∷ decimal k ∷ codes "undone"
        ∷ ksn_text ksn ∷ codes "of" ∷ ksn_text reversed ∷ state_text state ∷ []) }
    ensures bound { length result ≤ 82 }
{
    Line::of_token(b"answer")
        .number(k)
        .token(b"undone")
        .ksn(ksn)
        .token(b"of")
        .ksn(reversed)
        .token(state_digits(state))
}

/// The tokens of an end whose store was armed, where it is a book; none of another.
fn armed_tokens(end: End, n: u32) -> Line
    ensures text { result ≡ spaced (till_tokens (came.Armed end n)) }
    ensures bound { length result ≤ 44 }
{
    match end {
        End::Book(t) => {
            Line::of_terminal(t)
                .token(b"book")
                .token(b"armed")
                .number(u64::from(n))
        }
        End::Host | End::Terminal(_) => Line::of_token(b""),
    }
}

/// The digits of what a reversal found.
fn state_digits(state: ReversalState) -> &'static [u8]
    ensures text { result.now ≡ state_text state }
    ensures len { length result.now ≡ 2 }
{
    match state {
        ReversalState::Undone => b"01",
        ReversalState::NoneStands => b"00",
    }
}

/// The tokens of a till's restart: which number it uses next, and what its book keeps.
fn restart_tokens(t: u32, next: Next, state: TillState) -> Line
    ensures text { result
        ≡ spaced (terminal_name t ∷ next_tokens next ++ last_tokens state) }
    ensures bound { length result ≤ 71 }
{
    let line = restart_line(t, next);
    match state {
        TillState::Running(Some(last)) => last_line(line, last),
        TillState::Running(None) | TillState::Stopped => line,
    }
}

/// The line of which number a till uses next, and what its book keeps of a purchase.
fn last_line(line: Line, last: Last) -> Line
    requires { length line ≤ 37 }
    ensures text { result
        ≡ spaced (line ∷ last_tokens (TillState.Running (Some last))) }
    ensures bound { length result ≤ 71 }
{
    match last {
        Last::Open { ksn, .. } => kept_line(line, b"open", ksn),
        Last::Approved { ksn, .. } => kept_line(line, b"approved", ksn),
        Last::Declined { ksn, why } => kept_line(line, b"declined", ksn).code(why),
        Last::Undone { ksn } => kept_line(line, b"undone", ksn),
    }
}

/// The line, and the word of a purchase with its number.
fn kept_line(line: Line, word: &[u8], ksn: Ksn) -> Line
    requires { length line + length word.now + 21 < LINE_ROOM }
    ensures text { result
        ≡ (line ++ 32 ∷ word.now) ++ 32 ∷ ksn_text ksn }
    ensures len { length result ≡ length line + length word.now + 22 }
{
    line.token(word).ksn(ksn)
}

/// The tokens of a till that refused, where no store or terminal of it did; none of another fault.
fn fault_tokens(t: u32, fault: TillFault) -> Line
    ensures text { result ≡ spaced (till_tokens (came.TillFaulted t fault)) }
    ensures bound { length result ≤ 29 }
{
    match fault {
        TillFault::Stopped => refused(t).token(b"Stopped"),
        TillFault::Open => refused(t).token(b"Open"),
        TillFault::NothingOpen => refused(t).token(b"NothingOpen"),
        TillFault::Terminal(_) | TillFault::Store(_) => Line::of_token(b""),
    }
}

/// The tokens of a till that refused, as far as its fault.
fn refused(t: u32) -> Line
    ensures text { result ≡ spaced (terminal_name t ∷ codes "fault" ∷ []) }
    ensures bound { length result ≤ 17 }
{
    Line::of_terminal(t).token(b"fault")
}
