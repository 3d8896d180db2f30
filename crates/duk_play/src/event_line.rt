//! Reads the line of a script as an event.

ghost use Rattle.std.specs.Prelude.{◌≡◌, ◌++◌, ℕ, Some, codes, IfSome};
ghost use Rattle.duk_books.specs.declared.event.End.TheVariants as end;
ghost use Rattle.duk_books.specs.declared.event.Event.{Event as EventValue};
ghost use Rattle.duk_books.specs.declared.event.Event.TheVariants as event;
ghost use Rattle.duk_play.specs.Script.{IsArmBook, IsEventLine, IsReverse};
ghost use Rattle.duk_play.specs.inner.Reading.{AreArmBookTokens, end_of_tills, event_of_tills};
ghost use Rattle.duk_script.specs.Script.{IsTerminal, terminal_name};

use duk_books::{End, Event};
use duk_script::{read_number, read_terminal, split_token};
use std::str;

/// The event of a line, if it is one.
#[tactic(auto, using(crate::proofs::LinesOfTills::IsUtf8_from_reverse, crate::proofs::LinesOfTills::IsUtf8_from_arm))]
pub(crate) fn read_event(line: &[u8]) -> Option<Event>
    ensures found { IfSome result (IsEventLine line.now) }
    ensures every { (said : EventValue) → IsEventLine line.now said → result ≡ Some said }
{
    match duk_script::read_event(line) {
        Some(said) => Some(till_event(said)),
        None => till_line(str::from_utf8(line).ok()?),
    }
}

/// The event of terminals as one of tills.
fn till_event(said: duk_net::Event) -> Event
    ensures { result ≡ event_of_tills said }
{
    match said {
        duk_net::Event::Load { t, iksn } => Event::Load { t, iksn },
        duk_net::Event::Begin { t, purchase } => Event::Begin { t, purchase },
        duk_net::Event::Up { k } => Event::Up { k },
        duk_net::Event::Down { k, t } => Event::Down { k, t },
        duk_net::Event::RestartTerm { t } => Event::RestartTill { t },
        duk_net::Event::RestartHost => Event::RestartHost,
        duk_net::Event::Arm { end, n } => Event::Arm {
            end: till_end(end),
            n,
        },
    }
}

/// The end of terminals as one of tills.
fn till_end(which: duk_net::End) -> End
    ensures { result ≡ end_of_tills which }
{
    match which {
        duk_net::End::Host => End::Host,
        duk_net::End::Term(t) => End::Terminal(t),
    }
}

/// The event of a line of text, if it is one of tills alone: `reverse T` or `arm T book N`.
fn till_line(line: &str) -> Option<Event>
    ensures reverse { (t : ℕ) → IsReverse line.now t → result ≡ Some (event.Reverse t) }
    ensures arm { (t n : ℕ) → IsArmBook line.now t n
        → result ≡ Some (event.Arm (end.Book t) n) }
    ensures found { IfSome result (IsEventLine line.now) }
{
    let (command, tokens) = split_token(line)?;
    match command {
        "reverse" => reverse(tokens),
        "arm" => arm_book(tokens),
        _ => None,
    }
}

/// `T`.
fn reverse(token: &str) -> Option<Event>
    ensures found { IfSome result (IsEventLine (codes "reverse " ++ token.now)) }
    ensures every { (t : ℕ) → IsTerminal t → token.now ≡ terminal_name t
        → result ≡ Some (event.Reverse t) }
{
    let t = read_terminal(token)?;
    Some(Event::Reverse { t })
}

/// `T book N`.
fn arm_book(tokens: &str) -> Option<Event>
    ensures found { IfSome result (IsEventLine (codes "arm " ++ tokens.now)) }
    ensures every { (t n : ℕ) → AreArmBookTokens tokens.now t n
        → result ≡ Some (event.Arm (end.Book t) n) }
{
    let (t, rest) = split_token(tokens)?;
    let (word, n) = split_token(rest)?;
    if word != "book" {
        return None;
    }
    let t = read_terminal(t)?;
    let n = read_number(n)?;
    Some(Event::Arm {
        end: End::Book(t),
        n,
    })
}
