//! Reads the line of a script as an event.

ghost use Rattle.std.specs.Prelude.{◌≡◌, ◌++◌, ℕ, List, Some, codes, decimal, IfSome};
ghost use Rattle.duk_net.specs.declared.event.End.{End};
ghost use Rattle.duk_net.specs.declared.event.Event.{Event};
ghost use Rattle.duk_term.specs.declared.purchase.Purchase.{Purchase};
ghost use Rattle.duk_script.specs.Script.{IsNumber, IsTerminal, IsEventLine, terminal_name};
ghost use Rattle.duk_script.specs.inner.Reading.{AreLoadTokens, AreBeginTokens, AreDownTokens, AreArmTokens, IsPurchase};

use crate::tokens::{read_end, read_number, read_terminal, split_token};
use duk_net::{End, Event};
use duk_pin::{Pan, Pin};
use duk_term::Purchase;
use duk_tree::Iksn;
use std::str;

/// The event of a line, if it is one.
#[tactic(auto, using(crate::proofs::EventLinesAreAscii::IsUtf8_from_event))]
pub fn read_event(line: &[u8]) -> Option<Event>
    ensures found { IfSome result (IsEventLine line.now) }
    ensures every { (event : Event) → IsEventLine line.now event → result ≡ Some event }
{
    event_of(str::from_utf8(line).ok()?)
}

/// The event of a line of text, if it is one.
fn event_of(line: &str) -> Option<Event>
    ensures found { IfSome result (IsEventLine line.now) }
    ensures every { (event : Event) → IsEventLine line.now event → result ≡ Some event }
{
    let (command, tokens) = split_token(line)?;
    match command {
        "load" => load(tokens),
        "begin" => begin(tokens),
        "up" => up(tokens),
        "down" => down(tokens),
        "restart" => restart(tokens),
        "arm" => arm(tokens),
        _ => None,
    }
}

/// `T IKSN`.
fn load(tokens: &str) -> Option<Event>
    ensures found { IfSome result (IsEventLine (codes "load " ++ tokens.now)) }
    ensures every { (t iksn : ℕ) → AreLoadTokens tokens.now t iksn
        → result ≡ Some (Event.Load t iksn) }
{
    let (t, iksn) = split_token(tokens)?;
    let t = read_terminal(t)?;
    let iksn = Iksn::parse(iksn)?;
    Some(Event::Load { t, iksn })
}

/// `T PAN PIN AMOUNT`.
fn begin(tokens: &str) -> Option<Event>
    ensures found { IfSome result (IsEventLine (codes "begin " ++ tokens.now)) }
    ensures every { (t : ℕ) (purchase : Purchase) → AreBeginTokens tokens.now t purchase
        → result ≡ Some (Event.Begin t purchase) }
{
    let (t, purchase) = split_token(tokens)?;
    let t = read_terminal(t)?;
    let purchase = read_purchase(purchase)?;
    Some(Event::Begin { t, purchase })
}

/// `PAN PIN AMOUNT`.
fn read_purchase(tokens: &str) -> Option<Purchase>
    ensures found { IfSome result (IsPurchase tokens.now) }
    ensures every { (purchase : Purchase) → IsPurchase tokens.now purchase → result ≡ Some purchase }
{
    let (pan, rest) = split_token(tokens)?;
    let (pin, amount) = split_token(rest)?;
    let pan = Pan::parse(pan).ok()?;
    let pin = Pin::parse(pin).ok()?;
    let amount = read_number(amount)?;
    Some(Purchase { pan, pin, amount })
}

/// `K`.
fn up(tokens: &str) -> Option<Event>
    ensures found { IfSome result (IsEventLine (codes "up " ++ tokens.now)) }
    ensures every { (k : ℕ) → IsNumber k → tokens.now ≡ decimal k → result ≡ Some (Event.Up k) }
{
    let k = read_number(tokens)?;
    Some(Event::Up { k })
}

/// `K T`.
fn down(tokens: &str) -> Option<Event>
    ensures found { IfSome result (IsEventLine (codes "down " ++ tokens.now)) }
    ensures every { (k t : ℕ) → AreDownTokens tokens.now k t → result ≡ Some (Event.Down k t) }
{
    let (k, t) = split_token(tokens)?;
    let k = read_number(k)?;
    let t = read_terminal(t)?;
    Some(Event::Down { k, t })
}

/// `T` or `host`.
fn restart(tokens: &str) -> Option<Event>
    ensures found { IfSome result (IsEventLine (codes "restart " ++ tokens.now)) }
    ensures host { tokens.now ≡ codes "host" → result ≡ Some Event.RestartHost }
    ensures terminal { (t : ℕ) → IsTerminal t → tokens.now ≡ terminal_name t
        → result ≡ Some (Event.RestartTerm t) }
{
    match read_end(tokens)? {
        End::Host => Some(Event::RestartHost),
        End::Term(t) => Some(Event::RestartTerm { t }),
    }
}

/// `T N` or `host N`.
fn arm(tokens: &str) -> Option<Event>
    ensures found { IfSome result (IsEventLine (codes "arm " ++ tokens.now)) }
    ensures every { (end : End) (n : ℕ) → AreArmTokens tokens.now end n
        → result ≡ Some (Event.Arm end n) }
{
    let (end, n) = split_token(tokens)?;
    let end = read_end(end)?;
    let n = read_number(n)?;
    Some(Event::Arm { end, n })
}
