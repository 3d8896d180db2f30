//! The tokens of a script's lines: numbers, and the names of terminals and ends.

ghost use Rattle.std.specs.Prelude.{◌≡◌, ◌<◌, ◌^◌, ◌++◌, ◌∷◌, ℕ, List, Some, decimal, IfSome, IsTrue, MatchOption};
ghost use Rattle.duk_net.specs.declared.event.End.{End};
ghost use Rattle.duk_script.specs.Script.{IsTerminal, IsEnd, IsSplit, terminal_name, end_name};
ghost use Rattle.duk_script.specs.inner.Reading.{IsPlainNumber};

use duk_net::End;

/// The greatest number of a terminal.
const MOST_TERMINALS: u32 = 16;

/// The first token of a text, and what follows the space after it.
pub fn split_token(text: &str) -> Option<(&str, &str)>
    ensures found { IfSome result (λ parts. IsSplit text.now parts.0.now parts.1.now) }
    ensures every { (token rest : List ℕ) → IsSplit text.now token rest
        → MatchOption result ⊥ (λ parts. (parts.0.now ≡ token) × (parts.1.now ≡ rest)) }
{
    text.split_once(' ')
}

/// A decimal number of at most 4,294,967,295, without leading zeros.
pub fn read_number(token: &str) -> Option<u32>
    ensures found { IfSome result (λ number. token.now ≡ decimal number) }
    ensures every { (number : ℕ) → number < 2 ^ 32 → token.now ≡ decimal number
        → result ≡ Some number }
{
    if !is_plain(token) {
        return None;
    }
    token.parse().ok()
}

/// Whether a token has neither a sign nor a leading zero.
fn is_plain(token: &str) -> bool
    ensures plain { IsTrue result → IsPlainNumber token.now }
    ensures every { IsPlainNumber token.now → IsTrue result }
{
    match token.as_bytes() {
        [b'0', _, ..] | [b'+', ..] => false,
        _ => true,
    }
}

/// The number of a terminal, from its name: `t1` to `t16`.
pub fn read_terminal(token: &str) -> Option<u32>
    ensures found { IfSome result (λ t. IsTerminal t × (token.now ≡ terminal_name t)) }
    ensures every { (t : ℕ) → IsTerminal t → token.now ≡ terminal_name t → result ≡ Some t }
{
    let t = read_number(token.strip_prefix('t')?)?;
    if (1..=MOST_TERMINALS).contains(&t) {
        Some(t)
    } else {
        None
    }
}

/// An end, from its name: `host`, or that of a terminal.
pub(crate) fn read_end(token: &str) -> Option<End>
    ensures found { IfSome result (λ end. IsEnd end × (token.now ≡ end_name end)) }
    ensures every { (end : End) → IsEnd end → token.now ≡ end_name end → result ≡ Some end }
{
    if token == "host" {
        return Some(End::Host);
    }
    let t = read_terminal(token)?;
    Some(End::Term(t))
}
