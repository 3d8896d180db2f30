//! A line of output, written token by token into a fixed buffer.
//!
//! The buffer is fixed, so that writing a line takes no memory: the lines of the events that are
//! done can be written after memory was refused.

ghost use Rattle.std.specs.Prelude.{◌≡◌, ◌+◌, ◌<◌, ◌≤◌, ◌∷◌, ◌++◌, [], length, decimal};
ghost use Rattle.duk_tree.specs.Serial.{iksn_bytes, serial_bytes};
ghost use Rattle.duk_frame.specs.Code.{code_text};
ghost use Rattle.duk_script.specs.Script.{end_name, terminal_name};
ghost use Rattle.duk_script.specs.OutcomeText.{ksn_text, iksn_text};

use arrayvec::ArrayVec;
use duk_frame::Code;
use duk_io::append_hex;
use duk_net::End;
use duk_tree::{Iksn, Ksn};
use itoa::Buffer;
use std::marker::Model;

/// The bytes that a line has room for, its end among them. The longest of terminals, `answer K
/// accepted KSN CODE` with a K of 20 digits, has 61.
pub const LINE_ROOM: usize = 96;

/// The text of a line, as ASCII.
pub type LineText = ArrayVec<u8, LINE_ROOM>;

/// A line that is not ended yet.
#[derive(Drop)]
pub struct Line {
    text: LineText,
}

impl Model for Line {
    ghost use Rattle.std.specs.Prelude.{ℕ, List};

    ghost Value = { List ℕ };

    ghost view = { λ line. line.text.items };
}

impl Line {
    /// A line that begins with a token.
    pub fn of_token(token: &[u8]) -> Line
        requires { length token.now ≤ LINE_ROOM }
        ensures text { result ≡ token.now }
        ensures len { length result ≡ length token.now }
    {
        let mut text = LineText::new();
        text.try_extend_from_slice(token).unwrap();
        Line { text }
    }

    /// A line that begins with the name of a terminal, of at most 11 bytes.
    pub fn of_terminal(t: u32) -> Line
        ensures text { result ≡ terminal_name t }
        ensures bound { length result ≤ 11 }
    {
        let mut digits = Buffer::new();
        let mut text = LineText::new();
        text.push(b't');
        text.try_extend_from_slice(digits.format(t).as_bytes())
            .unwrap();
        Line { text }
    }

    /// A line that begins with the name of an end, of at most 11 bytes.
    pub(crate) fn of_end(end: End) -> Line
        ensures text { result ≡ end_name end }
        ensures bound { length result ≤ 11 }
    {
        match end {
            End::Host => Line::of_token(b"host"),
            End::Term(t) => Line::of_terminal(t),
        }
    }

    /// The line and one more token.
    pub fn token(mut self, token: &[u8]) -> Line
        requires { length self + length token.now < LINE_ROOM }
        ensures text { result ≡ self ++ 32 ∷ token.now }
        ensures len { length result ≡ length self + length token.now + 1 }
    {
        self.text.push(b' ');
        self.text.try_extend_from_slice(token).unwrap();
        self
    }

    /// The line and a number in decimal, of at most 20 digits.
    pub fn number(self, number: u64) -> Line
        requires { length self + 20 < LINE_ROOM }
        ensures text { result ≡ self ++ 32 ∷ decimal number }
        ensures bound { length result ≤ length self + 21 }
    {
        let mut digits = Buffer::new();
        self.token(digits.format(number).as_bytes())
    }

    /// The line and a colon.
    pub(crate) fn colon(mut self) -> Line
        requires { length self < LINE_ROOM }
        ensures text { result ≡ self ++ 58 ∷ [] }
        ensures len { length result ≡ length self + 1 }
    {
        self.text.push(b':');
        self
    }

    /// The line and a key serial number.
    pub fn ksn(mut self, ksn: Ksn) -> Line
        requires { length self + 20 < LINE_ROOM }
        ensures text { result ≡ self ++ 32 ∷ ksn_text ksn }
        ensures len { length result ≡ length self + 21 }
    {
        self.text.push(b' ');
        append_hex(&mut self.text, &ksn.bytes());
        self
    }

    /// The line and an initial key serial number.
    pub(crate) fn iksn(mut self, iksn: Iksn) -> Line
        requires { length self + 20 < LINE_ROOM }
        ensures text { result ≡ self ++ 32 ∷ iksn_text iksn }
        ensures len { length result ≡ length self + 21 }
    {
        self.text.push(b' ');
        append_hex(&mut self.text, &iksn.bytes());
        self
    }

    /// The line and the two digits of a code.
    pub fn code(self, code: Code) -> Line
        requires { length self + 2 < LINE_ROOM }
        ensures text { result ≡ self ++ 32 ∷ code_text code }
        ensures len { length result ≡ length self + 3 }
    {
        self.token(&code.text())
    }

    /// The bytes of the line, with its end.
    pub fn end(self) -> LineText
        requires { length self < LINE_ROOM }
        ensures { result.items ≡ self ++ 10 ∷ [] }
    {
        let Line { mut text } = self;
        text.push(b'\n');
        text
    }
}
