//! The codes of an accepted reply.

ghost use Rattle.std.specs.Prelude.{◌≡◌, IfSome, List, ℕ, Some, length};
ghost use Rattle.duk_frame.specs.Code.{code_text};

/// What the issuer says of a payment, as two digits of ISO 8583's response codes.
#[derive(Clone, Copy, Debug, PartialEq, Eq)]
pub enum Code {
    /// 00: approved.
    Approved,
    /// 14: no such card.
    NoCard,
    /// 55: the PIN is wrong.
    WrongPin,
    /// 51: over the card's limit.
    OverLimit,
    /// 30: the PIN block is unreadable.
    Unreadable,
}

impl Code {
    /// The two digits, as ASCII.
    pub fn text(self) -> [u8; 2]
        ensures text { result ≡ code_text self }
    {
        match self {
            Code::Approved => *b"00",
            Code::NoCard => *b"14",
            Code::WrongPin => *b"55",
            Code::OverLimit => *b"51",
            Code::Unreadable => *b"30",
        }
    }

    /// The code of two digits.
    pub(crate) fn from_text(text: [u8; 2]) -> Option<Code>
        ensures found { IfSome result (λ code. code_text code ≡ text) }
        ensures every { (code : Code) → code_text code ≡ text → result ≡ Some code }
    {
        match &text {
            b"00" => Some(Code::Approved),
            b"14" => Some(Code::NoCard),
            b"55" => Some(Code::WrongPin),
            b"51" => Some(Code::OverLimit),
            b"30" => Some(Code::Unreadable),
            _ => None,
        }
    }
}
