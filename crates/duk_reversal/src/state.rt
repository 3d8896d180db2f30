//! What a reversal found.

ghost use Rattle.std.specs.Prelude.{◌≡◌, IfSome, Some};
ghost use Rattle.duk_reversal.specs.State.{state_byte};

/// Whether a payment of the reversed number stood.
#[derive(Clone, Copy, Debug, PartialEq, Eq)]
pub enum ReversalState {
    /// 01: a payment stood, and is undone.
    Undone,
    /// 00: none stands, and none will.
    NoneStands,
}

impl ReversalState {
    /// The state's byte.
    pub fn byte(self) -> u8
        ensures { result ≡ state_byte self }
    {
        match self {
            ReversalState::Undone => 1,
            ReversalState::NoneStands => 0,
        }
    }

    /// The state of a byte.
    pub fn from_byte(byte: u8) -> Option<ReversalState>
        ensures found { IfSome result (λ state. state_byte state ≡ byte) }
        ensures every { (state : ReversalState) → state_byte state ≡ byte → result ≡ Some state }
    {
        match byte {
            1 => Some(ReversalState::Undone),
            0 => Some(ReversalState::NoneStands),
            _ => None,
        }
    }
}
