//! How a run ends, as the page sees it.

ghost use Rattle.std.specs.Prelude.{◌≡◌};
ghost use Rattle.dukpt_player.specs.Ending.{ending_line, ending_number};

/// How a run ends.
#[derive(Clone, Copy)]
pub(crate) enum Ending {
    /// 0: the script is played to its end.
    Played,
    /// 1: the bytes are no configuration.
    BadConfig,
    /// 2: this line of the script is no event.
    NotAnEvent(u64),
    /// 3: memory was refused.
    NoMemory,
    /// 4: the text does not fit in the slice that is to take it.
    NoRoom,
}

impl Ending {
    /// The number by which the page knows the ending.
    pub(crate) fn number(self) -> u32
        ensures { result ≡ ending_number self }
    {
        match self {
            Ending::Played => 0,
            Ending::BadConfig => 1,
            Ending::NotAnEvent(_) => 2,
            Ending::NoMemory => 3,
            Ending::NoRoom => 4,
        }
    }

    /// The number of the line that is no event; else 0.
    pub(crate) fn line(self) -> u64
        ensures { result ≡ ending_line self }
    {
        match self {
            Ending::NotAnEvent(line) => line,
            _ => 0,
        }
    }
}
