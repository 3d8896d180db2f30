//! The names of the program's commands.

/// A command of the program.
#[derive(Clone, Copy)]
pub enum CommandName {
    /// `derive`
    Derive,
    /// `walk`
    Walk,
    /// `initial`
    Initial,
    /// `issue`
    Issue,
    /// `registers`
    Registers,
    /// `kcv`
    Kcv,
    /// `lmk`
    Lmk,
    /// `mac`
    Mac,
    /// `data`
    Data,
    /// `pin`
    Pin,
    /// `unpin`
    Unpin,
    /// `translate`
    Translate,
    /// `wrap`
    Wrap,
    /// `unwrap`
    Unwrap,
    /// `show`
    Show,
    /// `request`
    Request,
    /// `reply`
    Reply,
    /// `find`
    Find,
    /// `run`
    Run,
    /// `serve`
    Serve,
    /// `new-log`
    NewLog,
    /// `new-journal`
    NewJournal,
    /// `new-ledger`
    NewLedger,
    /// `grow-journal`
    GrowJournal,
    /// `copy-journal`
    CopyJournal,
    /// `copy-ledger`
    CopyLedger,
}
