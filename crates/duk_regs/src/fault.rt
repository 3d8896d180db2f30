//! Why a terminal is not given another initial key.

/// Why registers are not reloaded.
#[derive(Debug, Clone, Copy, PartialEq, Eq)]
pub enum ReloadFault {
    /// The terminal has this initial key serial number, or had it before.
    IksnSpent,
    /// Eight initial key serial numbers are past.
    LoadsSpent,
}
