//! What a host has in memory while it runs.

use crate::recent::Recent;
use crate::used::UsedNumbers;

/// What a host that runs has in memory.
#[derive(Drop)]
pub(crate) struct Running {
    /// The used numbers.
    pub(crate) used: UsedNumbers,
    /// The latest requests that were accepted since the restart, with their replies.
    pub(crate) recent: Recent,
}
