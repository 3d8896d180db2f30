//! What is drawn of the system's random device.

ghost use Rattle.std.specs.Prelude.{◌≡◌, IfErr, IfOk};
ghost use Rattle.duk_program.specs.Random.{IsIdentityDrawn, IsIdentityUndrawn, identity_line, random_device};

use byteorder::{BigEndian, ByteOrder};
use duk_service::{FileFault, FileSystem};
use std::alloc::Global;

/// The system's random device.
pub(crate) const RANDOM: &str = "/dev/urandom";

/// The bytes of an identity.
const IDENTITY_LENGTH: usize = 8;

/// Why no identity is drawn.
#[derive(Clone, Copy, Debug, PartialEq, Eq)]
pub enum IdentityFault {
    /// The system gives no random bytes.
    Unread,
    /// Memory was refused.
    OutOfMemory,
}

impl IdentityFault {
    /// The line of the fault, LF at its end.
    pub(crate) fn line(self) -> &'static str
        ensures { result.now ≡ identity_line self }
    {
        match self {
            IdentityFault::Unread => "identity: cannot read\n",
            IdentityFault::OutOfMemory => "out of memory\n",
        }
    }
}

/// An identity for a new journal: random bytes of the system.
pub(crate) fn draw_identity<S: FileSystem>(alloc: Global, files: &S) -> Result<u64, IdentityFault>
    ensures drawn { IfOk result (IsIdentityDrawn (S.held files.now random_device)) }
    ensures refused { IfErr result (IsIdentityUndrawn (S.held files.now random_device)) }
{
    match files.read_front(alloc, RANDOM, IDENTITY_LENGTH) {
        Ok(bytes) => Ok(BigEndian::read_u64(&bytes)),
        Err(FileFault::NoMemory) => Err(IdentityFault::OutOfMemory),
        Err(_) => Err(IdentityFault::Unread),
    }
}
