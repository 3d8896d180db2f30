//! Where progress is told.

use crate::as_json::Faults;
use crate::patient::Patient;
use std::alloc::Global;
use std::io::Stderr;

/// Standard error, on which progress is told, as lines or as objects.
pub(crate) type Errors = Faults<Patient<Stderr>>;

/// How progress is told.
#[derive(Clone, Copy)]
pub(crate) struct Telling {
    alloc: Global,
    as_objects: bool,
    stream: Stderr,
}

impl Telling {
    /// On this stream, as lines or as objects.
    pub(crate) fn new(alloc: Global, as_objects: bool, stream: Stderr) -> Self {
        Telling {
            alloc,
            as_objects,
            stream,
        }
    }

    /// Standard error, which takes lines.
    pub(crate) fn errors(self) -> Errors {
        Faults::new(
            self.alloc,
            self.as_objects,
            Patient {
                stream: self.stream,
            },
        )
    }
}
