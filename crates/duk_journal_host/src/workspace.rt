//! The memory of a service.

ghost use Rattle.std.specs.Prelude.{◌≡◌, [], All, IfOk, replicate};
ghost use Rattle.duk_journal_host.specs.Serve.{empty_workspace};

use crate::group::{Group, MOST_FRAMES};
use duk_frame::Frame;
use std::alloc::{AllocError, Global};
use std::marker::Model;

/// The memory that a service over a journal needs: room for the frames of a group, and for their
/// answers. Only `new` takes memory.
#[derive(Drop)]
pub struct Workspace {
    pub(crate) frames: Vec<Frame>,
    pub(crate) group: Group,
}

impl Model for Workspace {
    ghost use Rattle.std.specs.Prelude.{map};
    ghost use Rattle.duk_journal_host.specs.Serve.{WorkspaceOf};
    ghost use Rattle.duk_journal_host.specs.inner.Serve.{HasRoomForFrames};

    ghost Value = { WorkspaceOf };

    ghost view = { λ work. record {
      frames = map (λ frame. frame.items) work.frames.items;
      group = work.group;
    } };

    ghost invariant = { λ work. HasRoomForFrames work.frames };
}

impl Workspace {
    /// An empty workspace.
    pub fn new(alloc: Global) -> Result<Self, AllocError>
        ensures frames { IfOk result (λ work. work.frames ≡ []) }
        ensures answers { IfOk result (λ work. work.group.answers ≡ []) }
        ensures entries { IfOk result (λ work. work.group.entries ≡ []) }
    {
        let frames = Vec::with_capacity(alloc, MOST_FRAMES)?;
        let group = Group::new(alloc)?;
        Ok(Workspace { frames, group })
    }

    /// Empties the workspace, and writes zeros over the frames, since these have PANs and enciphered
    /// PIN blocks.
    pub(crate) fn clear(&mut self)
        ensures { self.new ≡ empty_workspace }
    {
        wipe(&mut self.frames);
        self.frames.clear();
        self.group.clear();
    }
}

/// Writes zeros over all bytes of frames.
fn wipe(frames: &mut [Frame])
    ensures { All (λ frame. frame.items ≡ replicate 64 0) frames.new }
{
    for index in 0..frames.len() {
        frames[index] = Frame::from([0; 64]);
    }
}
