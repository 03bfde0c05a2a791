//! Where a search goes on.

ghost use Rattle.std.specs.Prelude.{◌≡◌, IfOk};
ghost use Rattle.apd_trace.specs.Frames.{handed_all, outer};
ghost use Rattle.apd_frames.specs.Kept.{Takes};

use crate::engine::frames::FrameList;
use std::alloc::{AllocError, Global};

/// Frames, and a number above all their variables.
#[derive(Drop)]
pub(crate) struct Place {
    pub frames: FrameList,
    pub fresh: u64,
}

impl Place {
    /// The frames around the innermost one.
    pub(crate) fn outer(&self, alloc: Global) -> Result<Place, AllocError>
        ensures frames { IfOk result (λ p. p.frames ≡ outer self.now.frames) }
        ensures fresh { IfOk result (λ p. p.fresh ≡ self.now.fresh) }
    {
        let mut frames = self.frames.copy(alloc)?;
        frames.leave();
        Ok(Place {
            frames,
            fresh: self.fresh,
        })
    }

    /// The frames where one more goal of the innermost one is solved, at a new point.
    pub(crate) fn handed(&self, alloc: Global, point: u32) -> Result<Place, AllocError>
        requires { Takes self.now.frames }
        ensures frames { IfOk result (λ p. p.frames ≡ handed_all self.now.frames point) }
        ensures fresh { IfOk result (λ p. p.fresh ≡ self.now.fresh) }
    {
        let mut frames = self.frames.copy(alloc)?;
        frames.take_over(point);
        Ok(Place {
            frames,
            fresh: self.fresh,
        })
    }
}
