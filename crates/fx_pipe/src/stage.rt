//! What makes the files of moments from their source frames.
ghost use Rattle.std.specs.Prelude.{◌≡◌, ◌+◌, ◌++◌, ◌⊎◌, ℕ, ℤ, List, IfOk, OnOk, OnErr};
ghost use Rattle.std.specs.Thread.{IsSync};
ghost use Rattle.fx_seq.specs.declared.source.SourceFrame.{SourceFrame};
ghost use Rattle.fx_pipe.specs.Moments.{places};
ghost use Rattle.fx_pipe.specs.declared.made.Made.{Made};

use crate::Made;
use fx_base::Memory;
use fx_seq::SourceFrame;
use std::alloc::Global;
use std::rt::Clock;
use std::sync::Wait;
use std::thread::Threads;

/// Makes the file of one moment after the other. What it is made from, its base, never changes: it says which frames
/// are due at a moment, and what is right for the frames that were handed in up to a moment.
pub trait Stage {
    /// What never changes.
    type Base;

    /// What never changes.
    ghost base: { Self → Self.Base };

    /// The moment that it is ready for.
    ghost next: { Self → ℕ };

    /// The frames that it was handed, in their order.
    ghost seen: { Self → List SourceFrame };

    /// The nodes and frames that are due at a moment.
    ghost due: { Self.Base → ℕ → List (ℕ × ℤ) };

    /// What may be made of a moment, where these are the frames that were handed in up to it.
    ghost right: { Self.Base → List SourceFrame → ℕ → Made → Type 0 };

    /// Makes the file of the moment that it is ready for, from its frames and those of the moments before. Where memory
    /// is wanting it has taken the frames or has not, and its base stays.
    fn made<R: Threads + Wait + Clock + Sync>(
        &mut self,
        rt: &R,
        alloc: Global,
        moment: u64,
        frames: Vec<SourceFrame>,
    ) -> Result<Made, Memory>
        // So the stage may share the handle with threads that it starts.
        requires shared { IsSync R.row }
        requires moment { moment ≡ next self.old }
        requires due { places frames.items ≡ due (base self.old) moment }
        ensures base { base self.new ≡ base self.old }
        ensures next { OnOk result (next self.new ≡ next self.old + 1) }
        ensures seen { OnOk result (seen self.new ≡ seen self.old ++ frames.items) }
        ensures right { IfOk result (λ made. right (base self.old) (seen self.old ++ frames.items) moment made) }
        ensures memory { OnErr result
            ((seen self.new ≡ seen self.old) ⊎ (seen self.new ≡ seen self.old ++ frames.items)) };
}
