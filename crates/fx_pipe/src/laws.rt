//! What is known of the moments whose source frames were read.
ghost use Rattle.fx_outside.specs.Outside.{Files};
ghost use Rattle.fx_pipe.specs.declared.schedule.Schedule.{Schedule as AnySchedule};
ghost use Rattle.fx_pipe.specs.Refusals.{ReadAreAccepted, ReadAreDue, UnreadIsRefused};
ghost use Rattle.fx_seq.specs.Moments.{AreOnce};

/// Over a library that tells its files, what was read of moments is what is due there, none of the moments whose frames
/// were read is refused, and the first whose frames were not is refused for the fault that is told, or by a fetch that
/// failed. It computes nothing.
pub fn reading_is_accepting()
    ensures due { (files : Files) (schedule : AnySchedule) → ReadAreDue files schedule }
    ensures accepted { (files : Files) (schedule : AnySchedule)
        → AreOnce schedule.uses.now → ReadAreAccepted files schedule }
    ensures refused { (files : Files) (schedule : AnySchedule)
        → AreOnce schedule.uses.now → UnreadIsRefused files schedule }
{}
