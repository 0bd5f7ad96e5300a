//! The words of the actions (OpenFX 1.4, "Image Effect Contexts", "Status Codes", "Thread Safety").

/// What an effect is used for. A generator has no input clip, a filter has Source, a transition has
/// SourceFrom and SourceTo, and the general context has any.
#[derive(Clone, Copy, Debug, PartialEq, Eq)]
pub enum Context {
    Generator,
    Filter,
    Transition,
    General,
}

/// What an effect answers to an action: that it did it, or that the host's default stands.
#[derive(Clone, Copy, Debug, PartialEq, Eq)]
pub enum Reply {
    Ok,
    Default,
}

/// Whether an effect's output over a window is that of one of its input clips at a frame. `No` stands for
/// kOfxStatReplyDefault and `Same` for kOfxStatOK.
#[derive(Clone, Copy, Debug, PartialEq, Eq)]
pub enum Identity {
    No,
    Same { clip: u32, frame: i64 },
}

/// How many renders may run at one time: one of all instances, one of each instance, or any number.
#[derive(Clone, Copy, Debug, PartialEq, Eq)]
pub enum Safety {
    Unsafe,
    InstanceSafe,
    FullySafe,
}
