//! Why a graph is refused, and where.
ghost use Rattle.std.specs.Prelude.{◌≡◌};
ghost use Rattle.fx_text.specs.declared.fault.GraphFault.TheVariants.{Memory as OutOfMemory};

use crate::path::GraphPath;
use fx_base::Memory;
use std::alloc::{AllocError, AllocFailed};

/// What is wrong with a graph, in the order of the codes G1 to G18. This crate gives the first three; the
/// others come where groups are expanded, and where a raw graph and its takes are accepted.
#[derive(Clone, Copy, Debug, PartialEq, Eq)]
pub enum GraphCode {
    /// The bytes are no JSON text.
    NotJson,
    /// A member is missing, is none that the format has, or is of another form.
    WrongForm,
    /// A whole number, a text's length or a list's length is out of range.
    NumberOutOfRange,
    /// An earlier node has this name.
    NameRepeated,
    /// No effect has this name.
    UnknownEffect,
    /// The effect hasn't this context.
    ContextNotSupported,
    /// The effect hasn't this input clip.
    UnknownClip,
    /// An input clip that isn't optional is unconnected.
    ClipMissing,
    /// No node before this one has the name.
    NoEarlierNode,
    /// The effect hasn't this parameter.
    UnknownParam,
    /// A value isn't of the parameter's kind, or is out of its range.
    ParamRefused,
    /// A key's frame isn't greater than that of the key before.
    KeysNotRising,
    /// No node has the name that the output asks for.
    UnknownOutput,
    /// A text is no pattern of file names, or hasn't the run of `#` that it needs.
    PatternWrong,
    /// No effect has the name that an edit asks for.
    EditOfNoEffect,
    /// No group before this one, or none at all, has the name that a use asks for.
    UnknownGroup,
    /// The expanded list has too many nodes.
    TooManyNodes,
    /// A name, or the text of a clip, has a slash.
    SlashInName,
}

/// Why there is no graph.
#[derive(Debug, Drop)]
pub enum GraphFault {
    /// The file is refused: what is wrong, and the path of where.
    Refused(GraphCode, GraphPath),
    /// Memory was wanting.
    Memory,
}

impl From<Memory> for GraphFault {
    ghost from_gives = { λ _ e. e ≡ OutOfMemory };

    fn from(_: Memory) -> GraphFault {
        GraphFault::Memory
    }
}

impl From<AllocError> for GraphFault {
    ghost from_gives = { λ _ e. e ≡ OutOfMemory };

    fn from(_: AllocError) -> GraphFault {
        GraphFault::Memory
    }
}

impl<T: Drop> From<AllocFailed<T>> for GraphFault {
    ghost from_gives = { λ _ e. e ≡ OutOfMemory };

    fn from(_: AllocFailed<T>) -> GraphFault {
        GraphFault::Memory
    }
}
