//! A node of a graph.
use fx_base::{Name, Names, Pattern};
use fx_effect::{Context, Flags};
use fx_params::Param;
use fx_pixel::{Components, Depth};

/// A node under its name, which makes images of a depth and components. A source's are those that it
/// declares, and an effect's are negotiated from its connected inputs.
#[derive(Drop)]
pub struct Node<E> {
    pub name: Name,
    pub depth: Depth,
    pub components: Components,
    pub work: Work<E>,
}

/// What a node does.
#[derive(Drop)]
pub enum Work<E> {
    /// Reads the frames from `first` to `last`, whose files the pattern names. Outside of them the nearest one
    /// holds, or the image is black.
    Source {
        pattern: Pattern,
        first: u32,
        last: u32,
        hold: bool,
    },
    /// An effect in a context. Each input clip, in the order in which the effect describes them, has a name,
    /// is an earlier node or unconnected, may be optional, and may be a mask. The parameters are those that
    /// the effect describes, in order.
    Effect {
        effect: E,
        context: Context,
        clips: Vec<Option<u32>>,
        names: Names,
        optional: Flags,
        masks: Flags,
        params: Vec<Param>,
    },
}
