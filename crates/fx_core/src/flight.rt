//! What goes into a core and comes out of it. A ticket and a flight are no values to let go: each is
//! handed on until a call takes it.
ghost use Rattle.std.specs.Prelude.{◌≡◌};

use std::sync::Arc;

/// The right to a core of a scene. The core gives it back where it ends.
#[derive(Debug, Drop)]
pub struct Permit {
    /// The scene's number.
    pub scene: u64,
}

impl Permit {
    /// The permit of the scene with this number.
    pub fn new(scene: u64) -> Permit
        ensures { result.scene ≡ scene }
    {
        Permit { scene }
    }
}

/// The right to make one value.
#[derive(Debug)]
pub struct Ticket {
    /// The number of the scene that the value is made for.
    pub scene: u64,
    /// The flight's number, which no other flight of its core has.
    pub number: u64,
    /// Whether the value was made.
    pub stamped: bool,
}

/// A key whose value is being made. It ends where it is landed or dropped.
#[derive(Debug)]
pub struct Flight<K> {
    /// What is being made.
    pub key: Arc<K>,
    /// The maker's ticket.
    pub ticket: Ticket,
}

/// The answer to an ask.
#[derive(Debug)]
pub enum Answer<K, V> {
    /// The value is kept.
    Here(Arc<V>),
    /// Nobody makes the value yet: the asker is to make it.
    Fly(Flight<K>),
    /// Someone makes the value.
    Busy,
}
