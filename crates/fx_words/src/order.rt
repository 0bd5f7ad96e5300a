//! What the words order.
use fx_base::Name;
use std::marker::Model;

/// The most tiles that are kept.
pub const MOST_CACHE: u32 = 65_536;

/// The most threads that render.
pub const MOST_WORKERS: u32 = 64;

/// The most moments of a block that is read ahead.
pub const MOST_AHEAD: u32 = 4;

/// The most that a picture's sides are divided by.
pub const MOST_SCALE: u32 = 8;

/// What is done with the graph.
#[derive(Clone, Copy, Debug, PartialEq, Eq)]
pub enum Mode {
    /// Its frames are rendered and written.
    Render,
    /// It is read and accepted, and nothing is fetched or written beside.
    Check,
    /// A graph that is made from a number is rendered in memory.
    Bench,
    /// It is read and accepted, and written again in format 2.
    Migrate,
    /// Its frames are rendered and written as it is written, and then after the edits of each take that it lists.
    Takes,
    /// Which tiles each of its frames demands is told, and nothing is rendered or written beside.
    Plan,
}

/// An order: the mode, the graph's name (for bench 1 to 6 decimal digits), and the options or their defaults.
#[derive(Debug, Drop)]
pub struct Order {
    pub mode: Mode,
    pub graph: Name,
    /// Frames before this one are left out, 0 to 999,999.
    pub first: u32,
    /// Frames behind this one are left out, 0 to 999,999.
    pub last: u32,
    /// The side of a tile in pixels, 1 to 1,024.
    pub tile: u32,
    /// How many tiles are kept, 0 to 65,536, and of at most 2^31 bytes together at eight bytes a pixel.
    pub cache: u32,
    /// How many threads render, 1 to 64.
    pub workers: u32,
    /// How many moments a block has whose source frames are read, and whose files are written, while the moments of
    /// another block are rendered, 1 to 4; where it is 0, moment after moment is read, rendered and written.
    pub ahead: u32,
    /// What the sides of a picture and all lengths are divided by: 1, 2, 4 or 8.
    pub scale: u32,
}

impl Model for Order {
    ghost use Rattle.fx_words.specs.Ordered.{Ordered, AreInRange};

    ghost Value = { Ordered };

    ghost view = { λ o. record {
      mode = o.mode;
      graph = o.graph;
      first = o.first;
      last = o.last;
      tile = o.tile;
      cache = o.cache;
      workers = o.workers;
      ahead = o.ahead;
      scale = o.scale;
    } };

    ghost invariant = { λ o. AreInRange o.first o.last o.tile o.cache o.workers o.ahead o.scale };
}
