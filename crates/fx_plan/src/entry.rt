//! What a plan lists, and the order in which it stands.
ghost use Rattle.std.specs.Prelude.{◌≡◌};
ghost use Rattle.fx_base.specs.Bounds.{IsRect};
ghost use Rattle.fx_plan.specs.Keys.{entry_of, key_of, key_region};

use fx_base::Rect;

/// A region of a node, by its place in the graph's list, that is to be rendered at a frame.
#[derive(Clone, Copy, Debug, PartialEq, Eq, Drop)]
pub struct Entry {
    pub node: u32,
    pub frame: i64,
    pub region: Rect,
}

/// An entry, with its numbers in the order in which entries are compared.
#[derive(Clone, Copy, Debug, PartialEq, Eq, PartialOrd, Ord, Drop)]
pub(crate) struct SortKey {
    pub(crate) node: u32,
    pub(crate) frame: i64,
    pub(crate) y1: i64,
    pub(crate) x1: i64,
    pub(crate) y2: i64,
    pub(crate) x2: i64,
}

impl SortKey {
    pub(crate) fn of(node: u32, frame: i64, region: Rect) -> SortKey
        ensures key { result ≡ key_of (record { node = node; frame = frame; region = region }) }
        ensures rect { IsRect region }
    {
        SortKey {
            node,
            frame,
            y1: region.y1,
            x1: region.x1,
            y2: region.y2,
            x2: region.x2,
        }
    }

    pub(crate) fn region(self) -> Rect
        requires { IsRect (key_region self) }
        ensures { result ≡ key_region self }
    {
        Rect {
            x1: self.x1,
            y1: self.y1,
            x2: self.x2,
            y2: self.y2,
        }
    }

    pub(crate) fn entry(self) -> Entry
        requires { IsRect (key_region self) }
        ensures { result ≡ entry_of self }
    {
        Entry {
            node: self.node,
            frame: self.frame,
            region: self.region(),
        }
    }
}
