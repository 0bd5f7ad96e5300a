//! Paths into a graph file: members are joined with a point, and an item of a list stands in brackets with
//! its number from 0, as in `nodes[2].params.radius`. The whole file has the empty path.
ghost use Rattle.std.specs.Prelude.{◌≡◌, ℕ, List, string_bytes, IfOk};
ghost use Rattle.fx_text.specs.Paths.{joined, inside};

use std::alloc::{AllocError, Global};
use std::marker::Model;

/// Where in a graph file something is. Contracts see it as its bytes.
#[derive(Debug, Drop)]
pub struct GraphPath {
    text: String,
}

impl Model for GraphPath {
    ghost Value = { List ℕ };

    ghost view = { λ path. string_bytes path.text };
}

impl GraphPath {
    /// The path with this text.
    pub fn of(text: String) -> GraphPath
        ensures { result ≡ string_bytes text }
    {
        GraphPath { text }
    }

    /// Its text.
    pub fn text(&self) -> &str
        ensures { result.now ≡ self.now }
    {
        self.text.as_str()
    }
}

/// The path of a member of the object at a path.
pub(crate) fn joined(alloc: Global, path: &str, key: &str) -> Result<String, AllocError>
    ensures { IfOk result (λ text. string_bytes text ≡ joined path.now key.now) }
{
    if path.is_empty() {
        format!(in alloc; "{key}")
    } else {
        format!(in alloc; "{path}.{key}")
    }
}

/// The path of the item with this number of the list at a path.
pub(crate) fn inside(alloc: Global, path: &str, number: usize) -> Result<String, AllocError>
    ensures { IfOk result (λ text. string_bytes text ≡ inside path.now number) }
{
    format!(in alloc; "{path}[{number}]")
}
