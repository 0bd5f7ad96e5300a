//! The conversions that pixels go through on their way to an effect.
ghost use Rattle.std.specs.Prelude.{◌≡◌, ◌≤◌, List, true, length, take};
ghost use Rattle.fx_pixel.specs.Pixel.{IsOfDepth, components_of};

use fx_pixel::{Components, Depth, Pixel};
use std::marker::Model;

/// One conversion: to this depth and these components.
#[derive(Clone, Copy, Debug, PartialEq, Eq)]
pub struct Step {
    pub depth: Depth,
    pub components: Components,
}

/// Conversions, one after another.
#[derive(Debug, Drop)]
pub struct Steps {
    items: Vec<Step>,
}

impl Model for Steps {
    ghost use Rattle.std.specs.Prelude.{List};
    ghost use Rattle.fx_effect.specs.declared.steps.Step.{Step};

    ghost Value = { List Step };

    ghost view = { λ steps. steps.items.items };
}

impl Steps {
    ghost use Rattle.fx_effect.specs.Given.{Keep, AreOne, converted};

    /// These conversions, in this order.
    pub fn of(items: Vec<Step>) -> Steps
        ensures { result ≡ items.items }
    {
        Steps { items }
    }

    /// The conversions in order.
    pub fn items(&self) -> &[Step]
        ensures { result.now ≡ self.now }
    {
        self.items.as_slice()
    }

    /// The conversions in order, given away.
    pub fn into_items(self) -> Vec<Step>
        ensures { result.items ≡ self }
    {
        self.items
    }

    /// Whether each of these conversions leaves pixels of this depth and these components as they are.
    pub(crate) fn keep(&self, depth: Depth, components: Components) -> bool
        ensures { result ≡ true → Keep depth components self.now }
    {
        all_keep(self.items.as_slice(), depth, components)
    }

    /// Whether these conversions and a last one come to one, of pixels of this depth and these components:
    /// some leave them as they are, and those behind convert to what the last one gives.
    pub(crate) fn are_one(&self, from: Depth, seen: Components, to: Depth, c: Components) -> bool
        ensures { result ≡ true → AreOne from seen to c self.now }
    {
        let steps = self.items.as_slice();
        all_keep(&steps[kept_first(steps, from, seen)..], to, c)
    }

    /// The pixel of depth `from` after each of these conversions and a last one.
    pub fn convert(&self, p: Pixel, from: Depth, to: Depth, c: Components) -> Pixel
        requires { IsOfDepth from p }
        ensures value { result ≡ converted from self.now to c p }
        ensures depth { IsOfDepth to result }
        ensures components { components_of result ≡ c }
    {
        convert_through(self.items.as_slice(), p, from, to, c)
    }
}

ghost use Rattle.fx_effect.specs.Given.{Keep, converted};

// Whether each leaves pixels of this depth and these components as they are.
fn all_keep(steps: &[Step], depth: Depth, components: Components) -> bool
    ensures { result ≡ true → Keep depth components steps.now }
{
    kept_first(steps, depth, components) == steps.len()
}

// How many of the first leave pixels of this depth and these components as they are.
fn kept_first(steps: &[Step], depth: Depth, components: Components) -> usize
    ensures few { result ≤ length steps.now }
    ensures kept { Keep depth components (take result steps.now) }
{
    for i in 0..steps.len() {
        if steps[i].depth != depth || steps[i].components != components {
            return i;
        }
    }
    steps.len()
}

fn convert_through(steps: &[Step], p: Pixel, from: Depth, to: Depth, c: Components) -> Pixel
    requires { IsOfDepth from p }
    ensures value { result ≡ converted from steps.now to c p }
    ensures depth { IsOfDepth to result }
    ensures components { components_of result ≡ c }
{
    let mut depth = from;
    let mut pixel = p;
    for step in steps {
        pixel = pixel.convert(depth, step.depth, step.components);
        depth = step.depth;
    }
    pixel.convert(depth, to, c)
}
