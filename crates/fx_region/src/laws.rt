//! Regions suffice: what is known of every list of nodes whose effects keep their laws, and so of every scene.
ghost use Rattle.std.specs.Prelude.{ℕ, ℤ};
ghost use Rattle.fx_base.specs.Bounds.{Bounds};
ghost use Rattle.fx_scene.specs.Nodes.{Nodes, AreNodes};
ghost use Rattle.fx_region.specs.Counts.{IsSumOfKinds, tile_counts};
ghost use Rattle.fx_region.specs.Ends.{IsChoice, chosen};
ghost use Rattle.fx_region.specs.Suffice.{EndsSuffice, NeedsSuffice};

/// Where a region of a node ends, its value is shown there, whatever region that holds the cut is rendered: so where it
/// is the whole region of definition of effects that support no tiles, and the cut of the others. It
/// computes nothing.
pub fn ends_suffice()
    ensures shown { (nodes : Nodes) → AreNodes nodes → EndsSuffice nodes }
    ensures chosen { (nodes : Nodes) → IsChoice nodes (chosen nodes) }
{}

/// What a region of an effect needs shows each tap of its pixels. It computes nothing.
pub fn needs_suffice()
    ensures { (nodes : Nodes) → AreNodes nodes → NeedsSuffice nodes }
{}

/// Each window tile of a run is found nowhere, in a frame of a source, or in a render. It computes nothing.
pub fn tiles_are_of_three_kinds()
    ensures { (nodes : Nodes) (output side : ℕ) (project : Bounds) (first last : ℤ)
        → IsSumOfKinds (tile_counts nodes output side project first last) }
{}
