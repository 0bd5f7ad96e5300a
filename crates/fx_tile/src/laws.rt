//! Where ends are found.
ghost use Rattle.std.specs.Prelude.{◌≤◌, ℕ, ℤ};
ghost use Rattle.fx_base.specs.Bounds.{Bounds};
ghost use Rattle.fx_base.specs.declared.limits.TheConstants.{MOST_NODES};
ghost use Rattle.fx_scene.specs.Nodes.{AreNodes, Nodes};
ghost use Rattle.fx_region.specs.Ends.{end_of};
ghost use Rattle.fx_tile.specs.Founds.{IsFoundIn};

/// Each end of a region is found in an image of a source, or in an effect.
pub fn ends_are_found()
    ensures { (nodes : Nodes) → AreNodes nodes → (n : ℕ) (t : ℤ) (r : Bounds) → n ≤ MOST_NODES
        → IsFoundIn nodes r (end_of nodes n t r) }
{}
