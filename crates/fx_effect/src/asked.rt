//! What an effect is asked, read from the set and the regions that it was handed.
ghost use Rattle.std.specs.Prelude.{◌≡◌};
ghost use Rattle.fx_base.specs.Bounds.{Bounds, IsRect};
ghost use Rattle.fx_props.specs.Entries.{region_of};
ghost use Rattle.fx_effect.specs.Asked.{IsWindow, AsksRegion, AsksWindow, HasRegion, HasWindow};

use fx_base::Rect;
use fx_props::names::{ASKED_REGION, WINDOW};
use fx_props::{PropSet, region_at, window_at};

/// The region that is asked for, in pixels.
pub fn asked_region(in_args: &PropSet) -> Rect
    requires { AsksRegion in_args.now }
    ensures value { (r : Bounds) → IsRect r → HasRegion in_args.now r → result ≡ r }
    ensures window { IsWindow result }
{
    region_at(in_args, ASKED_REGION)
}

/// The window that is asked about, in pixels.
pub fn asked_window(in_args: &PropSet) -> Rect
    requires { AsksWindow in_args.now }
    ensures value { (r : Bounds) → IsRect r → HasWindow in_args.now r → result ≡ r }
    ensures window { IsWindow result }
{
    window_at(in_args, WINDOW)
}

/// The region of an input clip, and the empty one past the last clip.
pub fn region_of(regions: &[Rect], clip: usize) -> Rect
    ensures { result ≡ region_of regions.now clip }
{
    regions.get(clip).copied().unwrap_or(Rect::of(0, 0, 0, 0))
}
