//! The depth and the components of a node by those of its inputs (this project's own choice: OpenFX 1.4,
//! "kOfxImageEffectActionGetClipPreferences", leaves the defaults to the host).
#![tactic(auto)]

ghost use Rattle.std.specs.Prelude.{◌≡◌};
ghost use Rattle.fx_prefs.specs.Prefs.{negotiated, deepest, depth_among, widest, is_short, is_rgba};
ghost use Rattle.fx_prefs.specs.Prefs.{has_short, has_rgba, are_masks};

use fx_pixel::{Components, Depth};

/// The depth and the components of a node. The inputs are the connected ones, each with its depth, its
/// components and whether it is a mask. `byte`, `short` and `alpha` say what the effect supports beside
/// RGBA. The depth is the deepest of the inputs, or the only one that is supported. The components are
/// RGBA where an input other than a mask has it or Alpha isn't supported, and else Alpha. Where no input
/// tells, they are those of the project.
pub fn negotiate(
    inputs: &[(Depth, Components, bool)],
    byte: bool,
    short: bool,
    alpha: bool,
    project: (Depth, Components),
) -> (Depth, Components)
    ensures { result ≡ negotiated inputs.now byte short alpha project }
{
    let depth = depth_among(byte, short, deepest(project.0, inputs));
    let components = if alpha {
        widest(project.1, inputs)
    } else {
        Components::Rgba
    };
    (depth, components)
}

fn deepest(project: Depth, inputs: &[(Depth, Components, bool)]) -> Depth
    ensures { result ≡ deepest project inputs.now }
{
    if inputs.is_empty() {
        project
    } else if has_short(inputs) {
        Depth::Short
    } else {
        Depth::Byte
    }
}

fn depth_among(byte: bool, short: bool, wanted: Depth) -> Depth
    ensures { result ≡ depth_among byte short wanted }
{
    match (byte, short) {
        (true, true) => wanted,
        (_, true) => Depth::Short,
        (_, false) => Depth::Byte,
    }
}

fn widest(project: Components, inputs: &[(Depth, Components, bool)]) -> Components
    ensures { result ≡ widest project inputs.now }
{
    if are_masks(inputs) {
        project
    } else if has_rgba(inputs) {
        Components::Rgba
    } else {
        Components::Alpha
    }
}

fn has_short(inputs: &[(Depth, Components, bool)]) -> bool
    ensures { result ≡ has_short inputs.now }
{
    inputs.iter().any(|i| is_short(i.0))
}

// Whether there is no input but masks.
fn are_masks(inputs: &[(Depth, Components, bool)]) -> bool
    ensures { result ≡ are_masks inputs.now }
{
    inputs.iter().all(|i| i.2)
}

fn has_rgba(inputs: &[(Depth, Components, bool)]) -> bool
    ensures { result ≡ has_rgba inputs.now }
{
    inputs.iter().any(|i| !i.2 && is_rgba(i.1))
}

fn is_short(depth: Depth) -> bool
    ensures { result ≡ is_short depth }
{
    matches!(depth, Depth::Short)
}

fn is_rgba(components: Components) -> bool
    ensures { result ≡ is_rgba components }
{
    matches!(components, Components::Rgba)
}
