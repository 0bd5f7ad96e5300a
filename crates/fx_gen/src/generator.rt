//! What generators share: what they say of themselves, their region, and greys.
ghost use Rattle.std.specs.Prelude.{◌≡◌, ◌≤◌, [], ◌∷◌, IfOk, OnOk};
ghost use Rattle.fx_pixel.specs.Pixel.{greatest, components_of, IsOfDepth};
ghost use Rattle.fx_props.specs.declared.names.TheConstants.{REGION as REGION_NAME};
ghost use Rattle.fx_props.specs.declared.value.PropKind.TheVariants as kind;
ghost use Rattle.fx_props.specs.Entries.{AwaitEntries, IsBlank, Wrote, region_entry};
ghost use Rattle.fx_effect.specs.Described.{description};
ghost use Rattle.fx_effect.specs.Generator.{generator_shape};
ghost use Rattle.fx_effect.specs.Shape.{IsProject};
ghost use Rattle.fx_effect.specs.declared.action.Reply.TheVariants as reply;
ghost use Rattle.fx_gen.specs.Grey.{grey};

use fx_base::{Memory, Rect};
use fx_effect::{Context, Description, Reply, Safety};
use fx_pixel::{Components, Depth, Pixel};
use fx_props::names::REGION;
use fx_props::{PropSet, write_region};
use std::alloc::Global;

// Writes what a generator of this label is.
pub(crate) fn describe(
    alloc: Global,
    label: &str,
    descriptor: &mut PropSet,
) -> Result<Reply, Memory>
    requires { AwaitEntries descriptor.old (description (generator_shape label.now [])) }
    ensures never_default { IfOk result (λ r. r ≡ reply.Ok) }
    ensures written { OnOk result (Wrote (description (generator_shape label.now [])) descriptor.old descriptor.new) }
{
    let description = Description {
        label,
        contexts: &[Context::Generator, Context::General],
        depths: &[Depth::Byte, Depth::Short],
        temporal: false,
        tiles: true,
        safety: Safety::FullySafe,
    };
    description.write(alloc, descriptor)?;
    Ok(Reply::Ok)
}

// Writes the project's extent as the region of definition.
pub(crate) fn write_project(
    alloc: Global,
    project: Rect,
    out_args: &mut PropSet,
) -> Result<Reply, Memory>
    requires project { IsProject project }
    requires blank { IsBlank out_args.old kind.Fix REGION_NAME.now }
    ensures never_default { IfOk result (λ r. r ≡ reply.Ok) }
    ensures written { OnOk result (Wrote (region_entry REGION_NAME.now project ∷ []) out_args.old out_args.new) }
{
    write_region(alloc, out_args, REGION, project)?;
    Ok(Reply::Ok)
}

// An opaque grey, or a alone.
#[inline(always)]
pub(crate) fn grey(depth: Depth, components: Components, n: u16) -> Pixel
    requires { n ≤ greatest depth }
    ensures value { result ≡ grey components (greatest depth) n }
    ensures depth { IsOfDepth depth result }
    ensures components { components_of result ≡ components }
{
    match components {
        Components::Rgba => Pixel::Rgba {
            r: n,
            g: n,
            b: n,
            a: depth.greatest() as u16,
        },
        Components::Alpha => Pixel::Alpha { a: n },
    }
}
