//! What every point effect says of itself: it is a filter, which is of use in the general context too.
ghost use Rattle.std.specs.Prelude.{◌≡◌, false, [], IfOk, OnOk};
ghost use Rattle.fx_props.specs.Entries.{AwaitEntries, Wrote};
ghost use Rattle.fx_effect.specs.Described.{description};
ghost use Rattle.fx_effect.specs.Source.{source_shape};
ghost use Rattle.fx_effect.specs.declared.action.Reply.TheVariants as reply;
ghost use Rattle.fx_effect.specs.declared.action.Safety.TheVariants.{FullySafe};

use fx_base::Memory;
use fx_effect::{Context, Description, Reply, Safety};
use fx_pixel::Depth;
use fx_props::PropSet;
use std::alloc::Global;

// Writes what a point effect of this label is, which renders images of these depths.
pub(crate) fn describe(
    alloc: Global,
    label: &str,
    depths: &[Depth],
    descriptor: &mut PropSet,
) -> Result<Reply, Memory>
    requires { AwaitEntries descriptor.old (description (source_shape label.now depths.now [] false FullySafe [])) }
    ensures never_default { IfOk result (λ r. r ≡ reply.Ok) }
    ensures written { let entries = description (source_shape label.now depths.now [] false FullySafe []) in
        OnOk result (Wrote entries descriptor.old descriptor.new) }
{
    let description = Description {
        label,
        contexts: &[Context::Filter, Context::General],
        depths,
        temporal: false,
        tiles: true,
        safety: Safety::FullySafe,
    };
    description.write(alloc, descriptor)?;
    Ok(Reply::Ok)
}
