//! The effect timeoffset.
ghost use Rattle.std.specs.Prelude.{◌≡◌};
ghost use Rattle.fx_base.specs.Rect.{IsFrame};
ghost use Rattle.fx_effect.specs.Shape.{IsLawful};
ghost use Rattle.fx_time.specs.Timeoffset.{timeoffset, timeoffset_shape, moment as moment_of};
ghost use Rattle.fx_time.specs.TimeoffsetLaws.{timeoffset_laws};

use crate::parts::SOURCE;
use fx_base::{Memory, Rect};
use fx_core::Ticket;
use fx_effect::{
    Context, Description, Identity, ImageEffect, Inputs, PointKernel, Reply, Safety, Values,
    clip_set, fill_points,
};
use fx_gate::Hold;
use fx_image::Part;
use fx_params::ParamDef;
use fx_pixel::{Components, Depth, Pixel};
use fx_props::{PropSet, write_frames};
use std::alloc::Global;

/// Shows its clip Source as many frames ago as its parameter offset says: a filter. It is always the same
/// as Source at that frame, so a host need never render it.
#[derive(Clone, Copy, Debug, PartialEq, Eq)]
pub struct Timeoffset;

impl ImageEffect for Timeoffset {
    ghost meaning = { λ _. timeoffset };

    ghost laws = { λ _. timeoffset_laws };

    fn describe(&self, alloc: Global, descriptor: &mut PropSet) -> Result<Reply, Memory> {
        let description = Description {
            label: "timeoffset",
            contexts: &[Context::Filter, Context::General],
            depths: &[Depth::Byte, Depth::Short],
            temporal: true,
            tiles: true,
            safety: Safety::FullySafe,
        };
        description.write(alloc, descriptor)?;
        Ok(Reply::Ok)
    }

    fn describe_in_context(
        &self,
        alloc: Global,
        _context: Context,
        clips: &mut Vec<PropSet>,
        params: &mut Vec<ParamDef>,
    ) -> Result<Reply, Memory> {
        let components = [Components::Rgba, Components::Alpha];
        clips.push(clip_set(alloc, "Source", false, &components)?)?;
        params.push(ParamDef::int(alloc, "offset", -100_000, 100_000, 0)?)?;
        Ok(Reply::Ok)
    }

    fn get_region_of_definition(
        &self,
        _alloc: Global,
        _values: &Values,
        _regions: &[Rect],
        _in_args: &PropSet,
        _out_args: &mut PropSet,
    ) -> Result<Reply, Memory> {
        // The default is the hull of Source's regions over the frames needed.
        Ok(Reply::Default)
    }

    fn get_regions_of_interest(
        &self,
        _alloc: Global,
        _values: &Values,
        _in_args: &PropSet,
        _out_args: &mut PropSet,
    ) -> Result<Reply, Memory> {
        Ok(Reply::Default)
    }

    fn get_frames_needed(
        &self,
        alloc: Global,
        values: &Values,
        _in_args: &PropSet,
        out_args: &mut PropSet,
    ) -> Result<Reply, Memory> {
        let moment = moment(values);
        write_frames(alloc, out_args, &["Source"], &[&[(moment, moment)]])?;
        Ok(Reply::Ok)
    }

    fn is_identity(&self, values: &Values, _in_args: &PropSet) -> Identity {
        Identity::Same {
            clip: SOURCE,
            frame: moment(values),
        }
    }

    fn render(
        &self,
        _alloc: Global,
        values: &Values,
        _in_args: &PropSet,
        inputs: &Inputs<'_>,
        _hold: &mut Hold,
        ticket: &mut Ticket,
        out: &mut Part<'_>,
    ) -> Result<(), Memory> {
        fill_points(&Kept, inputs, SOURCE, moment(values), out);
        ticket.stamped = true;
        Ok(())
    }
}

// The frame that is shown.
fn moment(values: &Values) -> i64
    requires frame { IsFrame values.now.frame }
    requires lawful { IsLawful timeoffset_shape values.now }
    ensures { result ≡ moment_of values.now }
{
    values.frame - values.number(0)
}

// A pixel as it is.
#[derive(Clone, Copy)]
struct Kept;

impl PointKernel for Kept {
    ghost is_ready = { λ _. Unit {0} };

    ghost of = { λ _ depth p. p };

    #[inline(always)]
    fn point(&self, _depth: Depth, p: Pixel) -> Pixel {
        p
    }
}
