//! Two effects for the tests, which ask them the five actions alone: whatever else an effect is asked,
//! they answer with want of memory or with nothing done.
ghost use Rattle.std.specs.Prelude.{◌≡◌, ◌∷◌, []};
ghost use Rattle.fx_units.specs.ActionsToys.{clear, clear_laws, wide, wide_laws};

use fx_base::{Memory, Rect};
use fx_core::Ticket;
use fx_effect::{Context, Identity, ImageEffect, Inputs, Reply, Values, asked_region, region_of};
use fx_gate::Hold;
use fx_image::Part;
use fx_params::ParamDef;
use fx_props::names::REGION;
use fx_props::{PropSet, write_frames, write_interest, write_region};
use std::alloc::Global;

/// The zero pixel everywhere, in every context: it leaves each answer to the host. In the general context
/// it has the clips A, B and C. C is optional, and A and B are where the flag says so.
#[derive(Clone, Copy)]
pub(crate) struct Clear {
    pub(crate) optional: bool,
}

impl ImageEffect for Clear {
    ghost meaning = { λ toy. clear toy.optional };

    ghost laws = { λ toy. clear_laws toy.optional };

    fn describe(&self, _alloc: Global, _descriptor: &mut PropSet) -> Result<Reply, Memory> {
        Err(Memory)
    }

    fn describe_in_context(
        &self,
        _alloc: Global,
        _context: Context,
        _clips: &mut Vec<PropSet>,
        _params: &mut Vec<ParamDef>,
    ) -> Result<Reply, Memory> {
        Err(Memory)
    }

    fn get_region_of_definition(
        &self,
        _alloc: Global,
        _values: &Values,
        _regions: &[Rect],
        _in_args: &PropSet,
        _out_args: &mut PropSet,
    ) -> Result<Reply, Memory> {
        Ok(Reply::Default)
    }

    fn get_regions_of_interest(
        &self,
        _alloc: Global,
        _values: &Values,
        _in_args: &PropSet,
        _out_args: &mut PropSet,
    ) -> Result<Reply, Memory> {
        Ok(Reply::Default)
    }

    fn get_frames_needed(
        &self,
        _alloc: Global,
        _values: &Values,
        _in_args: &PropSet,
        _out_args: &mut PropSet,
    ) -> Result<Reply, Memory> {
        Ok(Reply::Default)
    }

    fn is_identity(&self, _values: &Values, _in_args: &PropSet) -> Identity {
        Identity::No
    }

    fn render(
        &self,
        _alloc: Global,
        _values: &Values,
        _in_args: &PropSet,
        _inputs: &Inputs<'_>,
        _hold: &mut Hold,
        _ticket: &mut Ticket,
        _out: &mut Part<'_>,
    ) -> Result<(), Memory> {
        Err(Memory)
    }
}

/// The pixel of its clip A, in the general context: it gives each answer itself, and asks its clips A and
/// B for more than it reads. The region of interest is 2 pixels wider on each side, the frames are those
/// from the one before to the one behind, and the region of definition is 1 pixel wider than the hull.
#[derive(Clone, Copy)]
pub(crate) struct Wide;

impl ImageEffect for Wide {
    ghost meaning = { λ _. wide };

    ghost laws = { λ _. wide_laws };

    fn describe(&self, _alloc: Global, _descriptor: &mut PropSet) -> Result<Reply, Memory> {
        Err(Memory)
    }

    fn describe_in_context(
        &self,
        _alloc: Global,
        _context: Context,
        _clips: &mut Vec<PropSet>,
        _params: &mut Vec<ParamDef>,
    ) -> Result<Reply, Memory> {
        Err(Memory)
    }

    fn get_region_of_definition(
        &self,
        alloc: Global,
        _values: &Values,
        regions: &[Rect],
        _in_args: &PropSet,
        out_args: &mut PropSet,
    ) -> Result<Reply, Memory> {
        let hull = region_of(regions, 0).hull(region_of(regions, 1));
        write_region(alloc, out_args, REGION, hull.grow(1, 1))?;
        Ok(Reply::Ok)
    }

    fn get_regions_of_interest(
        &self,
        alloc: Global,
        _values: &Values,
        in_args: &PropSet,
        out_args: &mut PropSet,
    ) -> Result<Reply, Memory> {
        let needed = asked_region(in_args).grow(2, 2);
        write_interest(alloc, out_args, &["A", "B"], &[needed, needed])?;
        Ok(Reply::Ok)
    }

    fn get_frames_needed(
        &self,
        alloc: Global,
        values: &Values,
        _in_args: &PropSet,
        out_args: &mut PropSet,
    ) -> Result<Reply, Memory> {
        let spans = [(values.frame - 1, values.frame + 1)];
        write_frames(alloc, out_args, &["A", "B"], &[&spans, &spans])?;
        Ok(Reply::Ok)
    }

    fn is_identity(&self, values: &Values, _in_args: &PropSet) -> Identity {
        Identity::Same {
            clip: 0,
            frame: values.frame,
        }
    }

    fn render(
        &self,
        _alloc: Global,
        _values: &Values,
        _in_args: &PropSet,
        _inputs: &Inputs<'_>,
        _hold: &mut Hold,
        _ticket: &mut Ticket,
        _out: &mut Part<'_>,
    ) -> Result<(), Memory> {
        Err(Memory)
    }
}
