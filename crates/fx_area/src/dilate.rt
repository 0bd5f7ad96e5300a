//! The effect dilate.
ghost use Rattle.fx_area.specs.Dilate.{dilate};
ghost use Rattle.fx_area.specs.DilateLaws.{dilate_laws};

use crate::extreme::{Extreme, radius, render_extreme};
use crate::lines::SOURCE;
use fx_base::{Memory, Rect};
use fx_core::Ticket;
use fx_effect::{
    Context, Description, Identity, ImageEffect, Inputs, Reply, Safety, Values, asked_region,
    clip_set, region_of,
};
use fx_gate::Hold;
use fx_image::Part;
use fx_params::ParamDef;
use fx_pixel::{Components, Depth};
use fx_props::names::REGION;
use fx_props::{PropSet, write_interest, write_region};
use std::alloc::Global;

/// Each sample is the greatest of those at most a radius away, in columns and in rows: a filter. The parameter
/// radius goes from 0 to 32.
#[derive(Clone, Copy, Debug, PartialEq, Eq)]
pub struct Dilate;

impl ImageEffect for Dilate {
    ghost meaning = { λ _. dilate };

    ghost laws = { λ _. dilate_laws };

    fn describe(&self, alloc: Global, descriptor: &mut PropSet) -> Result<Reply, Memory> {
        let description = Description {
            label: "dilate",
            contexts: &[Context::Filter, Context::General],
            depths: &[Depth::Byte, Depth::Short],
            temporal: false,
            tiles: true,
            safety: Safety::FullySafe,
        };
        description.write(alloc, descriptor)?;
        Ok(Reply::Ok)
    }

    fn describe_in_context(
        &self,
        alloc: Global,
        _context: Context,
        clips: &mut Vec<PropSet>,
        params: &mut Vec<ParamDef>,
    ) -> Result<Reply, Memory> {
        let components = [Components::Rgba, Components::Alpha];
        clips.push(clip_set(alloc, "Source", false, &components)?)?;
        params.push(ParamDef::int(alloc, "radius", 0, 32, 1)?)?;
        Ok(Reply::Ok)
    }

    fn get_region_of_definition(
        &self,
        alloc: Global,
        values: &Values,
        regions: &[Rect],
        _in_args: &PropSet,
        out_args: &mut PropSet,
    ) -> Result<Reply, Memory> {
        let radius = radius(values) as i64;
        let region = region_of(regions, 0).grow(radius, radius);
        write_region(alloc, out_args, REGION, region)?;
        Ok(Reply::Ok)
    }

    fn get_regions_of_interest(
        &self,
        alloc: Global,
        values: &Values,
        in_args: &PropSet,
        out_args: &mut PropSet,
    ) -> Result<Reply, Memory> {
        let radius = radius(values) as i64;
        let region = asked_region(in_args).grow(radius, radius);
        write_interest(alloc, out_args, &["Source"], &[region])?;
        Ok(Reply::Ok)
    }

    fn get_frames_needed(
        &self,
        _alloc: Global,
        _values: &Values,
        _in_args: &PropSet,
        _out_args: &mut PropSet,
    ) -> Result<Reply, Memory> {
        Ok(Reply::Default)
    }

    fn is_identity(&self, values: &Values, _in_args: &PropSet) -> Identity {
        if radius(values) == 0 {
            Identity::Same {
                clip: SOURCE,
                frame: values.frame,
            }
        } else {
            Identity::No
        }
    }

    fn render(
        &self,
        alloc: Global,
        values: &Values,
        _in_args: &PropSet,
        inputs: &Inputs<'_>,
        _hold: &mut Hold,
        ticket: &mut Ticket,
        out: &mut Part<'_>,
    ) -> Result<(), Memory> {
        render_extreme(alloc, Extreme::Greatest, values, inputs, out)?;
        ticket.stamped = true;
        Ok(())
    }
}
