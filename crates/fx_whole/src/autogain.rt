//! The effect autogain.
ghost use Rattle.std.specs.Prelude.{◌*◌};
ghost use Rattle.fx_base.specs.Rect.{columns};
ghost use Rattle.fx_image.specs.Stored.{pixel_size};
ghost use Rattle.fx_effect.specs.Asked.{MayRender};
ghost use Rattle.fx_effect.specs.Meaning.{rendered};
ghost use Rattle.fx_whole.specs.Autogain.{autogain, autogain_shape};
ghost use Rattle.fx_whole.specs.AutogainLaws.{autogain_laws};
ghost use Rattle.fx_whole.specs.Level.{IsLevelOf};

use crate::brightest::level_of;
use crate::level::Level;
use crate::parts::SOURCE;
use fx_base::{Memory, Rect};
use fx_core::Ticket;
use fx_effect::{
    Context, Description, Identity, ImageEffect, Inputs, Reply, RowKernel, Safety, Values,
    clip_set, fill_with, region_of,
};
use fx_gate::Hold;
use fx_image::Part;
use fx_kernel::blank_bytes;
use fx_params::ParamDef;
use fx_pixel::{Components, Depth};
use fx_props::names::REGION;
use fx_props::{PropSet, write_interest, write_region};
use std::alloc::Global;

/// Raises r, g and b so that the greatest of them over the project's extent becomes the greatest sample, and keeps a:
/// a filter for RGBA. It has one clip, Source, and no parameters. Each pixel reads the whole extent, so it renders no
/// tiles (OpenFX 1.4, kOfxImageEffectPropSupportsTiles).
#[derive(Clone, Copy, Debug, PartialEq, Eq)]
pub struct Autogain;

impl ImageEffect for Autogain {
    ghost meaning = { λ _. autogain };

    ghost laws = { λ _. autogain_laws };

    fn describe(&self, alloc: Global, descriptor: &mut PropSet) -> Result<Reply, Memory> {
        let description = Description {
            label: "autogain",
            contexts: &[Context::Filter, Context::General],
            depths: &[Depth::Byte, Depth::Short],
            temporal: false,
            tiles: false,
            safety: Safety::FullySafe,
        };
        description.write(alloc, descriptor)?;
        Ok(Reply::Ok)
    }

    fn describe_in_context(
        &self,
        alloc: Global,
        _context: Context,
        clips: &mut Vec<PropSet>,
        _params: &mut Vec<ParamDef>,
    ) -> Result<Reply, Memory> {
        clips.push(clip_set(alloc, "Source", false, &[Components::Rgba])?)?;
        Ok(Reply::Ok)
    }

    fn get_region_of_definition(
        &self,
        alloc: Global,
        values: &Values,
        regions: &[Rect],
        _in_args: &PropSet,
        out_args: &mut PropSet,
    ) -> Result<Reply, Memory> {
        let region = region_of(regions, 0).meet(values.project);
        write_region(alloc, out_args, REGION, region)?;
        Ok(Reply::Ok)
    }

    fn get_regions_of_interest(
        &self,
        alloc: Global,
        values: &Values,
        _in_args: &PropSet,
        out_args: &mut PropSet,
    ) -> Result<Reply, Memory> {
        write_interest(alloc, out_args, &["Source"], &[values.project])?;
        Ok(Reply::Ok)
    }

    fn get_frames_needed(
        &self,
        _alloc: Global,
        _values: &Values,
        _in_args: &PropSet,
        _out_args: &mut PropSet,
    ) -> Result<Reply, Memory> {
        Ok(Reply::Default)
    }

    fn is_identity(&self, _values: &Values, _in_args: &PropSet) -> Identity {
        Identity::No
    }

    fn render(
        &self,
        alloc: Global,
        values: &Values,
        _in_args: &PropSet,
        inputs: &Inputs<'_>,
        _hold: &mut Hold,
        ticket: &mut Ticket,
        out: &mut Part<'_>,
    ) -> Result<(), Memory> {
        let (depth, components) = (out.depth(), out.components());
        let level = level_of(
            alloc,
            inputs,
            values.frame,
            depth,
            components,
            values.project,
        )?;
        let mut bytes = blank_bytes(alloc, out.row_bytes())?;
        let rows = AutogainRows {
            values,
            inputs,
            level: Level::of(level),
        };
        fill_with(&rows, &mut [], bytes.as_mut_slice(), out);
        ticket.stamped = true;
        Ok(())
    }
}

// The rows of a render. The bytes have room for a row of Source.
#[derive(Drop)]
struct AutogainRows<'a, 'b> {
    values: &'a Values,
    inputs: &'a Inputs<'b>,
    level: Level,
}

impl<'a, 'b> RowKernel for AutogainRows<'a, 'b> {
    ghost makes = { λ k depth c.
        MayRender autogain_shape k.values.now k.inputs.now depth c × IsLevelOf k.values.now k.inputs.now k.level };

    ghost pixel = { λ k depth c x y. rendered autogain k.values.now k.inputs.now depth c x y };

    ghost byte_count = { λ k depth c rect. columns rect * pixel_size depth c };

    fn fill_row(
        &self,
        depth: Depth,
        components: Components,
        rect: Rect,
        y: i64,
        _cells: &mut [u64],
        bytes: &mut [u8],
        row: &mut [u8],
    ) {
        let (frame, keep) = (self.values.frame, self.values.project);
        let line = self.inputs.lend_row(SOURCE, frame, rect, y, bytes);
        self.level
            .level_row(depth, components, keep, rect, y, line, row);
    }
}
