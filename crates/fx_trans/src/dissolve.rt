//! The effect dissolve.
ghost use Rattle.std.specs.Prelude.{◌≡◌, ◌≤◌, ◌*◌};
ghost use Rattle.fx_base.specs.Rect.{columns};
ghost use Rattle.fx_image.specs.Stored.{pixel_size};
ghost use Rattle.fx_effect.specs.Given.{row_pixel, ShowsClip};
ghost use Rattle.fx_trans.specs.Dissolve.{dissolve, dissolved};
ghost use Rattle.fx_trans.specs.DissolveLaws.{dissolve_laws};

use crate::parts::{END, FROM, START, TO, blank_bytes, level, transition};
use fx_base::{Memory, Rect, offset};
use fx_core::Ticket;
use fx_effect::{
    Context, Description, Identity, ImageEffect, Inputs, Reply, RowKernel, Safety, Values,
    clip_set, fill_with,
};
use fx_gate::Hold;
use fx_image::Part;
use fx_kernel::blend_row;
use fx_params::ParamDef;
use fx_pixel::{Components, Depth};
use fx_props::PropSet;
use std::alloc::Global;

/// Goes from each sample of its clip SourceFrom to that of SourceTo by its parameter Transition, a level
/// from 0 to 1: a transition.
#[derive(Clone, Copy, Debug, PartialEq, Eq)]
pub struct Dissolve;

impl ImageEffect for Dissolve {
    ghost meaning = { λ _. dissolve };

    ghost laws = { λ _. dissolve_laws };

    fn describe(&self, alloc: Global, descriptor: &mut PropSet) -> Result<Reply, Memory> {
        let description = Description {
            label: "dissolve",
            contexts: &[Context::Transition],
            depths: &[Depth::Byte, Depth::Short],
            temporal: false,
            tiles: true,
            safety: Safety::FullySafe,
        };
        description.write(alloc, descriptor)?;
        Ok(Reply::Ok)
    }

    fn describe_in_context(
        &self,
        alloc: Global,
        _context: Context,
        clips: &mut Vec<PropSet>,
        params: &mut Vec<ParamDef>,
    ) -> Result<Reply, Memory> {
        let components = [Components::Rgba, Components::Alpha];
        clips.push(clip_set(alloc, "SourceFrom", false, &components)?)?;
        clips.push(clip_set(alloc, "SourceTo", false, &components)?)?;
        params.push(transition(alloc)?)?;
        Ok(Reply::Ok)
    }

    fn get_region_of_definition(
        &self,
        _alloc: Global,
        _values: &Values,
        _regions: &[Rect],
        _in_args: &PropSet,
        _out_args: &mut PropSet,
    ) -> Result<Reply, Memory> {
        // The default is the hull of the regions of both clips.
        Ok(Reply::Default)
    }

    fn get_regions_of_interest(
        &self,
        _alloc: Global,
        _values: &Values,
        _in_args: &PropSet,
        _out_args: &mut PropSet,
    ) -> Result<Reply, Memory> {
        Ok(Reply::Default)
    }

    fn get_frames_needed(
        &self,
        _alloc: Global,
        _values: &Values,
        _in_args: &PropSet,
        _out_args: &mut PropSet,
    ) -> Result<Reply, Memory> {
        Ok(Reply::Default)
    }

    fn is_identity(&self, values: &Values, _in_args: &PropSet) -> Identity {
        let frame = values.frame;
        match level(values) {
            START => Identity::Same { clip: FROM, frame },
            END => Identity::Same { clip: TO, frame },
            _ => Identity::No,
        }
    }

    fn render(
        &self,
        alloc: Global,
        values: &Values,
        _in_args: &PropSet,
        inputs: &Inputs<'_>,
        _hold: &mut Hold,
        ticket: &mut Ticket,
        out: &mut Part<'_>,
    ) -> Result<(), Memory> {
        let rows = DissolveRows {
            inputs,
            frame: values.frame,
            level: level(values),
        };
        let mut bytes = blank_bytes(alloc, out.row_bytes())?;
        fill_with(&rows, &mut [], bytes.as_mut_slice(), out);
        ticket.stamped = true;
        Ok(())
    }
}

// The rows of a render. The bytes have room for a row of SourceTo.
#[derive(Drop)]
struct DissolveRows<'a, 'b> {
    inputs: &'a Inputs<'b>,
    frame: i64,
    level: u32,
}

impl<'a, 'b> RowKernel for DissolveRows<'a, 'b> {
    ghost makes = { λ k depth c. ShowsClip k.inputs.now 0 depth c × ShowsClip k.inputs.now 1 depth c
        × (k.level ≤ 65536) };

    ghost pixel = { λ k depth c x y. dissolved k.level c (row_pixel k.inputs.now 0 k.frame x y)
        (row_pixel k.inputs.now 1 k.frame x y) };

    ghost byte_count = { λ k depth c rect. columns rect * pixel_size depth c };

    fn fill_row(
        &self,
        depth: Depth,
        components: Components,
        rect: Rect,
        y: i64,
        _cells: &mut [u64],
        bytes: &mut [u8],
        row: &mut [u8],
    ) {
        self.inputs.read_row(FROM, self.frame, rect, y, row);
        self.inputs.read_row(TO, self.frame, rect, y, bytes);
        let samples = offset(rect.x1, rect.x2) * components.count() as usize;
        blend_row(depth, self.level, bytes, row, samples);
    }
}
