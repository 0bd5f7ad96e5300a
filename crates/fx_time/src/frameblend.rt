//! The effect frameblend.
ghost use Rattle.std.specs.Prelude.{◌≡◌, ◌≤◌, ◌+◌, ◌*◌, pos, ◌-ℤ◌, length, OnOk, vec_len};
ghost use Rattle.fx_base.specs.Rect.{columns, IsFrame};
ghost use Rattle.fx_pixel.specs.Pixel.{count, greatest};
ghost use Rattle.fx_image.specs.Stored.{pixel_size};
ghost use Rattle.fx_image.specs.Part.{IsPart, SamePart, IsWritten};
ghost use Rattle.fx_effect.specs.Given.{ShowsClip};
ghost use Rattle.fx_effect.specs.Rows.{IsRow, ShowsRow};
ghost use Rattle.fx_effect.specs.Shape.{IsLawful};
ghost use Rattle.fx_kernel.specs.Sums.{AreSums};
ghost use Rattle.fx_time.specs.Frameblend.{frameblend, frameblend_shape, radius as radius_of};
ghost use Rattle.fx_time.specs.FrameblendLaws.{frameblend_laws};
ghost use Rattle.fx_time.specs.BlendRows.{blend_pixel, moment_sample};

use crate::parts::SOURCE;
use crate::three::write_mean_of_three;
use fx_base::{Memory, Rect, offset};
use fx_core::Ticket;
use fx_effect::{
    Context, Description, Identity, ImageEffect, Inputs, Reply, RowKernel, Safety, Values,
    clip_set, fill_with,
};
use fx_gate::{Hold, Workspace};
use fx_image::Part;
use fx_kernel::{Mean, add_row, clear, write_means};
use fx_params::ParamDef;
use fx_pixel::{Components, Depth};
use fx_props::{PropSet, write_frames};
use std::alloc::Global;

/// The mean of the pixels of the frames at most as far away as its parameter radius says: a filter. It keeps
/// its sums, but for those of three frames, and two rows of pixels in the workspace of its gate, and so is not
/// safe for threads.
#[derive(Clone, Copy, Debug, PartialEq, Eq)]
pub struct Frameblend;

impl ImageEffect for Frameblend {
    ghost meaning = { λ _. frameblend };

    ghost laws = { λ _. frameblend_laws };

    fn describe(&self, alloc: Global, descriptor: &mut PropSet) -> Result<Reply, Memory> {
        let description = Description {
            label: "frameblend",
            contexts: &[Context::Filter, Context::General],
            depths: &[Depth::Byte, Depth::Short],
            temporal: true,
            tiles: true,
            safety: Safety::Unsafe,
        };
        description.write(alloc, descriptor)?;
        Ok(Reply::Ok)
    }

    fn describe_in_context(
        &self,
        alloc: Global,
        _context: Context,
        clips: &mut Vec<PropSet>,
        params: &mut Vec<ParamDef>,
    ) -> Result<Reply, Memory> {
        let components = [Components::Rgba, Components::Alpha];
        clips.push(clip_set(alloc, "Source", false, &components)?)?;
        params.push(ParamDef::int(alloc, "radius", 0, 16, 1)?)?;
        Ok(Reply::Ok)
    }

    fn get_region_of_definition(
        &self,
        _alloc: Global,
        _values: &Values,
        _regions: &[Rect],
        _in_args: &PropSet,
        _out_args: &mut PropSet,
    ) -> Result<Reply, Memory> {
        // The default is the hull of Source's regions over the frames needed.
        Ok(Reply::Default)
    }

    fn get_regions_of_interest(
        &self,
        _alloc: Global,
        _values: &Values,
        _in_args: &PropSet,
        _out_args: &mut PropSet,
    ) -> Result<Reply, Memory> {
        Ok(Reply::Default)
    }

    fn get_frames_needed(
        &self,
        alloc: Global,
        values: &Values,
        _in_args: &PropSet,
        out_args: &mut PropSet,
    ) -> Result<Reply, Memory> {
        let radius = radius(values) as i64;
        let span = (values.frame - radius, values.frame + radius);
        write_frames(alloc, out_args, &["Source"], &[&[span]])?;
        Ok(Reply::Ok)
    }

    fn is_identity(&self, values: &Values, _in_args: &PropSet) -> Identity {
        match radius(values) {
            0 => Identity::Same {
                clip: SOURCE,
                frame: values.frame,
            },
            _ => Identity::No,
        }
    }

    fn render(
        &self,
        alloc: Global,
        values: &Values,
        _in_args: &PropSet,
        inputs: &Inputs<'_>,
        hold: &mut Hold,
        ticket: &mut Ticket,
        out: &mut Part<'_>,
    ) -> Result<(), Memory> {
        let radius = radius(values);
        let rows = BlendRows {
            inputs,
            frame: values.frame,
            radius,
            mean: Mean::of((2 * radius + 1) as u64),
        };
        rows.render(alloc, hold, out)?;
        ticket.stamped = true;
        Ok(())
    }
}

// How many frames are read before the current one, and how many behind it.
fn radius(values: &Values) -> usize
    requires { IsLawful frameblend_shape values.now }
    ensures value { result ≡ radius_of values.now }
    ensures few { result ≤ 16 }
{
    values.number(0) as usize
}

// The rows of a render. There is a cell for the sum of each sample of a row, and the bytes have room for
// two rows of a frame.
#[derive(Drop)]
struct BlendRows<'a, 'b> {
    inputs: &'a Inputs<'b>,
    frame: i64,
    radius: usize,
    mean: Mean,
}

impl<'a, 'b> RowKernel for BlendRows<'a, 'b> {
    ghost makes = { λ k depth c. ShowsClip k.inputs.now 0 depth c × IsFrame k.frame × (k.radius ≤ 16)
        × (k.mean ≡ 2 * k.radius + 1) };

    ghost pixel = { λ k depth c x y. blend_pixel k.inputs.now k.frame k.radius c x y };

    ghost cell_count = { λ k depth c rect. columns rect * count c };

    ghost byte_count = { λ k depth c rect. 2 * (columns rect * pixel_size depth c) };

    fn fill_row(
        &self,
        depth: Depth,
        components: Components,
        rect: Rect,
        y: i64,
        cells: &mut [u64],
        bytes: &mut [u8],
        row: &mut [u8],
    ) {
        let (line, other) = bytes.split_at_mut(row.len());
        if self.radius == 1 {
            self.blend_three(depth, components, rect, y, line, other, row);
        } else {
            self.blend_many(depth, components, rect, y, cells, line, row);
        }
    }
}

impl<'a, 'b> BlendRows<'a, 'b> {
    // Makes a row of the three frames of radius 1. A sum lasts for its sample alone.
    fn blend_three(
        &self,
        depth: Depth,
        components: Components,
        rect: Rect,
        y: i64,
        line: &mut [u8],
        other: &mut [u8],
        row: &mut [u8],
    )
        requires shows { ShowsClip self.now.inputs.now 0 depth components }
        requires one { self.now.radius ≡ 1 }
        requires frame { IsFrame self.now.frame }
        requires row { IsRow depth components rect y row.old }
        requires line { length line.old ≡ columns rect * pixel_size depth components }
        requires other { length other.old ≡ columns rect * pixel_size depth components }
        ensures { let me = self.now in ShowsRow depth components rect y
            (blend_pixel me.inputs.now me.frame me.radius components) row.new }
    {
        let samples = offset(rect.x1, rect.x2) * components.count() as usize;
        let one = self.inputs.lend_row(SOURCE, self.frame - 1, rect, y, line);
        let two = self.inputs.lend_row(SOURCE, self.frame, rect, y, other);
        self.inputs.read_row(SOURCE, self.frame + 1, rect, y, row);
        write_mean_of_three(depth, one, two, row, samples);
    }

    // Makes a row of as many frames as there are, by their sums.
    fn blend_many(
        &self,
        depth: Depth,
        components: Components,
        rect: Rect,
        y: i64,
        cells: &mut [u64],
        line: &mut [u8],
        row: &mut [u8],
    )
        requires shows { ShowsClip self.now.inputs.now 0 depth components }
        requires few { self.now.radius ≤ 16 }
        requires mean { self.now.mean ≡ 2 * self.now.radius + 1 }
        requires frame { IsFrame self.now.frame }
        requires row { IsRow depth components rect y row.old }
        requires line { length line.old ≡ columns rect * pixel_size depth components }
        requires cells { length cells.old ≡ columns rect * count components }
        ensures { let me = self.now in ShowsRow depth components rect y
            (blend_pixel me.inputs.now me.frame me.radius components) row.new }
    {
        self.sum(depth, components, rect, y, cells, line);
        write_means(depth, self.mean, cells, row);
    }

    // Sums row y of the frames.
    fn sum(
        &self,
        depth: Depth,
        components: Components,
        rect: Rect,
        y: i64,
        cells: &mut [u64],
        bytes: &mut [u8],
    )
        requires shows { ShowsClip self.now.inputs.now 0 depth components }
        requires few { self.now.radius ≤ 16 }
        requires frame { IsFrame self.now.frame }
        requires row { IsRow depth components rect y bytes.old }
        requires cells { length cells.old ≡ columns rect * count components }
        ensures { let me = self.now in AreSums cells.new (moment_sample me.inputs.now components rect y)
            (me.frame -ℤ pos me.radius) (2 * me.radius + 1) (greatest depth) }
    {
        self.inputs.pixels_fit();
        clear(cells);
        let first = self.frame - self.radius as i64;
        for k in 0..2 * self.radius + 1 {
            let line = self
                .inputs
                .lend_row(SOURCE, first + k as i64, rect, y, bytes);
            add_row(depth, line, cells);
        }
    }

    fn render(&self, alloc: Global, hold: &mut Hold, out: &mut Part<'_>) -> Result<(), Memory>
        requires part { IsPart out.old }
        requires shows { let image = out.old.image.now in
            ShowsClip self.now.inputs.now 0 image.depth image.components }
        requires few { self.now.radius ≤ 16 }
        requires frame { IsFrame self.now.frame }
        requires mean { self.now.mean ≡ 2 * self.now.radius + 1 }
        ensures same_part { SamePart out.old out.new }
        ensures same_hold { hold.new.gate ≡ hold.old.gate }
        ensures ok { let me = self.now in OnOk result (IsWritten out.old out.new
            (blend_pixel me.inputs.now me.frame me.radius out.old.image.now.components)) }
    {
        let (cells, bytes) = (sample_count(out), 2 * out.row_bytes());
        let workspace = hold.workspace();
        make_room(workspace, alloc, cells, bytes)?;
        self.fill(workspace, cells as usize, bytes, out);
        Ok(())
    }

    // Fills a part, with sums in the first cells and two rows of pixels in the first bytes.
    fn fill(&self, workspace: &mut Workspace, cells: usize, bytes: usize, out: &mut Part<'_>)
        requires part { IsPart out.old }
        requires shows { let image = out.old.image.now in
            ShowsClip self.now.inputs.now 0 image.depth image.components }
        requires few { self.now.radius ≤ 16 }
        requires frame { IsFrame self.now.frame }
        requires mean { self.now.mean ≡ 2 * self.now.radius + 1 }
        requires cells { cells ≡ columns out.old.rect * count out.old.image.now.components }
        requires bytes { let image = out.old.image.now in
            bytes ≡ 2 * (columns out.old.rect * pixel_size image.depth image.components) }
        requires cell_room { cells ≤ vec_len workspace.old.cells }
        requires byte_room { bytes ≤ vec_len workspace.old.bytes }
        ensures { let me = self.now in IsWritten out.old out.new
            (blend_pixel me.inputs.now me.frame me.radius out.old.image.now.components) }
    {
        let cells = workspace.cells.slice_mut(0..cells);
        let bytes = workspace.bytes.slice_mut(0..bytes);
        fill_with(self, cells, bytes, out);
    }
}

// How many samples a row of a part has.
fn sample_count(out: &Part<'_>) -> u32
    requires { IsPart out.now }
    ensures { result ≡ columns out.now.rect * count out.now.image.now.components }
{
    let _small = out.row_bytes();
    let rect = out.rect();
    (offset(rect.x1, rect.x2) * out.components().count() as usize) as u32
}

// Makes room for so many cells and bytes.
fn make_room(
    workspace: &mut Workspace,
    alloc: Global,
    cells: u32,
    bytes: usize,
) -> Result<(), Memory>
    ensures cells { OnOk result (cells ≤ vec_len workspace.new.cells) }
    ensures bytes { OnOk result (bytes ≤ vec_len workspace.new.bytes) }
{
    workspace.room(alloc, cells)?;
    workspace.byte_room(alloc, bytes)
}
