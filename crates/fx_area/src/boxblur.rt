//! The effect boxblur.
ghost use Rattle.std.specs.Prelude.{◌≡◌, ◌≤◌, ◌<◌, ◌+◌, ◌*◌, ℕ, ℤ, pos, ◌-ℤ◌, ◌≤ℤ◌, ◌<ℤ◌, [], ◌∷◌, length, OnOk, slice_index, vec_len};
ghost use Rattle.fx_base.specs.Rect.{IsNear};
ghost use Rattle.fx_pixel.specs.Pixel.{count, greatest};
ghost use Rattle.fx_image.specs.Stored.{pixel_size};
ghost use Rattle.fx_image.specs.Part.{IsPart, SamePart, IsWritten};
ghost use Rattle.fx_kernel.specs.Window.{AreSmall};
ghost use Rattle.fx_effect.specs.Given.{ShowsClip};
ghost use Rattle.fx_effect.specs.Shape.{IsLawful};
ghost use Rattle.fx_effect.specs.Rows.{IsRow, ShowsRow};
ghost use Rattle.fx_area.specs.Rows.{row_sample};
ghost use Rattle.fx_area.specs.Boxblur.{boxblur, boxblur_shape, rx as rx_of, ry as ry_of, box_count};
ghost use Rattle.fx_area.specs.BoxblurLaws.{boxblur_laws};
ghost use Rattle.fx_area.specs.BoxRows.{line_width, box_line, box_pixel, box_sample, AreColumns, IsReady, IsBoxLine, IsBoxRow};

use crate::lines::{Line, SOURCE, lend_line};
use fx_base::{Memory, Rect, offset};
use fx_core::Ticket;
use fx_effect::{
    Context, Description, Identity, ImageEffect, Inputs, Reply, RowKernel, Safety, Values,
    asked_region, clip_set, fill_with, region_of,
};
use fx_gate::{Hold, Workspace};
use fx_image::Part;
use fx_image::samples::pixel_size;
use fx_kernel::{Mean, Windows, add_row, clear, take_row, write_window_means};
use fx_params::ParamDef;
use fx_pixel::{Components, Depth};
use fx_props::names::REGION;
use fx_props::{PropSet, write_interest, write_region};
use std::alloc::Global;

/// The mean of the pixels at most rx columns and ry rows away: a filter. The parameters rx and ry go from
/// 0 to 64. It keeps sums and a row of pixels in the workspace of its hold, so that its renders need the
/// gate of its instance.
#[derive(Clone, Copy, Debug, PartialEq, Eq)]
pub struct Boxblur;

impl ImageEffect for Boxblur {
    ghost meaning = { λ _. boxblur };

    ghost laws = { λ _. boxblur_laws };

    fn describe(&self, alloc: Global, descriptor: &mut PropSet) -> Result<Reply, Memory> {
        let description = Description {
            label: "boxblur",
            contexts: &[Context::Filter, Context::General],
            depths: &[Depth::Byte, Depth::Short],
            temporal: false,
            tiles: true,
            safety: Safety::InstanceSafe,
        };
        description.write(alloc, descriptor)?;
        Ok(Reply::Ok)
    }

    fn describe_in_context(
        &self,
        alloc: Global,
        _context: Context,
        clips: &mut Vec<PropSet>,
        params: &mut Vec<ParamDef>,
    ) -> Result<Reply, Memory> {
        let components = [Components::Rgba, Components::Alpha];
        clips.push(clip_set(alloc, "Source", false, &components)?)?;
        params.push(ParamDef::int(alloc, "rx", 0, 64, 1)?)?;
        params.push(ParamDef::int(alloc, "ry", 0, 64, 1)?)?;
        Ok(Reply::Ok)
    }

    fn get_region_of_definition(
        &self,
        alloc: Global,
        values: &Values,
        regions: &[Rect],
        _in_args: &PropSet,
        out_args: &mut PropSet,
    ) -> Result<Reply, Memory> {
        let (rx, ry) = (rx(values) as i64, ry(values) as i64);
        let region = region_of(regions, 0).grow(rx, ry);
        write_region(alloc, out_args, REGION, region)?;
        Ok(Reply::Ok)
    }

    fn get_regions_of_interest(
        &self,
        alloc: Global,
        values: &Values,
        in_args: &PropSet,
        out_args: &mut PropSet,
    ) -> Result<Reply, Memory> {
        let (rx, ry) = (rx(values) as i64, ry(values) as i64);
        let region = asked_region(in_args).grow(rx, ry);
        write_interest(alloc, out_args, &["Source"], &[region])?;
        Ok(Reply::Ok)
    }

    fn get_frames_needed(
        &self,
        _alloc: Global,
        _values: &Values,
        _in_args: &PropSet,
        _out_args: &mut PropSet,
    ) -> Result<Reply, Memory> {
        Ok(Reply::Default)
    }

    fn is_identity(&self, values: &Values, _in_args: &PropSet) -> Identity {
        if rx(values) == 0 && ry(values) == 0 {
            Identity::Same {
                clip: SOURCE,
                frame: values.frame,
            }
        } else {
            Identity::No
        }
    }

    fn render(
        &self,
        alloc: Global,
        values: &Values,
        _in_args: &PropSet,
        inputs: &Inputs<'_>,
        hold: &mut Hold,
        ticket: &mut Ticket,
        out: &mut Part<'_>,
    ) -> Result<(), Memory> {
        let (rx, ry) = (rx(values), ry(values));
        let rows = BoxRows {
            frame: values.frame,
            inputs,
            rx,
            ry,
            mean: Mean::of(((2 * rx + 1) * (2 * ry + 1)) as u64),
        };
        rows.render(alloc, hold, out)?;
        ticket.stamped = true;
        Ok(())
    }
}

// The radius to the sides.
fn rx(values: &Values) -> usize
    requires { IsLawful boxblur_shape values.now }
    ensures value { result ≡ rx_of values.now }
    ensures few { result ≤ 64 }
{
    values.number(0).unsigned_abs() as usize
}

// The radius up and down.
fn ry(values: &Values) -> usize
    requires { IsLawful boxblur_shape values.now }
    ensures value { result ≡ ry_of values.now }
    ensures few { result ≤ 64 }
{
    values.number(1).unsigned_abs() as usize
}

// The rows of a render.
#[derive(Drop)]
struct BoxRows<'a, 'b> {
    frame: i64,
    inputs: &'a Inputs<'b>,
    rx: usize,
    ry: usize,
    mean: Mean,
}

impl<'a, 'b> RowKernel for BoxRows<'a, 'b> {
    ghost makes = { λ k depth c. ShowsClip k.inputs.now 0 depth c × (k.rx ≤ 64) × (k.ry ≤ 64)
        × (k.mean ≡ box_count k.rx k.ry) };

    ghost pixel = { λ k depth c x y. box_pixel k.inputs.now k.frame k.rx k.ry c x y };

    ghost cell_count = { λ k depth c rect. line_width k.rx rect * count c };

    ghost byte_count = { λ k depth c rect. line_width k.rx rect * pixel_size depth c };

    ghost ready = { λ k depth c rect y cells. IsReady k.inputs.now k.frame k.rx k.ry depth c rect y cells };

    fn fill_row(
        &self,
        depth: Depth,
        components: Components,
        rect: Rect,
        y: i64,
        cells: &mut [u64],
        bytes: &mut [u8],
        row: &mut [u8],
    ) {
        self.sum(depth, components, rect, y, cells, bytes);
        self.write(depth, components, rect, y, cells, row);
    }
}

impl<'a, 'b> BoxRows<'a, 'b> {
    // Brings the sums to row y.
    fn sum(
        &self,
        depth: Depth,
        components: Components,
        rect: Rect,
        y: i64,
        cells: &mut [u64],
        bytes: &mut [u8],
    )
        requires row { let k = self.now in
            IsBoxRow k.inputs.now k.rx k.ry depth components rect y cells.old bytes.old }
        requires ready { let k = self.now in
            IsReady k.inputs.now k.frame k.rx k.ry depth components rect y cells.old }
        ensures { let k = self.now in AreColumns k.inputs.now k.frame k.rx k.ry depth components rect y cells.new }
    {
        if y == rect.y1 {
            self.begin(depth, components, rect, y, cells, bytes);
        } else {
            self.slide(depth, components, rect, y, cells, bytes);
        }
    }

    // Sums the rows that row y is made of. What an earlier render left in the cells is cleared first.
    fn begin(
        &self,
        depth: Depth,
        components: Components,
        rect: Rect,
        y: i64,
        cells: &mut [u64],
        bytes: &mut [u8],
    )
        requires row { let k = self.now in
            IsBoxRow k.inputs.now k.rx k.ry depth components rect y cells.old bytes.old }
        ensures { let k = self.now in AreColumns k.inputs.now k.frame k.rx k.ry depth components rect y cells.new }
    {
        clear(cells);
        let low = y - self.ry as i64;
        for k in 0..2 * self.ry + 1 {
            self.add(depth, components, rect, low + k as i64, cells, bytes);
        }
    }

    // The same from the sums of the row before it: one row comes, and one goes.
    fn slide(
        &self,
        depth: Depth,
        components: Components,
        rect: Rect,
        y: i64,
        cells: &mut [u64],
        bytes: &mut [u8],
    )
        requires row { let k = self.now in
            IsBoxRow k.inputs.now k.rx k.ry depth components rect y cells.old bytes.old }
        requires before { let k = self.now in
            AreColumns k.inputs.now k.frame k.rx k.ry depth components rect (y -ℤ pos 1) cells.old }
        ensures { let k = self.now in AreColumns k.inputs.now k.frame k.rx k.ry depth components rect y cells.new }
    {
        let ry = self.ry as i64;
        self.add(depth, components, rect, y + ry, cells, bytes);
        self.take(depth, components, rect, y - 1 - ry, cells, bytes);
    }

    // Adds the samples of row j.
    fn add(
        &self,
        depth: Depth,
        components: Components,
        rect: Rect,
        j: i64,
        cells: &mut [u64],
        bytes: &mut [u8],
    )
        requires line { let k = self.now in
            IsBoxLine k.inputs.now k.rx depth components rect j cells.old bytes.old }
        requires small { AreSmall cells.old }
        ensures sums { let k = self.now in (s : ℕ) → s < length cells.old → slice_index cells.new s
            ≡ slice_index cells.old s + box_sample k.inputs.now k.frame k.rx components rect s j }
        ensures bound { let k = self.now in (s : ℕ) → s < length cells.old
            → box_sample k.inputs.now k.frame k.rx components rect s j ≤ greatest depth }
    {
        let line = lend_line(self.inputs, depth, components, self.line(rect, j), bytes);
        add_row(depth, line, cells);
    }

    // Takes the samples of row j, which the cells have.
    fn take(
        &self,
        depth: Depth,
        components: Components,
        rect: Rect,
        j: i64,
        cells: &mut [u64],
        bytes: &mut [u8],
    )
        requires line { let k = self.now in
            IsBoxLine k.inputs.now k.rx depth components rect j cells.old bytes.old }
        requires enough { let k = self.now in (s : ℕ) → s < length cells.old
            → box_sample k.inputs.now k.frame k.rx components rect s j ≤ slice_index cells.old s }
        ensures { let k = self.now in (s : ℕ) → s < length cells.old
            → slice_index cells.new s + box_sample k.inputs.now k.frame k.rx components rect s j
            ≡ slice_index cells.old s }
    {
        let line = lend_line(self.inputs, depth, components, self.line(rect, j), bytes);
        take_row(depth, line, cells);
    }

    // The pixels of row j that are summed for a row of the rectangle.
    fn line(&self, rect: Rect, j: i64) -> Line
        requires narrow { self.now.rx ≤ 64 }
        requires near { IsNear rect }
        requires wide { rect.x1 <ℤ rect.x2 }
        ensures { result ≡ box_line self.now.frame self.now.rx rect j }
    {
        Line {
            frame: self.frame,
            x: rect.x1 - self.rx as i64,
            y: j,
            count: offset(rect.x1, rect.x2) + 2 * self.rx,
        }
    }

    // Writes the means of row y.
    fn write(
        &self,
        depth: Depth,
        components: Components,
        rect: Rect,
        y: i64,
        cells: &[u64],
        row: &mut [u8],
    )
        requires narrow { self.now.rx ≤ 64 }
        requires flat { self.now.ry ≤ 64 }
        requires mean { self.now.mean ≡ box_count self.now.rx self.now.ry }
        requires row { IsRow depth components rect y row.old }
        requires cells { length cells.now ≡ line_width self.now.rx rect * count components }
        requires sums { let k = self.now in
            AreColumns k.inputs.now k.frame k.rx k.ry depth components rect y cells.now }
        ensures { let k = self.now in
            ShowsRow depth components rect y (box_pixel k.inputs.now k.frame k.rx k.ry components) row.new }
    {
        let windows = Windows {
            step: components.count() as usize,
            count: offset(rect.x1, rect.x2),
            more: 2 * self.rx,
        };
        write_window_means(depth, self.mean, cells, windows, row);
    }

    // Fills a part, with sums and a row of pixels in the workspace of the hold. At want of memory the part is
    // as it was.
    fn render(&self, alloc: Global, hold: &mut Hold, out: &mut Part<'_>) -> Result<(), Memory>
        requires part { IsPart out.old }
        requires source { let image = out.old.image.now in
            ShowsClip self.now.inputs.now 0 image.depth image.components }
        requires narrow { self.now.rx ≤ 64 }
        requires flat { self.now.ry ≤ 64 }
        requires mean { self.now.mean ≡ box_count self.now.rx self.now.ry }
        ensures same_part { SamePart out.old out.new }
        ensures same_hold { hold.new.gate ≡ hold.old.gate }
        ensures ok { let k = self.now in let c = out.old.image.now.components in
            OnOk result (IsWritten out.old out.new (box_pixel k.inputs.now k.frame k.rx k.ry c)) }
    {
        let (cells, bytes) = (self.cell_count(out), self.byte_count(out));
        let workspace = hold.workspace();
        make_room(workspace, alloc, cells, bytes)?;
        self.fill(workspace, cells, bytes, out);
        Ok(())
    }

    // How many sums a row of the part needs: one for each sample that is summed.
    fn cell_count(&self, out: &Part<'_>) -> usize
        requires part { IsPart out.now }
        requires narrow { self.now.rx ≤ 64 }
        ensures { result ≡ line_width self.now.rx out.now.rect * count out.now.image.now.components }
    {
        let _near = out.row_bytes();
        let rect = out.rect();
        let line = offset(rect.x1, rect.x2) + 2 * self.rx;
        line * out.components().count() as usize
    }

    // How many bytes those samples take.
    fn byte_count(&self, out: &Part<'_>) -> usize
        requires part { IsPart out.now }
        requires narrow { self.now.rx ≤ 64 }
        ensures { let image = out.now.image.now in
            result ≡ line_width self.now.rx out.now.rect * pixel_size image.depth image.components }
    {
        let pixel = pixel_size(out.depth(), out.components());
        out.row_bytes() + 2 * self.rx * pixel
    }

    // Fills a part, with sums in the first cells and a row of pixels in the first bytes.
    fn fill(&self, workspace: &mut Workspace, cells: usize, bytes: usize, out: &mut Part<'_>)
        requires part { IsPart out.old }
        requires source { let image = out.old.image.now in
            ShowsClip self.now.inputs.now 0 image.depth image.components }
        requires narrow { self.now.rx ≤ 64 }
        requires flat { self.now.ry ≤ 64 }
        requires mean { self.now.mean ≡ box_count self.now.rx self.now.ry }
        requires cells { cells ≡ line_width self.now.rx out.old.rect * count out.old.image.now.components }
        requires bytes { let image = out.old.image.now in
            bytes ≡ line_width self.now.rx out.old.rect * pixel_size image.depth image.components }
        requires cell_room { cells ≤ vec_len workspace.old.cells }
        requires byte_room { bytes ≤ vec_len workspace.old.bytes }
        ensures { let k = self.now in let c = out.old.image.now.components in
            IsWritten out.old out.new (box_pixel k.inputs.now k.frame k.rx k.ry c) }
    {
        let cells = workspace.cells.slice_mut(0..cells);
        let bytes = workspace.bytes.slice_mut(0..bytes);
        fill_with(self, cells, bytes, out);
    }
}

// Makes room for so many cells and bytes.
fn make_room(
    workspace: &mut Workspace,
    alloc: Global,
    cells: usize,
    bytes: usize,
) -> Result<(), Memory>
    ensures cells { OnOk result (cells ≤ vec_len workspace.new.cells) }
    ensures bytes { OnOk result (bytes ≤ vec_len workspace.new.bytes) }
{
    let Ok(cells) = u32::try_from(cells) else {
        return Err(Memory);
    };
    workspace.room(alloc, cells)?;
    workspace.byte_room(alloc, bytes)
}
