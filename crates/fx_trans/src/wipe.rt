//! The effect wipe.
ghost use Rattle.std.specs.Prelude.{◌≡◌, ◌≤◌, ◌<◌, ◌+◌, ◌*◌, ℕ, ℤ, ◌≤ℤ◌, ◌<ℤ◌, length, nat_lt, if◌then◌else◌};
ghost use Rattle.std.specs.Int.{int_gap};
ghost use Rattle.std.specs.Int.Signed.{lt_z};
ghost use Rattle.fx_base.specs.Rect.{columns};
ghost use Rattle.fx_image.specs.Stored.{pixel_size, pixel_in};
ghost use Rattle.fx_effect.specs.Given.{row_pixel, ShowsClip};
ghost use Rattle.fx_effect.specs.Shape.{IsLawful};
ghost use Rattle.fx_trans.specs.Wipe.{wipe, wipe_shape, wiped, edge as edge_of, shows_to, side_of};
ghost use Rattle.fx_trans.specs.Transitions.{at_ends};
ghost use Rattle.fx_trans.specs.WipeLaws.{wipe_laws};

use crate::parts::{END, FROM, START, TO, blank_bytes, level, transition};
use fx_base::{Memory, Rect, offset};
use fx_core::Ticket;
use fx_effect::{
    Context, Description, Identity, ImageEffect, Inputs, Reply, RowKernel, Safety, Values,
    asked_window, clip_set, fill_with,
};
use fx_gate::Hold;
use fx_image::Part;
use fx_image::samples::{copy_pixels, pixel_size};
use fx_params::ParamDef;
use fx_pixel::{Components, Depth};
use fx_props::PropSet;
use std::alloc::Global;

/// Shows its clip SourceTo on the left of an edge, and SourceFrom on the right. The edge is at the
/// parameter Transition, a level from 0 to 1, times the project's width: a transition.
#[derive(Clone, Copy, Debug, PartialEq, Eq)]
pub struct Wipe;

impl ImageEffect for Wipe {
    ghost meaning = { λ _. wipe };

    ghost laws = { λ _. wipe_laws };

    fn describe(&self, alloc: Global, descriptor: &mut PropSet) -> Result<Reply, Memory> {
        let description = Description {
            label: "wipe",
            contexts: &[Context::Transition],
            depths: &[Depth::Byte, Depth::Short],
            temporal: false,
            tiles: true,
            safety: Safety::FullySafe,
        };
        description.write(alloc, descriptor)?;
        Ok(Reply::Ok)
    }

    fn describe_in_context(
        &self,
        alloc: Global,
        _context: Context,
        clips: &mut Vec<PropSet>,
        params: &mut Vec<ParamDef>,
    ) -> Result<Reply, Memory> {
        let components = [Components::Rgba, Components::Alpha];
        clips.push(clip_set(alloc, "SourceFrom", false, &components)?)?;
        clips.push(clip_set(alloc, "SourceTo", false, &components)?)?;
        params.push(transition(alloc)?)?;
        Ok(Reply::Ok)
    }

    fn get_region_of_definition(
        &self,
        _alloc: Global,
        _values: &Values,
        _regions: &[Rect],
        _in_args: &PropSet,
        _out_args: &mut PropSet,
    ) -> Result<Reply, Memory> {
        // The default is the hull of the regions of both clips.
        Ok(Reply::Default)
    }

    fn get_regions_of_interest(
        &self,
        _alloc: Global,
        _values: &Values,
        _in_args: &PropSet,
        _out_args: &mut PropSet,
    ) -> Result<Reply, Memory> {
        Ok(Reply::Default)
    }

    fn get_frames_needed(
        &self,
        _alloc: Global,
        _values: &Values,
        _in_args: &PropSet,
        _out_args: &mut PropSet,
    ) -> Result<Reply, Memory> {
        Ok(Reply::Default)
    }

    fn is_identity(&self, values: &Values, in_args: &PropSet) -> Identity {
        let window = asked_window(in_args);
        same(level(values), edge(values), values.frame, window)
    }

    fn render(
        &self,
        alloc: Global,
        values: &Values,
        _in_args: &PropSet,
        inputs: &Inputs<'_>,
        _hold: &mut Hold,
        ticket: &mut Ticket,
        out: &mut Part<'_>,
    ) -> Result<(), Memory> {
        let rows = WipeRows {
            inputs,
            frame: values.frame,
            level: level(values),
            edge: edge(values),
        };
        let mut bytes = blank_bytes(alloc, out.row_bytes())?;
        fill_with(&rows, &mut [], bytes.as_mut_slice(), out);
        ticket.stamped = true;
        Ok(())
    }
}

// The first column on the right of the edge.
fn edge(values: &Values) -> i64
    requires { IsLawful wipe_shape values.now }
    ensures { result ≡ edge_of values.now }
{
    i64::from(level(values)) * values.project.x2 / 65536
}

// The clip that a window shows alone.
fn same(level: u32, edge: i64, frame: i64, window: Rect) -> Identity
    ensures { result ≡ at_ends level frame (side_of edge frame window) }
{
    match level {
        START => Identity::Same { clip: FROM, frame },
        END => Identity::Same { clip: TO, frame },
        _ => side(edge, frame, window),
    }
}

// The clip that a window on one side of the edge shows.
fn side(edge: i64, frame: i64, window: Rect) -> Identity
    ensures { result ≡ side_of edge frame window }
{
    if window.x2 <= edge {
        Identity::Same { clip: TO, frame }
    } else if edge <= window.x1 {
        Identity::Same { clip: FROM, frame }
    } else {
        Identity::No
    }
}

// How many of the columns from `first` to `end` are on the left of the edge.
fn left_of(edge: i64, first: i64, end: i64) -> usize
    requires { first ≤ℤ end }
    ensures columns { (x : ℤ) → first ≤ℤ x → x <ℤ end → nat_lt (int_gap first x) result ≡ lt_z x edge }
    ensures few { result ≤ int_gap first end }
{
    if edge <= first {
        0
    } else if end <= edge {
        offset(first, end)
    } else {
        offset(first, edge)
    }
}

// The rows of a render. The bytes have room for a row of SourceTo.
#[derive(Drop)]
struct WipeRows<'a, 'b> {
    inputs: &'a Inputs<'b>,
    frame: i64,
    level: u32,
    edge: i64,
}

impl<'a, 'b> WipeRows<'a, 'b> {
    // How many of a rectangle's columns show SourceTo: its first ones.
    fn shown(&self, rect: Rect) -> usize
        requires { rect.x1 ≤ℤ rect.x2 }
        ensures columns { let me = self.now in (x : ℤ) → rect.x1 ≤ℤ x → x <ℤ rect.x2
            → nat_lt (int_gap rect.x1 x) result ≡ shows_to me.level me.edge x }
        ensures few { result ≤ columns rect }
    {
        match self.level {
            START => 0,
            END => offset(rect.x1, rect.x2),
            _ => left_of(self.edge, rect.x1, rect.x2),
        }
    }
}

impl<'a, 'b> RowKernel for WipeRows<'a, 'b> {
    ghost makes = { λ k depth c. ShowsClip k.inputs.now 0 depth c × ShowsClip k.inputs.now 1 depth c };

    ghost pixel = { λ k depth c x y. wiped k.level k.edge x (row_pixel k.inputs.now 0 k.frame x y)
        (row_pixel k.inputs.now 1 k.frame x y) };

    ghost byte_count = { λ k depth c rect. columns rect * pixel_size depth c };

    fn fill_row(
        &self,
        depth: Depth,
        components: Components,
        rect: Rect,
        y: i64,
        _cells: &mut [u64],
        bytes: &mut [u8],
        row: &mut [u8],
    ) {
        self.inputs.read_row(FROM, self.frame, rect, y, row);
        self.inputs.read_row(TO, self.frame, rect, y, bytes);
        copy_first(depth, components, bytes, row, self.shown(rect));
    }
}

// Copies the first pixels of a row into another.
fn copy_first(depth: Depth, components: Components, source: &[u8], row: &mut [u8], count: usize)
    requires source { count * pixel_size depth components ≤ length source.now }
    requires room { length row.old ≡ length source.now }
    ensures { (i : ℕ) → pixel_in depth components row.new i
        ≡ (if nat_lt i count then pixel_in depth components source.now i else pixel_in depth components row.old i) }
{
    let size = count * pixel_size(depth, components);
    copy_pixels(depth, components, &source[0..size], row, 0, count);
}
