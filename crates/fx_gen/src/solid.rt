//! The effect solid.
ghost use Rattle.std.specs.Prelude.{◌≡◌, ◌≤◌, ◌≤ℤ◌, pos, [], ◌∷◌, ◌++◌, IfOk, OnOk};
ghost use Rattle.fx_pixel.specs.Pixel.{greatest, components_of, IsOfDepth};
ghost use Rattle.fx_effect.specs.Shape.{IsLawful};
ghost use Rattle.fx_gen.specs.Solid.{scale, colour, level, solid, solid_shape};
ghost use Rattle.fx_gen.specs.SolidLaws.{solid_laws};

use crate::generator::{describe, write_project};
use fx_base::{Fix, Memory, Rect};
use fx_core::Ticket;
use fx_effect::{Context, Identity, ImageEffect, Inputs, PlaceKernel, Reply, Values, fill_places};
use fx_gate::Hold;
use fx_image::Part;
use fx_params::ParamDef;
use fx_pixel::{Components, Depth, Pixel};
use fx_props::PropSet;
use std::alloc::Global;

/// One colour over the project's extent, and zero outside it: a generator. Its parameters are r, g, b
/// and a, levels from 0 to 1.
#[derive(Clone, Copy, Debug, PartialEq, Eq)]
pub struct Solid;

// The levels 0 and 1.
pub(crate) const NONE: Fix = Fix { raw: 0 };

pub(crate) const FULL: Fix = Fix { raw: 65536 };

impl ImageEffect for Solid {
    ghost meaning = { λ _. solid };

    ghost laws = { λ _. solid_laws };

    fn describe(&self, alloc: Global, descriptor: &mut PropSet) -> Result<Reply, Memory> {
        describe(alloc, "solid", descriptor)
    }

    fn describe_in_context(
        &self,
        alloc: Global,
        _context: Context,
        _clips: &mut Vec<PropSet>,
        params: &mut Vec<ParamDef>,
    ) -> Result<Reply, Memory> {
        add_level(alloc, params, "r", NONE)?;
        add_level(alloc, params, "g", NONE)?;
        add_level(alloc, params, "b", NONE)?;
        add_level(alloc, params, "a", FULL)?;
        Ok(Reply::Ok)
    }

    fn get_region_of_definition(
        &self,
        alloc: Global,
        values: &Values,
        _regions: &[Rect],
        _in_args: &PropSet,
        out_args: &mut PropSet,
    ) -> Result<Reply, Memory> {
        write_project(alloc, values.project, out_args)
    }

    fn get_regions_of_interest(
        &self,
        _alloc: Global,
        _values: &Values,
        _in_args: &PropSet,
        _out_args: &mut PropSet,
    ) -> Result<Reply, Memory> {
        Ok(Reply::Default)
    }

    fn get_frames_needed(
        &self,
        _alloc: Global,
        _values: &Values,
        _in_args: &PropSet,
        _out_args: &mut PropSet,
    ) -> Result<Reply, Memory> {
        Ok(Reply::Default)
    }

    fn is_identity(&self, _values: &Values, _in_args: &PropSet) -> Identity {
        Identity::No
    }

    fn render(
        &self,
        _alloc: Global,
        values: &Values,
        _in_args: &PropSet,
        _inputs: &Inputs<'_>,
        _hold: &mut Hold,
        ticket: &mut Ticket,
        out: &mut Part<'_>,
    ) -> Result<(), Memory> {
        let colour = colour(out.depth(), out.components(), values);
        fill_places(&Plain { colour }, values.project, out);
        ticket.stamped = true;
        Ok(())
    }
}

// Adds the parameter of a level, with what it is at the start.
fn add_level(
    alloc: Global,
    params: &mut Vec<ParamDef>,
    name: &str,
    start: Fix,
) -> Result<(), Memory>
    ensures { OnOk result (params.new.items ≡ params.old.items ++ level name.now start.raw ∷ []) }
{
    params.push(ParamDef::fix(alloc, name, NONE, FULL, start)?)?;
    Ok(())
}

// One pixel everywhere.
#[derive(Clone, Copy)]
struct Plain {
    colour: Pixel,
}

impl PlaceKernel for Plain {
    ghost is_ready = { λ k depth c. IsOfDepth depth k.colour × (components_of k.colour ≡ c) };

    ghost of = { λ k depth c x y. k.colour };

    fn place(&self, _depth: Depth, _components: Components, _x: i64, _y: i64) -> Pixel {
        self.colour
    }
}

// The colour of these values' levels.
fn colour(depth: Depth, components: Components, values: &Values) -> Pixel
    requires { IsLawful solid_shape values.now }
    ensures value { result ≡ colour values.now components (greatest depth) }
    ensures depth { IsOfDepth depth result }
    ensures components { components_of result ≡ components }
{
    let a = scale(depth, values.number(3));
    match components {
        Components::Rgba => Pixel::Rgba {
            r: scale(depth, values.number(0)),
            g: scale(depth, values.number(1)),
            b: scale(depth, values.number(2)),
            a,
        },
        Components::Alpha => Pixel::Alpha { a },
    }
}

// A level as a sample: the greatest times the level, to the nearest and halves up.
pub(crate) fn scale(depth: Depth, level: i64) -> u16
    requires { (pos 0 ≤ℤ level) × (level ≤ℤ pos 65536) }
    ensures value { result ≡ scale (greatest depth) level }
    ensures bound { result ≤ greatest depth }
{
    let level = level as u64;
    let greatest = u64::from(depth.greatest());
    ((2 * level * greatest + 65536) / 131072) as u16
}
