//! An effect of the tests, which notes and counts the actions that come to it.
ghost use Rattle.std.specs.Prelude.{◌<◌};
ghost use Rattle.fx_pixel.specs.Pixel.{zero};
ghost use Rattle.fx_rows_effects.specs.Toy.{toy, toy_laws};

use fx_base::{Fix, Memory, Rect};
use fx_core::Ticket;
use fx_effect::{
    Context, Description, Identity, ImageEffect, Inputs, PlaceKernel, Reply, Safety, Values,
    fill_places,
};
use fx_gate::Hold;
use fx_image::Part;
use fx_params::ParamDef;
use fx_pixel::{Components, Depth, Pixel};
use fx_props::PropSet;
use std::alloc::Global;
use std::sync::atomic::{AtomicU64, Ordering};

/// A generator of zero. Its notes are a digit for each action of its life, and for a sequence also its first
/// and its last frame; the latest is the last. Its counts are a hexadecimal digit for each of the fourteen
/// actions, in the order of the trait from the last digit on.
#[derive(Clone, Copy, Drop)]
pub struct Toy<'a> {
    pub notes: Option<&'a AtomicU64>,
    pub counts: Option<&'a AtomicU64>,
}

impl Toy<'_> {
    fn note(&self, digit: u64) {
        if let Some(notes) = self.notes {
            let earlier = notes.load(Ordering::SeqCst);
            notes.store(
                earlier.wrapping_mul(10).wrapping_add(digit),
                Ordering::SeqCst,
            );
        }
    }

    // The action at this place of the trait came.
    fn count(&self, place: u32)
        requires { place < 14 }
    {
        if let Some(counts) = self.counts {
            let earlier = counts.load(Ordering::SeqCst);
            counts.store(earlier.wrapping_add(1u64 << (4 * place)), Ordering::SeqCst);
        }
    }

    fn note_frames(&self, in_args: &PropSet) {
        for index in 0..2 {
            let frame = in_args.get_fix("OfxImageEffectPropFrameRange", index);
            self.note(frame.unwrap_or(Fix { raw: 0 }).raw.unsigned_abs() / 65536);
        }
    }
}

impl ImageEffect for Toy<'_> {
    ghost meaning = { λ _. toy };

    ghost laws = { λ _. toy_laws };

    fn load(&self, _alloc: Global) -> Result<Reply, Memory> {
        self.count(0);
        self.note(1);
        Ok(Reply::Ok)
    }

    fn unload(&self) -> Reply {
        self.count(1);
        self.note(9);
        Reply::Ok
    }

    fn describe(&self, alloc: Global, descriptor: &mut PropSet) -> Result<Reply, Memory> {
        self.count(2);
        self.note(2);
        let description = Description {
            label: "toy",
            contexts: &[Context::Generator],
            depths: &[Depth::Byte],
            temporal: false,
            tiles: true,
            safety: Safety::Unsafe,
        };
        description.write(alloc, descriptor)?;
        Ok(Reply::Ok)
    }

    fn describe_in_context(
        &self,
        _alloc: Global,
        _context: Context,
        _clips: &mut Vec<PropSet>,
        _params: &mut Vec<ParamDef>,
    ) -> Result<Reply, Memory> {
        self.count(3);
        self.note(3);
        Ok(Reply::Ok)
    }

    fn create_instance(&self, _alloc: Global) -> Result<Reply, Memory> {
        self.count(4);
        self.note(4);
        Ok(Reply::Ok)
    }

    fn destroy_instance(&self) -> Reply {
        self.count(5);
        self.note(8);
        Reply::Ok
    }

    fn get_clip_preferences(
        &self,
        _alloc: Global,
        _values: &Values,
        _out_args: &mut PropSet,
    ) -> Result<Reply, Memory> {
        self.count(6);
        Ok(Reply::Default)
    }

    fn get_region_of_definition(
        &self,
        _alloc: Global,
        _values: &Values,
        _regions: &[Rect],
        _in_args: &PropSet,
        _out_args: &mut PropSet,
    ) -> Result<Reply, Memory> {
        self.count(7);
        Ok(Reply::Default)
    }

    fn get_regions_of_interest(
        &self,
        _alloc: Global,
        _values: &Values,
        _in_args: &PropSet,
        _out_args: &mut PropSet,
    ) -> Result<Reply, Memory> {
        self.count(8);
        Ok(Reply::Default)
    }

    fn get_frames_needed(
        &self,
        _alloc: Global,
        _values: &Values,
        _in_args: &PropSet,
        _out_args: &mut PropSet,
    ) -> Result<Reply, Memory> {
        self.count(9);
        Ok(Reply::Default)
    }

    fn is_identity(&self, _values: &Values, _in_args: &PropSet) -> Identity {
        self.count(10);
        Identity::No
    }

    fn begin_sequence_render(&self, _alloc: Global, in_args: &PropSet) -> Result<Reply, Memory> {
        self.count(11);
        self.note(5);
        self.note_frames(in_args);
        Ok(Reply::Ok)
    }

    fn render(
        &self,
        _alloc: Global,
        values: &Values,
        _in_args: &PropSet,
        _inputs: &Inputs<'_>,
        _hold: &mut Hold,
        ticket: &mut Ticket,
        out: &mut Part<'_>,
    ) -> Result<(), Memory> {
        self.count(12);
        self.note(6);
        fill_places(&Zero, values.project, out);
        ticket.stamped = true;
        Ok(())
    }

    fn end_sequence_render(&self, in_args: &PropSet) -> Reply {
        self.count(13);
        self.note(7);
        self.note_frames(in_args);
        Reply::Ok
    }
}

// The zero pixel everywhere.
#[derive(Clone, Copy)]
struct Zero;

impl PlaceKernel for Zero {
    ghost is_ready = { λ _ _ _. Unit {0} };

    ghost of = { λ _ depth c x y. zero c };

    fn place(&self, _depth: Depth, components: Components, _x: i64, _y: i64) -> Pixel {
        Pixel::zero(components)
    }
}
