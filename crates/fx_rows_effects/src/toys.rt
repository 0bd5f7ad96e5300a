//! A catalogue of the tests, which hands each action on to its effect as that of the program does.
ghost use Rattle.std.specs.Prelude.{◌≡◌, Some, None, codes, if◌then◌else◌, refl};
ghost use Rattle.std.specs.Str.{bytes_eq};
ghost use Rattle.fx_rows_effects.specs.Toy.{toy, toy_laws, few_toys};
ghost use Rattle.fx_rows_effects.specs.declared.toys.Toys.TheVariants.{One};

use crate::toy::Toy;
use fx_base::{Memory, Rect};
use fx_core::Ticket;
use fx_effect::{Catalogue, Context, Identity, ImageEffect, Inputs, Reply, Safety, Values};
use fx_gate::Hold;
use fx_image::Part;
use fx_params::ParamDef;
use fx_props::PropSet;
use std::alloc::Global;

/// Two toys of one name.
#[derive(Clone, Copy, Drop)]
pub enum Toys<'a> {
    One(Toy<'a>),
    Other(Toy<'a>),
}

// Asks the toy that a value stands for.
macro_rules! hand_on {
    ($toys:expr, $action:ident($($given:expr),*)) => {
        match $toys {
            Toys::One(one) => one.$action($($given),*),
            Toys::Other(other) => other.$action($($given),*),
        }
    };
}

impl ImageEffect for Toys<'_> {
    ghost meaning = { λ _. toy };

    ghost laws = { λ _. toy_laws };

    fn load(&self, alloc: Global) -> Result<Reply, Memory> {
        hand_on!(self, load(alloc))
    }

    fn unload(&self) -> Reply {
        hand_on!(self, unload())
    }

    fn describe(&self, alloc: Global, descriptor: &mut PropSet) -> Result<Reply, Memory> {
        hand_on!(self, describe(alloc, descriptor))
    }

    fn describe_in_context(
        &self,
        alloc: Global,
        context: Context,
        clips: &mut Vec<PropSet>,
        params: &mut Vec<ParamDef>,
    ) -> Result<Reply, Memory> {
        hand_on!(self, describe_in_context(alloc, context, clips, params))
    }

    fn create_instance(&self, alloc: Global) -> Result<Reply, Memory> {
        hand_on!(self, create_instance(alloc))
    }

    fn destroy_instance(&self) -> Reply {
        hand_on!(self, destroy_instance())
    }

    fn get_clip_preferences(
        &self,
        alloc: Global,
        values: &Values,
        out_args: &mut PropSet,
    ) -> Result<Reply, Memory> {
        hand_on!(self, get_clip_preferences(alloc, values, out_args))
    }

    fn get_region_of_definition(
        &self,
        alloc: Global,
        values: &Values,
        regions: &[Rect],
        in_args: &PropSet,
        out_args: &mut PropSet,
    ) -> Result<Reply, Memory> {
        hand_on!(
            self,
            get_region_of_definition(alloc, values, regions, in_args, out_args)
        )
    }

    fn get_regions_of_interest(
        &self,
        alloc: Global,
        values: &Values,
        in_args: &PropSet,
        out_args: &mut PropSet,
    ) -> Result<Reply, Memory> {
        hand_on!(
            self,
            get_regions_of_interest(alloc, values, in_args, out_args)
        )
    }

    fn get_frames_needed(
        &self,
        alloc: Global,
        values: &Values,
        in_args: &PropSet,
        out_args: &mut PropSet,
    ) -> Result<Reply, Memory> {
        hand_on!(self, get_frames_needed(alloc, values, in_args, out_args))
    }

    fn is_identity(&self, values: &Values, in_args: &PropSet) -> Identity {
        hand_on!(self, is_identity(values, in_args))
    }

    fn begin_sequence_render(&self, alloc: Global, in_args: &PropSet) -> Result<Reply, Memory> {
        hand_on!(self, begin_sequence_render(alloc, in_args))
    }

    fn render(
        &self,
        alloc: Global,
        values: &Values,
        in_args: &PropSet,
        inputs: &Inputs<'_>,
        hold: &mut Hold,
        ticket: &mut Ticket,
        out: &mut Part<'_>,
    ) -> Result<(), Memory> {
        hand_on!(
            self,
            render(alloc, values, in_args, inputs, hold, ticket, out)
        )
    }

    fn end_sequence_render(&self, in_args: &PropSet) -> Reply {
        hand_on!(self, end_sequence_render(in_args))
    }
}

impl Catalogue for Toys<'_> {
    ghost called = { λ _. codes "toy" };

    ghost number_of = { λ _. 3 };

    ghost find = { λ name. if bytes_eq name (codes "toy")
        then Some (One (record { notes = None; counts = None })) else None };

    ghost one_name = { λ a b e. refl };

    ghost one_meaning = { λ a b e. refl };

    ghost few = { λ e. few_toys };

    fn named(name: &str) -> Option<Self> {
        match name {
            "toy" => Some(Toys::One(Toy {
                notes: None,
                counts: None,
            })),
            _ => None,
        }
    }

    fn number(&self) -> u32 {
        3
    }

    fn safety(&self) -> Safety {
        Safety::Unsafe
    }

    fn supports_tiles(&self) -> bool {
        true
    }
}
