//! The effects of the program, one enum over them all: each of the fourteen actions is handed on.
ghost use Rattle.fx_shipped.specs.Shipped.{meaning_of};
ghost use Rattle.fx_shipped.specs.ShippedLaws.{shipped_laws};

use fx_area::{Boxblur, Convolve3, Dilate, Erode};
use fx_base::{Memory, Rect};
use fx_core::Ticket;
use fx_effect::{Context, Identity, ImageEffect, Inputs, Reply, Values};
use fx_gate::Hold;
use fx_gen::{Checker, Grain, Ramp, Solid};
use fx_image::Part;
use fx_merge::{Keymix, Merge};
use fx_move::{Crop, Mirror, Translate};
use fx_params::ParamDef;
use fx_point::{Gain, Invert, Posterise, Premult, Saturation, Shuffle, Unpremult};
use fx_props::PropSet;
use fx_time::{Echo, Frameblend, Framediff, Timeoffset};
use fx_trans::{Dissolve, Wipe};
use fx_whole::Autogain;
use std::alloc::Global;

/// An effect of the program. It is asked as the effect that it stands for.
#[derive(Clone, Copy, Debug, PartialEq, Eq)]
pub enum Shipped {
    Solid,
    Checker,
    Ramp,
    Grain,
    Invert,
    Gain,
    Premult,
    Unpremult,
    Shuffle,
    Saturation,
    Posterise,
    Boxblur,
    Erode,
    Dilate,
    Convolve3,
    Crop,
    Translate,
    Mirror,
    Timeoffset,
    Frameblend,
    Framediff,
    Echo,
    Dissolve,
    Wipe,
    Merge,
    Keymix,
    Autogain,
}

// Asks the effect that a value stands for.
macro_rules! hand_on {
    ($effect:expr, $action:ident($($given:expr),*)) => {
        match $effect {
            Shipped::Solid => Solid.$action($($given),*),
            Shipped::Checker => Checker.$action($($given),*),
            Shipped::Ramp => Ramp.$action($($given),*),
            Shipped::Grain => Grain.$action($($given),*),
            Shipped::Invert => Invert.$action($($given),*),
            Shipped::Gain => Gain.$action($($given),*),
            Shipped::Premult => Premult.$action($($given),*),
            Shipped::Unpremult => Unpremult.$action($($given),*),
            Shipped::Shuffle => Shuffle.$action($($given),*),
            Shipped::Saturation => Saturation.$action($($given),*),
            Shipped::Posterise => Posterise.$action($($given),*),
            Shipped::Boxblur => Boxblur.$action($($given),*),
            Shipped::Erode => Erode.$action($($given),*),
            Shipped::Dilate => Dilate.$action($($given),*),
            Shipped::Convolve3 => Convolve3.$action($($given),*),
            Shipped::Crop => Crop.$action($($given),*),
            Shipped::Translate => Translate.$action($($given),*),
            Shipped::Mirror => Mirror.$action($($given),*),
            Shipped::Timeoffset => Timeoffset.$action($($given),*),
            Shipped::Frameblend => Frameblend.$action($($given),*),
            Shipped::Framediff => Framediff.$action($($given),*),
            Shipped::Echo => Echo.$action($($given),*),
            Shipped::Dissolve => Dissolve.$action($($given),*),
            Shipped::Wipe => Wipe.$action($($given),*),
            Shipped::Merge => Merge.$action($($given),*),
            Shipped::Keymix => Keymix.$action($($given),*),
            Shipped::Autogain => Autogain.$action($($given),*),
        }
    };
}

impl ImageEffect for Shipped {
    ghost meaning = { meaning_of };

    ghost laws = { shipped_laws };

    fn load(&self, alloc: Global) -> Result<Reply, Memory> {
        hand_on!(self, load(alloc))
    }

    fn unload(&self) -> Reply {
        hand_on!(self, unload())
    }

    fn describe(&self, alloc: Global, descriptor: &mut PropSet) -> Result<Reply, Memory> {
        hand_on!(self, describe(alloc, descriptor))
    }

    fn describe_in_context(
        &self,
        alloc: Global,
        context: Context,
        clips: &mut Vec<PropSet>,
        params: &mut Vec<ParamDef>,
    ) -> Result<Reply, Memory> {
        hand_on!(self, describe_in_context(alloc, context, clips, params))
    }

    fn create_instance(&self, alloc: Global) -> Result<Reply, Memory> {
        hand_on!(self, create_instance(alloc))
    }

    fn destroy_instance(&self) -> Reply {
        hand_on!(self, destroy_instance())
    }

    fn get_clip_preferences(
        &self,
        alloc: Global,
        values: &Values,
        out_args: &mut PropSet,
    ) -> Result<Reply, Memory> {
        hand_on!(self, get_clip_preferences(alloc, values, out_args))
    }

    fn get_region_of_definition(
        &self,
        alloc: Global,
        values: &Values,
        regions: &[Rect],
        in_args: &PropSet,
        out_args: &mut PropSet,
    ) -> Result<Reply, Memory> {
        hand_on!(
            self,
            get_region_of_definition(alloc, values, regions, in_args, out_args)
        )
    }

    fn get_regions_of_interest(
        &self,
        alloc: Global,
        values: &Values,
        in_args: &PropSet,
        out_args: &mut PropSet,
    ) -> Result<Reply, Memory> {
        hand_on!(
            self,
            get_regions_of_interest(alloc, values, in_args, out_args)
        )
    }

    fn get_frames_needed(
        &self,
        alloc: Global,
        values: &Values,
        in_args: &PropSet,
        out_args: &mut PropSet,
    ) -> Result<Reply, Memory> {
        hand_on!(self, get_frames_needed(alloc, values, in_args, out_args))
    }

    fn is_identity(&self, values: &Values, in_args: &PropSet) -> Identity {
        hand_on!(self, is_identity(values, in_args))
    }

    fn begin_sequence_render(&self, alloc: Global, in_args: &PropSet) -> Result<Reply, Memory> {
        hand_on!(self, begin_sequence_render(alloc, in_args))
    }

    fn render(
        &self,
        alloc: Global,
        values: &Values,
        in_args: &PropSet,
        inputs: &Inputs<'_>,
        hold: &mut Hold,
        ticket: &mut Ticket,
        out: &mut Part<'_>,
    ) -> Result<(), Memory> {
        hand_on!(
            self,
            render(alloc, values, in_args, inputs, hold, ticket, out)
        )
    }

    fn end_sequence_render(&self, in_args: &PropSet) -> Reply {
        hand_on!(self, end_sequence_render(in_args))
    }
}
