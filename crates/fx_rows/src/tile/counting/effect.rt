//! Effects that leave each pixel as it is, and note what is asked of them.
ghost use Rattle.std.specs.Prelude.{◌≡◌, Some, None, codes, if◌then◌else◌};
ghost use Rattle.std.specs.Str.{bytes_eq};
ghost use Rattle.fx_effect.specs.declared.action.Safety.TheVariants as safety;
ghost use Rattle.fx_rows.specs.TileCounting.{counted, counted_laws, counted_name, counted_number, few_counted, same_safety};

use crate::tile::counting::course::Action;
use crate::tile::counting::notes::Notes;
use fx_base::{Memory, Rect};
use fx_core::Ticket;
use fx_effect::{
    Catalogue, Context, Description, Identity, ImageEffect, Inputs, PointKernel, Reply, Safety,
    Values, clip_set, fill_points,
};
use fx_gate::Hold;
use fx_image::Part;
use fx_params::ParamDef;
use fx_pixel::{Components, Depth, Pixel};
use fx_props::PropSet;
use std::alloc::Global;

/// An effect of each thread safety, and where it notes. It has one clip, Source, and the parameter instance, by which
/// an instance-safe one tells its two instances apart.
#[derive(Clone, Copy, Drop)]
pub(crate) struct Counted<'a> {
    pub safety: Safety,
    pub notes: Option<&'a Notes>,
}

impl Counted<'_> {
    fn note(&self, action: Action) {
        if let Some(notes) = self.notes {
            notes.note(action);
        }
    }

    // Whether the calls of an instance are counted for themselves, behind those of the other one.
    fn is_second(&self, instance: i64) -> bool {
        self.safety == Safety::InstanceSafe && instance == 1
    }

    fn begin_call(&self, instance: i64) -> Result<(), Memory> {
        match self.notes {
            Some(notes) => notes.begin_call(self.is_second(instance)),
            None => Ok(()),
        }
    }

    fn end_call(&self, instance: i64) {
        if let Some(notes) = self.notes {
            notes.end_call(self.is_second(instance));
        }
    }
}

impl ImageEffect for Counted<'_> {
    ghost meaning = { λ e. counted e.safety };

    ghost laws = { λ e. counted_laws e.safety };

    fn load(&self, _alloc: Global) -> Result<Reply, Memory> {
        self.note(Action::Load);
        Ok(Reply::Ok)
    }

    fn unload(&self) -> Reply {
        self.note(Action::Unload);
        Reply::Ok
    }

    fn describe(&self, alloc: Global, descriptor: &mut PropSet) -> Result<Reply, Memory> {
        self.note(Action::Describe);
        let description = Description {
            label: "counted",
            contexts: &[Context::Filter, Context::General],
            depths: &[Depth::Byte],
            temporal: false,
            tiles: true,
            safety: self.safety,
        };
        description.write(alloc, descriptor)?;
        Ok(Reply::Ok)
    }

    fn describe_in_context(
        &self,
        alloc: Global,
        context: Context,
        clips: &mut Vec<PropSet>,
        params: &mut Vec<ParamDef>,
    ) -> Result<Reply, Memory> {
        self.note(match context {
            Context::General => Action::DescribeGeneral,
            _ => Action::DescribeFilter,
        });
        clips.push(clip_set(alloc, "Source", false, &[Components::Rgba])?)?;
        params.push(ParamDef::int(alloc, "instance", 0, 1, 0)?)?;
        Ok(Reply::Ok)
    }

    fn create_instance(&self, _alloc: Global) -> Result<Reply, Memory> {
        self.note(Action::Create);
        Ok(Reply::Ok)
    }

    fn destroy_instance(&self) -> Reply {
        self.note(Action::Destroy);
        Reply::Ok
    }

    fn get_region_of_definition(
        &self,
        _alloc: Global,
        _values: &Values,
        _regions: &[Rect],
        _in_args: &PropSet,
        _out_args: &mut PropSet,
    ) -> Result<Reply, Memory> {
        Ok(Reply::Default)
    }

    fn get_regions_of_interest(
        &self,
        _alloc: Global,
        _values: &Values,
        _in_args: &PropSet,
        _out_args: &mut PropSet,
    ) -> Result<Reply, Memory> {
        Ok(Reply::Default)
    }

    fn get_frames_needed(
        &self,
        _alloc: Global,
        _values: &Values,
        _in_args: &PropSet,
        _out_args: &mut PropSet,
    ) -> Result<Reply, Memory> {
        Ok(Reply::Default)
    }

    fn is_identity(&self, _values: &Values, _in_args: &PropSet) -> Identity {
        Identity::No
    }

    fn begin_sequence_render(&self, _alloc: Global, _in_args: &PropSet) -> Result<Reply, Memory> {
        self.note(Action::Begin);
        Ok(Reply::Ok)
    }

    fn render(
        &self,
        _alloc: Global,
        values: &Values,
        _in_args: &PropSet,
        inputs: &Inputs<'_>,
        _hold: &mut Hold,
        ticket: &mut Ticket,
        out: &mut Part<'_>,
    ) -> Result<(), Memory> {
        let instance = values.number(0);
        self.begin_call(instance)?;
        fill_points(&Keeping, inputs, 0, values.frame, out);
        self.end_call(instance);
        ticket.stamped = true;
        Ok(())
    }

    fn end_sequence_render(&self, _in_args: &PropSet) -> Reply {
        self.note(Action::End);
        Reply::Ok
    }
}

impl Catalogue for Counted<'_> {
    ghost called = { λ e. counted_name e.safety };

    ghost number_of = { λ e. counted_number e.safety };

    ghost find = { λ name.
        if bytes_eq name (codes "unsafe") then Some (record { safety = safety.Unsafe; notes = None }) else
        if bytes_eq name (codes "instance") then Some (record { safety = safety.InstanceSafe; notes = None }) else
        if bytes_eq name (codes "fully") then Some (record { safety = safety.FullySafe; notes = None }) else None };

    ghost one_name = { λ a b e. same_safety counted_name a.safety b.safety e };

    ghost one_meaning = { λ a b e. same_safety counted a.safety b.safety e };

    ghost few = { λ e. few_counted e.safety };

    fn named(name: &str) -> Option<Self> {
        let safety = match name {
            "unsafe" => Safety::Unsafe,
            "instance" => Safety::InstanceSafe,
            "fully" => Safety::FullySafe,
            _ => return None,
        };
        Some(Counted {
            safety,
            notes: None,
        })
    }

    fn number(&self) -> u32 {
        match self.safety {
            Safety::Unsafe => 0,
            Safety::InstanceSafe => 1,
            Safety::FullySafe => 2,
        }
    }

    fn safety(&self) -> Safety {
        self.safety
    }

    fn supports_tiles(&self) -> bool {
        true
    }
}

// Each pixel as it is.
#[derive(Clone, Copy)]
struct Keeping;

impl PointKernel for Keeping {
    ghost is_ready = { λ _. Unit {0} };

    ghost of = { λ _ depth p. p };

    fn point(&self, _depth: Depth, p: Pixel) -> Pixel {
        p
    }
}
