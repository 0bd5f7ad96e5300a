//! A plug-in that is loaded.
ghost use Rattle.std.specs.Prelude.{◌≡◌, ℕ, IfOk, IfErr, OnOk};
ghost use Rattle.fx_life.specs.Plugin.{described};
ghost use Rattle.fx_life.specs.Course.{Phase, Load, Describe, Unload, NotLoaded, Loaded as IsLoaded, Unloaded, state_of, Allows};

use crate::Described;
use fx_base::Memory;
use fx_effect::{Catalogue, descriptor};
use std::alloc::Global;
use std::marker::Model;

/// A plug-in that is loaded and not described. Contracts see it as its effect.
pub struct Loaded<E: Catalogue> {
    effect: E,
}

impl<E: Catalogue> Model for Loaded<E> {
    ghost Value = { E };

    ghost view = { λ loaded. loaded.effect };
}

impl<E: Catalogue> Loaded<E> {
    /// Loads a plug-in (kOfxActionLoad). Where memory is wanting the effect comes back.
    pub fn load(alloc: Global, effect: E) -> Result<Loaded<E>, (E, Memory)>
        ensures ok { IfOk result (λ loaded. loaded ≡ effect) }
        ensures back { IfErr result (λ r. r.0 ≡ effect) }
        ensures step { OnOk result (Allows NotLoaded Load IsLoaded) }
    {
        match effect.load(alloc) {
            Ok(_) => Ok(Loaded { effect }),
            Err(memory) => Err((effect, memory)),
        }
    }

    /// Has the plug-in describe itself (kOfxActionDescribe): it is described in no context yet. Where memory
    /// is wanting the loaded plug-in comes back.
    pub fn describe(self, alloc: Global) -> Result<Described<E>, (Loaded<E>, Memory)>
        ensures ok { IfOk result (λ plugin. plugin ≡ described self) }
        ensures back { IfErr result (λ r. r.0 ≡ self) }
        ensures step { IfOk result
            (λ plugin. (phases : ℕ → Phase) → Allows IsLoaded Describe (state_of plugin phases)) }
    {
        let written = match descriptor(alloc) {
            Ok(mut set) => self.effect.describe(alloc, &mut set),
            Err(memory) => Err(memory),
        };
        match written {
            Ok(_) => {
                let Loaded { effect } = self;
                Ok(Described::new(alloc, effect))
            }
            Err(memory) => Err((self, memory)),
        }
    }

    /// Unloads the plug-in, which was not described (kOfxActionUnload).
    pub fn unload(self) -> E
        ensures ok { result ≡ self }
        ensures step { Allows IsLoaded Unload Unloaded }
    {
        let Loaded { effect } = self;
        effect.unload();
        effect
    }
}
