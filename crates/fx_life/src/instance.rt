//! Instances of a plug-in: idle ones, and those in a sequence of renders.
ghost use Rattle.std.specs.Prelude.{◌≡◌, ◌≤◌, pos};
ghost use Rattle.fx_effect.specs.Asked.{AsksSequence, HasRange};
ghost use Rattle.fx_life.specs.Running.{begun, made};

use fx_effect::Context;
use fx_props::PropSet;
use std::marker::Model;

/// An instance that is in no sequence of renders. It has to be destroyed by its plug-in.
pub struct Instance {
    plugin: u32,
    node: u32,
    context: Context,
}

impl Model for Instance {
    ghost use Rattle.fx_life.specs.Plugin.{MadeFor};

    ghost Value = { MadeFor };

    ghost view = { λ i. record { plugin = i.plugin; node = i.node; context = i.context } };
}

impl Instance {
    // The instance of this node, of the plug-in of this number, in this context.
    pub(crate) fn new(plugin: u32, node: u32, context: Context) -> Instance
        ensures { result ≡ record { plugin = plugin; node = node; context = context } }
    {
        Instance {
            plugin,
            node,
            context,
        }
    }

    // Its node, where the instance is done with.
    pub(crate) fn into_node(self) -> u32
        ensures { result ≡ self.node }
    {
        let Instance {
            plugin: _,
            node,
            context: _,
        } = self;
        node
    }
}

/// An instance in a sequence of renders. The sequence has to be ended by its plug-in.
pub struct InSequence {
    instance: Instance,
    first: u32,
    last: u32,
    // what begin was handed, and end will be
    args: PropSet,
}

impl Model for InSequence {
    ghost use Rattle.std.specs.Prelude.{pos};
    ghost use Rattle.fx_effect.specs.Asked.{AsksSequence, HasRange};
    ghost use Rattle.fx_life.specs.Plugin.{Rendering};

    ghost Value = { Rendering };

    ghost view = { λ s. record {
      plugin = s.instance.plugin;
      node = s.instance.node;
      context = s.instance.context;
      first = s.first;
      last = s.last;
    } };

    // begin was told these very frames
    ghost invariant = { λ s. AsksSequence s.args × HasRange s.args (pos s.first) (pos s.last) };
}

impl InSequence {
    // The instance in the sequence that these arguments begin.
    pub(crate) fn of(instance: Instance, first: u32, last: u32, args: PropSet) -> InSequence
        requires asks { AsksSequence args }
        requires range { HasRange args (pos first) (pos last) }
        ensures { result ≡ begun first last instance }
    {
        InSequence {
            instance,
            first,
            last,
            args,
        }
    }

    // The arguments of the sequence.
    pub(crate) fn args(&self) -> &PropSet
        ensures { AsksSequence result.now }
    {
        &self.args
    }

    // The instance, where the sequence is done with.
    pub(crate) fn into_instance(self) -> Instance
        ensures { result ≡ made self }
    {
        let InSequence {
            instance,
            first: _,
            last: _,
            args: _,
        } = self;
        instance
    }
}
