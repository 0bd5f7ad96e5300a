//! A plug-in that is described.
ghost use Rattle.std.specs.Prelude.{◌≡◌, ◌≢◌, ◌≤◌, ◌<◌, ◌^◌, ◌++◌, ◌∷◌, [], ℕ, true, IfOk, IfErr, OnOk, OnErr, IsTrue, ◌↔◌};
ghost use Rattle.std.specs.List.{Contains};
ghost use Rattle.fx_base.specs.Bounds.{none};
ghost use Rattle.fx_image.specs.Part.{IsPart, SamePart, IsWritten};
ghost use Rattle.fx_effect.specs.Meaning.{rendered};
ghost use Rattle.fx_base.specs.Rect.{IsFrame};
ghost use Rattle.fx_life.specs.Plugin.{described, without, gate_of, MayRenderIn};
ghost use Rattle.fx_life.specs.Running.{begun, made};
ghost use Rattle.fx_life.specs.Course.{Phase, Idle, Sequence, DescribeInContext, Create, Begin, Render, End, Destroy};
ghost use Rattle.fx_life.specs.Course.{Unload, Unloaded, state_of, with_phase, Allows};

use crate::{InSequence, Instance};
use fx_base::{Memory, Rect};
use fx_core::Ticket;
use fx_effect::{Catalogue, Context, Inputs, Safety, Values, sequence_args, window_args};
use fx_gate::Hold;
use fx_image::Part;
use std::alloc::Global;
use std::marker::Model;

/// A described plug-in. Contracts see its effect, the contexts in which it was described, and the nodes of
/// its live instances. It has to be unloaded.
pub struct Described<E: Catalogue> {
    effect: E,
    contexts: Vec<Context>,
    live: Vec<u32>,
}

impl<E: Catalogue> Model for Described<E> {
    ghost use Rattle.fx_life.specs.Plugin.{Plugin};

    ghost Value = { Plugin E };

    ghost view = { λ p. record { effect = p.effect; contexts = p.contexts.items; live = p.live.items } };
}

impl<E: Catalogue> Described<E> {
    // A plug-in that has just described itself.
    pub(crate) fn new(alloc: Global, effect: E) -> Described<E>
        ensures { result ≡ described effect }
    {
        Described {
            effect,
            contexts: Vec::new(alloc),
            live: Vec::new(alloc),
        }
    }

    // Whether it was described in the context.
    pub(crate) fn is_described_in(&self, context: Context) -> bool
        ensures { IsTrue result ↔ Contains self.now.contexts context }
    {
        self.contexts.contains(&context)
    }

    /// Has the plug-in describe its clips and parameters in a context
    /// (kOfxImageEffectActionDescribeInContext).
    pub fn describe_in_context(&mut self, alloc: Global, context: Context) -> Result<(), Memory>
        requires supported { Contains (E.meaning self.old.effect).shape.contexts context }
        requires once { Contains self.old.contexts context → ⊥ }
        ensures ok { OnOk result (self.new ≡ record self.old { contexts = self.old.contexts ++ context ∷ [] }) }
        ensures memory { OnErr result (self.new ≡ self.old) }
        ensures step { OnOk result ((phases : ℕ → Phase)
            → Allows (state_of self.old phases) (DescribeInContext context) (state_of self.new phases)) }
    {
        self.contexts.push(context)?;
        let mut clips = Vec::new(alloc);
        let mut params = Vec::new(alloc);
        match self
            .effect
            .describe_in_context(alloc, context, &mut clips, &mut params)
        {
            Ok(_) => Ok(()),
            Err(memory) => {
                self.contexts.pop();
                Err(memory)
            }
        }
    }

    /// Makes the instance of a node in a context (kOfxActionCreateInstance).
    pub fn create_instance(
        &mut self,
        alloc: Global,
        node: u32,
        context: Context,
    ) -> Result<Instance, Memory>
        requires described { Contains self.old.contexts context }
        requires once { Contains self.old.live node → ⊥ }
        ensures ok { OnOk result (self.new ≡ record self.old { live = self.old.live ++ node ∷ [] }) }
        ensures instance { let number = E.number_of self.old.effect in
            IfOk result (λ i. i ≡ record { plugin = number; node = node; context = context }) }
        ensures memory { OnErr result (self.new ≡ self.old) }
        ensures step { OnOk result ((phases : ℕ → Phase)
            → let idle = with_phase phases node Idle in
            Allows (state_of self.old phases) (Create node context) (state_of self.new idle)) }
    {
        self.live.push(node)?;
        match self.effect.create_instance(alloc) {
            Ok(_) => Ok(Instance::new(self.effect.number(), node, context)),
            Err(memory) => {
                self.live.pop();
                Err(memory)
            }
        }
    }

    /// Begins a sequence of renders of the instance, from a first frame to a last
    /// (kOfxImageEffectActionBeginSequenceRender). Where memory is wanting the instance comes back.
    pub fn begin(
        &self,
        alloc: Global,
        instance: Instance,
        first: u32,
        last: u32,
    ) -> Result<InSequence, (Instance, Memory)>
        requires plugin { instance.plugin ≡ E.number_of self.now.effect }
        requires live { Contains self.now.live instance.node }
        requires first { first ≤ 2 ^ 30 }
        requires last { last ≤ 2 ^ 30 }
        ensures ok { IfOk result (λ s. s ≡ begun first last instance) }
        ensures back { IfErr result (λ r. r.0 ≡ instance) }
        ensures step { OnOk result ((phases : ℕ → Phase) → phases instance.node ≡ Idle
            → let begun = with_phase phases instance.node (Sequence first last) in
            Allows (state_of self.now phases) (Begin instance.node first last) (state_of self.now begun)) }
    {
        let args = match sequence_args(alloc, i64::from(first), i64::from(last)) {
            Ok(args) => args,
            Err(memory) => return Err((instance, memory)),
        };
        match self.effect.begin_sequence_render(alloc, &args) {
            Ok(_) => Ok(InSequence::of(instance, first, last, args)),
            Err(memory) => Err((instance, memory)),
        }
    }

    /// Ends the sequence, of which the instance is left (kOfxImageEffectActionEndSequenceRender).
    pub fn end(&self, s: InSequence) -> Instance
        requires plugin { s.plugin ≡ E.number_of self.now.effect }
        requires live { Contains self.now.live s.node }
        ensures ok { result ≡ made s }
        ensures step { (phases : ℕ → Phase) → phases s.node ≡ Sequence s.first s.last
            → let ended = with_phase phases s.node Idle in
            Allows (state_of self.now phases) (End s.node s.first s.last) (state_of self.now ended) }
    {
        self.effect.end_sequence_render(s.args());
        s.into_instance()
    }

    /// Destroys the instance (kOfxActionDestroyInstance).
    pub fn destroy_instance(&mut self, instance: Instance)
        requires plugin { instance.plugin ≡ E.number_of self.old.effect }
        requires live { Contains self.old.live instance.node }
        ensures ok { self.new ≡ record self.old { live = without instance.node self.old.live } }
        ensures step { (phases : ℕ → Phase) → phases instance.node ≡ Idle
            → Allows (state_of self.old phases) (Destroy instance.node) (state_of self.new phases) }
    {
        self.effect.destroy_instance();
        let node = instance.into_node();
        self.live.retain(|n| *n != node);
    }

    /// Unloads the plug-in, of which no instance is left (kOfxActionUnload).
    pub fn unload(self) -> E
        requires none_left { self.live ≡ [] }
        ensures ok { result ≡ self.effect }
        ensures step { (phases : ℕ → Phase) → Allows (state_of self phases) Unload Unloaded }
    {
        let Described {
            effect,
            contexts: _,
            live: _,
        } = self;
        effect.unload();
        effect
    }

    /// The gate that renders of this node's instance hold: the plug-in's own where one render of all
    /// instances may run at a time, the instance's own where one of each may, and else none (OpenFX 1.4,
    /// kOfxImageEffectPluginRenderThreadSafety).
    pub fn gate_of(&self, node: u32) -> Option<u32>
        requires { node < 2 ^ 31 }
        ensures { result ≡ gate_of (E.meaning self.now.effect).shape.safety (E.number_of self.now.effect) node }
    {
        match self.effect.safety() {
            Safety::Unsafe => Some(self.effect.number()),
            Safety::InstanceSafe => Some(64 + node),
            Safety::FullySafe => None,
        }
    }

    /// Renders the window that is the part's rectangle, under a hold of the gate that `gate_of` tells, and
    /// stamps the ticket: each pixel there is what the effect makes of the input pixels that it reads, and no
    /// other pixel of the image changes. The values are lawful in the context in which the instance was
    /// created. Where memory is wanting the ticket isn't stamped, and the pixels of the window are any
    /// (kOfxImageEffectActionRender).
    pub fn render(
        &self,
        alloc: Global,
        s: &InSequence,
        values: &Values,
        window: Rect,
        inputs: &Inputs<'_>,
        hold: &mut Hold,
        ticket: &mut Ticket,
        out: &mut Part<'_>,
    ) -> Result<(), Memory>
        requires plugin { s.now.plugin ≡ E.number_of self.now.effect }
        requires live { Contains self.now.live s.now.node }
        requires gate { let e = self.now.effect in
            hold.old.gate ≡ gate_of (E.meaning e).shape.safety (E.number_of e) s.now.node }
        requires part { IsPart out.old }
        requires window { window ≡ out.old.rect }
        requires some_window { window ≢ none }
        requires frame { IsFrame values.now.frame }
        requires may { let image = out.old.image.now in let shape = (E.meaning self.now.effect).shape in
            MayRenderIn s.now.context shape values.now inputs.now image.depth image.components }
        ensures same_part { SamePart out.old out.new }
        ensures same_hold { hold.new.gate ≡ hold.old.gate }
        ensures ok { let image = out.old.image.now in let meaning = E.meaning self.now.effect in
            let pixels = rendered meaning values.now inputs.now image.depth image.components in
            OnOk result (IsWritten out.old out.new pixels) }
        ensures stamped { OnOk result (ticket.new ≡ record ticket.old { stamped = true }) }
        ensures unstamped { OnErr result (ticket.new ≡ ticket.old) }
        ensures step { OnOk result ((phases : ℕ → Phase) → phases s.now.node ≡ Sequence s.now.first s.now.last
            → Allows (state_of self.now phases) (Render s.now.node) (state_of self.now phases)) }
    {
        let args = window_args(alloc, values.frame, window)?;
        self.effect
            .render(alloc, values, &args, inputs, hold, ticket, out)
    }
}
