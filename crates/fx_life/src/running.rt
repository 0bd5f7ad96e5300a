//! The instances of one effect in a run: created together, each in its sequence of renders, and destroyed
//! together (OpenFX 1.4, "The Actions").
ghost use Rattle.std.specs.Prelude.{◌≡◌, ◌≢◌, ◌<◌, ◌≤◌, ◌+◌, ◌^◌, [], length, map, reverse, true, Some, slice_get};
ghost use Rattle.std.specs.Prelude.{All, AllPairs, IfOk, OnOk, OnErr};
ghost use Rattle.std.specs.List.{Contains};
ghost use Rattle.std.specs.Vec.{vec_capacity};
ghost use Rattle.fx_base.specs.Bounds.{none};
ghost use Rattle.fx_base.specs.Rect.{IsFrame};
ghost use Rattle.fx_image.specs.Part.{IsPart, SamePart, IsWritten};
ghost use Rattle.fx_effect.specs.Meaning.{rendered};
ghost use Rattle.fx_life.specs.Plugin.{Rendering, MayRenderIn, described, gate_of};
ghost use Rattle.fx_life.specs.Running.{members, planned, made_for, rendering, AreLive, AreUsed, IsWith};

use crate::{Described, InSequence, Instance, Loaded, Use};
use fx_base::Memory;
use fx_core::Ticket;
use fx_effect::{Catalogue, Context, Inputs, Values};
use fx_gate::Hold;
use fx_image::Part;
use std::alloc::Global;
use std::marker::Model;

/// A plug-in with an instance for each of some nodes, each in its sequence. Contracts see its effect, the
/// contexts in which it was described, and the sequences in the order in which the instances were created.
/// It has to be finished.
pub struct Running<E: Catalogue> {
    plugin: Described<E>,
    // the room for the instances, so that the end takes no memory
    idle: Vec<Instance>,
    // the sequence of the node that was created last is the first
    in_sequence: Vec<InSequence>,
}

impl<E: Catalogue> Model for Running<E> {
    ghost use Rattle.std.specs.Prelude.{◌≡◌, ◌≤◌, [], length, reverse};
    ghost use Rattle.std.specs.Vec.{vec_capacity};
    ghost use Rattle.fx_life.specs.Running.{Run, members, AreLive};

    ghost Value = { Run E };

    ghost view = { λ r. record {
      effect = r.plugin.effect;
      contexts = r.plugin.contexts;
      sequences = reverse r.in_sequence.items;
    } };

    // no instance is idle, and each has room to be so
    ghost invariant = { λ r. (r.idle.items ≡ []) × (length r.in_sequence.items ≤ vec_capacity r.idle)
        × AreLive (E.number_of r.plugin.effect) r.plugin.live (members [] r.in_sequence.items) };
}

impl<E: Catalogue + Drop> Running<E> {
    /// Loads and describes the effect, describes it in each context that is used, creates an instance for
    /// each use, and then begins their sequences over the frames. At want of memory all that was begun is
    /// ended, destroyed and unloaded.
    pub fn start(
        alloc: Global,
        effect: E,
        uses: &[Use],
        first: u32,
        last: u32,
    ) -> Result<Running<E>, Memory>
        requires supported { All (λ u. Contains (E.meaning effect).shape.contexts u.context) uses.now }
        requires apart { AllPairs (λ a b. a.node ≢ b.node) uses.now }
        requires frames { (first ≤ 2 ^ 30) × (last ≤ 2 ^ 30) }
        ensures effect { IfOk result (λ r. r.effect ≡ effect) }
        ensures contexts { IfOk result (λ r. AreUsed r.contexts uses.now) }
        ensures sequences { let number = E.number_of effect in
            IfOk result (λ r. r.sequences ≡ map (rendering number first last) uses.now) }
    {
        let mut plugin = described(alloc, effect)?;
        let mut idle = Vec::new(alloc);
        let mut in_sequence = Vec::new(alloc);
        match begin(
            alloc,
            &mut plugin,
            &mut idle,
            &mut in_sequence,
            uses,
            first,
            last,
        ) {
            Ok(()) => Ok(Running {
                plugin,
                idle,
                in_sequence,
            }),
            Err(memory) => {
                finish(plugin, idle, in_sequence);
                Err(memory)
            }
        }
    }

    /// Renders the part's rectangle by the instance of the node at a place among those that were created, as
    /// `Described::render` does.
    pub fn render(
        &self,
        alloc: Global,
        place: u32,
        values: &Values,
        inputs: &Inputs<'_>,
        hold: &mut Hold,
        ticket: &mut Ticket,
        out: &mut Part<'_>,
    ) -> Result<(), Memory>
        requires place { place < length self.now.sequences }
        requires gate { let e = self.now.effect in (s : Rendering) → slice_get self.now.sequences place ≡ Some s
            → hold.old.gate ≡ gate_of (E.meaning e).shape.safety (E.number_of e) s.node }
        requires part { IsPart out.old }
        requires some_window { out.old.rect ≢ none }
        requires frame { IsFrame values.now.frame }
        requires may { let image = out.old.image.now in let shape = (E.meaning self.now.effect).shape in
            (s : Rendering) → slice_get self.now.sequences place ≡ Some s
            → MayRenderIn s.context shape values.now inputs.now image.depth image.components }
        ensures same_part { SamePart out.old out.new }
        ensures same_hold { hold.new.gate ≡ hold.old.gate }
        ensures ok { let image = out.old.image.now in let meaning = E.meaning self.now.effect in
            let pixels = rendered meaning values.now inputs.now image.depth image.components in
            OnOk result (IsWritten out.old out.new pixels) }
        ensures stamped { OnOk result (ticket.new ≡ record ticket.old { stamped = true }) }
        ensures unstamped { OnErr result (ticket.new ≡ ticket.old) }
    {
        let window = out.rect();
        let sequence = &self.in_sequence[self.in_sequence.len() - 1 - place as usize];
        self.plugin
            .render(alloc, sequence, values, window, inputs, hold, ticket, out)
    }

    /// The gate that renders of the node's instance hold, as `Described::gate_of` tells it.
    pub fn gate_of(&self, node: u32) -> Option<u32>
        requires { node < 2 ^ 31 }
        ensures { result ≡ gate_of (E.meaning self.now.effect).shape.safety (E.number_of self.now.effect) node }
    {
        self.plugin.gate_of(node)
    }

    /// Ends each sequence, then destroys each instance, and unloads the effect.
    pub fn finish(self) -> E
        ensures { result ≡ self.effect }
    {
        let Running {
            plugin,
            idle,
            in_sequence,
        } = self;
        finish(plugin, idle, in_sequence)
    }
}

// Describes the plug-in in the contexts, creates the instances, and begins their sequences.
fn begin<E: Catalogue>(
    alloc: Global,
    plugin: &mut Described<E>,
    idle: &mut Vec<Instance>,
    in_sequence: &mut Vec<InSequence>,
    uses: &[Use],
    first: u32,
    last: u32,
) -> Result<(), Memory>
    requires supported { All (λ u. Contains (E.meaning plugin.old.effect).shape.contexts u.context) uses.now }
    requires fresh { plugin.old ≡ described plugin.old.effect }
    requires none_yet { (idle.old.items ≡ []) × (in_sequence.old.items ≡ []) }
    requires apart { AllPairs (λ a b. a.node ≢ b.node) uses.now }
    requires frames { (first ≤ 2 ^ 30) × (last ≤ 2 ^ 30) }
    ensures effect { plugin.new.effect ≡ plugin.old.effect }
    ensures live { let all = members idle.new.items in_sequence.new.items in
        AreLive (E.number_of plugin.new.effect) plugin.new.live all }
    ensures room { length idle.new.items + length in_sequence.new.items ≤ vec_capacity idle.new }
    ensures contexts { OnOk result (AreUsed plugin.new.contexts uses.now) }
    ensures sequences { let number = E.number_of plugin.old.effect in
        OnOk result (reverse in_sequence.new.items ≡ map (rendering number first last) uses.now) }
    ensures begun { OnOk result (idle.new.items ≡ []) }
{
    describe_each(alloc, plugin, uses)?;
    create_each(alloc, plugin, idle, uses)?;
    in_sequence.reserve(idle.len())?;
    begin_each(alloc, plugin, idle, in_sequence, first, last)
}

// Describes the plug-in in each context that is used, once.
fn describe_each<E: Catalogue>(
    alloc: Global,
    plugin: &mut Described<E>,
    uses: &[Use],
) -> Result<(), Memory>
    requires supported { All (λ u. Contains (E.meaning plugin.old.effect).shape.contexts u.context) uses.now }
    requires fresh { plugin.old.contexts ≡ [] }
    ensures effect { plugin.new.effect ≡ plugin.old.effect }
    ensures live { plugin.new.live ≡ plugin.old.live }
    ensures contexts { OnOk result (AreUsed plugin.new.contexts uses.now) }
{
    for one in uses {
        describe_once(alloc, plugin, one.context)?;
    }
    Ok(())
}

// Describes the plug-in in the context, where it wasn't yet.
fn describe_once<E: Catalogue>(
    alloc: Global,
    plugin: &mut Described<E>,
    context: Context,
) -> Result<(), Memory>
    requires { Contains (E.meaning plugin.old.effect).shape.contexts context }
    ensures effect { plugin.new.effect ≡ plugin.old.effect }
    ensures live { plugin.new.live ≡ plugin.old.live }
    ensures contexts { OnOk result (IsWith plugin.old.contexts context plugin.new.contexts) }
{
    if plugin.is_described_in(context) {
        Ok(())
    } else {
        plugin.describe_in_context(alloc, context)
    }
}

// Ends the sequences, destroys the instances, and unloads the plug-in.
fn finish<E: Catalogue>(
    plugin: Described<E>,
    idle: Vec<Instance>,
    in_sequence: Vec<InSequence>,
) -> E
    requires live { AreLive (E.number_of plugin.effect) plugin.live (members idle.items in_sequence.items) }
    requires room { length idle.items + length in_sequence.items ≤ vec_capacity idle }
    ensures { result ≡ plugin.effect }
{
    let mut plugin = plugin;
    let mut idle = idle;
    let mut in_sequence = in_sequence;
    end_each(&plugin, &mut idle, &mut in_sequence);
    destroy_each(&mut plugin, &mut idle);
    in_sequence.destroy_empty();
    idle.destroy_empty();
    plugin.unload()
}

// The effect, loaded and described. At want of memory it is unloaded.
fn described<E: Catalogue + Drop>(alloc: Global, effect: E) -> Result<Described<E>, Memory>
    ensures { IfOk result (λ plugin. plugin ≡ described effect) }
{
    let loaded = match Loaded::load(alloc, effect) {
        Ok(loaded) => loaded,
        Err((_, memory)) => return Err(memory),
    };
    match loaded.describe(alloc) {
        Ok(plugin) => Ok(plugin),
        Err((loaded, memory)) => {
            loaded.unload();
            Err(memory)
        }
    }
}

// Creates the instance of each use.
fn create_each<E: Catalogue>(
    alloc: Global,
    plugin: &mut Described<E>,
    idle: &mut Vec<Instance>,
    uses: &[Use],
) -> Result<(), Memory>
    requires described { All (λ u. Contains plugin.old.contexts u.context) uses.now }
    requires none_yet { (plugin.old.live ≡ []) × (idle.old.items ≡ []) }
    requires apart { AllPairs (λ a b. a.node ≢ b.node) uses.now }
    ensures effect { plugin.new.effect ≡ plugin.old.effect }
    ensures contexts { plugin.new.contexts ≡ plugin.old.contexts }
    ensures live { AreLive (E.number_of plugin.new.effect) plugin.new.live idle.new.items }
    ensures room { length idle.new.items ≤ vec_capacity idle.new }
    ensures made { OnOk result (idle.new.items ≡ map (made_for (E.number_of plugin.old.effect)) uses.now) }
{
    for one in uses {
        idle.reserve(1)?;
        idle.push_reserved(plugin.create_instance(alloc, one.node, one.context)?);
    }
    Ok(())
}

// Begins the sequence of each idle instance, the last one first. At want of memory the others stay idle.
fn begin_each<E: Catalogue>(
    alloc: Global,
    plugin: &Described<E>,
    idle: &mut Vec<Instance>,
    in_sequence: &mut Vec<InSequence>,
    first: u32,
    last: u32,
) -> Result<(), Memory>
    requires live { let all = members idle.old.items in_sequence.old.items in
        AreLive (E.number_of plugin.now.effect) plugin.now.live all }
    requires room { length idle.old.items + length in_sequence.old.items ≤ vec_capacity idle.old }
    requires sequence_room { length idle.old.items + length in_sequence.old.items ≤ vec_capacity in_sequence.old }
    requires frames { (first ≤ 2 ^ 30) × (last ≤ 2 ^ 30) }
    ensures same { members idle.new.items in_sequence.new.items ≡ members idle.old.items in_sequence.old.items }
    ensures planned { let all = planned first last in
        all idle.new.items in_sequence.new.items ≡ all idle.old.items in_sequence.old.items }
    ensures room { length idle.new.items + length in_sequence.new.items ≤ vec_capacity idle.new }
    ensures all { OnOk result (idle.new.items ≡ []) }
{
    while let Some(instance) = idle.pop() {
        match plugin.begin(alloc, instance, first, last) {
            Ok(sequence) => in_sequence.push_reserved(sequence),
            Err((instance, memory)) => {
                idle.push_reserved(instance);
                return Err(memory);
            }
        }
    }
    Ok(())
}

// Ends each sequence, the one that began last first.
fn end_each<E: Catalogue>(
    plugin: &Described<E>,
    idle: &mut Vec<Instance>,
    in_sequence: &mut Vec<InSequence>,
)
    requires live { let all = members idle.old.items in_sequence.old.items in
        AreLive (E.number_of plugin.now.effect) plugin.now.live all }
    requires room { length idle.old.items + length in_sequence.old.items ≤ vec_capacity idle.old }
    ensures same { idle.new.items ≡ members idle.old.items in_sequence.old.items }
    ensures all { in_sequence.new.items ≡ [] }
{
    while let Some(sequence) = in_sequence.pop() {
        idle.push_reserved(plugin.end(sequence));
    }
}

// Destroys each instance.
fn destroy_each<E: Catalogue>(plugin: &mut Described<E>, idle: &mut Vec<Instance>)
    requires live { AreLive (E.number_of plugin.old.effect) plugin.old.live idle.old.items }
    ensures effect { plugin.new.effect ≡ plugin.old.effect }
    ensures all { (plugin.new.live ≡ []) × (idle.new.items ≡ []) }
{
    while let Some(instance) = idle.pop() {
        plugin.destroy_instance(instance);
    }
}
