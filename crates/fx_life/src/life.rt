//! The plug-ins of a graph, each with an instance for each node that uses its effect.
ghost use Rattle.std.specs.Prelude.{◌≡◌, ◌≢◌, ◌<◌, ◌≤◌, ◌+◌, ◌^◌, ℕ, [], length, map, true, Some, slice_get};
ghost use Rattle.std.specs.Prelude.{All, AllPairs, IfOk, OnOk, OnErr};
ghost use Rattle.std.specs.List.{Contains};
ghost use Rattle.std.specs.Vec.{vec_capacity};
ghost use Rattle.fx_base.specs.Bounds.{none};
ghost use Rattle.fx_base.specs.Rect.{IsFrame};
ghost use Rattle.fx_image.specs.Part.{IsPart, SamePart, IsWritten};
ghost use Rattle.fx_effect.specs.Meaning.{rendered};
ghost use Rattle.fx_life.specs.declared.uses.Post.{Post as AnyPost};
ghost use Rattle.fx_life.specs.Running.{Run};
ghost use Rattle.fx_life.specs.Posts.{Used, IsUsedAt, Plays, IsGateOf, IsLifeOf, Serves, MayPlay, uses_at, ArePlaced, handed, IsStarted};

use crate::Running;
use crate::posts::posted;
use crate::uses::{Post, Use};
use fx_base::Memory;
use fx_core::Ticket;
use fx_effect::{Catalogue, Inputs, Values};
use fx_gate::Hold;
use fx_graph::Graph;
use fx_image::Part;
use std::alloc::Global;
use std::marker::Model;

/// The plug-ins of a graph, of which each node that uses an effect has an instance in its sequence. It has
/// to be finished.
pub struct Life<E: Catalogue> {
    // the effect that was handed in last is the first
    running: Vec<Running<E>>,
    // the place of a plug-in, by its effect's number
    places: Vec<usize>,
    posts: Vec<Option<Post>>,
    // the room for the effects, so that the end takes no memory
    effects: Vec<E>,
}

impl<E: Catalogue> Model for Life<E> {
    ghost use Rattle.std.specs.Prelude.{◌≡◌, ◌≤◌, [], length};
    ghost use Rattle.std.specs.Vec.{vec_capacity};
    ghost use Rattle.fx_life.specs.Posts.{Lives, ArePlaced, handed};

    ghost Value = { Lives E };

    ghost view = { λ l. record {
      runs = l.running.items;
      posts = l.posts.items;
      effects = handed [] l.running.items;
    } };

    // each plug-in is found by its number, and each effect has room
    ghost invariant = { λ l. ArePlaced E.number_of l.running.items l.places.items
        × (l.effects.items ≡ []) × (length l.running.items ≤ vec_capacity l.effects) };
}

impl<E: Catalogue + Drop> Life<E> {
    /// Loads and describes each effect, the last one first, describes it in each context in which nodes of
    /// the graph use it, creates an instance for each such node, and begins their sequences over the
    /// frames. An effect that no node uses is loaded and described. At want of memory all that was begun is
    /// ended, destroyed and unloaded.
    pub fn start(
        alloc: Global,
        graph: &Graph<E>,
        effects: Vec<E>,
        first: u32,
        last: u32,
    ) -> Result<Life<E>, Memory>
        requires numbers { AllPairs (λ a b. E.number_of a ≢ E.number_of b) effects.items }
        requires among { (k : ℕ) (used : Used E) → IsUsedAt graph.now.nodes.items k used
            → Contains (map E.number_of effects.items) (E.number_of used.effect) }
        requires frames { (first ≤ 2 ^ 30) × (last ≤ 2 ^ 30) }
        ensures life { IfOk result (IsLifeOf E.number_of graph.now.nodes.items first last) }
        ensures only { IfOk result (λ life. All (Serves E.number_of graph.now.nodes.items) life.runs) }
        ensures effects { IfOk result (λ life. life.effects ≡ effects.items) }
    {
        let posting = posted(alloc, &graph.nodes)?;
        let mut places = vec![in alloc; 0usize; 64]?;
        let mut effects = effects;
        let mut running = Vec::new(alloc);
        match start_each(
            alloc,
            &mut effects,
            &mut running,
            &mut places,
            &posting.uses,
            first,
            last,
        ) {
            Ok(()) => Ok(Life {
                running,
                places,
                posts: posting.posts,
                effects,
            }),
            Err(memory) => {
                finish_each(running, effects);
                Err(memory)
            }
        }
    }

    /// Renders the part's rectangle by the instance of a node that uses an effect, as `Described::render`
    /// does: under a hold of the gate that `gate_of` tells.
    pub fn render(
        &self,
        alloc: Global,
        node: u32,
        values: &Values,
        inputs: &Inputs<'_>,
        hold: &mut Hold,
        ticket: &mut Ticket,
        out: &mut Part<'_>,
    ) -> Result<(), Memory>
        requires part { IsPart out.old }
        requires some_window { out.old.rect ≢ none }
        requires frame { IsFrame values.now.frame }
        requires gate { IsGateOf E.meaning E.number_of self.now node hold.old.gate }
        requires may { let image = out.old.image.now in
            MayPlay E.number_of E.meaning self.now node values.now inputs.now image.depth image.components }
        ensures same_part { SamePart out.old out.new }
        ensures same_hold { hold.new.gate ≡ hold.old.gate }
        ensures ok { (effect : E) → Plays E.number_of self.now node effect →
            let image = out.old.image.now in
            let pixels = rendered (E.meaning effect) values.now inputs.now image.depth image.components in
            OnOk result (IsWritten out.old out.new pixels) }
        ensures stamped { OnOk result (ticket.new ≡ record ticket.old { stamped = true }) }
        ensures unstamped { OnErr result (ticket.new ≡ ticket.old) }
    {
        let post = self.post(node);
        self.plugin(post.plugin)
            .render(alloc, post.place, values, inputs, hold, ticket, out)
    }

    /// The gate that renders of the node's instance hold, as `Described::gate_of` tells it.
    pub fn gate_of(&self, node: u32) -> Option<u32>
        requires plays { (effect : E) × Plays E.number_of self.now node effect }
        requires small { node < 2 ^ 31 }
        ensures { IsGateOf E.meaning E.number_of self.now node result }
    {
        self.plugin(self.post(node).plugin).gate_of(node)
    }

    /// Ends each sequence, destroys each instance, and unloads each effect. The effects come back in the
    /// order in which they were handed in.
    pub fn finish(self) -> Vec<E>
        ensures { result.items ≡ self.effects }
    {
        let Life {
            running,
            places: _,
            posts: _,
            effects,
        } = self;
        finish_each(running, effects)
    }

    // Where the instance of the node is.
    fn post(&self, node: u32) -> Post
        requires { (post : AnyPost) × (slice_get self.now.posts node ≡ Some (Some post)) }
        ensures { slice_get self.now.posts node ≡ Some (Some result) }
    {
        match self.posts[node as usize] {
            Some(post) => post,
            None => unreachable!(),
        }
    }

    // The plug-in of the effect of this number.
    fn plugin(&self, number: u32) -> &Running<E>
        requires { (run : Run E) × Contains self.now.runs run × (E.number_of run.effect ≡ number) }
        ensures { (run : Run E) → Contains self.now.runs run → E.number_of run.effect ≡ number → result.now ≡ run }
    {
        &self.running[self.places[number as usize]]
    }
}

// Starts each effect for its uses, the last one first.
fn start_each<E: Catalogue + Drop>(
    alloc: Global,
    effects: &mut Vec<E>,
    running: &mut Vec<Running<E>>,
    places: &mut Vec<usize>,
    uses: &[Vec<Use>],
    first: u32,
    last: u32,
) -> Result<(), Memory>
    requires supported { (e : E) →
        All (λ u. Contains (E.meaning e).shape.contexts u.context) (uses_at uses.now (E.number_of e)) }
    requires apart { (n : ℕ) → AllPairs (λ a b. a.node ≢ b.node) (uses_at uses.now n) }
    requires numbers { AllPairs (λ a b. E.number_of a ≢ E.number_of b) effects.old.items }
    requires frames { (first ≤ 2 ^ 30) × (last ≤ 2 ^ 30) }
    requires lists { (length uses.now ≡ 64) × (length places.old.items ≡ 64) }
    requires none_yet { running.old.items ≡ [] }
    ensures room { length running.new.items + length effects.new.items ≤ vec_capacity effects.new }
    ensures placed { OnOk result (ArePlaced E.number_of running.new.items places.new.items) }
    ensures started { OnOk result (All (IsStarted E.number_of uses.now first last) running.new.items) }
    ensures effects { OnOk result (handed [] running.new.items ≡ effects.old.items) }
    ensures all { OnOk result (effects.new.items ≡ []) }
{
    running.reserve(effects.len())?;
    while let Some(effect) = effects.pop() {
        let number = effect.number() as usize;
        places[number] = running.len();
        let run = Running::start(alloc, effect, &uses[number], first, last)?;
        running.push_reserved(run);
    }
    Ok(())
}

// Finishes each plug-in, and puts the effects back.
fn finish_each<E: Catalogue + Drop>(running: Vec<Running<E>>, effects: Vec<E>) -> Vec<E>
    requires { length running.items + length effects.items ≤ vec_capacity effects }
    ensures { result.items ≡ handed effects.items running.items }
{
    let mut running = running;
    let mut effects = effects;
    while let Some(run) = running.pop() {
        effects.push_reserved(run.finish());
    }
    running.destroy_empty();
    effects
}
