//! A graph at a take, and the frames of its sources that were fetched.
ghost use Rattle.std.specs.Prelude.{◌≡◌, ◌<◌, ◌≤◌, ◌++◌, length, filter, IfErr, IfOk, OnErr, OnOk};
ghost use Rattle.fx_text.specs.declared.raw.TheConstants.{MOST_TAKES};
ghost use Rattle.fx_seq.specs.Lists.{IsNew, is_used_frame};
ghost use Rattle.fx_seq.specs.Held.{SameStore, fetched, got_frames, held_frames};
ghost use Rattle.fx_scene.specs.Scenes.{graph_shown, node_values};
ghost use Rattle.fx_scene.specs.Scripts.{HasGrownTo, IsPlayed, era_of, taken, untaken};
ghost use Rattle.fx_scene.specs.Takes.{AreEdits, edits_after, edits_of};

use crate::editing::edit_all;
use crate::eras::{era_in, raised, touched_by};
use crate::key::Key;
use crate::take::{Edit, Takes};
use crate::values::values_of;
use fx_base::{Memory, Rect};
use fx_core::Permit;
use fx_effect::{Catalogue, Values};
use fx_graph::Graph;
use fx_seq::{Kept, SourceFrame, Store, Use};
use std::alloc::Global;
use std::marker::Model;
use std::sync::Arc;

/// A graph with the frames of its sources that were fetched, under a number of its own. It is at a take of those that it
/// remembers: its graph is the graph as written with the edits of the takes up to that one. Contracts see all of it.
#[derive(Drop)]
pub struct Scene<E: Catalogue> {
    graph: Graph<E>,
    store: Store,
    number: u64,
    written: Kept<Graph<E>>,
    takes: Option<Kept<Takes>>,
    take: u32,
    // The era of each node, none before the first take.
    eras: Vec<u32>,
}

impl<E: Catalogue> Model for Scene<E> {
    ghost use Rattle.std.specs.Coded.{codes};
    ghost use Rattle.fx_seq.specs.contracts.store.Store as held;
    ghost use Rattle.fx_scene.specs.contracts.take.Edit as edit;
    ghost use Rattle.fx_scene.specs.Scenes.{Shot, graph_shown};
    ghost use Rattle.fx_scene.specs.Scripts.{AreEras, IsPlayed, edits_kept};

    ghost Value = { Shot E };

    ghost coded = { Prim.hlevel (codes, held.the_row.coded, edit.the_row.coded) };

    ghost view = { λ s. record {
      graph = graph_shown s.graph;
      store = s.store;
      number = s.number;
      script = record { written = graph_shown s.written.value; takes = edits_kept s.takes; take = s.take };
    } };

    ghost invariant = { λ s.
        IsPlayed E.meaning (graph_shown s.graph)
        (record { written = graph_shown s.written.value; takes = edits_kept s.takes; take = s.take })
        × AreEras (record { written = graph_shown s.written.value; takes = edits_kept s.takes; take = s.take }) s.eras.items };
}

impl<E: Catalogue> Scene<E> {
    /// The scene of a graph and the frames that were fetched, at take 0 of none, and the permit of its number, which is
    /// the right to one core of it.
    pub fn new(graph: Graph<E>, store: Store, number: u64) -> (Scene<E>, Permit)
        ensures scene { let shown = graph_shown graph in
            result.0 ≡ record { graph = shown; store = store; number = number; script = untaken shown } }
        ensures permit { result.1.scene ≡ number }
    {
        let written = Kept::of(&graph);
        let eras = Vec::new(*graph.nodes.allocator());
        let scene = Scene {
            graph,
            store,
            number,
            written,
            takes: None,
            take: 0,
            eras,
        };
        (scene, Permit::new(number))
    }

    /// Remembers takes of its graph, at most 64 of them. It takes no memory.
    pub fn remember(&mut self, takes: &Takes)
        requires first { self.old.script.take ≡ 0 }
        requires few { length takes.now.list.items ≤ MOST_TAKES }
        requires edits { AreEdits self.old.script.written.nodes (edits_of takes.now.list.items) }
        ensures { let script = record self.old.script { takes = edits_of takes.now.list.items } in
            self.new ≡ record self.old { script = script } }
    {
        self.takes = Some(Kept::of(takes));
    }

    /// Goes to the next take that is remembered, whose edits these are. At `Memory` all is as before, and the edits come
    /// back.
    pub fn next_take(&mut self, edits: Vec<Edit>) -> Result<(), (Vec<Edit>, Memory)>
        requires more { self.old.script.take < length self.old.script.takes }
        requires next { edits.items ≡ edits_after self.old.script.takes self.old.script.take }
        ensures ok { OnOk result (self.new ≡ taken self.old) }
        ensures back { IfErr result (λ e. e.0.items ≡ edits.items) }
        ensures unchanged { OnErr result (self.new ≡ self.old) }
    {
        let alloc = *self.graph.nodes.allocator();
        let Ok(touched) = touched_by(alloc, self.graph.nodes.as_slice(), edits.as_slice()) else {
            return Err((edits, Memory));
        };
        let Ok(eras) = raised(alloc, self.eras.as_slice(), touched.as_slice()) else {
            return Err((edits, Memory));
        };
        edit_all(&mut self.graph, edits);
        self.take += 1;
        self.eras = eras;
        Ok(())
    }

    /// That the graph is that of its take. It computes nothing.
    pub fn is_played(&self)
        ensures { IsPlayed E.meaning self.now.graph self.now.script }
    {
        let _graph = &self.graph;
    }

    /// The graph.
    pub fn graph(&self) -> &Graph<E>
        ensures shown { graph_shown result.now ≡ self.now.graph }
        ensures count { length result.now.nodes.items ≡ length self.now.graph.nodes }
    {
        &self.graph
    }

    /// The frames that were fetched.
    pub fn store(&self) -> &Store
        ensures { result.now ≡ self.now.store }
    {
        &self.store
    }

    /// The number of the scene.
    pub fn number(&self) -> u64
        ensures { result ≡ self.now.number }
    {
        self.number
    }

    /// Lets the frames go of which the last moment that wants them is before this one, and holds these. No frame comes
    /// that was ever held. At `Memory` all is as before, and the frames come back.
    pub fn advance(
        &mut self,
        uses: &[Use],
        moment: u64,
        frames: Vec<SourceFrame>,
    ) -> Result<(), (Vec<SourceFrame>, Memory)>
        requires new { IsNew (fetched self.old.store) frames.items }
        ensures graph { self.new.graph ≡ self.old.graph }
        ensures number { self.new.number ≡ self.old.number }
        ensures script { self.new.script ≡ self.old.script }
        ensures frames { let still = filter (is_used_frame uses.now moment) (held_frames self.old.store) in
            OnOk result (held_frames self.new.store ≡ still ++ frames.items) }
        ensures got { OnOk result (got_frames self.new.store ≡ got_frames self.old.store ++ frames.items) }
        ensures grown { HasGrownTo self.old self.new }
        ensures back { IfErr result (λ e. e.0.items ≡ frames.items) }
        ensures unchanged { OnErr result (SameStore self.old.store self.new.store) }
    {
        self.store.admit(uses, moment, frames)
    }

    /// What the node is asked with at a frame: the frame, its parameters' numbers there in the order in which
    /// its effect describes them, which of its clips are connected, and the project's extent. A source has no
    /// parameters and no clips.
    pub fn values(&self, alloc: Global, node: u32, frame: i64) -> Result<Values, Memory>
        requires { node < length self.now.graph.nodes }
        ensures { IfOk result (λ v. v ≡ node_values self.now.graph node frame) }
    {
        let work = &self.graph.nodes[node as usize].work;
        values_of(alloc, self.graph.project, work, frame)
    }

    /// What a region of the node at a frame is kept under.
    pub fn key(
        &self,
        alloc: Global,
        node: u32,
        frame: i64,
        region: Rect,
    ) -> Result<Arc<Key>, Memory>
        requires { node < length self.now.graph.nodes }
        ensures { IfOk result (λ key. key.value ≡ record {
          node = node;
          frame = frame;
          region = region;
          values = node_values self.now.graph node frame;
          era = era_of self.now.script node;
        }) }
    {
        let values = self.values(alloc, node, frame)?;
        let key = Key {
            node,
            frame,
            region,
            values,
            era: era_in(self.eras.as_slice(), node as usize),
        };
        Ok(Arc::new(alloc, key)?)
    }
}
