//! The plans of the frames of a graph: the source frames of each are read, and what it demands is listed, before those
//! of the next are read.
ghost use Rattle.std.specs.Prelude.{◌≡◌, ◌≤◌, ◌+◌, [], pos, Some, Ok, length, map, IfErr, IfOk, OnOk};
ghost use Rattle.fx_base.specs.declared.limits.TheConstants.{LAST_FRAME};
ghost use Rattle.fx_seq.specs.Filling.{IsQuiet};
ghost use Rattle.fx_scene.specs.Scenes.{graph_shown};
ghost use Rattle.fx_words.specs.declared.order.Mode.TheVariants as mode;
ghost use Rattle.fx_modes.specs.Ended.{calls};
ghost use Rattle.fx_modes.specs.Graphs.{file_shown, graph_under};
ghost use Rattle.fx_modes.specs.Planning.{PlanStops};
ghost use Rattle.fx_modes.specs.Takes.{AreTakesOf};
ghost use Rattle.fx_modes.specs.Plans.{ArePlansOf, line_of};

use crate::graph::{GraphFile, ordered};
use crate::holding::hold;
use crate::order::{first_of, last_of};
use crate::sources::{MOST_BYTES, plain_uses, source_fault};
use fx_base::limits::MOST_SIDE;
use fx_base::{Grid, Memory};
use fx_outside::Library;
use fx_plan::{Entry, plan};
use fx_region::Regions;
use fx_scene::Scene;
use fx_seq::{Kept, SeqFault, SourceFrame, Store, Use, read_due};
use fx_shipped::Shipped;
use fx_words::{Order, PlanFrame, PlanFrames, PlanLine, PlanLines, RunFault};
use std::alloc::Global;

/// What stands between two frames of a plan: the scene with the source frames that are held, and the plans of the
/// frames before.
#[derive(Drop)]
pub(crate) struct Planning {
    pub scene: Scene<Shipped>,
    /// The frames are planned at 1/scale of their size.
    pub scale: u32,
    /// The source frames that were handed in, moment by moment, for contracts.
    pub seen: Vec<Kept<Vec<SourceFrame>>>,
    pub frames: Vec<PlanFrame>,
}

/// What each of the frames that are ordered of a graph demands, as the graph is written, at the size that is ordered. The
/// source frames are read as for a render, each just before the first frame that wants it, and dropped after the last.
pub(crate) fn plans_of<L: Library>(
    alloc: Global,
    order: &Order,
    file: GraphFile,
    library: &mut L,
) -> Result<PlanFrames, RunFault>
    requires in_mode { order.now.mode ≡ mode.Plan }
    requires takes { AreTakesOf (graph_shown file.graph).nodes file.takes.list.items }
    ensures done { L.tells → graph_under (L.file library.old) order.now.graph ≡ Some (Ok (file_shown file))
        → IfOk result (λ frames. ArePlansOf (Some order.now) (L.file library.old) frames) }
    ensures quiet { let last = L.last library.new in
        OnOk result (IsQuiet (L.faults library.old) (L.faults library.new) (L.last library.old) last) }
    ensures stops { (L.tells → graph_under (L.file library.old) order.now.graph ≡ Some (Ok (file_shown file)))
        → IfErr result (PlanStops L.tells (Some order.now) (L.file library.old)
        (calls (L.faults library.old) (L.faults library.new) (L.last library.old) (L.last library.new))) }
{
    let GraphFile { graph, .. } = ordered(alloc, order, file);
    let first = first_of(&graph, order);
    let last = last_of(&graph, order);
    let uses = plain_uses(alloc, &graph, first, last)?;
    let (scene, _) = Scene::new(graph, Store::empty(alloc), 0);
    let mut planning = Planning {
        scene,
        scale: order.scale,
        seen: Vec::new(alloc),
        frames: Vec::new(alloc),
    };
    let grid = Grid { side: order.tile };
    match planning.add_each(alloc, &uses, first, last, grid, library) {
        Ok(()) => Ok(planning.into_frames()),
        Err(fault) => Err(source_fault(alloc, planning.scene.graph(), fault)),
    }
}

impl Planning {
    ghost use Rattle.std.specs.Prelude.{◌++◌};
    ghost use Rattle.fx_outside.specs.Outside.{Files, SameFiles};
    ghost use Rattle.fx_proxy.specs.Reduced.{IsScale};
    ghost use Rattle.fx_seq.specs.Held.{held_frames};
    ghost use Rattle.fx_seq.specs.Lists.{AreFramesOf, size_of_all, used_size};
    ghost use Rattle.fx_seq.specs.Moments.{AreOnce, due_at};
    ghost use Rattle.fx_scene.specs.Depends as scene;
    ghost use Rattle.fx_scene.specs.Right.{HasWanted};
    ghost use Rattle.fx_scene.specs.Scenes.{Images, images_in};
    ghost use Rattle.fx_shipped.specs.Shipped.{meaning_of};
    ghost use Rattle.fx_modes.specs.Graphs.{frame_count};
    ghost use Rattle.fx_modes.specs.Making.{HoldsScaled};
    ghost use Rattle.fx_modes.specs.Planning.{IsPlanning, MayPlan, done_by, seen_by};
    ghost use Rattle.fx_modes.specs.Plans.{AreLinesOf};
    ghost use Rattle.fx_modes.specs.Reels.{Reel, plain_reel};
    ghost use Rattle.fx_modes.specs.Sources.{HasSources, IsNotRead, StopsReading};

    // Adds the plans of the frames from `first` to `last`, up to the first whose source frames are not read.
    fn add_each<L: Library>(
        &mut self,
        alloc: Global,
        uses: &[Use],
        first: u32,
        last: u32,
        grid: Grid,
        library: &mut L,
    ) -> Result<(), SeqFault>
        requires last { last ≤ LAST_FRAME }
        requires none { self.old.frames.items ≡ [] }
        requires planning { let reel = plain_reel self.old.scale self.old.scene.graph first last in
            IsPlanning reel uses.now grid self.old }
        ensures graph { self.new.scene.graph ≡ self.old.scene.graph }
        ensures planning { let reel = plain_reel self.old.scale self.old.scene.graph first last in
            OnOk result (IsPlanning reel uses.now grid self.new) }
        ensures all { OnOk result (done_by self.new ≡ frame_count first last) }
        ensures sources { let n = done_by self.new in
            OnOk result (HasSources L.tells (L.file library.old) uses.now n (seen_by self.new)) }
        ensures stops { IfErr result (StopsReading L.tells (L.file library.old) uses.now (frame_count first last)
            (calls (L.faults library.old) (L.faults library.new) (L.last library.old) (L.last library.new))) }
        ensures quiet { let last = L.last library.new in
            OnOk result (IsQuiet (L.faults library.old) (L.faults library.new) (L.last library.old) last) }
    {
        for frame in first..last + 1 {
            self.add(alloc, uses, frame, grid, library)?;
        }
        Ok(())
    }

    // Reads the source frames that a frame is the first to want, and adds its plan.
    fn add<L: Library>(
        &mut self,
        alloc: Global,
        uses: &[Use],
        frame: u32,
        grid: Grid,
        library: &mut L,
    ) -> Result<(), SeqFault>
        requires may { (r : Reel) × MayPlan r uses.now grid frame self.old }
        ensures graph { self.new.scene.graph ≡ self.old.scene.graph }
        ensures planning { (r : Reel) → MayPlan r uses.now grid frame self.old
            → OnOk result (IsPlanning r uses.now grid self.new) }
        ensures count { OnOk result (done_by self.new ≡ done_by self.old + 1) }
        ensures sources { (files : Files) → (L.tells → SameFiles files (L.file library.old))
            → HasSources L.tells files uses.now (done_by self.old) (seen_by self.old)
            → OnOk result (HasSources L.tells files uses.now (done_by self.new) (seen_by self.new)) }
        ensures unread { (files : Files) → (L.tells → SameFiles files (L.file library.old))
            → HasSources L.tells files uses.now (done_by self.old) (seen_by self.old)
            → IfErr result (IsNotRead L.tells files uses.now (done_by self.old)
            (calls (L.faults library.old) (L.faults library.new) (L.last library.old) (L.last library.new))) }
        ensures quiet { let last = L.last library.new in
            OnOk result (IsQuiet (L.faults library.old) (L.faults library.new) (L.last library.old) last) }
        ensures same { L.tells → SameFiles (L.file library.old) (L.file library.new) }
    {
        let moment = self.frames.len() as u64;
        let held = self.scene.store().held(uses, moment);
        let frames = read_due(alloc, library, uses, moment, held, MOST_BYTES, MOST_SIDE)?;
        self.advance(alloc, uses, moment, frames)?;
        let entries = self.entries(alloc, frame, grid)?;
        self.frames.push(PlanFrame {
            frame: u64::from(frame),
            entries,
        })?;
        Ok(())
    }

    // Lets the frames go that no later moment wants, and holds those that this one is the first to want.
    fn advance(
        &mut self,
        alloc: Global,
        uses: &[Use],
        moment: u64,
        frames: Vec<SourceFrame>,
    ) -> Result<(), Memory>
        requires scale { IsScale self.old.scale }
        requires once { AreOnce uses.now }
        requires read { HoldsScaled self.old.scale uses.now moment (seen_by self.old) self.old.scene.store }
        requires due { AreFramesOf (due_at uses.now moment) frames.items }
        ensures rest { self.new ≡ record self.old { scene = self.new.scene; seen = self.new.seen } }
        ensures graph { self.new.scene.graph ≡ self.old.scene.graph }
        ensures read { let next = moment + 1 in
            OnOk result (HoldsScaled self.old.scale uses.now next (seen_by self.new) self.new.scene.store) }
        ensures seen { OnOk result (seen_by self.new ≡ seen_by self.old ++ frames.items) }
        ensures size { OnOk result (used_size uses.now (moment + 1) (held_frames self.new.scene.store)
            ≤ used_size uses.now moment (held_frames self.old.scene.store) + size_of_all frames.items) }
    {
        hold(
            alloc,
            &mut self.scene,
            &mut self.seen,
            self.scale,
            uses,
            moment,
            frames,
        )
    }

    // What a frame demands.
    fn entries(&self, alloc: Global, frame: u32, grid: Grid) -> Result<PlanLines, Memory>
        requires frame { frame ≤ LAST_FRAME }
        requires holds { let g = self.now.scene.graph in
            HasWanted meaning_of g (images_in self.now.scene.store) g.output (pos frame) }
        ensures { let g = self.now.scene.graph in
            IfOk result (λ lines. (other : Images) → scene.AreImages other
            → scene.AgreeOnWanted meaning_of g g.output (pos frame) (pos frame) (images_in self.now.scene.store) other
            → AreLinesOf g other grid frame lines) }
    {
        let frame = i64::from(frame);
        let regions = Regions::of(alloc, &self.scene, frame)?;
        let entries = plan(alloc, &self.scene, &regions, frame, grid)?;
        lines_of(alloc, &entries)
    }

    // The plans of all frames.
    fn into_frames(self) -> PlanFrames
        ensures { result ≡ self.frames.items }
    {
        let Planning { frames, .. } = self;
        PlanFrames::of(frames)
    }
}

// Entries as the lines of a report.
fn lines_of(alloc: Global, entries: &[Entry]) -> Result<PlanLines, Memory>
    ensures { IfOk result (λ lines. lines ≡ map line_of entries.now) }
{
    let mut lines = Vec::with_capacity(alloc, entries.len())?;
    for entry in entries {
        lines.push(line_of(entry))?;
    }
    Ok(PlanLines::of(lines))
}

fn line_of(entry: &Entry) -> PlanLine
    ensures { result ≡ line_of entry.now }
{
    PlanLine {
        node: entry.node,
        frame: entry.frame,
        region: entry.region,
    }
}
