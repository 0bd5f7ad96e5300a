//! What is made of a moment: its take is begun, its source frames are scaled and held, its picture is rendered, and its
//! file is written in memory.
ghost use Rattle.std.specs.Prelude.{List};
ghost use Rattle.fx_region.specs.Held.{EndsReached, EndsStay};
ghost use Rattle.fx_scene.specs.Depends.{PicturesDependOnWanted};
ghost use Rattle.fx_scene.specs.Holds.{PicturesStay};
ghost use Rattle.fx_scene.specs.Scenes.{graph_shown};
ghost use Rattle.fx_scene.specs.Takes.{AreEdits};
ghost use Rattle.fx_scene.specs.declared.take.Edit.{Edit as AnyEdit};
ghost use Rattle.fx_shipped.specs.Shipped.{meaning_of};
ghost use Rattle.fx_plan.specs.Agree.{EndsAgree};

use crate::crew::Crew;
use crate::holding::hold;
use fx_base::{Memory, Name, Pattern};
use fx_graph::Graph;
use fx_image::Image;
use fx_life::Life;
use fx_outside::Pace;
use fx_pam::write;
use fx_pipe::Made;
use fx_plan::ends_agree;
use fx_region::held_laws::ends_stay;
use fx_scene::Scene;
use fx_scene::laws::value_depends_on_reach;
use fx_scene::take_laws::{edits_keep, pictures_stay};
use fx_seq::{Kept, SourceFrame, Use};
use fx_shipped::Shipped;
use fx_takes::Take;
use fx_tile::TileCount;
use std::alloc::Global;
use std::collections::VecDeque;
use std::mem;
use std::rt::Clock;
use std::sync::Wait;
use std::thread::Threads;

/// What stands between two moments of a run: the scene at its take with the frames that are held, those who render it,
/// what became of the window tiles of the moments before, and which moment is next.
#[derive(Drop)]
pub(crate) struct Making {
    pub scene: Scene<Shipped>,
    /// They are away only while their name is renewed.
    pub crew: Option<Crew>,
    pub sum: TileCount,
    /// The frames are rendered at 1/scale of their size.
    pub scale: u32,
    /// The source frames that were handed in, moment by moment, for contracts.
    pub seen: Vec<Kept<Vec<SourceFrame>>>,
    /// The takes behind the one that is rendered.
    pub takes: VecDeque<Take>,
    /// The pattern of the files of the take that is rendered; of the graph as it is written it is the graph's.
    pub file: Option<Pattern>,
    /// The first and the last frame of each take.
    pub first: u32,
    pub last: u32,
    /// The frame of the next moment. It is past the last one where all of the take were made.
    pub frame: u32,
    /// The number of the next moment.
    pub next: u64,
    /// Bytes of files that were put, whose memory serves for the next ones.
    pub spare: VecDeque<Vec<u8>>,
}

impl Making {
    ghost use Rattle.std.specs.Prelude.{◌≡◌, ◌≤◌, ◌+◌, ◌++◌, ◌⊎◌, [], true, pos, length, Some, IfOk, OnOk, OnErr};
    ghost use Rattle.fx_base.specs.declared.limits.TheConstants.{LAST_FRAME};
    ghost use Rattle.fx_base.specs.Pattern.{name_of};
    ghost use Rattle.fx_image.specs.Image.{SameImage};
    ghost use Rattle.fx_image.specs.Stored.{image_of};
    ghost use Rattle.fx_life.specs.Posts.{HasLife};
    ghost use Rattle.fx_seq.specs.Lists.{AreFramesOf};
    ghost use Rattle.fx_seq.specs.Moments.{AreOnce, due_at};
    ghost use Rattle.fx_pipe.specs.Blocks.{Makes, fetched_in};
    ghost use Rattle.fx_proxy.specs.Reduced.{IsScale};
    ghost use Rattle.fx_scene.specs.Right.{HasWanted};
    ghost use Rattle.fx_scene.specs.Scenes.{images_in, picture};
    ghost use Rattle.fx_scene.specs.Scripts.{HasGrownTo};
    ghost use Rattle.fx_shipped.specs.Shipped.{number_of};
    ghost use Rattle.fx_modes.specs.declared.crew.Crew.{Crew as AnyCrew};
    ghost use Rattle.fx_modes.specs.Crews.{IsCrew, IsRenewed, KnewScene};
    ghost use Rattle.fx_modes.specs.Making.{AreDue, HasDrawn, HoldsScaled, IsAt, IsMaking, IsPlan, MayMake, Plan, pattern_in, seen_by};
    ghost use Rattle.fx_modes.specs.Moments.{IsMomentFile};
    ghost use Rattle.fx_modes.specs.Reels.{picture_text};

    /// Makes the files of the moments of a block, one after the other. Where it does not, memory was wanting.
    pub(crate) fn make_block<R: Threads + Wait + Clock + Sync, P: Pace>(
        &mut self,
        rt: &R,
        alloc: Global,
        pace: &P,
        life: &Life<Shipped>,
        uses: &[Use],
        fetched: &mut VecDeque<Vec<SourceFrame>>,
        made: &mut VecDeque<Made>,
    ) -> bool
        requires life { HasLife number_of self.old.scene.script.written life.now }
        requires due { AreDue uses.now self.old.next (fetched_in fetched.old.items) }
        requires may { (p : Plan) × MayMake p uses.now (length (fetched_in fetched.old.items)) self.old }
        requires empty { made.old.items ≡ [] }
        ensures written { self.new.scene.script.written ≡ self.old.scene.script.written }
        ensures makes { (p : Plan) → MayMake p uses.now (length (fetched_in fetched.old.items)) self.old
            → Makes (IsMomentFile p.reel) self.old.next (fetched_in fetched.old.items) made.new.items
            (seen_by self.old) (seen_by self.new) self.new.next result }
        ensures may { (p : Plan) → MayMake p uses.now (length (fetched_in fetched.old.items)) self.old
            → result ≡ true → MayMake p uses.now 0 self.new }
        ensures emptied { result ≡ true → fetched.new.items ≡ [] }
    {
        while let Some(frames) = fetched.pop_front() {
            match self.made(rt, alloc, pace, life, uses, frames) {
                Ok(one) => {
                    if made.push_back(one).is_err() {
                        return false;
                    }
                }
                Err(_) => return false,
            }
        }
        true
    }

    /// Makes the file of the next moment, over the frames that it is the first to want, and those that are held.
    fn made<R: Threads + Wait + Clock + Sync, P: Pace>(
        &mut self,
        rt: &R,
        alloc: Global,
        pace: &P,
        life: &Life<Shipped>,
        uses: &[Use],
        frames: Vec<SourceFrame>,
    ) -> Result<Made, Memory>
        requires life { HasLife number_of self.old.scene.script.written life.now }
        requires due { AreFramesOf (due_at uses.now self.old.next) frames.items }
        requires may { (p : Plan) × MayMake p uses.now 1 self.old }
        ensures written { self.new.scene.script.written ≡ self.old.scene.script.written }
        ensures file { (p : Plan) → MayMake p uses.now 1 self.old
            → IfOk result (IsMomentFile p.reel (seen_by self.new) self.old.next) }
        ensures making { (p : Plan) → MayMake p uses.now 1 self.old → OnOk result (IsMaking p self.new) }
        ensures next { OnOk result (self.new.next ≡ self.old.next + 1) }
        ensures seen { OnOk result (seen_by self.new ≡ seen_by self.old ++ frames.items) }
        ensures memory { OnErr result
            ((seen_by self.new ≡ seen_by self.old) ⊎ (seen_by self.new ≡ seen_by self.old ++ frames.items)) }
    {
        self.begin()?;
        self.advance(alloc, uses, frames)?;
        self.renew(alloc)?;
        more_is_same(self.scene.graph());
        let name = self.name(alloc)?;
        let bytes = self.text(rt, alloc, pace, life)?;
        self.frame += 1;
        self.next += 1;
        Ok(Made { name, bytes })
    }

    // Begins the take behind the one of which all moments were made.
    fn begin(&mut self) -> Result<(), Memory>
        requires at { (p : Plan) × IsPlan p × IsAt p self.old }
        ensures rest { let m = self.new in
            m ≡ record self.old { scene = m.scene; takes = m.takes; file = m.file; frame = m.frame } }
        ensures grown { HasGrownTo self.old.scene self.new.scene }
        ensures store { self.new.scene.store ≡ self.old.scene.store }
        ensures nodes { length self.new.scene.graph.nodes ≡ length self.old.scene.graph.nodes }
        ensures at { (p : Plan) → IsPlan p → IsAt p self.old
            → OnOk result (IsAt p self.new × (self.new.frame ≤ self.new.last)) }
    {
        if self.frame <= self.last {
            return Ok(());
        }
        let Some(take) = self.takes.pop_front() else {
            return Err(Memory);
        };
        let Take { file, edits } = take;
        match self.scene.next_take(edits) {
            Ok(()) => {
                self.file = Some(file);
                self.frame = self.first;
                Ok(())
            }
            Err(_) => Err(Memory),
        }
    }

    // The name of the next moment's file.
    fn name(&self, alloc: Global) -> Result<Name, Memory>
        ensures { let pattern = pattern_in self.now.file self.now.scene.graph.file in
            IfOk result (λ name. name ≡ name_of pattern self.now.frame) }
    {
        match &self.file {
            Some(file) => file.name(alloc, self.frame),
            None => self.scene.graph().file.name(alloc, self.frame),
        }
    }

    // Lets the frames go that no moment wants any more, and holds those that the next moment is the first to want, at the
    // size that is rendered.
    fn advance(
        &mut self,
        alloc: Global,
        uses: &[Use],
        frames: Vec<SourceFrame>,
    ) -> Result<(), Memory>
        requires scale { IsScale self.old.scale }
        requires once { AreOnce uses.now }
        requires read { HoldsScaled self.old.scale uses.now self.old.next (seen_by self.old) self.old.scene.store }
        requires due { AreFramesOf (due_at uses.now self.old.next) frames.items }
        ensures rest { self.new ≡ record self.old { scene = self.new.scene; seen = self.new.seen } }
        ensures graph { self.new.scene.graph ≡ self.old.scene.graph }
        ensures script { self.new.scene.script ≡ self.old.scene.script }
        ensures grown { HasGrownTo self.old.scene self.new.scene }
        ensures read { let next = self.old.next + 1 in
            OnOk result (HoldsScaled self.old.scale uses.now next (seen_by self.new) self.new.scene.store) }
        ensures seen { OnOk result (seen_by self.new ≡ seen_by self.old ++ frames.items) }
        ensures memory { OnErr result
            ((seen_by self.new ≡ seen_by self.old) ⊎ (seen_by self.new ≡ seen_by self.old ++ frames.items)) }
    {
        let moment = self.next;
        hold(
            alloc,
            &mut self.scene,
            &mut self.seen,
            self.scale,
            uses,
            moment,
            frames,
        )
    }

    // Those who render get the name of the scene as it is now.
    fn renew(&mut self, alloc: Global) -> Result<(), Memory>
        requires knew { (crew : AnyCrew) × (self.old.crew ≡ Some crew) × KnewScene self.old.scene crew }
        ensures rest { self.new ≡ record self.old { crew = self.new.crew } }
        ensures renewed { (crew : AnyCrew) → self.old.crew ≡ Some crew
            → OnOk result ((new : AnyCrew) × (self.new.crew ≡ Some new) × IsRenewed self.new.scene crew new) }
    {
        match mem::replace(&mut self.crew, None) {
            Some(crew) => match crew.renewed(alloc, &self.scene) {
                Ok(crew) => {
                    self.crew = Some(crew);
                    Ok(())
                }
                Err((crew, memory)) => {
                    self.crew = Some(crew);
                    Err(memory)
                }
            },
            None => Err(Memory),
        }
    }

    // The text of the picture of the next moment's frame. The picture itself ends with the call.
    fn text<R: Threads + Wait + Clock + Sync, P: Pace>(
        &mut self,
        rt: &R,
        alloc: Global,
        pace: &P,
        life: &Life<Shipped>,
    ) -> Result<Vec<u8>, Memory>
        requires life { HasLife number_of self.old.scene.graph life.now }
        requires crew { (crew : AnyCrew) × (self.old.crew ≡ Some crew) × IsCrew self.old.scene crew }
        requires frame { self.old.frame ≤ LAST_FRAME }
        requires holds { let g = self.old.scene.graph in
            HasWanted meaning_of g (images_in self.old.scene.store) g.output (pos self.old.frame) }
        ensures rest { let m = self.new in m ≡ record self.old { crew = m.crew; sum = m.sum; spare = m.spare } }
        ensures text { let scene = self.old.scene in
            IfOk result (λ text. text.items ≡ picture_text scene.graph (images_in scene.store) self.old.frame) }
        ensures drawn { (crew : AnyCrew) → self.old.crew ≡ Some crew
            → OnOk result (HasDrawn self.old.frame crew self.old self.new) }
    {
        let image = self.picture(rt, alloc, pace, life)?;
        let mut text = self.spare.pop_front().unwrap_or(Vec::new(alloc));
        text.clear();
        write(alloc, &image, self.scene.graph().format, &mut text)?;
        Ok(text)
    }

    // The picture of the next moment's frame; what became of its window tiles is counted.
    fn picture<R: Threads + Wait + Clock + Sync, P: Pace>(
        &mut self,
        rt: &R,
        alloc: Global,
        pace: &P,
        life: &Life<Shipped>,
    ) -> Result<Image, Memory>
        requires life { HasLife number_of self.old.scene.graph life.now }
        requires crew { (crew : AnyCrew) × (self.old.crew ≡ Some crew) × IsCrew self.old.scene crew }
        requires frame { self.old.frame ≤ LAST_FRAME }
        requires holds { let g = self.old.scene.graph in
            HasWanted meaning_of g (images_in self.old.scene.store) g.output (pos self.old.frame) }
        ensures rest { let m = self.new in m ≡ record self.old { crew = m.crew; sum = m.sum } }
        ensures picture { let scene = self.old.scene in
            let picture = picture meaning_of scene.graph (images_in scene.store) (pos self.old.frame) in
            IfOk result (λ image. SameImage (image_of image) picture) }
        ensures drawn { (crew : AnyCrew) → self.old.crew ≡ Some crew
            → OnOk result (HasDrawn self.old.frame crew self.old self.new) }
    {
        let Some(crew) = &mut self.crew else {
            return Err(Memory);
        };
        let (image, count) = crew.picture(rt, alloc, pace, &self.scene, life, self.frame)?;
        match self.sum.plus(count) {
            Some(sum) => self.sum = sum,
            None => return Err(Memory),
        }
        Ok(image)
    }
}

/// More source frames change no picture and no end of which all that it wants was there, at any take of edits that may be
/// done, and neither depends on any image but those that it wants. It computes nothing.
pub(crate) fn more_is_same(graph: &Graph<Shipped>)
    ensures pictures { let g = graph_shown graph.now in (takes : List (List AnyEdit)) → AreEdits g.nodes takes
        → PicturesStay meaning_of g takes }
    ensures ends { EndsStay meaning_of (graph_shown graph.now) }
    ensures reached { EndsReached meaning_of (graph_shown graph.now) }
    ensures depend { PicturesDependOnWanted meaning_of (graph_shown graph.now) }
    ensures agree { EndsAgree meaning_of (graph_shown graph.now) }
{
    edits_keep(graph);
    pictures_stay(graph);
    ends_stay(graph);
    value_depends_on_reach(graph);
    ends_agree(graph);
}
