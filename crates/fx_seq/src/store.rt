//! The frames that are held.
ghost use Rattle.std.specs.Prelude.{◌≡◌, ◌≤◌, ◌+◌, ◌^◌, ◌++◌, ◌∷◌, [], ℕ, ℤ, List, None, IfOk, IfErr, OnOk, OnErr, IfSome, All, AllPairs, map, filter, length, vec_len, vec_capacity};
ghost use Rattle.std.specs.Option.{option_copied};
ghost use Rattle.fx_seq.specs.Moments.{is_used};
ghost use Rattle.fx_base.specs.declared.limits.TheConstants.{MOST_SIDE};
ghost use Rattle.fx_outside.specs.Outside.{SameFiles};
ghost use Rattle.fx_seq.specs.Lists.{IsNew, frames_in, is_of, is_used_frame, seen_in, used_part, used_size};
ghost use Rattle.fx_seq.specs.Filling.{IsApart, IsFetchIn, IsFirstFetch, IsQuiet, IsQuietAt, IsTold, first_refused};
ghost use Rattle.fx_seq.specs.Frames.{AreAmong, AreSound, HoldsOnly, HoldsPictures, among_once, sound_once};

use crate::due::read_into;
use crate::kept::Kept;
use crate::{SeqFault, SourceFrame, Use, Wanted};
use fx_base::Memory;
use fx_image::Image;
use fx_outside::Library;
use std::alloc::Global;

/// The frames that are held, and for contracts the image of each that was ever held. Each is a source's frame.
#[derive(Drop)]
pub struct Store {
    frames: Vec<SourceFrame>,
    got: Vec<Kept<SourceFrame>>,
    pub ghost sound: { AreSound (frames_in frames.items) } by { sound_once (frames_in frames.items) },
    pub ghost known: { AreSound (frames_in (seen_in got.items)) } by { sound_once (frames_in (seen_in got.items)) },
    pub ghost among: { AreAmong (frames_in frames.items) (frames_in (seen_in got.items)) } by { among_once (frames_in frames.items) (frames_in (seen_in got.items)) },
}

impl Store {
    ghost use Rattle.fx_seq.specs.Held.{SameStore, fetched, got_frames, held, held_frames, held_size};

    /// Holds nothing.
    pub fn empty(alloc: Global) -> Store
        ensures frames { held_frames result ≡ [] }
        ensures got { got_frames result ≡ [] }
    {
        Store {
            frames: Vec::new(alloc),
            got: Vec::new(alloc),
        }
    }

    /// Fetches and reads each wanted frame in order, and holds it under its node and frame. The first
    /// failure ends the call. Sides go up to `most_side` pixels, and the pixels of all frames together up
    /// to `limit` bytes, 4 samples for each. `Fetch` comes only where the library's count of faults rose;
    /// `Frame` where the file has a fault (Netpbm, the manual page "pam"); `TooLarge` where the frames
    /// read so far, this one included, have more bytes than the limit, whose sum it tells.
    pub fn fill<L: Library>(
        alloc: Global,
        library: &mut L,
        wanted: &[Wanted],
        limit: u64,
        most_side: u32,
    ) -> Result<Store, SeqFault>
        requires apart { AllPairs IsApart wanted.now }
        requires limit { limit ≤ 2 ^ 62 }
        requires side { most_side ≤ MOST_SIDE }
        // Where it is filled no wanted frame is refused, each is held with the image of its file, no other
        // frame is held, and no fetch failed.
        ensures accepted { let told = first_refused (L.file library.old) most_side limit 0 wanted.now in
            L.tells → OnOk result (told ≡ None) }
        ensures pictures { L.tells
            → IfOk result (λ store. HoldsPictures (L.file library.old) most_side wanted.now (held store)) }
        ensures only { IfOk result (λ store. HoldsOnly wanted.now (held store)) }
        ensures size { IfOk result (λ store. held_size store ≤ limit) }
        ensures quiet { let last = L.last library.new in
            OnOk result (IsQuiet (L.faults library.old) (L.faults library.new) (L.last library.old) last) }

        // A fault of a file or of the sum is the first refusal.
        ensures refused { let told = first_refused (L.file library.old) most_side limit 0 wanted.now in
            L.tells → IfErr result (λ e. IsTold told e) }
        ensures quiet_refusal { let last = L.last library.new in
            IfErr result (λ e. IsQuietAt (L.faults library.old) (L.faults library.new) (L.last library.old) last e) }
        // A fetch that failed is of a wanted frame, and no frame before it is refused.
        ensures fetch { let last = L.last library.new in
            IfErr result (λ e. IsFetchIn (L.faults library.old) (L.faults library.new) last wanted.now e) }
        ensures fetch_first { L.tells
            → IfErr result (λ e. IsFirstFetch (L.file library.old) most_side limit 0 wanted.now e) }
        ensures later { L.faults library.old ≤ L.faults library.new }
        ensures same { L.tells → SameFiles (L.file library.old) (L.file library.new) }
    {
        let mut frames = Vec::new(alloc);
        let mut sum = 0;
        for frame in wanted {
            sum = read_into(alloc, library, frame, sum, limit, most_side, &mut frames)?;
        }
        Ok(Store::of(alloc, frames)?)
    }

    // Holds these frames.
    fn of(alloc: Global, frames: Vec<SourceFrame>) -> Result<Store, Memory>
        ensures frames { IfOk result (λ store. held_frames store ≡ frames.items) }
        ensures got { IfOk result (λ store. got_frames store ≡ frames.items) }
    {
        let mut got = Vec::with_capacity(alloc, frames.len())?;
        note(&frames, &mut got);
        Ok(Store { frames, got })
    }

    /// The image of a node's frame: `None` exactly where it isn't held.
    pub fn frame(&self, node: u32, frame: i64) -> Option<&Image>
        ensures { option_copied result ≡ held self.now node frame }
    {
        for held in &self.frames {
            if is_of(held, node, frame) {
                return Some(&held.image);
            }
        }
        None
    }

    /// How many bytes the frames that are held are counted as of which the last moment that wants them is this one or
    /// a later one.
    pub fn held(&self, uses: &[Use], moment: u64) -> u64
        requires { used_size uses.now moment (held_frames self.now) ≤ 2 ^ 62 }
        ensures { result ≡ used_size uses.now moment (held_frames self.now) }
    {
        let mut sum = 0;
        for held in &self.frames {
            sum += used_part(uses, moment, held);
        }
        sum
    }

    /// Lets the frames go of which the last moment that wants them is before this one, and holds these. No frame comes
    /// that the store ever got. At `Memory` all is as before, and the frames come back.
    pub fn admit(
        &mut self,
        uses: &[Use],
        moment: u64,
        mut frames: Vec<SourceFrame>,
    ) -> Result<(), (Vec<SourceFrame>, Memory)>
        requires new { IsNew (fetched self.old) frames.items }
        ensures frames { let still = filter (is_used_frame uses.now moment) (held_frames self.old) in
            OnOk result (held_frames self.new ≡ still ++ frames.items) }
        ensures got { OnOk result (got_frames self.new ≡ got_frames self.old ++ frames.items) }
        ensures back { IfErr result (λ e. e.0.items ≡ frames.items) }
        ensures unchanged { OnErr result (SameStore self.old self.new) }
    {
        let count = frames.len();
        if self.frames.reserve(count).is_err() {
            return Err((frames, Memory));
        }
        if self.got.reserve(count).is_err() {
            return Err((frames, Memory));
        }
        note(&frames, &mut self.got);
        turn_over(uses, moment, &mut self.frames, &mut frames);
        Ok(())
    }
}

// Lets the frames go that aren't used any more, and takes these in.
fn turn_over(uses: &[Use], moment: u64, frames: &mut Vec<SourceFrame>, came: &mut Vec<SourceFrame>)
    requires { vec_len frames.old + vec_len came.old ≤ vec_capacity frames.old }
    ensures { let still = filter (is_used_frame uses.now moment) frames.old.items in
        frames.new.items ≡ still ++ came.old.items }
{
    still_used(uses, moment, frames);
    let moved = frames.append(came);
    let Ok(()) = moved else { unreachable!() };
}

// Lets the frames go that aren't used at the moment or later.
fn still_used(uses: &[Use], moment: u64, frames: &mut Vec<SourceFrame>)
    ensures items { frames.new.items ≡ filter (is_used_frame uses.now moment) frames.old.items }
    ensures fewer { vec_len frames.new ≤ vec_len frames.old }
    ensures room { vec_capacity frames.new ≡ vec_capacity frames.old }
{
    frames.retain(|held| is_used_frame(uses, moment, held));
}

// Notes frames, for contracts.
fn note(frames: &[SourceFrame], got: &mut Vec<Kept<SourceFrame>>)
    requires { vec_len got.old + length frames.now ≤ vec_capacity got.old }
    ensures { seen_in got.new.items ≡ seen_in got.old.items ++ frames.now }
{
    for frame in frames {
        got.push_reserved(Kept::of(frame));
    }
}

// Whether it is this node's frame.
fn is_of(held: &SourceFrame, node: u32, frame: i64) -> bool
    ensures { result ≡ is_of node frame held.now }
{
    held.node == node && held.frame == frame
}

// How many bytes a frame is counted as, where it is used at the moment or later.
fn used_part(uses: &[Use], moment: u64, held: &SourceFrame) -> u64
    ensures { result ≡ used_part uses.now moment held.now }
{
    if is_used_frame(uses, moment, held) {
        held.size
    } else {
        0
    }
}

// Whether a frame is used at the moment or later.
fn is_used_frame(uses: &[Use], moment: u64, held: &SourceFrame) -> bool
    ensures { result ≡ is_used_frame uses.now moment held.now }
{
    is_used(uses, moment, held.node, held.frame)
}

// Whether a node's frame is used at the moment or later.
fn is_used(uses: &[Use], moment: u64, node: u32, frame: i64) -> bool
    ensures { result ≡ is_used uses.now moment node frame }
{
    uses.iter().any(|u| moment <= u.until && u.wanted.node == node && u.wanted.frame == frame)
}
