//! The part that reads source frames.
ghost use Rattle.std.specs.Prelude.{◌≡◌, ◌+◌, ◌++◌, ◌∷◌, ◌≤◌, ◌<◌, ◌^◌, [], ℕ, List, None, IfOk, IfErr, IfSome, IfNone, OnOk, OnErr, map, filter, length};
ghost use Rattle.fx_base.specs.declared.limits.TheConstants.{MOST_SIDE};
ghost use Rattle.fx_outside.specs.Outside.{Files, SameFiles};
ghost use Rattle.fx_seq.specs.Filling.{IsFetchIn, IsQuiet, IsQuietAt};
ghost use Rattle.fx_seq.specs.Moments.{due_at, is_used};
ghost use Rattle.fx_seq.specs.declared.source.SourceFrame.{SourceFrame};
ghost use Rattle.fx_pipe.specs.Moments.{all_of};
ghost use Rattle.fx_pipe.specs.Reads.{AreRead, IsRead, IsSchedule, IsUnread, Knows, ReadsOn, is_kept, kept_of, kept_size};
ghost use Rattle.fx_pipe.specs.Blocks.{fetched_in};

use crate::schedule::Schedule;
use fx_base::Memory;
use fx_outside::Library;
use fx_seq::{SeqFault, SourceFrame, Use, read_due};
use std::alloc::Global;
use std::collections::VecDeque;

/// A frame that was read, and what it is counted as, in bytes.
#[derive(Clone, Copy, Debug)]
pub struct Kept {
    pub node: u32,
    pub frame: i64,
    pub size: u64,
}

/// What is known to the part that reads: the next moment, and the frames that were read.
#[derive(Debug, Drop)]
pub struct Reader {
    pub next: u64,
    pub kept: Vec<Kept>,
}

impl Reader {
    /// Nothing was read yet.
    pub fn new(alloc: Global) -> Reader
        ensures next { result.next ≡ 0 }
        ensures kept { result.kept.items ≡ [] }
    {
        Reader {
            next: 0,
            kept: Vec::new(alloc),
        }
    }
}

/// Reads a block, where no moment before was not read.
pub fn read_on<L: Library>(
    alloc: Global,
    library: &mut L,
    schedule: &Schedule<'_>,
    reader: &mut Reader,
    fault: &mut Option<SeqFault>,
    fetched: &mut VecDeque<Vec<SourceFrame>>,
)
    requires schedule { IsSchedule schedule.now }
    requires next { reader.old.next ≤ schedule.now.moments }
    requires few { kept_size schedule.now.uses.now reader.old.next reader.old.kept.items ≤ schedule.now.limit }
    requires empty { fetched.old.items ≡ [] }
    ensures reads { ReadsOn L.tells (L.file library.old) (L.faults library.old) (L.faults library.new)
        (L.last library.old) (L.last library.new) schedule.now reader.old reader.new fault.old fault.new
        (fetched_in fetched.new.items) }
    // Of a block of one moment nothing was read where a fault is told.
    ensures single { schedule.now.ahead ≤ 1 → IfSome fault.new (λ _. fetched.new.items ≡ []) }
    ensures same { L.tells → SameFiles (L.file library.old) (L.file library.new) }
{
    if fault.is_none() {
        *fault = read_block(alloc, library, schedule, reader, fetched);
    }
}

// Reads the frames of the moments of a block, one after the other, up to the first that is not read.
fn read_block<L: Library>(
    alloc: Global,
    library: &mut L,
    schedule: &Schedule<'_>,
    reader: &mut Reader,
    fetched: &mut VecDeque<Vec<SourceFrame>>,
) -> Option<SeqFault>
    requires schedule { IsSchedule schedule.now }
    requires next { reader.old.next ≤ schedule.now.moments }
    requires few { kept_size schedule.now.uses.now reader.old.next reader.old.kept.items ≤ schedule.now.limit }
    requires empty { fetched.old.items ≡ [] }
    ensures read { (files : Files) (fs : List (List SourceFrame)) → (L.tells → SameFiles files (L.file library.old))
        → Knows schedule.now fs reader.old
        → AreRead L.tells files schedule.now (all_of fs) reader.old.next (fetched_in fetched.new.items)
        × Knows schedule.now (fs ++ fetched_in fetched.new.items) reader.new }
    ensures unread { (files : Files) (fs : List (List SourceFrame)) → (L.tells → SameFiles files (L.file library.old))
        → Knows schedule.now fs reader.old → IfSome result
        (λ e. IsUnread L.tells files schedule.now (all_of (fs ++ fetched_in fetched.new.items)) reader.new.next e) }
    ensures next { reader.new.next ≤ schedule.now.moments }
    ensures before_last { IfSome result (λ _. reader.new.next < schedule.now.moments) }
    ensures single { schedule.now.ahead ≤ 1 → IfSome result (λ _. fetched.new.items ≡ []) }
    ensures few { kept_size schedule.now.uses.now reader.new.next reader.new.kept.items ≤ schedule.now.limit }
    ensures quiet { let last = L.last library.new in
        IfNone result (IsQuiet (L.faults library.old) (L.faults library.new) (L.last library.old) last) }
    ensures quiet_refusal { let last = L.last library.new in
        IfSome result (λ e. IsQuietAt (L.faults library.old) (L.faults library.new) (L.last library.old) last e) }
    ensures fetch { let last = L.last library.new in let due = due_at schedule.now.uses.now reader.new.next in
        IfSome result (λ e. IsFetchIn (L.faults library.old) (L.faults library.new) last due e) }
    ensures later { L.faults library.old ≤ L.faults library.new }
    ensures same { L.tells → SameFiles (L.file library.old) (L.file library.new) }
{
    for _ in 0..schedule.ahead.max(1) {
        if reader.next == schedule.moments {
            return None;
        }
        if fetched.try_reserve(1).is_err() {
            return Some(SeqFault::Memory);
        }
        match read_moment(alloc, library, schedule, reader) {
            Ok(frames) => fetched.push_back_reserved(frames),
            Err(fault) => return Some(fault),
        }
    }
    None
}

// Reads the frames of one moment.
fn read_moment<L: Library>(
    alloc: Global,
    library: &mut L,
    schedule: &Schedule<'_>,
    reader: &mut Reader,
) -> Result<Vec<SourceFrame>, SeqFault>
    requires schedule { IsSchedule schedule.now }
    requires next { reader.old.next < schedule.now.moments }
    requires few { kept_size schedule.now.uses.now reader.old.next reader.old.kept.items ≤ schedule.now.limit }
    ensures read { (files : Files) (fs : List (List SourceFrame)) → (L.tells → SameFiles files (L.file library.old))
        → Knows schedule.now fs reader.old → IfOk result (λ frames.
        IsRead L.tells files schedule.now (all_of fs) reader.old.next frames.items
        × Knows schedule.now (fs ++ frames.items ∷ []) reader.new) }
    ensures unread { (files : Files) (fs : List (List SourceFrame)) → (L.tells → SameFiles files (L.file library.old))
        → Knows schedule.now fs reader.old
        → IfErr result (λ e. IsUnread L.tells files schedule.now (all_of fs) reader.old.next e) }
    ensures next { OnOk result (reader.new.next ≡ reader.old.next + 1) }
    ensures few { let kept = kept_size schedule.now.uses.now reader.new.next reader.new.kept.items in
        OnOk result (kept ≤ schedule.now.limit) }
    ensures stays { OnErr result
        ((reader.new.next ≡ reader.old.next) × (reader.new.kept.items ≡ reader.old.kept.items)) }
    ensures quiet { let last = L.last library.new in
        OnOk result (IsQuiet (L.faults library.old) (L.faults library.new) (L.last library.old) last) }
    ensures quiet_refusal { let last = L.last library.new in
        IfErr result (λ e. IsQuietAt (L.faults library.old) (L.faults library.new) (L.last library.old) last e) }
    ensures fetch { let last = L.last library.new in let due = due_at schedule.now.uses.now reader.old.next in
        IfErr result (λ e. IsFetchIn (L.faults library.old) (L.faults library.new) last due e) }
    ensures later { L.faults library.old ≤ L.faults library.new }
    ensures same { L.tells → SameFiles (L.file library.old) (L.file library.new) }
{
    let held = kept_size(schedule.uses, reader.next, &reader.kept);
    let frames = read_due(
        alloc,
        library,
        schedule.uses,
        reader.next,
        held,
        schedule.limit,
        schedule.most_side,
    )?;
    note(&frames, &mut reader.kept)?;
    reader.next += 1;
    forget(schedule.uses, reader.next, &mut reader.kept);
    Ok(frames)
}

// How many bytes the frames are counted as that are used at the moment or later.
fn kept_size(uses: &[Use], moment: u64, kept: &[Kept]) -> u64
    requires { kept_size uses.now moment kept.now < 2 ^ 64 }
    ensures { result ≡ kept_size uses.now moment kept.now }
{
    let mut sum = 0;
    for one in kept {
        sum += used_size(uses, moment, one);
    }
    sum
}

// How many bytes one frame is counted as, where it is used at the moment or later.
fn used_size(uses: &[Use], moment: u64, one: &Kept) -> u64
    ensures { result ≡ kept_size uses.now moment (one.now ∷ []) }
{
    if is_used(uses, moment, one.node, one.frame) {
        one.size
    } else {
        0
    }
}

// Whether a node's frame is used at the moment or later.
fn is_used(uses: &[Use], moment: u64, node: u32, frame: i64) -> bool
    ensures { result ≡ is_used uses.now moment node frame }
{
    uses.iter().any(|u| moment <= u.until && u.wanted.node == node && u.wanted.frame == frame)
}

// Forgets what no moment from this one on uses.
fn forget(uses: &[Use], moment: u64, kept: &mut Vec<Kept>)
    ensures { kept.new.items ≡ filter (is_kept uses.now moment) kept.old.items }
{
    kept.retain(|one| is_kept(uses, moment, one));
}

// Whether a frame is used at the moment or later.
fn is_kept(uses: &[Use], moment: u64, one: &Kept) -> bool
    ensures { result ≡ is_kept uses.now moment one.now }
{
    is_used(uses, moment, one.node, one.frame)
}

// Notes what frames are counted as.
fn note(frames: &[SourceFrame], kept: &mut Vec<Kept>) -> Result<(), Memory>
    ensures ok { OnOk result (kept.new.items ≡ kept.old.items ++ map kept_of frames.now) }
    ensures err { OnErr result (kept.new.items ≡ kept.old.items) }
{
    kept.reserve(frames.len())?;
    for frame in frames {
        kept.push_reserved(Kept {
            node: frame.node,
            frame: frame.frame,
            size: frame.size,
        });
    }
    Ok(())
}
