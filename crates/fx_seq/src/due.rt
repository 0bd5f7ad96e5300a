//! The frames that a moment of a run is the first to want.
ghost use Rattle.std.specs.Prelude.{◌≡◌, ◌≤◌, ◌+◌, ◌^◌, ◌∷◌, [], None, IfOk, IfErr, OnOk, List};
ghost use Rattle.fx_base.specs.declared.limits.TheConstants.{MOST_SIDE};
ghost use Rattle.fx_outside.specs.Outside.{SameFiles};
ghost use Rattle.fx_seq.specs.Lists.{AreFramesOf, ArePictures, ReadsMore, size_of_all};
ghost use Rattle.fx_seq.specs.Moments.{due_at};
ghost use Rattle.fx_seq.specs.Filling.{IsFetchIn, IsFirstFetch, IsQuiet, IsQuietAt, IsTold, first_refused};
ghost use Rattle.fx_seq.specs.Frames.{IsPicture, image_size};

use crate::frame::{read_frame, sum_with};
use crate::{SeqFault, SourceFrame, Use, Wanted};
use fx_outside::Library;
use std::alloc::Global;

/// Fetches and reads, in their order, the frames that are wanted from this moment on. The first failure ends the call.
/// Sides go up to `most_side` pixels. The frames that are held before have `held` bytes, and with those that are read
/// they have up to `limit` bytes. `Fetch` comes only where the library's count of faults rose; `Frame` where the file
/// has a fault (Netpbm, the manual page "pam"); `TooLarge` where the frames that are held and those read so far, this
/// one included, have more bytes than the limit, whose sum it tells.
pub fn read_due<L: Library>(
    alloc: Global,
    library: &mut L,
    uses: &[Use],
    moment: u64,
    held: u64,
    limit: u64,
    most_side: u32,
) -> Result<Vec<SourceFrame>, SeqFault>
    requires held { held ≤ 2 ^ 62 }
    requires limit { limit ≤ 2 ^ 62 }
    requires side { most_side ≤ MOST_SIDE }
    // Where they are read none is refused, each has the image of its file, and no fetch failed.
    ensures accepted { let told = first_refused (L.file library.old) most_side limit held (due_at uses.now moment) in
        L.tells → OnOk result (told ≡ None) }
    ensures frames { IfOk result (λ frames. AreFramesOf (due_at uses.now moment) frames.items) }
    ensures pictures { L.tells → IfOk result
        (λ frames. ArePictures (L.file library.old) most_side (due_at uses.now moment) frames.items) }
    ensures fits { held ≤ limit → IfOk result (λ frames. held + size_of_all frames.items ≤ limit) }
    ensures quiet { let last = L.last library.new in
        OnOk result (IsQuiet (L.faults library.old) (L.faults library.new) (L.last library.old) last) }

    // A fault of a file or of the sum is the first refusal.
    ensures refused { let told = first_refused (L.file library.old) most_side limit held (due_at uses.now moment) in
        L.tells → IfErr result (λ e. IsTold told e) }
    ensures quiet_refusal { let last = L.last library.new in
        IfErr result (λ e. IsQuietAt (L.faults library.old) (L.faults library.new) (L.last library.old) last e) }
    // A fetch that failed is of a frame that is due, and no frame before it is refused.
    ensures fetch { let last = L.last library.new in let due = due_at uses.now moment in
        IfErr result (λ e. IsFetchIn (L.faults library.old) (L.faults library.new) last due e) }
    ensures fetch_first { let due = due_at uses.now moment in L.tells
        → IfErr result (λ e. IsFirstFetch (L.file library.old) most_side limit held due e) }
    ensures later { L.faults library.old ≤ L.faults library.new }
    ensures same { L.tells → SameFiles (L.file library.old) (L.file library.new) }
{
    let mut frames = Vec::new(alloc);
    let mut sum = held;
    for used in uses {
        sum = read_at(
            alloc,
            library,
            used,
            moment,
            sum,
            limit,
            most_side,
            &mut frames,
        )?;
    }
    Ok(frames)
}

// Reads a frame where it is wanted from this moment on. The answer is the sum of the bytes with it.
fn read_at<L: Library>(
    alloc: Global,
    library: &mut L,
    used: &Use,
    moment: u64,
    sum: u64,
    limit: u64,
    most_side: u32,
    frames: &mut Vec<SourceFrame>,
) -> Result<u64, SeqFault>
    requires sum { sum ≤ 2 ^ 62 }
    requires limit { limit ≤ 2 ^ 62 }
    requires side { most_side ≤ MOST_SIDE }
    ensures reads { let due = due_at (used.now ∷ []) moment in
        IfOk result (ReadsMore L.tells (L.file library.old) most_side limit sum due frames.old.items frames.new.items) }
    ensures quiet { let last = L.last library.new in
        OnOk result (IsQuiet (L.faults library.old) (L.faults library.new) (L.last library.old) last) }
    ensures refused { let due = due_at (used.now ∷ []) moment in
        let told = first_refused (L.file library.old) most_side limit sum due in
        L.tells → IfErr result (λ e. IsTold told e) }
    ensures quiet_refusal { let last = L.last library.new in
        IfErr result (λ e. IsQuietAt (L.faults library.old) (L.faults library.new) (L.last library.old) last e) }
    ensures fetch { let last = L.last library.new in let due = due_at (used.now ∷ []) moment in
        IfErr result (λ e. IsFetchIn (L.faults library.old) (L.faults library.new) last due e) }
    ensures fetch_first { let due = due_at (used.now ∷ []) moment in L.tells
        → IfErr result (λ e. IsFirstFetch (L.file library.old) most_side limit sum due e) }
    ensures later { L.faults library.old ≤ L.faults library.new }
    ensures same { L.tells → SameFiles (L.file library.old) (L.file library.new) }
{
    if used.from != moment {
        return Ok(sum);
    }
    read_into(alloc, library, &used.wanted, sum, limit, most_side, frames)
}

/// Reads a wanted frame, after others that have `sum` bytes. The answer is the sum of the bytes with it.
pub(crate) fn read_into<L: Library>(
    alloc: Global,
    library: &mut L,
    wanted: &Wanted,
    sum: u64,
    limit: u64,
    most_side: u32,
    frames: &mut Vec<SourceFrame>,
) -> Result<u64, SeqFault>
    requires sum { sum ≤ 2 ^ 62 }
    requires limit { limit ≤ 2 ^ 62 }
    requires side { most_side ≤ MOST_SIDE }
    ensures reads { let due = wanted.now ∷ [] in
        IfOk result (ReadsMore L.tells (L.file library.old) most_side limit sum due frames.old.items frames.new.items) }
    ensures quiet { let last = L.last library.new in
        OnOk result (IsQuiet (L.faults library.old) (L.faults library.new) (L.last library.old) last) }
    ensures refused { let told = first_refused (L.file library.old) most_side limit sum (wanted.now ∷ []) in
        L.tells → IfErr result (λ e. IsTold told e) }
    ensures quiet_refusal { let last = L.last library.new in
        IfErr result (λ e. IsQuietAt (L.faults library.old) (L.faults library.new) (L.last library.old) last e) }
    ensures fetch { let last = L.last library.new in let due = wanted.now ∷ [] in
        IfErr result (λ e. IsFetchIn (L.faults library.old) (L.faults library.new) last due e) }
    ensures fetch_first { let due = wanted.now ∷ [] in L.tells
        → IfErr result (λ e. IsFirstFetch (L.file library.old) most_side limit sum due e) }
    ensures later { L.faults library.old ≤ L.faults library.new }
    ensures same { L.tells → SameFiles (L.file library.old) (L.file library.new) }
{
    let image = read_frame(alloc, library, wanted, most_side)?;
    let all = sum_with(wanted, &image, sum, limit)?;
    frames.push(SourceFrame {
        node: wanted.node,
        frame: wanted.frame,
        size: all - sum,
        image,
    })?;
    Ok(all)
}
