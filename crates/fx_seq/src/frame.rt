//! One wanted frame: it is fetched and read, and its size is counted.
ghost use Rattle.std.specs.Prelude.{◌≡◌, ◌≤◌, ◌<◌, ◌+◌, ◌^◌, ◌⊎◌, ℕ, List, Option, Some, IfOk, IfErr, OnOk};
ghost use Rattle.fx_base.specs.declared.limits.TheConstants.{MOST_SIDE};
ghost use Rattle.std.specs.Int.{int_gap};
ghost use Rattle.fx_outside.specs.Outside.{SameFiles};
ghost use Rattle.fx_image.specs.Stored.{image_of};
ghost use Rattle.fx_pam.specs.Reading.{IsPam, pam_fault};
ghost use Rattle.fx_seq.specs.Filling.{refusal, refusal_read, IsTold, IsFetchOf, IsQuiet, IsQuietAt};
ghost use Rattle.fx_seq.specs.Frames.{image_size, IsSide, IsSourceFrame, IsPicture};
ghost use Rattle.fx_seq.specs.declared.fault.SeqFault.TheVariants.{Fetch, TooLarge, Memory as OutOfMemory};
ghost use Rattle.fx_seq.specs.declared.fault.SeqFault.{SeqFault};

use crate::{SeqFault, Wanted};
use fx_base::{Memory, Name};
use fx_image::Image;
use fx_outside::{FetchFault, Library};
use fx_pam::{PamFault, read};
use std::alloc::Global;

/// The image of one wanted frame.
pub fn read_frame<L: Library>(
    alloc: Global,
    library: &mut L,
    wanted: &Wanted,
    most_side: u32,
) -> Result<Image, SeqFault>
    requires { most_side ≤ MOST_SIDE }
    ensures picture { L.tells → IfOk result (λ image. IsPicture (L.file library.old) most_side wanted.now.name image) }
    ensures frame { IfOk result (λ image. IsSourceFrame image) }
    ensures quiet { let last = L.last library.new in
        OnOk result (IsQuiet (L.faults library.old) (L.faults library.new) (L.last library.old) last) }
    ensures quiet_refusal { let last = L.last library.new in
        IfErr result (λ e. IsQuietAt (L.faults library.old) (L.faults library.new) (L.last library.old) last e) }
    ensures refused { L.tells
        → IfErr result (λ e. (limit sum : ℕ) → IsTold (refusal (L.file library.old) most_side limit sum wanted.now) e) }
    ensures fetch { let last = L.last library.new in
        IfErr result (λ e. IsFetchOf (L.faults library.old) (L.faults library.new) last wanted.now e) }
    ensures later { L.faults library.old ≤ L.faults library.new }
    ensures same { L.tells → SameFiles (L.file library.old) (L.file library.new) }
{
    let bytes = fetch(alloc, library, wanted)?;
    image_in(alloc, &bytes, wanted, most_side)
}

// The image in the bytes of a wanted frame's file.
fn image_in(alloc: Global, bytes: &[u8], wanted: &Wanted, most_side: u32) -> Result<Image, SeqFault>
    requires { most_side ≤ MOST_SIDE }
    ensures image { IfOk result (λ image. IsPam bytes.now most_side (image_of image)) }
    ensures frame { IfOk result (λ image. IsSourceFrame image) }
    ensures fault { let fault = pam_fault bytes.now most_side in
        IfErr result (λ e. (limit sum : ℕ) → IsTold (refusal_read limit wanted.now sum fault) e) }
    ensures no_fetch { IfErr result (λ e. (before now : ℕ) (last : List ℕ) → IsFetchOf before now last wanted.now e) }
    ensures quiet { IfErr result (λ e. (before now : ℕ) (was last : List ℕ) → IsQuiet before now was last
        → IsQuietAt before now was last e) }
{
    match read(alloc, bytes, most_side) {
        Ok(image) => {
            image.pixels_fit();
            Ok(image)
        }
        Err(PamFault::Memory) => Err(SeqFault::Memory),
        Err(fault) => Err(SeqFault::Frame(wanted.node, wanted.frame, fault)),
    }
}

// The bytes of one wanted frame's file.
fn fetch<L: Library>(alloc: Global, library: &mut L, wanted: &Wanted) -> Result<Vec<u8>, SeqFault>
    ensures bytes { L.tells → IfOk result (λ bytes. L.file library.old wanted.now.name ≡ Some bytes.items) }
    ensures no_refusal { IfErr result (λ e. (told : Option SeqFault) → IsTold told e) }
    ensures quiet { let last = L.last library.new in
        OnOk result (IsQuiet (L.faults library.old) (L.faults library.new) (L.last library.old) last) }
    ensures not_quiet { IfErr result (λ e. (before now : ℕ) (was last : List ℕ) → IsQuietAt before now was last e) }
    ensures failed { let last = L.last library.new in
        IfErr result (λ e. IsFetchOf (L.faults library.old) (L.faults library.new) last wanted.now e) }
    ensures later { L.faults library.old ≤ L.faults library.new }
    ensures same { L.tells → SameFiles (L.file library.old) (L.file library.new) }
{
    match library.fetch(alloc, wanted.name.text()) {
        Ok(bytes) => Ok(bytes),
        Err(FetchFault::Failed) => Err(fetch_fault(alloc, wanted)),
        Err(FetchFault::Memory) => Err(SeqFault::Memory),
    }
}

fn fetch_fault(alloc: Global, wanted: &Wanted) -> SeqFault
    ensures { (result ≡ Fetch wanted.now.node wanted.now.frame wanted.now.name) ⊎ (result ≡ OutOfMemory) }
{
    match wanted.name.copied(alloc) {
        Ok(name) => SeqFault::Fetch(wanted.node, wanted.frame, name),
        Err(Memory) => SeqFault::Memory,
    }
}

/// The bytes of the frames read so far, with this one: `TooLarge` where they are more than the limit.
pub fn sum_with(wanted: &Wanted, image: &Image, sum: u64, limit: u64) -> Result<u64, SeqFault>
    requires frame { IsSourceFrame image.now }
    requires sum { sum ≤ 2 ^ 62 }
    ensures sum { IfOk result (λ all. all ≡ sum + image_size image.now) }
    ensures few { IfOk result (λ all. all ≤ sum + 2 ^ 29) }
    ensures fits { IfOk result (λ all. all ≤ limit) }
    ensures fault { IfErr result (λ e. e ≡ TooLarge wanted.now.node wanted.now.frame (sum + image_size image.now)) }
    ensures too_large { IfErr result (λ e. limit < sum + image_size image.now) }
{
    let sum = sum + size_of(image);
    if sum > limit {
        Err(SeqFault::TooLarge(wanted.node, wanted.frame, sum))
    } else {
        Ok(sum)
    }
}

// How many bytes an image's pixels have, with 4 samples each.
fn size_of(image: &Image) -> u64
    requires { IsSourceFrame image.now }
    ensures value { result ≡ image_size image.now }
    ensures bound { result ≤ 2 ^ 29 }
{
    let rect = image.rect();
    let pixels = side(rect.x1, rect.x2) * side(rect.y1, rect.y2);
    pixels * 4 * u64::from(image.depth().size())
}

// How many columns or rows lie between.
fn side(low: i64, high: i64) -> u64
    requires { IsSide low high }
    ensures value { result ≡ int_gap low high }
    ensures bound { result ≤ MOST_SIDE }
{
    (high - low) as u64
}
