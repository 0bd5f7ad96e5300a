//! Frames of sources at a fraction of their size.
ghost use Rattle.std.specs.Prelude.{◌≡◌, ℕ, ℤ, IfOk, option_map};
ghost use Rattle.std.specs.List.{AllZip};
ghost use Rattle.fx_image.specs.Stored.{image_of};
ghost use Rattle.fx_scene.specs.Depends.{AreSame};
ghost use Rattle.fx_seq.specs.Lists.{frames_in};
ghost use Rattle.fx_proxy.specs.Proxy.{IsScaledFrame, scaled_images};
ghost use Rattle.fx_proxy.specs.Reduced.{IsScale};

use crate::reducing::reduce;
use fx_base::Memory;
use fx_seq::SourceFrame;
use std::alloc::Global;

/// Frames of sources at 1/q of their size, each as `reduce` makes it. Its size stays that of its file, so frames are
/// counted as before. Where q is 1 they come back as they are; q is 1, 2, 4 or 8. `Memory` comes where memory is
/// wanting.
pub fn scale_frames(
    alloc: Global,
    frames: Vec<SourceFrame>,
    q: u32,
) -> Result<Vec<SourceFrame>, Memory>
    requires { IsScale q }
    ensures frames { IfOk result (λ small. AllZip (IsScaledFrame q) frames.items small.items) }
    ensures images { let images = λ (n : ℕ) (f : ℤ). option_map image_of (frames_in frames.items n f) in
        IfOk result (λ small. (n : ℕ) (f : ℤ)
        → AreSame (option_map image_of (frames_in small.items n f)) (scaled_images q images n f)) }
{
    if q == 1 {
        return Ok(frames);
    }
    scale_each(alloc, frames, q)
}

fn scale_each(alloc: Global, frames: Vec<SourceFrame>, q: u32) -> Result<Vec<SourceFrame>, Memory>
    requires { IsScale q }
    ensures { IfOk result (λ small. AllZip (IsScaledFrame q) frames.items small.items) }
{
    let mut small = Vec::with_capacity(alloc, frames.len())?;
    for frame in frames {
        let scaled = scale_frame(alloc, frame, q)?;
        small.push(scaled)?;
    }
    Ok(small)
}

fn scale_frame(alloc: Global, frame: SourceFrame, q: u32) -> Result<SourceFrame, Memory>
    requires { IsScale q }
    ensures { IfOk result (IsScaledFrame q frame) }
{
    let SourceFrame {
        node,
        frame,
        size,
        image,
    } = frame;
    let image = reduce(alloc, &image, q)?;
    image.pixels_fit();
    Ok(SourceFrame {
        node,
        frame,
        size,
        image,
    })
}
