//! Frames of 1,920 by 1,080 pixels of r, g, b and a that are reduced.
ghost use Rattle.std.specs.Prelude.{◌≤◌, IfOk};
ghost use Rattle.fx_proxy.specs.Reduced.{IsWhole};

use crate::noise::{depth_of, noise};
use crate::pam::sum;
use fx_base::Memory;
use fx_image::Image;
use fx_pixel::Depth;
use fx_proxy::reduce;
use std::alloc::Global;

/// Reduces a frame so many times, of the depth and by the number, 1 to 8, of a word like `byte:2`: the sum of the samples
/// at the bottom left of the last one. None where it is another word.
pub(crate) fn done(alloc: Global, word: &str, count: u32) -> Result<Option<u64>, Memory> {
    let Some((depth, scale)) = word.split_once(':') else {
        return Ok(None);
    };
    match (depth_of(depth), scale.parse::<u32>()) {
        (Some(depth), Ok(scale)) => {
            let image = whole(alloc, depth)?;
            Ok(Some(corner(alloc, &image, scale.clamp(1, 8), count)?))
        }
        _ => Ok(None),
    }
}

fn corner(alloc: Global, image: &Image, scale: u32, count: u32) -> Result<u64, Memory>
    requires whole { IsWhole image.now.rect }
    requires scale { (1 ≤ scale) × (scale ≤ 8) }
{
    let mut corner = 0;
    for _ in 0..count {
        let small = reduce(alloc, image, scale)?;
        corner = sum(small.at(0, 0));
    }
    Ok(corner)
}

// The frame. That it starts at the origin and has pixels its type doesn't say.
fn whole(alloc: Global, depth: Depth) -> Result<Image, Memory>
    ensures { IfOk result (λ image. IsWhole image.rect) }
{
    let image = noise(alloc, depth, 1)?;
    let rect = image.rect();
    if rect.x1 != 0 || rect.y1 != 0 || rect.width() == 0 || rect.height() == 0 {
        return Err(Memory);
    }
    Ok(image)
}
