//! Rows of pixels that inputs show, in one piece or in several.
ghost use Rattle.std.specs.Prelude.{◌≡◌, ◌*◌, ◌≤ℤ◌, pos, [], ◌∷◌, length, IfOk};
ghost use Rattle.fx_base.specs.Rect.{IsNear, columns};
ghost use Rattle.fx_pixel.specs.declared.Depth.TheVariants.{Byte};
ghost use Rattle.fx_pixel.specs.declared.Components.TheVariants.{Rgba as RgbaSamples};

use crate::noise::{ROWS, noise};
use fx_base::{Memory, Rect};
use fx_effect::{Inputs, Piece, Steps};
use fx_image::Image;
use fx_pixel::{Components, Depth};
use std::alloc::Global;

// As many pieces lie side by side at most, and as many above one another.
const MOST_ACROSS: u16 = 64;

const MOST_UP: u16 = 128;

// As many rows take turns, so that they stay in the cache.
const TURNS: u32 = 16;

/// The columns that are read, and how wide and high the pieces are.
#[derive(Clone, Copy)]
struct Strips {
    from: u16,
    width: u16,
    strip: u16,
    height: u16,
}

/// Reads so many rows: the sum of the bytes of the last one. The word has the first column, the columns, the width of a
/// piece and, if it has not all rows, its height, as in `63:66:64` or `0:1920:384:10`. None where it is another word.
pub(crate) fn done(alloc: Global, word: &str, count: u32) -> Result<Option<u64>, Memory> {
    let Some(strips) = Strips::read(word) else {
        return Ok(None);
    };
    let image = noise(alloc, Depth::Byte, 1)?;
    Ok(Some(strips.sum_of_rows(alloc, &image, count)?))
}

impl Strips {
    fn read(word: &str) -> Option<Strips> {
        let mut parts = word.split(':');
        Some(Strips {
            from: number(parts.next()?)?,
            width: number(parts.next()?)?,
            strip: number(parts.next()?)?,
            height: number(parts.next().unwrap_or("1080"))?,
        })
    }

    fn sum_of_rows(self, alloc: Global, image: &Image, count: u32) -> Result<u64, Memory> {
        let inputs = self.inputs(alloc, image)?;
        let rect = self.rect();
        let mut row = Vec::new(alloc);
        row.resize(4 * rect.width() as usize, 0)?;
        read_rows(&inputs, rect, row.as_mut_slice(), count);
        Ok(sum_of(&row))
    }

    // What is read.
    fn rect(self) -> Rect
        ensures columns { result.x1 ≤ℤ result.x2 }
        ensures rows { (result.y1 ≡ pos 0) × (result.y2 ≡ pos 1080) }
        ensures near { IsNear result }
    {
        let left = i64::from(self.from);
        Rect::of(left, 0, left + i64::from(self.width.max(1)), ROWS)
    }

    // One clip, in pieces of the size, of which those that the image has and that are read.
    fn inputs<'a>(self, alloc: Global, image: &'a Image) -> Result<Inputs<'a>, Memory>
        ensures depth { IfOk result (λ inputs. inputs.depth ≡ Byte) }
        ensures components { IfOk result (λ inputs. inputs.components ≡ RgbaSamples ∷ []) }
    {
        let mut inputs = one_clip(alloc, Depth::Byte)?;
        for row in 0..MOST_UP {
            self.show_row(alloc, image, row, &mut inputs)?;
        }
        Ok(inputs)
    }

    // The pieces side by side in a row of them.
    fn show_row<'a>(
        self,
        alloc: Global,
        image: &'a Image,
        row: u16,
        inputs: &mut Inputs<'a>,
    ) -> Result<(), Memory>
        requires { inputs.old.components ≡ RgbaSamples ∷ [] }
        ensures depth { inputs.new.depth ≡ inputs.old.depth }
        ensures components { inputs.new.components ≡ inputs.old.components }
    {
        for column in 0..MOST_ACROSS {
            let piece = self.piece(column, row);
            if !piece.meet(self.rect()).is_empty() {
                show(alloc, image, piece, inputs)?;
            }
        }
        Ok(())
    }

    fn piece(self, column: u16, row: u16) -> Rect {
        let (width, height) = (i64::from(self.strip), i64::from(self.height));
        let left = width.saturating_mul(i64::from(column));
        let bottom = height.saturating_mul(i64::from(row));
        let right = left.saturating_add(width);
        Rect::of(left, bottom, right, bottom.saturating_add(height))
    }
}

/// One clip of r, g, b and a, which shows nothing yet.
pub(crate) fn one_clip<'a>(alloc: Global, depth: Depth) -> Result<Inputs<'a>, Memory>
    ensures depth { IfOk result (λ inputs. inputs.depth ≡ depth) }
    ensures components { IfOk result (λ inputs. inputs.components ≡ RgbaSamples ∷ []) }
{
    let shown = vec![in alloc; Components::Rgba]?;
    Inputs::new(alloc, depth, shown)
}

fn number(text: &str) -> Option<u16> {
    text.parse::<u16>().ok()
}

fn sum_of(row: &[u8]) -> u64 {
    let mut sum = 0u64;
    for byte in row {
        sum = sum.wrapping_add(u64::from(*byte));
    }
    sum
}

fn show<'a>(
    alloc: Global,
    image: &'a Image,
    rect: Rect,
    inputs: &mut Inputs<'a>,
) -> Result<(), Memory>
    requires { inputs.old.components ≡ RgbaSamples ∷ [] }
    ensures depth { inputs.new.depth ≡ inputs.old.depth }
    ensures components { inputs.new.components ≡ inputs.old.components }
{
    if rect.within(image.rect()) {
        let view = image.view(rect);
        let through = Steps::of(Vec::new(alloc));
        inputs.push(alloc, 0, 0, Piece::Frame { view, through })?;
    }
    Ok(())
}

fn read_rows(inputs: &Inputs<'_>, rect: Rect, row: &mut [u8], count: u32)
    requires depth { inputs.now.depth ≡ Byte }
    requires components { inputs.now.components ≡ RgbaSamples ∷ [] }
    requires row { length row.old ≡ 4 * columns rect }
    requires columns { rect.x1 ≤ℤ rect.x2 }
    requires rows { (rect.y1 ≡ pos 0) × (rect.y2 ≡ pos 1080) }
{
    for n in 0..count {
        inputs.read_row(0, 0, rect, i64::from(n % TURNS), row);
    }
}
