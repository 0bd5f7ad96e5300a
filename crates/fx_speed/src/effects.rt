//! What is rendered under a word: frames of 1,920 by 1,080 pixels of r, g, b and a that effects render, the copying of
//! the same rows, and rows that are read.
ghost use Rattle.std.specs.Prelude.{◌≡◌, ◌<◌, ◌≤◌, ◌∷◌, [], length, IsTrue, IfOk, IfSome};
ghost use Rattle.std.specs.List.{AllZip, Contains};
ghost use Rattle.fx_base.specs.Rect.{IsFrame};
ghost use Rattle.fx_pixel.specs.declared.Components.TheVariants.{Rgba as RgbaSamples};
ghost use Rattle.fx_effect.specs.declared.action.Context.{Context as Contexts};
ghost use Rattle.fx_effect.specs.Shape.{InRange, IsLawful, MayBe, shown_components, supports};
ghost use Rattle.fx_effect.specs.Placed.{IsPiece};
ghost use Rattle.fx_shipped.specs.Shipped.{meaning_of};

use crate::noise::{COLUMNS, ROWS, depth_of, noise};
use crate::paint::{Copier, NOW, Painter, paint_frames};
use crate::reduced;
use crate::rows::{self, one_clip};
use fx_base::{Memory, Rect};
use fx_effect::{Catalogue, Context, Flags, ImageEffect, Inputs, Numbers, Piece, Steps, Values};
use fx_image::Image;
use fx_params::ParamDef;
use fx_pixel::{Components, Depth};
use fx_shipped::Shipped;
use std::alloc::Global;

// As many images take turns.
const MOST_IMAGES: usize = 4;

/// Renders so many frames as the word says: the sum of the samples in the middle of the last one. The
/// word is the effect's name or `copy`, `byte` or `short`, `whole` or `tiles`, the numbers of the
/// parameters, and how many frames before and behind the one that is rendered the clips have, as in
/// `frameblend:byte:whole:1:1:1`. Behind `row:` rows are read, and behind `reduce:` a frame is reduced. None where it is
/// another word.
pub(crate) fn render(alloc: Global, word: &str, count: u32) -> Result<Option<u64>, Memory> {
    match word.split_once(':') {
        Some(("reduce", word)) => reduced::done(alloc, word, count),
        Some(("row", word)) => rows::done(alloc, word, count),
        _ => match Task::read(word) {
            Some(task) => task.done(alloc, count),
            None => Ok(None),
        },
    }
}

// What is rendered; without an effect rows are copied.
#[derive(Clone, Copy)]
struct Task<'a> {
    effect: Option<Shipped>,
    depth: Depth,
    tiled: bool,
    numbers: &'a str,
    before: u8,
    behind: u8,
}

impl<'a> Task<'a> {
    fn read(word: &'a str) -> Option<Task<'a>> {
        let mut parts = word.split(':');
        let effect = match parts.next()? {
            "copy" => None,
            name => Some(Shipped::named(name)?),
        };
        let depth = depth_of(parts.next()?)?;
        let tiled = match parts.next()? {
            "whole" => false,
            "tiles" => true,
            _ => return None,
        };
        Some(Task {
            effect,
            depth,
            tiled,
            numbers: parts.next().unwrap_or(""),
            before: frames_of(parts.next())?,
            behind: frames_of(parts.next())?,
        })
    }

    fn done(&self, alloc: Global, count: u32) -> Result<Option<u64>, Memory> {
        match self.effect {
            Some(effect) => self.by_effect(alloc, effect, count),
            None => Ok(Some(self.by_copying(alloc, count)?)),
        }
    }

    fn by_copying(&self, alloc: Global, count: u32) -> Result<u64, Memory> {
        let image = noise(alloc, self.depth, 1)?;
        let mut inputs = one_clip(alloc, self.depth)?;
        inputs.push(alloc, 0, i64::from(NOW), whole(alloc, &image))?;
        let copier = Copier { inputs: &inputs };
        paint_frames(alloc, &copier, self.depth, self.tiled, count)
    }

    // None where the effect refuses the numbers or the depth.
    fn by_effect(&self, alloc: Global, effect: Shipped, count: u32) -> Result<Option<u64>, Memory> {
        if !has_depth(effect, self.depth) {
            return Ok(None);
        }
        match values_of(alloc, effect, self.numbers)? {
            Some(values) => Ok(Some(self.painted(alloc, effect, &values, count)?)),
            None => Ok(None),
        }
    }

    fn painted(
        &self,
        alloc: Global,
        effect: Shipped,
        values: &Values,
        count: u32,
    ) -> Result<u64, Memory>
        requires depth { IsTrue (supports (meaning_of effect).shape self.now.depth RgbaSamples) }
        requires frame { IsFrame values.now.frame }
        requires lawful { IsLawful (meaning_of effect).shape values.now }
    {
        let (shown, _) = clips_of(effect);
        let images = self.images(alloc, shown.len())?;
        let inputs = self.inputs(alloc, shown, &images)?;
        let painter = Painter {
            effect,
            values,
            inputs: &inputs,
        };
        paint_frames(alloc, &painter, self.depth, self.tiled, count)
    }

    // How many frames each clip has.
    fn frames(&self) -> usize
        ensures { result ≤ 511 }
    {
        1 + usize::from(self.before) + usize::from(self.behind)
    }

    // As many images as the clips have frames, and at most four, which take turns.
    fn images(&self, alloc: Global, clips: usize) -> Result<Vec<Image>, Memory> {
        let mut images = Vec::new(alloc);
        let count = clips.saturating_mul(self.frames()).min(MOST_IMAGES);
        for number in 0..count as u32 {
            let image = noise(alloc, self.depth, number)?;
            images.push(image)?;
        }
        Ok(images)
    }

    // Each clip at each of its frames.
    fn inputs<'i>(
        &self,
        alloc: Global,
        shown: &[Components],
        images: &'i [Image],
    ) -> Result<Inputs<'i>, Memory>
        requires { length shown.now ≤ 3 }
        ensures depth { IfOk result (λ inputs. inputs.depth ≡ self.now.depth) }
        ensures components { IfOk result (λ inputs. inputs.components ≡ shown.now) }
    {
        let clips = shown.len() as u32;
        let mut inputs = Inputs::new(alloc, self.depth, shown.to_vec(alloc)?)?;
        for clip in 0..clips {
            self.show(alloc, clip, images, &mut inputs)?;
        }
        Ok(inputs)
    }

    fn show<'i>(
        &self,
        alloc: Global,
        clip: u32,
        images: &'i [Image],
        inputs: &mut Inputs<'i>,
    ) -> Result<(), Memory>
        requires { clip < length inputs.old.components }
        ensures depth { inputs.new.depth ≡ inputs.old.depth }
        ensures components { inputs.new.components ≡ inputs.old.components }
    {
        if images.is_empty() {
            return Ok(());
        }
        let first = i64::from(NOW) - i64::from(self.before);
        for k in 0..self.frames() {
            let image = &images[(clip as usize + k) % images.len()];
            inputs.push(alloc, clip, first + k as i64, whole(alloc, image))?;
        }
        Ok(())
    }
}

// How many frames a part of a word says, and none where there is no such part.
fn frames_of(part: Option<&str>) -> Option<u8> {
    match part {
        Some(text) => text.parse::<u8>().ok(),
        None => Some(0),
    }
}

// A piece that lends the whole of an image.
fn whole(alloc: Global, image: &Image) -> Piece<'_>
    ensures { IsPiece result }
{
    let through = Steps::of(Vec::new(alloc));
    let view = image.view(image.rect());
    Piece::Frame { view, through }
}

// ---- what an effect is asked with

// Whether the effect renders images of r, g, b and a of the depth.
fn has_depth(effect: Shipped, depth: Depth) -> bool
    ensures { IsTrue result → IsTrue (supports (meaning_of effect).shape depth RgbaSamples) }
{
    match effect {
        Shipped::Posterise => matches!(depth, Depth::Byte),
        _ => true,
    }
}

// A context that the effect supports.
fn context_of(effect: Shipped) -> Context
    ensures { Contains (meaning_of effect).shape.contexts result }
{
    match effect {
        Shipped::Dissolve | Shipped::Wipe => Context::Transition,
        _ => Context::General,
    }
}

// In which components each input clip is shown, and that each is connected.
fn clips_of(effect: Shipped) -> (&'static [Components], &'static [bool])
    ensures few { length result.0.now ≤ 3 }
    ensures shown { (c : Contexts) → result.0.now ≡ shown_components (meaning_of effect).shape c RgbaSamples }
    ensures connected { (c : Contexts) → AllZip MayBe ((meaning_of effect).shape.clips c) result.1.now }
{
    match effect {
        Shipped::Solid | Shipped::Checker | Shipped::Ramp | Shipped::Grain => (&[], &[]),
        Shipped::Dissolve | Shipped::Wipe | Shipped::Merge => (
            &[Components::Rgba, Components::Rgba],
            &[true, true],
        ),
        Shipped::Keymix => (
            &[Components::Rgba, Components::Rgba, Components::Alpha],
            &[true, true, true],
        ),
        _ => (&[Components::Rgba], &[true]),
    }
}

// The values that the effect is asked with. None where it refuses the numbers.
fn values_of(alloc: Global, effect: Shipped, text: &str) -> Result<Option<Values>, Memory>
    ensures frame { IfOk result (λ found. IfSome found (λ values. IsFrame values.frame)) }
    ensures lawful { IfOk result (λ found. IfSome found (IsLawful (meaning_of effect).shape)) }
{
    let (_, connected) = clips_of(effect);
    let defs = defs_of(alloc, effect, context_of(effect))?;
    let Some(numbers) = numbers_of(alloc, &defs, text)? else {
        return Ok(None);
    };
    Ok(Some(Values {
        frame: i64::from(NOW),
        numbers: Numbers::of(numbers),
        connected: Flags::of(connected.to_vec(alloc)?),
        project: Rect::of(0, 0, COLUMNS, ROWS),
    }))
}

// The effect's parameters.
fn defs_of(alloc: Global, effect: Shipped, context: Context) -> Result<Vec<ParamDef>, Memory>
    requires { Contains (meaning_of effect).shape.contexts context }
    ensures { IfOk result (λ defs. defs.items ≡ (meaning_of effect).shape.params context) }
{
    let mut clips = Vec::new(alloc);
    let mut defs = Vec::new(alloc);
    effect.describe_in_context(alloc, context, &mut clips, &mut defs)?;
    Ok(defs)
}

// The numbers of a text, and where it has fewer the ones that the parameters start with. None where one
// is no number or out of its parameter's range.
fn numbers_of(alloc: Global, defs: &[ParamDef], text: &str) -> Result<Option<Vec<i64>>, Memory>
    ensures { IfOk result (λ found. IfSome found (λ numbers. AllZip InRange defs.now numbers.items)) }
{
    let mut parts = text.split(',');
    let mut numbers = Vec::new(alloc);
    for def in defs {
        let Some(number) = number_of(def, parts.next()) else {
            return Ok(None);
        };
        numbers.push(number)?;
    }
    Ok(Some(numbers))
}

fn number_of(def: &ParamDef, text: Option<&str>) -> Option<i64>
    ensures { IfSome result (InRange def.now) }
{
    let number = match text {
        Some("") => def.start,
        Some(text) => text.parse::<i64>().ok()?,
        None => def.start,
    };
    if def.least <= number && number <= def.greatest {
        Some(number)
    } else {
        None
    }
}
