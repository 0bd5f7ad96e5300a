//! The order in which actions come to an effect, and the gates of its instances.
ghost use Rattle.std.specs.Prelude.{◌≡◌, ◌≢◌, ◌<◌, ◌^◌, pos};
ghost use Rattle.fx_base.specs.Bounds.{none};
ghost use Rattle.fx_image.specs.Part.{IsPart, SamePart};
ghost use Rattle.fx_pixel.specs.declared.Components.TheVariants as components;
ghost use Rattle.fx_pixel.specs.declared.Depth.TheVariants as depths;
ghost use Rattle.fx_effect.specs.Shape.{IsLawfulIn};
ghost use Rattle.fx_effect.specs.declared.action.Context.TheVariants as context;
ghost use Rattle.fx_rows_effects.specs.Toy.{toy_shape};

use crate::same::same;
use crate::toy::Toy;
use crate::toys::Toys;
use fx_actions::{frames_needed, identity, region_of_definition, regions_of_interest};
use fx_base::{Memory, Names, Rect};
use fx_core::Ticket;
use fx_effect::{Catalogue, Context, Flags, ImageEffect, Inputs, Numbers, Values, window_args};
use fx_gate::Gates;
use fx_image::{Image, Part};
use fx_life::{Loaded, Running, Use};
use fx_pixel::{Components, Depth, Pixel};
use fx_props::PropSet;
use fx_shipped::Shipped;
use std::alloc::Global;
use std::rt::Clock;
use std::sync::Wait;
use std::sync::atomic::{AtomicU64, Ordering};

const GREY: Pixel = Pixel::Rgba {
    r: 9,
    g: 9,
    b: 9,
    a: 9,
};

const CLEAR: Pixel = Pixel::Rgba {
    r: 0,
    g: 0,
    b: 0,
    a: 0,
};

fn used_by(node: u32) -> Use
    ensures { result ≡ record { node = node; context = context.Generator } }
{
    Use {
        node,
        context: Context::Generator,
    }
}

// A toy that notes the actions of its life.
fn noting(notes: &AtomicU64) -> Toys<'_> {
    Toys::One(Toy {
        notes: Some(notes),
        counts: None,
    })
}

// A toy that counts its actions.
fn counting(counts: &AtomicU64) -> Toy<'_> {
    Toy {
        notes: None,
        counts: Some(counts),
    }
}

// What a toy is asked with, at frame 4 of a project of 3 by 2 pixels.
fn plain_values(alloc: Global) -> Values
    ensures frame { result.frame ≡ pos 4 }
    ensures lawful { IsLawfulIn toy_shape context.Generator result }
{
    Values {
        frame: 4,
        numbers: Numbers::of(Vec::new(alloc)),
        connected: Flags::of(Vec::new(alloc)),
        project: Rect::of(0, 0, 3, 2),
    }
}

// Of a picture of 3 by 2 pixels that has two grey ones, an instance renders the two right columns. Answers as well
// whether that was stamped.
fn one_renders<R: Wait + Clock>(
    rt: &R,
    alloc: Global,
    effect: Toys<'_>,
) -> Result<(Image, bool), Memory> {
    let (byte, rgba) = (Depth::Byte, Components::Rgba);
    let mut image = Image::new(alloc, Rect::of(0, 0, 3, 2), byte, rgba, 12)?;
    image.put(0, 1, GREY);
    image.put(2, 0, GREY);
    let mut part = image.part(Rect::of(1, 0, 3, 2));
    let stamped = one_lives(rt, alloc, effect, &mut part)?;
    Ok((image, stamped))
}

// An instance renders the part in its one life, under a hold of the effect's gate. Answers whether its ticket was stamped.
fn one_lives<R: Wait + Clock>(
    rt: &R,
    alloc: Global,
    effect: Toys<'_>,
    part: &mut Part<'_>,
) -> Result<bool, Memory>
    requires part { IsPart part.old }
    requires window { part.old.rect ≢ none }
    requires depth { part.old.image.now.depth ≡ depths.Byte }
    requires components { part.old.image.now.components ≡ components.Rgba }
    ensures { SamePart part.old part.new }
{
    let values = plain_values(alloc);
    let inputs = Inputs::new(alloc, Depth::Byte, Vec::new(alloc))?;
    let (gates, mut seat) = Gates::new(alloc, 4)?;
    let running = Running::start(alloc, effect, &[used_by(8)], 4, 9)?;
    let mut hold = gates.hold(rt, &mut seat, 3);
    let mut ticket = Ticket {
        scene: 1,
        number: 2,
        stamped: false,
    };
    let outcome = running.render(alloc, 0, &values, &inputs, &mut hold, &mut ticket, part);
    gates.release(&mut seat, hold);
    let Ticket {
        scene,
        number,
        stamped,
    } = ticket;
    running.finish();
    outcome?;
    Ok(stamped & (scene == 1) & (number == 2))
}

#[test]
fn actions_come_in_order(rt: HostRuntime) {
    let notes = AtomicU64::new(0);
    let (image, stamped) = one_renders(&rt, rt.alloc(), noting(&notes)).expect(&rt, "no memory");
    // loaded, described, and in its context; created; begun from 4 to 9; rendered; ended; destroyed; unloaded
    same(&rt, notes.load(Ordering::SeqCst), 1234549674989);
    assert!(rt; stamped);
    // Column 0 is left of the window, and column 2 in it.
    same(&rt, image.at(0, 1), GREY);
    same(&rt, image.at(2, 0), CLEAR);
}

#[test]
fn instances_stand_before_sequences_begin(rt: HostRuntime) {
    let notes = AtomicU64::new(0);
    Running::start(rt.alloc(), noting(&notes), &[used_by(8), used_by(9)], 4, 9)
        .expect(&rt, "no memory")
        .finish();
    // Both are created, both begin; both end, both are destroyed.
    same(&rt, notes.load(Ordering::SeqCst), 12344549549749749889);
}

#[test]
fn an_effect_without_instances_is_described(rt: HostRuntime) {
    let notes = AtomicU64::new(0);
    Running::start(rt.alloc(), noting(&notes), &[], 4, 9)
        .expect(&rt, "no memory")
        .finish();
    // loaded, described, unloaded
    same(&rt, notes.load(Ordering::SeqCst), 129);
}

// Asks for all actions, each once: in the life of an instance that renders once, by the host's own questions, and
// for the clips' preferences, which the host never changes.
fn ask_each<R: Wait + Clock>(rt: &R, alloc: Global, effect: Toys<'_>) -> Result<(), Memory> {
    one_renders(rt, alloc, effect)?;
    ask_regions(alloc, effect)?;
    let values = plain_values(alloc);
    let mut preferences = PropSet::new(alloc, Vec::new(alloc))?;
    effect.get_clip_preferences(alloc, &values, &mut preferences)?;
    Ok(())
}

fn ask_regions(alloc: Global, effect: Toys<'_>) -> Result<(), Memory> {
    let values = plain_values(alloc);
    let window = Rect::of(0, 0, 3, 2);
    let (names, optional) = (Names::of(Vec::new(alloc)), Flags::of(Vec::new(alloc)));
    identity(&effect, &values, &window_args(alloc, 4, window)?);
    frames_needed(alloc, &effect, &names, &values)?;
    regions_of_interest(alloc, &effect, &names, &values, window)?;
    region_of_definition(alloc, &effect, Context::Generator, &optional, &values, &[])?;
    Ok(())
}

#[test]
fn each_action_reaches_its_effect(rt: HostRuntime) {
    let (first, second) = (AtomicU64::new(0), AtomicU64::new(0));
    ask_each(&rt, rt.alloc(), Toys::One(counting(&first))).expect(&rt, "no memory");
    ask_each(&rt, rt.alloc(), Toys::Other(counting(&second))).expect(&rt, "no memory");
    // Each of the fourteen came once.
    same(&rt, first.load(Ordering::SeqCst), 0x11_1111_1111_1111);
    same(&rt, second.load(Ordering::SeqCst), 0x11_1111_1111_1111);
}

// The gate of a node, of the effect that the catalogue has by this name.
fn gate_of<E: Catalogue + Drop>(alloc: Global, name: &str, node: u32) -> Result<Option<u32>, Memory>
    requires { node < 2 ^ 31 }
{
    let Some(effect) = E::named(name) else {
        return Ok(None);
    };
    let loaded = match Loaded::load(alloc, effect) {
        Ok(loaded) => loaded,
        Err((_, memory)) => return Err(memory),
    };
    match loaded.describe(alloc) {
        Ok(plugin) => {
            let gate = plugin.gate_of(node);
            plugin.unload();
            Ok(gate)
        }
        Err((loaded, memory)) => {
            loaded.unload();
            Err(memory)
        }
    }
}

#[test]
fn gates_are_the_plugins_or_the_instances(rt: HostRuntime) {
    let alloc = rt.alloc();
    same(&rt, gate_of::<Toys<'_>>(alloc, "toy", 0), Ok(Some(3)));
    same(&rt, gate_of::<Toys<'_>>(alloc, "toy", 9), Ok(Some(3)));
    same(&rt, gate_of::<Toys<'_>>(alloc, "nobody", 9), Ok(None));
    // The number of an unsafe effect, and 64 plus the node of one whose instances are safe.
    same(
        &rt,
        gate_of::<Shipped>(alloc, "frameblend", 9),
        Ok(Some(19)),
    );
    same(&rt, gate_of::<Shipped>(alloc, "boxblur", 9), Ok(Some(73)));
    same(&rt, gate_of::<Shipped>(alloc, "solid", 9), Ok(None));
}
