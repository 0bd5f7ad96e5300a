//! The source frames.
ghost use Rattle.std.specs.Prelude.{◌≡◌, ◌++◌, IfOk, OnOk};
ghost use Rattle.fx_bench.specs.Generator.{state};
ghost use Rattle.fx_bench.specs.Frames.{frame_samples, samples, header, frame_name, AreFrames};

use crate::generator::Generator;
use fx_base::{Memory, Name};
use std::alloc::Global;

// 320 by 240 pixels of r, g, b and a.
const SAMPLES: u32 = 307_200;

const FRAMES: u32 = 4;

const HEADER: &str = "P7\nWIDTH 320\nHEIGHT 240\nDEPTH 4\nMAXVAL 255\nTUPLTYPE RGB_ALPHA\nENDHDR\n";

// Appends as many samples, one of each draw.
fn add_samples(draws: &mut Generator, count: u32, bytes: &mut Vec<u8>) -> Result<(), Memory>
    ensures state { OnOk result (draws.new.state ≡ state draws.old.state count) }
    ensures bytes { OnOk result (bytes.new.items ≡ bytes.old.items ++ samples draws.old.state count) }
{
    for _ in 0..count {
        bytes.push((draws.next() % 256) as u8)?;
    }
    Ok(())
}

// A frame's file, over the next draws.
fn frame(alloc: Global, draws: &mut Generator) -> Result<Vec<u8>, Memory>
    ensures state { OnOk result (draws.new.state ≡ state draws.old.state frame_samples) }
    ensures bytes { IfOk result (λ bytes. bytes.items ≡ header ++ samples draws.old.state frame_samples) }
{
    let mut bytes = HEADER.as_bytes().to_vec(alloc)?;
    add_samples(draws, SAMPLES, &mut bytes)?;
    Ok(bytes)
}

fn named(alloc: Global, frame: u32) -> Result<Name, Memory>
    ensures { IfOk result (λ name. name ≡ frame_name frame) }
{
    Ok(Name::of(format!(in alloc; "in{frame}.pam")?))
}

/// The files of all frames, over the next draws.
pub(crate) fn frames(alloc: Global, draws: &mut Generator) -> Result<Vec<(Name, Vec<u8>)>, Memory>
    ensures { IfOk result (λ files. AreFrames draws.old.state 4 files.items) }
{
    let mut files = Vec::new(alloc);
    for k in 0..FRAMES {
        let name = named(alloc, k)?;
        let bytes = frame(alloc, draws)?;
        files.push((name, bytes))?;
    }
    Ok(files)
}
