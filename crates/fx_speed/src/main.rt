//! Does one thing many times, so that a script under `bench/` can time it: `fx_speed kept 1000000` asks
//! a core for kept keys, `shared` a directory, and `sharing` that in each of four threads; `turn` takes and gives a
//! turn, `turns` does so in eight threads on one slot,
//! `draw` draws numbers, and `one`, `two` and `four` do a piece of work for each number with as many
//! workers. `file` makes the bytes of a PAM file with so many rows of 1,920 pixels and `read` reads them
//! too, of r, g, b and a; with `rgb`, `scaled` or `short` behind its name, of other samples. `image` makes
//! an image of that width, and `write` and `write_rgb` write it too. `graph` makes the text of a graph of 256
//! nodes with so many keys each, `parse` reads it too, and `accept` reads it and accepts it over the effects that are
//! shipped. `regions` asks where twelve nodes have pixels, and what each tile of an HD frame needs of each. Whole frames
//! are rendered, and reduced, under the words of `effects.rt`. Several such pairs are done in their order.
#![tactic(auto)]

mod effects;
mod graph;
mod kept;
mod noise;
mod number;
mod paint;
mod pam;
mod pool;
mod reduced;
mod regions;
mod rows;
mod shared;
mod turns;

use fx_base::Memory;
use std::alloc::Global;
use std::env;
use std::io::Print;
use std::process::ExitCode;
use std::rt::Clock;
use std::sync::Wait;
use std::thread::Threads;

// The exit status where all is done.
const DONE: u8 = 0;

// The exit status at words of another form.
const USAGE: u8 = 1;

// The exit status where memory is wanting.
const MEMORY: u8 = 6;

fn main(rt: HostRuntime) -> ExitCode {
    let Ok(words) = env::args(&rt) else {
        return ExitCode::from(MEMORY);
    };
    let mut words = words.skip(1);
    while let Some(what) = words.next() {
        let count = words.next();
        let status = told(&rt, rt.alloc(), what.as_str(), count.as_deref());
        if status != DONE {
            return ExitCode::from(status);
        }
    }
    ExitCode::SUCCESS
}

// The exit status once a word is done so often, and its number told.
fn told<R: Threads + Wait + Clock + Print + Sync>(
    rt: &R,
    alloc: Global,
    what: &str,
    count: Option<&str>,
) -> u8 {
    let Some(count) = count else {
        return USAGE;
    };
    let Ok(count) = count.parse::<u32>() else {
        return USAGE;
    };
    match done(rt, alloc, what, count) {
        Ok(Some(number)) => {
            let _ = println!(rt; "{what} {count}: {number}");
            DONE
        }
        Ok(None) => USAGE,
        Err(Memory) => MEMORY,
    }
}

// What is done under a word. None where it is another one.
fn done<R: Threads + Wait + Clock + Sync>(
    rt: &R,
    alloc: Global,
    what: &str,
    count: u32,
) -> Result<Option<u64>, Memory> {
    match together(rt, alloc, what, count) {
        Some(number) => Ok(Some(number?)),
        None => alone(alloc, what, count),
    }
}

// What workers do under a word, if it is one of theirs.
fn together<R: Threads + Wait + Clock + Sync>(
    rt: &R,
    alloc: Global,
    what: &str,
    count: u32,
) -> Option<Result<u64, Memory>> {
    Some(match what {
        "shared" => shared::ask_together(rt, alloc, 1, count),
        "sharing" => shared::ask_together(rt, alloc, 4, count),
        "turn" => turns::add_together(rt, alloc, 1, count),
        "turns" => turns::add_together(rt, alloc, 8, count),
        "one" => pool::work_together(rt, alloc, 1, count),
        "two" => pool::work_together(rt, alloc, 2, count),
        "four" => pool::work_together(rt, alloc, 4, count),
        _ => return None,
    })
}

// What is done under a word with no workers. None where it is another one.
fn alone(alloc: Global, what: &str, count: u32) -> Result<Option<u64>, Memory> {
    let number = match what {
        "kept" => kept::ask_kept(alloc, count),
        "draw" => pool::draw_alone(alloc, count),
        "graph" => graph::length(alloc, count),
        "parse" => graph::read(alloc, count),
        "accept" => graph::accepted(alloc, count),
        "regions" => regions::ask_regions(alloc, count),
        _ if what.contains(':') => return effects::render(alloc, what, count),
        _ => return pam::done(alloc, what, count),
    };
    Ok(Some(number?))
}
