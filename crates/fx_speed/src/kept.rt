//! Asks of kept keys.
ghost use Rattle.std.specs.Prelude.{◌≡◌, [], ◌∷◌};
ghost use Rattle.std.specs.Arc.{arc_value};

use fx_base::Memory;
use fx_core::{Answer, Core, Flight, Permit};
use std::alloc::Global;
use std::sync::Arc;

// As many values as are kept.
pub(crate) const KEPT: u32 = 4096;

// As many asks as a core takes.
const MOST_ASKS: u64 = 1 << 62;

type Numbers = Core<u32, u32>;

/// Asks a core of 4,096 kept numbers for them so many times, in no order. How many were hits.
pub(crate) fn ask_kept(alloc: Global, asks: u32) -> Result<u64, Memory> {
    let mut core = match Numbers::new(alloc, Permit::new(1), KEPT) {
        Ok(core) => core,
        Err((_, memory)) => return Err(memory),
    };
    let asked = fill_and_ask(alloc, &mut core, asks);
    let (_permit, totals) = core.finish();
    asked?;
    Ok(totals.hits)
}

fn fill_and_ask(alloc: Global, core: &mut Numbers, asks: u32) -> Result<(), Memory>
    requires { core.old.flying ≡ [] }
    ensures { core.new.flying ≡ [] }
{
    let keys = keys(alloc)?;
    fill(alloc, core, &keys)?;
    ask_all(alloc, core, &keys, asks)
}

/// The keys of the kept numbers.
pub(crate) fn keys(alloc: Global) -> Result<Vec<Arc<u32>>, Memory> {
    let mut keys = Vec::new(alloc);
    for number in 0..KEPT {
        keys.push(Arc::new(alloc, number)?)?;
    }
    Ok(keys)
}

// Asks for each of the keys, which is then kept.
fn fill(alloc: Global, core: &mut Numbers, keys: &[Arc<u32>]) -> Result<(), Memory>
    requires { core.old.flying ≡ [] }
    ensures { core.new.flying ≡ [] }
{
    for key in keys {
        ask(alloc, core, key)?;
    }
    Ok(())
}

// Asks for so many of the keys, in no order.
fn ask_all(alloc: Global, core: &mut Numbers, keys: &[Arc<u32>], asks: u32) -> Result<(), Memory>
    requires { core.old.flying ≡ [] }
    ensures { core.new.flying ≡ [] }
{
    let mut number = 1;
    for _ in 0..asks {
        number = next(number);
        if let Some(key) = keys.get((number >> 16) as usize % KEPT as usize) {
            ask(alloc, core, key)?;
        }
    }
    Ok(())
}

// Asks for a key, and lands it where it isn't kept.
fn ask(alloc: Global, core: &mut Numbers, key: &Arc<u32>) -> Result<(), Memory>
    requires { core.old.flying ≡ [] }
    ensures { core.new.flying ≡ [] }
{
    if core.totals().asks >= MOST_ASKS {
        return Ok(());
    }
    match core.ask(alloc, Arc::try_clone(key)?)? {
        Answer::Fly(flight) => land(alloc, core, flight, **key),
        Answer::Here(_) | Answer::Busy => Ok(()),
    }
}

// Lands the one flight with this number, or drops it where memory is wanting.
fn land(
    alloc: Global,
    core: &mut Numbers,
    mut flight: Flight<u32>,
    number: u32,
) -> Result<(), Memory>
    requires { core.old.flying ≡ (flight.ticket.number, arc_value flight.key) ∷ [] }
    ensures { core.new.flying ≡ [] }
{
    let Ok(value) = Arc::new(alloc, number) else {
        core.drop_flight(flight);
        return Err(Memory);
    };
    flight.ticket.stamped = true;
    match core.land(alloc, flight, value) {
        Ok(()) => Ok(()),
        Err((flight, _, memory)) => {
            core.drop_flight(flight);
            Err(memory)
        }
    }
}

// The number behind this one, in the row of a linear congruence.
pub(crate) fn next(number: u32) -> u32 {
    number.wrapping_mul(1_103_515_245).wrapping_add(12345)
}
