//! What a run that ends early writes on `err`, and its exit status.
ghost use Rattle.std.specs.Prelude.{◌≡◌, ◌≢◌, ◌⊎◌, OnOk, OnErr};
ghost use Rattle.fx_outside.specs.Outside.{AddsPrefix};
ghost use Rattle.fx_words.specs.Texts.{fault_text};
ghost use Rattle.fx_words.specs.declared.fault.RunFault.TheVariants.{Memory as OutOfMemory};
ghost use Rattle.fx_modes.specs.Texts.{status_of, GainsLine};

use fx_base::Memory;
use fx_outside::{PutFault, Sink};
use fx_words::{RunFault, fault_text};
use std::alloc::Global;

// The line of want of memory, which is written without taking any.
const MEMORY_LINE: &str = "ofxr: memory\n";

/// Writes the line of a fault, and gives its status. Where memory is wanting for the line, the line and
/// the status are those of want of memory. A write that fails changes no status.
pub(crate) fn tell<F: Sink>(alloc: Global, err: &mut F, fault: &RunFault) -> u8
    ensures status { (result ≡ status_of fault.now) ⊎ (result ≡ 6) }
    ensures line { F.tells → result ≢ 6
        → GainsLine (fault_text fault.now) (F.written err.old) (F.written err.new) (F.faults err.old) (F.faults err.new) }
    ensures memory { F.tells → result ≡ 6
        → AddsPrefix (fault_text OutOfMemory) (F.written err.old) (F.written err.new) }
{
    match fault {
        RunFault::Memory => tell_memory(alloc, err),
        fault => match write_line(alloc, err, fault) {
            Ok(()) => status_of(fault),
            Err(Memory) => tell_memory(alloc, err),
        },
    }
}

fn status_of(fault: &RunFault) -> u8
    ensures { result ≡ status_of fault.now }
{
    match fault {
        RunFault::Usage => 1,
        RunFault::Graph(_, _) => 2,
        RunFault::Frame(_, _, _) => 3,
        RunFault::Read(_) => 4,
        RunFault::Write(_) => 5,
        RunFault::Memory => 6,
        RunFault::Report => 7,
    }
}

fn tell_memory<F: Sink>(alloc: Global, err: &mut F) -> u8
    ensures status { result ≡ 6 }
    ensures line { F.tells → AddsPrefix (fault_text OutOfMemory) (F.written err.old) (F.written err.new) }
{
    let _ = err.write(alloc, MEMORY_LINE.as_bytes());
    6
}

// At `Memory` nothing was written.
fn write_line<F: Sink>(alloc: Global, err: &mut F, fault: &RunFault) -> Result<(), Memory>
    ensures ok { let line = fault_text fault.now in F.tells
        → OnOk result (GainsLine line (F.written err.old) (F.written err.new) (F.faults err.old) (F.faults err.new)) }
    ensures memory { F.tells → OnErr result (F.written err.new ≡ F.written err.old) }
{
    let mut line = Vec::new(alloc);
    fault_text(alloc, fault, &mut line)?;
    match err.write(alloc, &line) {
        Ok(()) => Ok(()),
        Err(PutFault::Failed) => Ok(()),
        Err(PutFault::Memory) => Err(Memory),
    }
}
