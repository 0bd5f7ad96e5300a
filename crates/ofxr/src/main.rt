//! The program: hands the words of its command line and the real files and streams to the top call, and
//! ends with its answer.
#![tactic(auto)]

use fx_app::run;
use fx_base::Memory;
use fx_outside::{FileDepot, FileLibrary, FreePace, StdSink};
use std::alloc::Global;
use std::env;
use std::io::ErrorKind;
use std::process::ExitCode;
use std::rt::Env;

// The exit status at want of memory.
const MEMORY: u8 = 6;

fn main(rt: HostRuntime) -> ExitCode {
    let alloc = rt.alloc();
    let Ok(words) = words_of(&rt, alloc) else {
        return ExitCode::from(MEMORY);
    };
    let mut library = FileLibrary::new(&rt, alloc);
    let mut depot = FileDepot::new(&rt, alloc);
    let mut out = StdSink::new(rt.stdout());
    let mut err = StdSink::new(rt.stderr());
    let status = run(
        &rt,
        alloc,
        &words,
        &mut library,
        &mut depot,
        &mut out,
        &mut err,
        &FreePace,
    );
    ExitCode::from(status)
}

// The words behind the program's name. Where one isn't UTF-8 there are none, which is a faulty
// command line as well.
fn words_of<R: Env + AllocGlobal>(rt: &R, alloc: Global) -> Result<Vec<String>, Memory> {
    let mut words = Vec::new(alloc);
    match env::args(rt) {
        Ok(args) => {
            for word in args.skip(1) {
                words.push(word)?;
            }
            Ok(words)
        }
        Err(e) if e.kind() == ErrorKind::OutOfMemory => Err(Memory),
        Err(_) => Ok(words),
    }
}
