//! Runs cases: `fx_cases FILE..` reads each file of cases from the working folder, makes the files of each case in memory,
//! calls what the program calls, and tells a line for each case, and at the end how many there were. What is other than
//! wanted is told as it is found, and then the status is 1. docs/cases.md has the form of the files.
#![tactic(auto)]

mod bytes;
mod case;
mod fault;
mod graph;
mod meeting;
mod noted;
mod outcome;
mod pace;
mod tell;

use case::{Case, CaseFile};
use fault::CaseFault;
use fx_outside::{FileLibrary, Library};
use outcome::is_right;
use serde_json::Value;
use std::alloc::Global;
use std::env;
use std::io::Print;
use std::process::ExitCode;
use std::rt::{Clock, Files};
use std::sync::Wait;
use std::thread::Threads;

// How many cases were run, how often, and how many left something else.
#[derive(Clone, Copy)]
struct Tally {
    cases: u64,
    runs: u64,
    failed: u64,
}

impl Tally {
    fn add(&mut self, runs: u64, right: bool) {
        self.cases = self.cases.saturating_add(1);
        self.runs = self.runs.saturating_add(runs);
        if !right {
            self.failed = self.failed.saturating_add(1);
        }
    }
}

// Runs a case by its words, and again with those of each list behind them. Whether it left what is wanted each time.
fn each_is_right<R: Threads + Wait + Clock + Print + Sync>(
    rt: &R,
    alloc: Global,
    file: &str,
    case: Case<'_>,
    again: &[Value],
) -> Result<bool, CaseFault> {
    let mut right = is_right(rt, alloc, file, case, 0, None)?;
    for (place, behind) in again.iter().enumerate() {
        right &= is_right(rt, alloc, file, case, place as u64 + 1, Some(behind))?;
    }
    Ok(right)
}

// Runs one case, and tells its name where it left what is wanted.
fn add_case<R: Threads + Wait + Clock + Print + Sync>(
    rt: &R,
    alloc: Global,
    file: &str,
    case: Case<'_>,
    again: &[Value],
    tally: &mut Tally,
) -> Result<(), CaseFault> {
    let name = case.name()?;
    let right = each_is_right(rt, alloc, file, case, again)?;
    if right {
        let _ = println!(rt; "{file}: {name}");
    }
    tally.add(1 + again.len() as u64, right);
    Ok(())
}

// Runs one case. One that isn't of the form fails.
fn add_value<R: Threads + Wait + Clock + Print + Sync>(
    rt: &R,
    alloc: Global,
    file: &str,
    cases: CaseFile<'_>,
    again: &[Value],
    value: &Value,
    tally: &mut Tally,
) {
    let done = match cases.case(value) {
        Ok(case) => add_case(rt, alloc, file, case, again, tally),
        Err(fault) => Err(fault),
    };
    if let Err(CaseFault { what }) = done {
        let _ = println!(rt; "{file}: {what} in {value}");
        tally.add(0, false);
    }
}

// Runs the cases of a file.
fn add_cases<R: Threads + Wait + Clock + Print + Sync>(
    rt: &R,
    alloc: Global,
    file: &str,
    value: &Value,
    tally: &mut Tally,
) -> Result<(), CaseFault> {
    let cases = CaseFile::of(value)?;
    let again = cases.again()?;
    for value in cases.cases()? {
        add_value(rt, alloc, file, cases, again, value, tally);
    }
    Ok(())
}

fn bytes_of<R: Files>(rt: &R, alloc: Global, file: &str) -> Result<Vec<u8>, CaseFault> {
    match FileLibrary::new(rt, alloc).fetch(alloc, file) {
        Ok(bytes) => Ok(bytes),
        Err(_) => Err(CaseFault::of("no such file")),
    }
}

fn value_of(alloc: Global, bytes: &[u8]) -> Result<Value, CaseFault> {
    match Value::from_slice(alloc, bytes) {
        Ok(value) => Ok(value),
        Err(_) => Err(CaseFault::of("no JSON text")),
    }
}

// The value of a file.
fn read_value<R: Files>(rt: &R, alloc: Global, file: &str) -> Result<Value, CaseFault> {
    let bytes = bytes_of(rt, alloc, file)?;
    value_of(alloc, &bytes)
}

fn add_read_file<R: Threads + Wait + Clock + Print + Files + Sync>(
    rt: &R,
    alloc: Global,
    file: &str,
    tally: &mut Tally,
) -> Result<(), CaseFault> {
    let value = read_value(rt, alloc, file)?;
    add_cases(rt, alloc, file, &value, tally)
}

// Runs the cases of a file. One that isn't of the form fails.
fn add_file<R: Threads + Wait + Clock + Print + Files + Sync>(
    rt: &R,
    alloc: Global,
    file: &str,
    tally: &mut Tally,
) {
    if let Err(CaseFault { what }) = add_read_file(rt, alloc, file, tally) {
        let _ = println!(rt; "{file}: {what}");
        tally.add(0, false);
    }
}

// Tells how many cases there were. Whether none failed.
fn told<R: Print>(rt: &R, tally: Tally) -> bool {
    let Tally {
        cases,
        runs,
        failed,
    } = tally;
    let _ = println!(rt; "cases {cases} runs {runs} failed {failed}");
    failed == 0
}

fn main(rt: HostRuntime) -> ExitCode {
    let mut tally = Tally {
        cases: 0,
        runs: 0,
        failed: 0,
    };
    let Ok(files) = env::args(&rt) else {
        return ExitCode::FAILURE;
    };
    for file in files.skip(1) {
        add_file(&rt, rt.alloc(), file.as_str(), &mut tally);
    }
    if told(&rt, tally) {
        ExitCode::SUCCESS
    } else {
        ExitCode::FAILURE
    }
}
