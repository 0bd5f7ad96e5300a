//! What lies between the parts of a pipeline.
use crate::Made;
use crate::end::PipeEnd;
use crate::read::Reader;
use fx_seq::{SeqFault, SourceFrame};
use std::alloc::Global;
use std::collections::VecDeque;
use std::mem;

/// The block that was read and the block that was made, the moment that is to be made next, and how far it is read:
/// where a moment's frames were not read, nothing more is.
#[derive(Debug, Drop)]
pub struct Line {
    pub reader: Reader,
    pub fault: Option<SeqFault>,
    pub fetched: VecDeque<Vec<SourceFrame>>,
    pub next: u64,
    pub made: VecDeque<Made>,
}

impl Line {
    ghost use Rattle.std.specs.Prelude.{◌≡◌, ◌≢◌, [], true, false, None, Some};
    ghost use Rattle.fx_seq.specs.declared.fault.SeqFault.TheVariants.{Memory as OutOfMemory};
    ghost use Rattle.fx_pipe.specs.Ends.{IsOver, end_of};

    /// Nothing was read, made or put yet.
    pub fn new(alloc: Global) -> Line
        ensures reader { (result.reader.next ≡ 0) × (result.reader.kept.items ≡ []) }
        ensures fault { result.fault ≡ None }
        ensures fetched { result.fetched.items ≡ [] }
        ensures next { result.next ≡ 0 }
        ensures made { result.made.items ≡ [] }
    {
        Line {
            reader: Reader::new(alloc),
            fault: None,
            fetched: VecDeque::new(alloc),
            next: 0,
            made: VecDeque::new(alloc),
        }
    }

    /// Nothing is left to be read, made or put.
    pub fn is_over(&self, moments: u64) -> bool
        ensures { result ≡ true → IsOver moments self.now }
    {
        (self.fault.is_some() || self.reader.next == moments)
            && self.fetched.is_empty()
            && self.made.is_empty()
    }

    /// Memory was wanting where frames were read.
    pub fn wants_memory(&self) -> bool
        ensures { result ≡ false → self.now.fault ≢ Some OutOfMemory }
    {
        matches!(self.fault, Some(SeqFault::Memory))
    }

    /// How the moments end once nothing is left. The fault is taken from the line.
    pub fn end(&mut self) -> PipeEnd
        ensures end { result ≡ end_of self.old.fault }
        ensures line { self.new ≡ record self.old { fault = None } }
    {
        match mem::replace(&mut self.fault, None) {
            None => PipeEnd::Done,
            Some(fault) => PipeEnd::Source(fault),
        }
    }
}
