//! The outside: where bytes come from and go to. Contracts see an object of the outside by what it
//! tells, its files or the bytes written, and by its count of faults. The adapters over real files and
//! streams tell nothing but their counts: they are the edge that is trusted.
#![tactic(auto)]

mod call_log;
mod fault;
mod files;
mod memory;
mod real;
mod sure;
mod traits;
mod watched;

pub use fault::{FetchFault, PutFault};
pub use memory::{MemoryDepot, MemoryLibrary, MemorySink};
pub use real::{FileDepot, FileLibrary, StdSink};
pub use sure::{SureDepot, SureLibrary, SureSink};
pub use traits::{Depot, FreePace, Library, Pace, Sink};
