//! The words of the command line, read by `clap` into an order, and the texts that a run writes: the line of
//! a fault and the report of each mode. What the words order is `clap`'s own function of a simple command.
#![tactic(auto)]

mod command;
mod fault;
mod law;
mod order;
mod plan;
mod report;
mod words;

pub use fault::{FrameFault, RunFault, fault_text};
pub use law::options_in_any_order;
pub use order::{Mode, Order};
pub use plan::{PlanFrame, PlanFrames, PlanLine, PlanLines};
pub use report::{Report, report_text};
pub use words::{WordFault, read_words};
