//! The order of a run's moments: the source frames of each are read, its file is made, and the file is put before the
//! next. Here are the part that reads, the part that puts, and what holds between them, so that they may go one after
//! another or beside each other; and a pipeline of both beside a stage that makes the files, which ends as that order
//! does.
#![tactic(auto)]

mod beside;
mod end;
pub mod laws;
mod line;
mod made;
mod make;
mod put;
mod read;
mod rounds;
mod schedule;
mod stage;

pub use end::PipeEnd;
pub use line::Line;
pub use made::Made;
pub use put::{PutStop, put_block};
pub use read::{Kept, Reader, read_on};
pub use rounds::pipe;
pub use schedule::Schedule;
pub use stage::Stage;
