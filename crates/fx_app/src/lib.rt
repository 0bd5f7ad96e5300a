//! The top call of the host: from the words of a command to the files of its frames. Its contract is
//! the host's promise: a run whose reads and writes don't fail ends with status 0 or want of memory,
//! and at status 0 the depot has gained exactly the text of the picture whose every pixel is the
//! graph's value.
#![tactic(auto)]

mod steps;
mod tell;

pub use steps::run;
