//! What is known of every run: a range that is rendered in stretches, by runs in any order and on any machines, has the
//! files of one run. And what is known of the frames that a bench makes. Nothing here computes.
#![tactic(auto)]

mod laws;

pub use laws::{made_frames_are_pam, stretches_make_the_whole};
