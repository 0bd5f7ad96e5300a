//! What each mode of the command does with its order: `render` and `takes`, `check`, `bench`, `migrate` and `plan`, a
//! list of short steps each. The words, and what is told of a fault, are the top call's.
#![tactic(auto)]

pub mod bench;
pub mod check;
mod crew;
mod frames;
mod graph;
mod holding;
mod making;
pub mod migrate;
mod moments;
mod order;
pub mod plan;
mod planning;
pub mod render;
mod report;
mod rounds;
mod sources;
