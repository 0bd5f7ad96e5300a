//! The unit tests of the crates of levels 1 to 4 below the graph, a module for each, and of texts of graphs and words:
//! what a crate's own public items answer, worked by hand. They stand here since a crate with tests is proved twice.
#![tactic(auto)]

#[cfg(test)]
mod actions;
#[cfg(test)]
mod base;
#[cfg(test)]
mod bench;
#[cfg(test)]
mod capacity;
#[cfg(test)]
mod directory;
#[cfg(test)]
mod effect;
#[cfg(test)]
mod files;
#[cfg(test)]
mod gate;
#[cfg(test)]
mod grouped;
#[cfg(test)]
mod image;
#[cfg(test)]
mod kernel;
#[cfg(test)]
mod outside;
#[cfg(test)]
mod pam;
#[cfg(test)]
mod params;
#[cfg(test)]
mod pipe;
#[cfg(test)]
mod pixel;
#[cfg(test)]
mod pool;
#[cfg(test)]
mod prefs;
#[cfg(test)]
mod props;
#[cfg(test)]
mod rounds;
#[cfg(test)]
mod same;
#[cfg(test)]
mod seq;
#[cfg(test)]
mod single_flight;
#[cfg(test)]
mod text;
#[cfg(test)]
mod toys;
#[cfg(test)]
mod turn;
#[cfg(test)]
mod words;
