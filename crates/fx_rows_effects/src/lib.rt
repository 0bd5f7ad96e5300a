//! The effects of the catalogue one by one, over the host's own calls: each through all its actions, the lives of
//! plug-ins, and what a graph that is accepted holds. Worked by hand.
#![tactic(auto)]

#[cfg(test)]
mod acceptance;
#[cfg(test)]
mod areas;
#[cfg(test)]
mod asking;
#[cfg(test)]
mod generators;
#[cfg(test)]
mod graphs;
#[cfg(test)]
mod lives;
#[cfg(test)]
mod mixes;
#[cfg(test)]
mod moves;
#[cfg(test)]
mod points;
#[cfg(test)]
mod rows;
#[cfg(test)]
mod same;
#[cfg(test)]
mod times;
#[cfg(test)]
mod toy;
#[cfg(test)]
mod toys;
#[cfg(test)]
mod wholes;
