//! Tests that cross crates, worked by hand: what scenes, regions and tiles make of graphs over the effects of the
//! program, what frames demand, and the picture of a frame by whole frames beside that by tiles; scenes at a half, a
//! quarter and an eighth of their size; frames by workers over effects that note and count their calls. Runs from
//! files to files are cases of fx_cases.
#![tactic(auto)]

#[cfg(test)]
mod count;
#[cfg(test)]
mod engines;
#[cfg(test)]
mod files;
#[cfg(test)]
mod numbers;
#[cfg(test)]
mod plan;
#[cfg(test)]
mod regions;
#[cfg(test)]
mod same;
#[cfg(test)]
mod same_pictures;
#[cfg(test)]
mod scaled;
#[cfg(test)]
mod scaled_frames;
#[cfg(test)]
mod scenes;
#[cfg(test)]
mod takes;
#[cfg(test)]
mod tile;
#[cfg(test)]
mod tile_counts;
#[cfg(test)]
mod worked;
