//! Rows of bytes, kept in blocks of whole rows: a tile or a source frame is one block, and a frame that
//! workers write has a block for each band, so that a band is moved without copying a pixel.
ghost use Rattle.std.specs.Prelude.{◌≡◌, ◌≤◌, ◌<◌, ◌+◌, ◌-◌, ◌*◌, ◌^◌, ℕ, ◌/◌, ◌%◌, IfOk, length, take, drop, slice_index, replicate, vec_len};
ghost use Rattle.std.specs.Borrow.{sem};
ghost use Rattle.fx_image.specs.Rows.{Raster, row_of, HasRows, AreBytes, AreBlocks, HaveRows, no_rows};
ghost use Rattle.fx_image.specs.RowsLending.{LendsBytes, LendsRun};

use crate::samples::are_bytes;
use std::alloc::{AllocError, Global};
use std::marker::Model;

/// Whole rows, one after another.
#[derive(Debug, Drop)]
struct Block {
    bytes: Vec<u8>,
}

impl Model for Block {
    ghost use Rattle.std.specs.Prelude.{ℕ, List};

    ghost Value = { List ℕ };

    ghost view = { λ a. a.bytes.items };
}

impl Block {
    fn run(&self, from: usize, to: usize) -> &[u8]
        requires { (from ≤ to) × (to ≤ length self.now) }
        ensures { result.now ≡ take (to - from) (drop from self.now) }
    {
        &self.bytes[from..to]
    }

    // Its items are bytes. It computes nothing.
    fn is_bytes(&self)
        ensures { (i : ℕ) → slice_index self.now i < 256 }
    {
        are_bytes(&self.bytes);
    }

    fn run_mut(&mut self, from: usize, to: usize) -> &mut [u8]
        requires { (from ≤ to) × (to ≤ length self.old) }
        ensures* writes_back { sem 𝓛 (LendsBytes self.entry from result) }
        ensures value { result.now ≡ take (to - from) (drop from self.old) }
    {
        self.bytes.slice_mut(from..to)
    }
}

/// Rows of `pitch` bytes, `step` of them in each block.
#[derive(Debug, Drop)]
pub struct Rows {
    pitch: usize,
    height: usize,
    step: usize,
    blocks: Vec<Block>,
}

impl Model for Rows {
    ghost use Rattle.fx_image.specs.Rows.{Raster, IsKept};

    ghost Value = { Raster };

    ghost view = { λ a. record { pitch = a.pitch; height = a.height; step = a.step; blocks = a.blocks.items } };

    ghost invariant = { λ a.
        IsKept (record { pitch = a.pitch; height = a.height; step = a.step; blocks = a.blocks.items }) };
}

impl Rows {
    /// Rows of zeros, in one block.
    pub fn new(alloc: Global, pitch: usize, height: usize) -> Result<Rows, AllocError>
        requires small { height * pitch < 2 ^ 32 }
        requires narrow { pitch < 2 ^ 32 }
        ensures pitch { IfOk result (λ s. s.pitch ≡ pitch) }
        ensures height { IfOk result (λ s. s.height ≡ height) }
        ensures zero { IfOk result (λ s. (y : ℕ) → y < height → row_of s y ≡ replicate pitch 0) }
    {
        Rows::in_blocks(alloc, pitch, height, height.max(1))
    }

    /// Rows of zeros, `step` of them in each block and the last perhaps fewer.
    pub fn in_blocks(
        alloc: Global,
        pitch: usize,
        height: usize,
        step: usize,
    ) -> Result<Rows, AllocError>
        requires step { 0 < step }
        requires small { step * pitch < 2 ^ 32 }
        ensures pitch { IfOk result (λ s. s.pitch ≡ pitch) }
        ensures height { IfOk result (λ s. s.height ≡ height) }
        ensures step { IfOk result (λ s. s.step ≡ step) }
        ensures zero { IfOk result (λ s. (y : ℕ) → y < height → row_of s y ≡ replicate pitch 0) }
    {
        let mut blocks = Vec::new(alloc);
        for k in 0..height.div_ceil(step) {
            let rows = step.min(height - k * step);
            let mut bytes = Vec::new(alloc);
            bytes.resize(rows * pitch, 0)?;
            blocks.push(Block { bytes })?;
        }
        Ok(Rows {
            pitch,
            height,
            step,
            blocks,
        })
    }

    /// Rows that follow one another in these bytes, in one block. It copies none.
    pub fn of_bytes(
        alloc: Global,
        pitch: usize,
        height: usize,
        bytes: Vec<u8>,
    ) -> Result<Rows, AllocError>
        requires some { 0 < height }
        requires small { height * pitch < 2 ^ 32 }
        requires long { vec_len bytes ≡ height * pitch }
        ensures pitch { IfOk result (λ s. s.pitch ≡ pitch) }
        ensures height { IfOk result (λ s. s.height ≡ height) }
        ensures rows { IfOk result (λ s. (y : ℕ) → y < height
            → row_of s y ≡ take pitch (drop (y * pitch) bytes.items)) }
    {
        let mut blocks = Vec::new(alloc);
        blocks.push(Block { bytes })?;
        Ok(Rows {
            pitch,
            height,
            step: height,
            blocks,
        })
    }

    /// Cuts them into their blocks, from the bottom, each with rows of its own. It copies no row.
    pub fn into_bands(self, alloc: Global) -> Result<Vec<Rows>, AllocError>
        ensures bands { IfOk result (λ bands. AreBlocks self bands.items) }
        ensures rows { IfOk result (λ bands. HaveRows self bands.items) }
    {
        let Rows {
            pitch,
            height,
            step,
            blocks,
        } = self;
        let mut bands = Vec::new(alloc);
        let mut left = height;
        for block in blocks {
            let rows = step.min(left);
            let mut own = Vec::new(alloc);
            own.push(block)?;
            bands.push(Rows {
                pitch,
                height: rows,
                step,
                blocks: own,
            })?;
            left -= rows;
        }
        Ok(bands)
    }

    /// Puts such rows together again. It copies no row.
    pub fn of_bands(
        alloc: Global,
        pitch: usize,
        height: usize,
        step: usize,
        bands: Vec<Rows>,
    ) -> Result<Rows, AllocError>
        requires step { 0 < step }
        requires small { step * pitch < 2 ^ 32 }
        requires bands { AreBlocks (no_rows pitch height step) bands.items }
        ensures pitch { IfOk result (λ s. s.pitch ≡ pitch) }
        ensures height { IfOk result (λ s. s.height ≡ height) }
        ensures step { IfOk result (λ s. s.step ≡ step) }
        ensures rows { IfOk result (λ s. HaveRows s bands.items) }
    {
        let mut blocks = Vec::new(alloc);
        for band in bands {
            let Rows {
                pitch: _,
                height: _,
                step: _,
                blocks: mut own,
            } = band;
            blocks.append(&mut own)?;
        }
        Ok(Rows {
            pitch,
            height,
            step,
            blocks,
        })
    }

    /// How many rows a block has, but for the last.
    pub fn step(&self) -> usize
        ensures value { result ≡ self.now.step }
        ensures some { 0 < result }
    {
        self.step
    }

    /// How many bytes a row has.
    pub fn pitch(&self) -> usize
        ensures value { result ≡ self.now.pitch }
        ensures small { result < 2 ^ 32 }
    {
        self.pitch
    }

    /// Its blocks are of bytes. It computes nothing.
    pub fn are_bytes(&self)
        ensures { AreBytes self.now.blocks }
    {
        for block in &self.blocks {
            block.is_bytes();
        }
    }

    /// The bytes of row y from `from` up to `to`.
    pub fn run(&self, y: usize, from: usize, to: usize) -> &[u8]
        requires row { y < self.now.height }
        requires run { (from ≤ to) × (to ≤ self.now.pitch) }
        ensures rows { HasRows self.now }
        ensures len { length result.now ≡ to - from }
        ensures value { result.now ≡ take (to - from) (drop from (row_of self.now y)) }
    {
        let start = (y % self.step) * self.pitch;
        let block = &self.blocks[y / self.step];
        block.run(start + from, start + to)
    }

    /// The same bytes, to be written.
    pub fn run_mut(&mut self, y: usize, from: usize, to: usize) -> &mut [u8]
        requires row { y < self.old.height }
        requires run { (from ≤ to) × (to ≤ self.old.pitch) }
        ensures* writes_back { sem 𝓛 (LendsRun self.entry y from result) }
        ensures rows { HasRows self.old }
        ensures len { length result.now ≡ to - from }
        ensures value { result.now ≡ take (to - from) (drop from (row_of self.old y)) }
    {
        let start = (y % self.step) * self.pitch;
        let block = &mut self.blocks[y / self.step];
        block.run_mut(start + from, start + to)
    }
}
