//! The numbers of a header.
ghost use Rattle.std.specs.Prelude.{◌≡◌};
ghost use Rattle.fx_base.specs.declared.limits.TheConstants.{MOST_SIDE};
ghost use Rattle.fx_pam.specs.Reading.{is_outside};

use crate::PamField;
use fx_pixel::Depth;

/// Those that the lines so far gave.
#[derive(Clone, Copy, Debug, PartialEq, Eq)]
pub struct HeaderSoFar {
    pub width: Option<u32>,
    pub height: Option<u32>,
    pub depth: Option<u32>,
    pub maxval: Option<u32>,
}

/// All four.
#[derive(Clone, Copy, Debug, PartialEq, Eq)]
pub struct HeaderNumbers {
    pub width: u32,
    pub height: u32,
    pub depth: u32,
    pub maxval: u32,
}

impl HeaderSoFar {
    ghost use Rattle.std.specs.Prelude.{◌≡◌};
    ghost use Rattle.fx_pam.specs.Header.{number_of, with_number, complete};

    /// No number yet.
    pub const NONE: HeaderSoFar = HeaderSoFar {
        width: None,
        height: None,
        depth: None,
        maxval: None,
    };

    /// The number of a field.
    pub fn number(&self, field: PamField) -> Option<u32>
        ensures { result ≡ number_of self.now field }
    {
        match field {
            PamField::Width => self.width,
            PamField::Height => self.height,
            PamField::Depth => self.depth,
            PamField::Maxval => self.maxval,
        }
    }

    /// The numbers with that of a field.
    pub fn with(self, field: PamField, n: u32) -> HeaderSoFar
        ensures { result ≡ with_number self field n }
    {
        let mut so_far = self;
        match field {
            PamField::Width => so_far.width = Some(n),
            PamField::Height => so_far.height = Some(n),
            PamField::Depth => so_far.depth = Some(n),
            PamField::Maxval => so_far.maxval = Some(n),
        }
        so_far
    }

    /// All four, where none is missing.
    pub fn complete(self) -> Option<HeaderNumbers>
        ensures { result ≡ complete self }
    {
        match (self.width, self.height, self.depth, self.maxval) {
            (Some(width), Some(height), Some(depth), Some(maxval)) => Some(HeaderNumbers {
                width,
                height,
                depth,
                maxval,
            }),
            _ => None,
        }
    }
}

// Whether a number isn't from 1 up to the most.
fn is_outside(n: u32, most: u32) -> bool
    ensures { result ≡ is_outside n most }
{
    (n == 0) | (n > most)
}

impl HeaderNumbers {
    ghost use Rattle.std.specs.Prelude.{◌≡◌, ◌↔◌, ◌<◌, ◌^◌, IsTrue, []};
    ghost use Rattle.fx_pixel.specs.Pixel.{greatest};
    ghost use Rattle.fx_pam.specs.Reading.{header_with, depth_of, sample_count, field_out_of_range};
    ghost use Rattle.fx_pam.specs.Raster.{IsRanged, row_length};

    /// The first number that is out of its range: sides from 1 up to the greatest, 1 to 4 samples a
    /// pixel, and a greatest sample from 1 to 65535.
    pub fn out_of_range(self, most_side: u32) -> Option<PamField>
        ensures { result ≡ field_out_of_range most_side (header_with self []) }
    {
        if is_outside(self.width, most_side) {
            Some(PamField::Width)
        } else if is_outside(self.height, most_side) {
            Some(PamField::Height)
        } else if is_outside(self.depth, 4) {
            Some(PamField::Depth)
        } else if is_outside(self.maxval, 65535) {
            Some(PamField::Maxval)
        } else {
            None
        }
    }

    /// How deep the samples are: of a byte where the greatest is below 256, else short.
    pub fn sample_depth(self) -> Depth
        ensures { result ≡ depth_of (header_with self []) }
    {
        if self.maxval < 256 {
            Depth::Byte
        } else {
            Depth::Short
        }
    }

    /// Whether the greatest sample is the depth's, so that samples are read as they stand.
    pub fn keeps_samples(self) -> bool
        ensures { IsTrue result ↔ (self.maxval ≡ greatest (depth_of (header_with self []))) }
    {
        self.maxval == self.sample_depth().greatest()
    }

    /// How many samples the raster has.
    pub fn sample_count(self) -> usize
        requires { IsRanged MOST_SIDE (header_with self []) }
        ensures value { result ≡ sample_count (header_with self []) }
        ensures small { result < 2 ^ 29 }
    {
        self.width as usize * self.height as usize * self.depth as usize
    }

    /// How many bytes a row of the file has.
    pub fn row_length(self) -> usize
        requires { IsRanged MOST_SIDE (header_with self []) }
        ensures value { result ≡ row_length (header_with self []) }
        ensures small { result < 2 ^ 17 }
    {
        self.width as usize * self.depth as usize * self.sample_depth().size() as usize
    }
}
