//! What holds of every image that is written, and of all bytes that are read.
ghost use Rattle.std.specs.Prelude.{◌≡◌, ◌++◌, ◌↔◌, ℕ, List, None};
ghost use Rattle.fx_image.specs.Image.{Image};
ghost use Rattle.fx_pixel.specs.declared.Format.{Format};
ghost use Rattle.fx_pam.specs.Text.{pam_text};
ghost use Rattle.fx_pam.specs.Reading.{IsPam, pam_fault};
ghost use Rattle.fx_pam.specs.Laws.{CanBeRead, read_back};

/// What is written reads back, whatever follows it. It computes nothing.
pub fn reads_back()
    ensures { (format : Format) (image : Image) (side : ℕ) (rest : List ℕ)
        → CanBeRead format side image → IsPam (pam_text format image ++ rest) side (read_back format image) }
{}

/// Bytes have a fault, or they are the file of an image, and never both. It computes nothing.
pub fn one_or_the_other()
    ensures { (bytes : List ℕ) (side : ℕ)
        → (pam_fault bytes side ≡ None) ↔ ((image : Image) × IsPam bytes side image) }
{}
