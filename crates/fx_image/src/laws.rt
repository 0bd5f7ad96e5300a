//! What holds of every part that is written row by row.
ghost use Rattle.std.specs.Prelude.{◌≡◌, ℤ, ℕ, pos, ◌+ℤ◌, List};
ghost use Rattle.fx_base.specs.Bounds.{Bounds};
ghost use Rattle.fx_pixel.specs.declared.Pixel.{Pixel};
ghost use Rattle.fx_image.specs.declared.part.Part.{Part};
ghost use Rattle.fx_image.specs.Part.{SamePart, WroteRows, IsNextRow, part_with, with_run, narrowed};

/// A row that comes back from `Part::row_mut` or `Part::row_within_mut` with the bytes of some pixels shows
/// these pixels, and no other pixel of the image has changed. It computes nothing.
pub fn a_row_is_written()
    ensures whole { (p q : Part) (y : ℤ) (f : ℤ → ℤ → Pixel) (ws : List ℕ) → IsNextRow p q y f ws
        → SamePart p (part_with q y ws) × WroteRows p (part_with q y ws).image.now (y +ℤ pos 1) f }
    ensures within { (p q : Part) (rect : Bounds) (y : ℤ) (f : ℤ → ℤ → Pixel) (ws : List ℕ) → q.rect ≡ p.rect
        → IsNextRow (narrowed p rect) (narrowed q rect) y f ws → let now = with_run q rect.x1 y ws in
        SamePart p now × WroteRows (narrowed p rect) now.image.now (y +ℤ pos 1) f }
{}
