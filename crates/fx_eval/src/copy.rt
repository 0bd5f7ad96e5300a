//! What inputs show of a clip, over a part of an image.
ghost use Rattle.std.specs.Prelude.{◌≡◌, [], ◌∷◌};
ghost use Rattle.fx_image.specs.Part.{IsPart, IsWritten};
ghost use Rattle.fx_effect.specs.Given.{row_pixel};

use fx_base::Rect;
use fx_effect::{Inputs, RowKernel, fill_with};
use fx_image::Part;
use fx_pixel::{Components, Depth};

/// Fills a part with what the inputs show of their one clip at a frame.
pub(crate) fn copy_frame(inputs: &Inputs<'_>, frame: i64, out: &mut Part<'_>)
    requires part { IsPart out.old }
    requires depth { inputs.now.depth ≡ out.old.image.now.depth }
    requires components { inputs.now.components ≡ out.old.image.now.components ∷ [] }
    ensures { IsWritten out.old out.new (row_pixel inputs.now 0 frame) }
{
    fill_with(&CopiedRows { frame, inputs }, &mut [], &mut [], out);
}

// The rows that are copied.
#[derive(Drop)]
struct CopiedRows<'a, 'b> {
    frame: i64,
    inputs: &'a Inputs<'b>,
}

impl<'a, 'b> RowKernel for CopiedRows<'a, 'b> {
    ghost makes = { λ k depth c. (k.inputs.now.depth ≡ depth) × (k.inputs.now.components ≡ c ∷ []) };

    ghost pixel = { λ k depth c. row_pixel k.inputs.now 0 k.frame };

    fn fill_row(
        &self,
        _depth: Depth,
        _components: Components,
        rect: Rect,
        y: i64,
        _cells: &mut [u64],
        _bytes: &mut [u8],
        row: &mut [u8],
    ) {
        self.inputs.read_row(0, self.frame, rect, y, row);
    }
}
