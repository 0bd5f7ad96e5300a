//! Parameters of effects at a fraction of their size.
ghost use Rattle.std.specs.Prelude.{◌≡◌, IfOk, IsOk, length};
ghost use Rattle.fx_proxy.specs.Lengths.{HasLength, is_length, lengths_of, scaled_param};
ghost use Rattle.fx_proxy.specs.Reduced.{IsScale};

use fx_base::Memory;
use fx_params::Param;

// The numbers of the effects that have lengths, as the catalogue gives them.
const CHECKER: u32 = 1;

const BOXBLUR: u32 = 11;

const ERODE: u32 = 12;

const DILATE: u32 = 13;

const CROP: u32 = 15;

const TRANSLATE: u32 = 16;

/// A parameter at 1/q, of the effect of this number, where `param` is its place among the effect's parameters. The
/// value of a length, and that of each of its keys, is divided by q to the nearest and halves up; the size of checker
/// is 1 at least. Any other parameter stays as it is. A length has the definition that its effect describes, and q is
/// 1, 2, 4 or 8. `Memory` never comes.
pub fn scaled_param(
    effect: u32,
    param: u32,
    mut value: Param,
    q: u32,
) -> Result<Param, (Param, Memory)>
    requires scale { IsScale q }
    requires length { HasLength effect param value }
    ensures ok { IsOk result }
    ensures value { IfOk result (λ p. p ≡ scaled_param effect param q value) }
{
    scale_param(effect, param as usize, &mut value, q);
    Ok(value)
}

/// The same in its place.
pub(crate) fn scale_param(effect: u32, place: usize, param: &mut Param, q: u32)
    requires scale { IsScale q }
    requires length { HasLength effect place param.old }
    ensures { param.new ≡ scaled_param effect place q param.old }
{
    if is_length(effect, place) {
        // Asking it tells the proof that the parameter is sound.
        let _def = param.def();
        param.divide(q);
    }
}

fn is_length(effect: u32, place: usize) -> bool
    ensures { result ≡ is_length effect place }
{
    place < length_count(effect)
}

// How many lengths an effect has. They are its first parameters.
fn length_count(effect: u32) -> usize
    ensures { result ≡ length (lengths_of effect) }
{
    match effect {
        CHECKER | ERODE | DILATE => 1,
        BOXBLUR | TRANSLATE => 2,
        CROP => 4,
        _ => 0,
    }
}
