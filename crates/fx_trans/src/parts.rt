//! What the transitions share: their clips, their one parameter, and bytes to work with.
ghost use Rattle.std.specs.Prelude.{◌≡◌, ◌≤◌, ◌≤ℤ◌, pos, codes, IfOk, vec_len};
ghost use Rattle.fx_params.specs.Def.{fix_def};
ghost use Rattle.fx_effect.specs.Numbers.{number};
ghost use Rattle.fx_trans.specs.Transitions.{level as level_of};

use fx_base::{Fix, Memory};
use fx_effect::Values;
use fx_params::ParamDef;
use std::alloc::Global;

// The places of the clips.
pub const FROM: u32 = 0;

pub const TO: u32 = 1;

// The level of SourceFrom alone, and that of SourceTo alone.
pub const START: u32 = 0;

pub const END: u32 = 65536;

/// The one parameter, a level from 0 to 1.
pub fn transition(alloc: Global) -> Result<ParamDef, Memory>
    ensures { IfOk result (λ def. def ≡ fix_def (codes "Transition") (pos 0) (pos 65536) (pos 0)) }
{
    let none = Fix { raw: 0 };
    let full = Fix { raw: 65536 };
    ParamDef::fix(alloc, "Transition", none, full, none)
}

/// How far the transition has come, in units of 1/65536.
pub fn level(values: &Values) -> u32
    requires { (pos 0 ≤ℤ number values.now 0) × (number values.now 0 ≤ℤ pos 65536) }
    ensures value { result ≡ level_of values.now }
    ensures few { result ≤ 65536 }
{
    values.number(0) as u32
}

/// Bytes to work with.
pub fn blank_bytes(alloc: Global, count: usize) -> Result<Vec<u8>, Memory>
    ensures { IfOk result (λ bytes. vec_len bytes ≡ count) }
{
    let mut bytes = Vec::new(alloc);
    bytes.resize(count, 0)?;
    Ok(bytes)
}
