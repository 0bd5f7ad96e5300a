//! What a parameter may be: its kind, its range, its choices and its value at the start. A value is
//! one number, and the range is in that number: an int, the units of a fixed-point number, 0 or 1, or
//! the place of a choice.
ghost use Rattle.std.specs.Prelude.{◌≡◌, ◌<◌, length, map, IfOk, IfErr, OnOk};
ghost use Rattle.fx_params.specs.Value.{number_of, is_of_kind, refusal};
ghost use Rattle.fx_params.specs.Def.{int_def, fix_def, flag_def, choice_def};
ghost use Rattle.fx_params.specs.Parameter.{kind_steps};
ghost use Rattle.fx_params.specs.declared.def.ParamFault.TheVariants as fault;

use fx_base::{Fix, Memory, Name, Names};
use std::alloc::{AllocFailed, Global};

/// The kinds of parameters.
#[derive(Clone, Copy, Debug, PartialEq, Eq)]
pub enum ParamKind {
    Int,
    Fix,
    Bool,
    Choice,
}

impl ParamKind {
    /// Whether parameters of this kind step whatever is set.
    pub(crate) fn steps(self) -> bool
        ensures { result ≡ kind_steps self }
    {
        matches!(self, ParamKind::Bool | ParamKind::Choice)
    }
}

/// A value of a parameter. A choice is named by its place in the list of choices.
#[derive(Clone, Copy, Debug, PartialEq, Eq)]
pub enum ParamValue {
    Int(i64),
    Fix(Fix),
    Flag(bool),
    Choice(u32),
}

impl ParamValue {
    fn is_of_kind(self, kind: ParamKind) -> bool
        ensures { result ≡ is_of_kind kind self }
    {
        match self {
            ParamValue::Int(_) => kind == ParamKind::Int,
            ParamValue::Fix(_) => kind == ParamKind::Fix,
            ParamValue::Flag(_) => kind == ParamKind::Bool,
            ParamValue::Choice(_) => kind == ParamKind::Choice,
        }
    }

    fn number(self) -> i64
        ensures { result ≡ number_of self }
    {
        match self {
            ParamValue::Int(n) => n,
            ParamValue::Fix(fix) => fix.raw,
            ParamValue::Flag(flag) => i64::from(flag),
            ParamValue::Choice(place) => i64::from(place),
        }
    }
}

/// What a parameter is called, what it may hold, from the least to the greatest number, the texts of
/// its choices, and what it holds at the start.
#[derive(Debug, Drop)]
pub struct ParamDef {
    pub name: Name,
    pub kind: ParamKind,
    pub least: i64,
    pub greatest: i64,
    pub choices: Names,
    pub start: i64,
}

impl ParamDef {
    /// A whole number from the least to the greatest.
    pub fn int(
        alloc: Global,
        name: &str,
        least: i64,
        greatest: i64,
        start: i64,
    ) -> Result<ParamDef, Memory>
        ensures { IfOk result (λ def. def ≡ int_def name.now least greatest start) }
    {
        Ok(ParamDef {
            name: named(alloc, name)?,
            kind: ParamKind::Int,
            least,
            greatest,
            choices: Names::of(Vec::new(alloc)),
            start,
        })
    }

    /// A fixed-point number from the least to the greatest.
    pub fn fix(
        alloc: Global,
        name: &str,
        least: Fix,
        greatest: Fix,
        start: Fix,
    ) -> Result<ParamDef, Memory>
        ensures { IfOk result (λ def. def ≡ fix_def name.now least.raw greatest.raw start.raw) }
    {
        Ok(ParamDef {
            name: named(alloc, name)?,
            kind: ParamKind::Fix,
            least: least.raw,
            greatest: greatest.raw,
            choices: Names::of(Vec::new(alloc)),
            start: start.raw,
        })
    }

    /// A flag.
    pub fn flag(alloc: Global, name: &str, start: bool) -> Result<ParamDef, Memory>
        ensures { IfOk result (λ def. def ≡ flag_def name.now start) }
    {
        Ok(ParamDef {
            name: named(alloc, name)?,
            kind: ParamKind::Bool,
            least: 0,
            greatest: 1,
            choices: Names::of(Vec::new(alloc)),
            start: i64::from(start),
        })
    }

    /// One of these texts, of which there is at least one. It starts with the one at a place.
    pub fn choice(
        alloc: Global,
        name: &str,
        choices: &[&str],
        start: u32,
    ) -> Result<ParamDef, Memory>
        requires { 0 < length choices.now }
        ensures { IfOk result (λ def. def ≡ choice_def name.now (map (λ text. text.now) choices.now) start) }
    {
        Ok(ParamDef {
            name: named(alloc, name)?,
            kind: ParamKind::Choice,
            least: 0,
            greatest: choices.len() as i64 - 1,
            choices: texts(alloc, choices)?,
            start: i64::from(start),
        })
    }

    /// The number of a value that such a parameter takes, or why it refuses the value: `WrongKind` where
    /// it isn't of its kind, and else `OutOfRange` where its number is outside of the range.
    pub fn taken(&self, v: ParamValue) -> Result<i64, ParamFault>
        ensures number { IfOk result (λ n. n ≡ number_of v) }
        ensures accepted { OnOk result (refusal self.now v ≡ None) }
        ensures refused { IfErr result (λ fault. refusal self.now v ≡ Some fault) }
    {
        if !v.is_of_kind(self.kind) {
            return Err(ParamFault::WrongKind);
        }
        let number = v.number();
        if number < self.least || self.greatest < number {
            return Err(ParamFault::OutOfRange);
        }
        Ok(number)
    }
}

fn named(alloc: Global, name: &str) -> Result<Name, Memory>
    ensures { IfOk result (λ own. own ≡ name.now) }
{
    Ok(Name::of(String::from_str(alloc, name)?))
}

fn texts(alloc: Global, choices: &[&str]) -> Result<Names, Memory>
    ensures { IfOk result (λ names. names ≡ map (λ text. text.now) choices.now) }
{
    let mut names = Vec::new(alloc);
    for text in choices {
        names.push(named(alloc, text)?)?;
    }
    Ok(Names::of(names))
}

/// Why a call of a parameter was refused.
#[derive(Clone, Copy, Debug, PartialEq, Eq)]
pub enum ParamFault {
    /// No key has that place.
    BadIndex,
    /// The value's number is below the least or above the greatest.
    OutOfRange,
    /// The value isn't of the parameter's kind.
    WrongKind,
    /// No key stands at that frame.
    NoSuchKey,
    /// An allocation was refused.
    Memory,
}

impl<T: Drop> From<AllocFailed<T>> for ParamFault {
    ghost from_gives = { λ _ given. given ≡ fault.Memory };

    fn from(_: AllocFailed<T>) -> ParamFault {
        ParamFault::Memory
    }
}
