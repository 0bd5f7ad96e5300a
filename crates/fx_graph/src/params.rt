//! The parameters of a node: which of them is refused, and what each definition is given.
ghost use Rattle.std.specs.Prelude.{◌≡◌, ◌<◌, ◌+◌, ◌^◌, ℤ, pos, neg_ℤ, ◌≤ℤ◌, ◌<ℤ◌, not, None, Some, IfOk, IfErr, OnOk, IfSome, All, map, length, is_none, position, if◌then◌else◌};
ghost use Rattle.std.specs.List.{find, list_any};
ghost use Rattle.std.specs.Option.{option_copied, option_map, option_and_then};
ghost use Rattle.std.specs.Str.{bytes_eq};
ghost use Rattle.fx_graph.specs.Refusal.{Tells};
ghost use Rattle.fx_base.specs.declared.limits.TheConstants.{LAST_FRAME};
ghost use Rattle.fx_base.specs.Fix.{raw_of_text};
ghost use Rattle.fx_params.specs.Value.{refusal as refused_by};
ghost use Rattle.fx_params.specs.declared.def.ParamValue.TheVariants as value;
ghost use Rattle.fx_graph.specs.Params.{choice, whole, meant, value_in, is_refused, is_after, rises_after, is_rising};
ghost use Rattle.fx_graph.specs.Params.{value_fault, param_fault, def_of, params_fault};
ghost use Rattle.fx_graph.specs.Params.{key_put, keys_put, plain_put, valued, given_put, param_of};
ghost use Rattle.fx_params.specs.Value.{number_of};
ghost use Rattle.fx_params.specs.Keys.{with_key};
ghost use Rattle.fx_params.specs.Parameter.{IsSound, made};
ghost use Rattle.fx_effect.specs.Shape.{IsParam};

use crate::refuse::refuse_param;
use fx_base::{Fix, Memory, Name, Names};
use fx_params::{Param, ParamDef, ParamFault, ParamKind, ParamValue};
use fx_text::{GraphCode, GraphFault, RawKey, RawParam, RawScalar, RawValue};
use std::alloc::Global;

/// Refuses the first parameter that the effect hasn't, whose value isn't taken, or whose keys don't rise.
pub(crate) fn check_params(
    alloc: Global,
    path: &str,
    defs: &[ParamDef],
    params: &[RawParam],
) -> Result<(), GraphFault>
    ensures ok { OnOk result (params_fault path.now defs.now params.now ≡ None) }
    ensures err { IfErr result (λ e. Tells (params_fault path.now defs.now params.now) e) }
{
    for param in params {
        check_param(alloc, path, defs, param)?;
    }
    Ok(())
}

fn check_param(
    alloc: Global,
    path: &str,
    defs: &[ParamDef],
    param: &RawParam,
) -> Result<(), GraphFault>
    ensures ok { OnOk result (param_fault path.now param.now (def_of defs.now param.now.name) ≡ None) }
    ensures err { IfErr result (λ e. Tells (param_fault path.now param.now (def_of defs.now param.now.name)) e) }
{
    match def_of(defs, param.name.text()) {
        None => Err(refuse_param(alloc, GraphCode::UnknownParam, path, param.name.text())),
        Some(def) => check_value(alloc, path, def, param),
    }
}

fn check_value(
    alloc: Global,
    path: &str,
    def: &ParamDef,
    param: &RawParam,
) -> Result<(), GraphFault>
    ensures ok { OnOk result (param_fault path.now param.now (Some def.now) ≡ None) }
    ensures err { IfErr result (λ e. Tells (param_fault path.now param.now (Some def.now)) e) }
{
    match value_fault(def, &param.value) {
        Some(code) => Err(refuse_param(alloc, code, path, param.name.text())),
        None => Ok(()),
    }
}

/// Why a parameter of this definition refuses what a graph file gives it: `ParamRefused` where the value or that of a
/// key isn't of its kind or is out of its range, and else `KeysNotRising` where a key's frame isn't greater than that of
/// the key before.
pub fn value_fault(def: &ParamDef, value: &RawValue) -> Option<GraphCode>
    ensures { result ≡ value_fault def.now value.now }
{
    if is_refused(def, value) {
        Some(GraphCode::ParamRefused)
    } else if is_rising(value) {
        None
    } else {
        Some(GraphCode::KeysNotRising)
    }
}

/// A parameter of this definition with what a graph file gives it, where `value_fault` finds nothing.
pub fn param_given(alloc: Global, def: &ParamDef, value: &RawValue) -> Result<Param, Memory>
    requires { IsParam def.now }
    ensures { IfOk result (λ param. param ≡ valued (made def.now) value.now) }
{
    let mut param = Param::new(alloc, def_copied(alloc, def)?)?;
    set(alloc, &mut param, value)?;
    Ok(param)
}

fn def_copied(alloc: Global, def: &ParamDef) -> Result<ParamDef, Memory>
    ensures { IfOk result (λ copy. copy ≡ def.now) }
{
    let name = def.name.copied(alloc)?;
    let choices = names_copied(alloc, def.choices.items())?;
    Ok(ParamDef {
        name,
        kind: def.kind,
        least: def.least,
        greatest: def.greatest,
        choices: Names::of(choices),
        start: def.start,
    })
}

fn names_copied(alloc: Global, names: &[Name]) -> Result<Vec<Name>, Memory>
    ensures { IfOk result (λ copies. copies.items ≡ names.now) }
{
    let mut copies = Vec::new(alloc);
    for name in names {
        copies.push(name.copied(alloc)?)?;
    }
    Ok(copies)
}

fn def_of<'a>(defs: &'a [ParamDef], name: &str) -> Option<&'a ParamDef>
    ensures { option_copied result ≡ def_of defs.now name.now }
{
    defs.iter().find(|def| def.name.text() == name)
}

fn is_refused(def: &ParamDef, value: &RawValue) -> bool
    ensures { result ≡ is_refused def.now value.now }
{
    match value {
        RawValue::Plain(scalar) => value_in(def, scalar).is_none(),
        RawValue::Keyed { keys, step: _ } => has_refused(def, keys.items()),
    }
}

fn has_refused(def: &ParamDef, keys: &[RawKey]) -> bool
    ensures { result ≡ list_any (λ key. is_none (value_in def.now key.value)) keys.now }
{
    keys.iter().any(|key| value_in(def, &key.value).is_none())
}

fn is_rising(value: &RawValue) -> bool
    ensures { result ≡ is_rising value.now }
{
    match value {
        RawValue::Plain(_) => true,
        RawValue::Keyed { keys, step: _ } => rises(keys.items()),
    }
}

fn rises(keys: &[RawKey]) -> bool
    ensures { result ≡ rises_after None keys.now }
{
    let mut last = None;
    for key in keys {
        if !is_after(last, key.frame) {
            return false;
        }
        last = Some(key.frame);
    }
    true
}

fn is_after(last: Option<i64>, frame: i64) -> bool
    ensures { result ≡ is_after last frame }
{
    match last {
        None => true,
        Some(last) => last < frame,
    }
}

// The value that the parameter takes.
fn value_in(def: &ParamDef, scalar: &RawScalar) -> Option<ParamValue>
    ensures value { result ≡ value_in def.now scalar.now }
    ensures taken { IfSome result (λ v. refused_by def.now v ≡ None) }
{
    match meant(def, scalar) {
        Some(value) => taken(def, value),
        None => None,
    }
}

fn taken(def: &ParamDef, value: ParamValue) -> Option<ParamValue>
    ensures value { result ≡ (if is_none (refused_by def.now value) then Some value else None) }
    ensures taken { IfSome result (λ v. refused_by def.now v ≡ None) }
{
    match def.taken(value) {
        Ok(_) => Some(value),
        Err(_) => None,
    }
}

fn meant(def: &ParamDef, scalar: &RawScalar) -> Option<ParamValue>
    ensures { result ≡ meant def.now.kind def.now.choices scalar.now }
{
    match (def.kind, scalar) {
        (ParamKind::Int, RawScalar::Int(n)) => Some(ParamValue::Int(*n)),
        (ParamKind::Fix, RawScalar::Int(n)) => whole(*n),
        (ParamKind::Fix, RawScalar::Text(text)) => parsed(text.text()),
        (ParamKind::Bool, RawScalar::Flag(flag)) => Some(ParamValue::Flag(*flag)),
        (ParamKind::Choice, RawScalar::Text(text)) => choice(&def.choices, text.text()),
        _ => None,
    }
}

fn whole(n: i64) -> Option<ParamValue>
    ensures { result ≡ whole n }
{
    if -140737488355328 <= n && n < 140737488355328 {
        Some(ParamValue::Fix(Fix { raw: n * 65536 }))
    } else {
        None
    }
}

fn parsed(text: &str) -> Option<ParamValue>
    ensures { result ≡ option_map (λ raw. value.Fix (record { raw = raw })) (raw_of_text text.now) }
{
    match Fix::parse(text) {
        Some(fix) => Some(ParamValue::Fix(fix)),
        None => None,
    }
}

fn choice(choices: &Names, text: &str) -> Option<ParamValue>
    ensures { result ≡ option_and_then choice (position (λ c. bytes_eq c text.now) choices.now) }
{
    match place_of(choices, text) {
        Some(place) => chosen(place),
        None => None,
    }
}

fn chosen(place: usize) -> Option<ParamValue>
    ensures { result ≡ choice place }
{
    if place < 4294967296 {
        Some(ParamValue::Choice(place as u32))
    } else {
        None
    }
}

fn place_of(choices: &Names, text: &str) -> Option<usize>
    ensures { result ≡ position (λ c. bytes_eq c text.now) choices.now }
{
    choices.items().iter().position(|name| name.text() == text)
}

/// The parameters of these definitions with what the graph gives them.
pub(crate) fn make_params(
    alloc: Global,
    defs: Vec<ParamDef>,
    params: &[RawParam],
) -> Result<Vec<Param>, Memory>
    requires { All IsParam defs.items }
    ensures made { IfOk result (λ made. made.items ≡ map (param_of params.now) defs.items) }
    ensures sound { IfOk result (λ made. All IsSound made.items) }
{
    let mut made = Vec::new(alloc);
    for def in defs {
        made.push(make_param(alloc, def, params)?)?;
    }
    Ok(made)
}

fn make_param(alloc: Global, def: ParamDef, params: &[RawParam]) -> Result<Param, Memory>
    requires { IsParam def }
    ensures made { IfOk result (λ p. p ≡ param_of params.now def) }
    ensures sound { IfOk result IsSound }
{
    let given = given_to(params, def.name.text());
    let mut param = Param::new(alloc, def)?;
    set_given(alloc, &mut param, given)?;
    let _def = param.def();
    Ok(param)
}

fn set_given(alloc: Global, param: &mut Param, given: Option<&RawParam>) -> Result<(), Memory>
    ensures { OnOk result (param.new ≡ given_put param.old (option_copied given.entry)) }
{
    match given {
        Some(given) => set(alloc, param, &given.value),
        None => Ok(()),
    }
}

fn given_to<'a>(params: &'a [RawParam], name: &str) -> Option<&'a RawParam>
    ensures { option_copied result ≡ find (λ p. bytes_eq p.name name.now) params.now }
{
    params.iter().find(|param| param.name.text() == name)
}

fn set(alloc: Global, param: &mut Param, value: &RawValue) -> Result<(), Memory>
    ensures { OnOk result (param.new ≡ valued param.old value.now) }
{
    match value {
        RawValue::Plain(scalar) => {
            set_plain(param, scalar);
            Ok(())
        }
        RawValue::Keyed { keys, step } => {
            param.set_step(*step);
            set_keys(alloc, param, keys.items())
        }
    }
}

fn set_plain(param: &mut Param, scalar: &RawScalar)
    ensures { param.new ≡ plain_put param.old (value_in param.old.def scalar.now) }
{
    if let Some(value) = value_in(param.def(), scalar) {
        match param.set_value(value) {
            Ok(()) => {}
            Err(_) => unreachable!(),
        }
    }
}

fn set_keys(alloc: Global, param: &mut Param, keys: &[RawKey]) -> Result<(), Memory>
    ensures { OnOk result (param.new ≡ record param.old { keys = keys_put param.old.def param.old.keys keys.now }) }
{
    for key in keys {
        set_key(alloc, param, key)?;
    }
    Ok(())
}

fn set_key(alloc: Global, param: &mut Param, key: &RawKey) -> Result<(), Memory>
    ensures { OnOk result
        (param.new ≡ record param.old {
          keys = key_put param.old.keys key.now.frame (value_in param.old.def key.now.value);
        }) }
{
    match value_in(param.def(), &key.value) {
        Some(value) => put_key(alloc, param, key.frame, value),
        None => Ok(()),
    }
}

fn put_key(alloc: Global, param: &mut Param, frame: i64, value: ParamValue) -> Result<(), Memory>
    requires low { neg_ℤ (pos LAST_FRAME) ≤ℤ frame }
    requires high { frame ≤ℤ pos LAST_FRAME }
    requires taken { refused_by param.old.def value ≡ None }
    ensures { OnOk result
        (param.new ≡ record param.old {
          keys = with_key param.old.keys (record { frame = frame; value = number_of value });
        }) }
{
    match param.set_key(alloc, frame, value) {
        Ok(()) => Ok(()),
        Err(ParamFault::Memory) => Err(Memory),
        Err(_) => unreachable!(),
    }
}
