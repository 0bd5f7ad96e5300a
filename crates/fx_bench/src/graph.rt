//! The graph: a source, nine effects one behind the other, and a merge of the last with the source.
ghost use Rattle.std.specs.Prelude.{◌≡◌, ◌≤◌, ◌+◌, ◌-◌, ◌/◌, ◌++◌, IfOk, OnOk, string_bytes};
ghost use Rattle.fx_bench.specs.Generator.{next_state, state};
ghost use Rattle.fx_bench.specs.Graphs as made;

use crate::generator::Generator;
use fx_base::Memory;
use std::alloc::Global;

// Halves from 0 on, with a point.
fn halves(alloc: Global, halves: u32) -> Result<String, Memory>
    ensures { IfOk result (λ text. string_bytes text ≡ made.halves halves) }
{
    let whole = halves / 2;
    if halves % 2 == 0 {
        Ok(format!(in alloc; "{whole}.0")?)
    } else {
        Ok(format!(in alloc; "{whole}.5")?)
    }
}

// Halves from -16 to 16, counted from 0.
fn signed_halves(alloc: Global, count: u32) -> Result<String, Memory>
    requires { count ≤ 32 }
    ensures { IfOk result (λ text. string_bytes text ≡ made.signed_halves count) }
{
    if count < 16 {
        let size = halves(alloc, 16 - count)?;
        Ok(format!(in alloc; "-{size}")?)
    } else {
        halves(alloc, count - 16)
    }
}

fn effect_name(kind: u32) -> &'static str
    ensures { result.now ≡ made.effect_name kind }
{
    match kind {
        0 => "invert",
        1 => "boxblur",
        2 => "erode",
        3 => "translate",
        4 => "frameblend",
        5 => "echo",
        6 => "gain",
        _ => "saturation",
    }
}

fn operation(choice: u32) -> &'static str
    ensures { result.now ≡ made.operation choice }
{
    match choice {
        0 => "over",
        1 => "plus",
        2 => "multiply",
        3 => "screen",
        4 => "min",
        5 => "max",
        _ => "minus",
    }
}

fn blur_params(alloc: Global, q: u32) -> Result<String, Memory>
    ensures { IfOk result (λ text. string_bytes text ≡ made.params 1 q) }
{
    let (across, up) = (q % 9, q % 5);
    Ok(format!(in alloc; r#""rx":{across},"ry":{up}"#)?)
}

fn radius_param(alloc: Global, radius: u32) -> Result<String, Memory>
    ensures { IfOk result (λ text. string_bytes text ≡ made.radius_param radius) }
{
    Ok(format!(in alloc; r#""radius":{radius}"#)?)
}

fn move_params(alloc: Global, q: u32) -> Result<String, Memory>
    ensures { IfOk result (λ text. string_bytes text ≡ made.params 3 q) }
{
    let across = signed_halves(alloc, q % 33)?;
    Ok(format!(in alloc; r#""dx":"{across}","dy":0"#)?)
}

fn echo_params(alloc: Global, q: u32) -> Result<String, Memory>
    ensures { IfOk result (λ text. string_bytes text ≡ made.params 5 q) }
{
    let count = q % 3;
    Ok(format!(in alloc; r#""count":{count},"gap":1"#)?)
}

fn halves_param(alloc: Global, name: &str, q: u32) -> Result<String, Memory>
    ensures { IfOk result (λ text. string_bytes text ≡ made.halves_param name.now q) }
{
    let value = halves(alloc, q % 5)?;
    Ok(format!(in alloc; r#""{name}":"{value}""#)?)
}

// The parameters by a draw, as members of an object.
fn params(alloc: Global, kind: u32, q: u32) -> Result<String, Memory>
    requires { 1 ≤ kind }
    ensures { IfOk result (λ text. string_bytes text ≡ made.params kind q) }
{
    match kind {
        1 => blur_params(alloc, q),
        2 => radius_param(alloc, q % 4),
        3 => move_params(alloc, q),
        4 => radius_param(alloc, q % 3),
        5 => echo_params(alloc, q),
        6 => halves_param(alloc, "gain", q),
        _ => halves_param(alloc, "amount", q),
    }
}

// The member of the parameters, which an invert has not.
fn params_member(alloc: Global, kind: u32, q: u32) -> Result<String, Memory>
    ensures { IfOk result (λ text. string_bytes text ≡ made.params_member kind q) }
{
    if kind == 0 {
        return Ok(String::new(alloc));
    }
    let members = params(alloc, kind, q)?;
    Ok(format!(in alloc; r#","params":{{{members}}}"#)?)
}

// Node `node` of an effect, over the node before it.
fn node_with(alloc: Global, node: u32, effect: &str, member: &str) -> Result<String, Memory>
    requires { 1 ≤ node }
    ensures { IfOk result (λ text. string_bytes text ≡ made.node_with node effect.now member.now) }
{
    let before = node - 1;
    Ok(format!(in alloc;
        r#",{{"clips":{{"Source":"n{before}"}},"effect":"{effect}","name":"n{node}"{member}}}"#
    )?)
}

// The same by two draws.
fn node_text(alloc: Global, node: u32, p: u32, q: u32) -> Result<String, Memory>
    requires { 1 ≤ node }
    ensures { IfOk result (λ text. string_bytes text ≡ made.node_text node p q) }
{
    let member = params_member(alloc, p % 8, q)?;
    node_with(alloc, node, effect_name(p % 8), member.as_str())
}

// Appends node `node`, which takes the next two draws.
fn add_node(
    alloc: Global,
    node: u32,
    draws: &mut Generator,
    text: &mut String,
) -> Result<(), Memory>
    requires { 1 ≤ node }
    ensures state { draws.new.state ≡ next_state (next_state draws.old.state) }
    ensures text { let p = next_state draws.old.state / 65536 in
        let q = next_state (next_state draws.old.state) / 65536 in
        OnOk result (string_bytes text.new ≡ string_bytes text.old ++ made.node_text node p q) }
{
    let p = draws.next();
    let q = draws.next();
    let node = node_text(alloc, node, p, q)?;
    text.push_str(node.as_str())?;
    Ok(())
}

// The nodes behind the source, over nine pairs of draws.
fn nodes_text(alloc: Global, draws: &mut Generator) -> Result<String, Memory>
    ensures state { OnOk result (draws.new.state ≡ state draws.old.state 18) }
    ensures text { IfOk result (λ text. string_bytes text ≡ made.nodes_text draws.old.state 9) }
{
    let mut text = String::new(alloc);
    for k in 0u32..9 {
        add_node(alloc, k + 1, draws, &mut text)?;
    }
    Ok(text)
}

// The text around the nodes.
fn graph_with(alloc: Global, nodes: &str, operation: &str) -> Result<String, Memory>
    ensures { IfOk result (λ text. string_bytes text ≡ made.graph_with nodes.now operation.now) }
{
    Ok(format!(in alloc;
        r##"{{"nodes":[{{"first":0,"last":3,"name":"n0","outside":"hold","source":"in#.pam"}}{nodes},{{"clips":{{"A":"n9","B":"n0"}},"effect":"merge","name":"n10","params":{{"operation":"{operation}"}}}}],"ofxr":1,"output":{{"file":"out#.pam","format":"RGB_ALPHA","node":"n10"}},"project":{{"components":"RGBA","depth":"byte","height":240,"width":320}},"range":{{"first":0,"last":3}}}}"##
    )?)
}

/// The graph's text, over the first nineteen draws.
pub(crate) fn graph_text(alloc: Global, draws: &mut Generator) -> Result<Vec<u8>, Memory>
    ensures state { OnOk result (draws.new.state ≡ state draws.old.state 19) }
    ensures text { IfOk result (λ text. text.items ≡ made.graph_text draws.old.state) }
{
    let nodes = nodes_text(alloc, draws)?;
    let operation = operation(draws.next() % 7);
    let text = graph_with(alloc, nodes.as_str(), operation)?;
    Ok(text.into_bytes())
}
