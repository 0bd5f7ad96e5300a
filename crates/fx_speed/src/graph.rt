//! The text of a graph of 256 nodes, each with a parameter of so many keys, the reading of it, and its acceptance
//! over the effects that are shipped.
use fx_base::Memory;
use fx_graph::{Graph, accept};
use fx_shipped::Shipped;
use fx_text::{GraphFault, read_graph};
use std::alloc::{AllocError, Global};

// What stands before the nodes, with the first one up to its keys.
const HEAD: &str =
    r#"{"ofxr":1,"project":{"width":1920,"height":1080,"depth":"byte","components":"RGBA"},"output":{"node":"n255","file":"o.####.pam","format":"RGB_ALPHA"},"range":{"first":0,"last":99},"nodes":[{"name":"n0","effect":"solid","params":{"r":"#;

/// The length of the graph's text in bytes.
pub(crate) fn length(alloc: Global, keys: u32) -> Result<u64, Memory> {
    Ok(made(alloc, keys)?.len() as u64)
}

// The graph's text: a chain of gains behind a solid.
fn made(alloc: Global, keys: u32) -> Result<String, AllocError> {
    let mut text = String::new(alloc);
    push_nodes(alloc, &mut text, keys)?;
    Ok(text)
}

fn push_nodes(alloc: Global, text: &mut String, keys: u32) -> Result<(), AllocError> {
    text.push_str(HEAD)?;
    push_keys(alloc, text, keys)?;
    for before in 0..255u64 {
        push_numbered(alloc, text, r#",{"name":"n"#, before + 1)?;
        push_numbered(
            alloc,
            text,
            r#"","effect":"gain","clips":{"Source":"n"#,
            before,
        )?;
        text.push_str(r#""},"params":{"gain":"#)?;
        push_keys(alloc, text, keys)?;
    }
    text.push_str("]}")
}

// The value of a node's last member, and the ends of the parameters and of the node.
fn push_keys(alloc: Global, text: &mut String, keys: u32) -> Result<(), AllocError> {
    text.push_str(r#"{"keys":["#)?;
    for key in 0..u64::from(keys) {
        let open = if key > 0 { ",[" } else { "[" };
        push_numbered(alloc, text, open, key + 100_000)?;
        text.push_str(r#","0.234567"]"#)?;
    }
    text.push_str("]}}}")
}

// A text with a number behind it.
fn push_numbered(
    alloc: Global,
    text: &mut String,
    before: &str,
    number: u64,
) -> Result<(), AllocError> {
    let numbered = format!(in alloc; "{before}{number}")?;
    text.push_str(numbered.as_str())
}

/// How many nodes are read of the graph's bytes, and 0 where they are refused.
pub(crate) fn read(alloc: Global, keys: u32) -> Result<u64, Memory> {
    let text = made(alloc, keys)?;
    match read_graph(alloc, text.as_bytes(), 256, 4096) {
        Ok(graph) => Ok(graph.nodes.items().len() as u64),
        Err(_) => Ok(0),
    }
}

/// How many nodes the graph of the bytes has once it is accepted, and 0 where it is refused.
pub(crate) fn accepted(alloc: Global, keys: u32) -> Result<u64, Memory> {
    let text = made(alloc, keys)?;
    match graph_of(alloc, text.as_str()) {
        Ok(graph) => Ok(graph.nodes.len() as u64),
        Err(_) => Ok(0),
    }
}

/// The graph of a text.
pub(crate) fn graph_of(alloc: Global, text: &str) -> Result<Graph<Shipped>, GraphFault> {
    let raw = read_graph(alloc, text.as_bytes(), 256, 4096)?;
    accept(alloc, raw)
}
