//! Graph files over the effects of the program, and the graphs that they become.
use fx_graph::{Graph, accept};
use fx_shipped::Shipped;
use fx_text::{GraphFault, read_graph};
use std::alloc::{AllocError, Global};

/// A graph file of this project and these nodes, whose output is the node z.
pub fn file_of(
    alloc: Global,
    project: &str,
    file: &str,
    nodes: &str,
) -> Result<String, AllocError> {
    format!(in alloc;
        r#"{{"ofxr":1,"project":{project},"output":{{"node":"z","file":"{file}","format":"RGB"}},"range":{{"first":0,"last":9}},"nodes":[{nodes}]}}"#
    )
}

/// The graph of a file, or why it is refused.
pub fn graph_of(alloc: Global, text: &str) -> Result<Graph<Shipped>, GraphFault> {
    let raw = read_graph(alloc, text.as_bytes(), 256, 4096)?;
    accept(alloc, raw)
}
