//! The graph and the frames of 0, worked by hand from the recurrence and the table of effects.
use crate::same::same;
use fx_bench::make;

// The draws are 15470 18256, 53708 43769, 25170 40750, 22526 41945, 33277 38128, 52214 48337, 40227 58006, 442 33734,
// 46381 20425, and 25167 for the merge.
const GRAPH: &str =
    r##"{"nodes":[{"first":0,"last":3,"name":"n0","outside":"hold","source":"in#.pam"},{"clips":{"Source":"n0"},"effect":"gain","name":"n1","params":{"gain":"0.5"}},{"clips":{"Source":"n1"},"effect":"frameblend","name":"n2","params":{"radius":2}},{"clips":{"Source":"n2"},"effect":"erode","name":"n3","params":{"radius":2}},{"clips":{"Source":"n3"},"effect":"gain","name":"n4","params":{"gain":"0.0"}},{"clips":{"Source":"n4"},"effect":"echo","name":"n5","params":{"count":1,"gap":1}},{"clips":{"Source":"n5"},"effect":"gain","name":"n6","params":{"gain":"1.0"}},{"clips":{"Source":"n6"},"effect":"translate","name":"n7","params":{"dx":"4.5","dy":0}},{"clips":{"Source":"n7"},"effect":"erode","name":"n8","params":{"radius":2}},{"clips":{"Source":"n8"},"effect":"echo","name":"n9","params":{"count":1,"gap":1}},{"clips":{"A":"n9","B":"n0"},"effect":"merge","name":"n10","params":{"operation":"multiply"}}],"ofxr":1,"output":{"file":"out#.pam","format":"RGB_ALPHA","node":"n10"},"project":{"components":"RGBA","depth":"byte","height":240,"width":320},"range":{"first":0,"last":3}}"##;

// The header, and the first pixel: the draws behind those of the graph are 42249, 34396, 35501 and 26234.
const FRONT: &[u8] =
    b"P7\nWIDTH 320\nHEIGHT 240\nDEPTH 4\nMAXVAL 255\nTUPLTYPE RGB_ALPHA\nENDHDR\n\x09\x5c\xad\x7a";

const NAMES: &[&str] = &["in0.pam", "in1.pam", "in2.pam", "in3.pam"];

#[test]
fn zero_makes_its_graph(rt: HostRuntime) {
    let bench = make(rt.alloc(), 0).expect(&rt, "no bench");
    same(&rt, bench.graph.as_slice(), GRAPH.as_bytes());
}

#[test]
fn zero_makes_four_frames(rt: HostRuntime) {
    let bench = make(rt.alloc(), 0).expect(&rt, "no bench");
    same(&rt, bench.frames.len(), NAMES.len());
    for ((name, bytes), wanted) in bench.frames.iter().zip(NAMES) {
        same(&rt, name.text(), *wanted);
        same(&rt, bytes.len(), 307_269);
    }
    let first = bench.frames.first().expect(&rt, "no frame");
    assert!(rt; first.1.starts_with(FRONT));
}
