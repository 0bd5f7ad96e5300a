//! Renders of nodes that have gates: what they read is there before the gate is held.
use crate::same::same;
use crate::tile::counting::{A_WHILE, AT_FIRST, Outcome, Plugins, by_four, shows_the_source};
use fx_tile::TileCount;
use std::process::Abort;
use std::rt::Clock;
use std::sync::Wait;
use std::thread::Threads;

// The effects of which no two calls may be under way at once.
const GATED: &[&str] = &["unsafe", "instance"];

// What becomes of the sixteen tiles, each of which is rendered once for each of the two nodes.
const TOTAL: TileCount = TileCount {
    void_tiles: 0,
    passed: 0,
    asked: 16,
    landed: 32,
    hits: 0,
};

// A source under a node of the fully safe effect, which the output reads.
fn text_of(rt: &(impl Abort + AllocGlobal), gated: &str) -> String {
    let alloc = rt.alloc();
    let project = r#""project":{"width":8,"height":8,"depth":"byte","components":"RGBA"}"#;
    let output = r#""output":{"node":"b","file":"o#.pam","format":"RGB_ALPHA"}"#;
    let range = r#""range":{"first":3,"last":3}"#;
    let head = format!(in alloc; "\"ofxr\":1,{project},{output},{range}").expect(rt, "no head");
    let source = r#"{"name":"s","source":"s.pam","first":3,"last":3}"#;
    let read = r#"{"name":"a","effect":"fully","clips":{"Source":"s"}}"#;
    let shown = format!(in alloc;
        "\"name\":\"b\",\"effect\":\"{gated}\",\"clips\":{{\"Source\":\"a\"}}"
    ).expect(rt, "no node");
    format!(in alloc; "{{{head},\"nodes\":[{source},{read},{{{shown}}}]}}").expect(rt, "no text")
}

// Two calls of the fully safe effect meet. None could begin beside another if whoever made it held the gate of the
// output, for which it renders, since only one at a time has that.
fn inputs_meet<R: Threads + Wait + Clock + Abort + AllocGlobal + Sync>(
    rt: &R,
    gated: &str,
    plugins: &Plugins,
) {
    let text = text_of(rt, gated);
    let Outcome { made, totals } = by_four(rt, text.as_str(), plugins);
    let (picture, count) = made.expect(rt, "no picture");
    assert!(rt; plugins.fully.was_joined(), "under {gated}");
    shows_the_source(rt, &picture);
    same(rt, count, TOTAL);
    same(rt, totals.landed, count.landed);
    same(rt, plugins.fully.calls(), 16);
    same(
        rt,
        plugins
            .single
            .most_at_once()
            .max(plugins.instance.most_at_once()),
        1,
    );
}

#[test]
fn inputs_are_fetched_before_a_gate_is_held(rt: HostRuntime) {
    for gated in GATED {
        let plugins = Plugins::new(&rt, AT_FIRST, A_WHILE);
        inputs_meet(&rt, gated, &plugins);
    }
}
