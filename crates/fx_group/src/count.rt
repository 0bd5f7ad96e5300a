//! How many nodes a list expands to, counted no further than one more than a graph may have. Groups stand latest first.
ghost use Rattle.std.specs.Prelude.{◌≡◌, ◌+◌, ◌≤◌, IfOk};
ghost use Rattle.fx_base.specs.declared.limits.TheConstants.{MOST_NODES};
ghost use Rattle.fx_group.specs.Sizes.{work_size, nodes_size, group_size, capped};
ghost use Rattle.fx_group.specs.Counted.{AreSizes};

use fx_base::Memory;
use fx_base::limits::MOST_NODES;
use fx_text::{RawGroup, RawNode, RawWork};
use std::alloc::Global;

/// The size of each group, in the order of the file.
pub(crate) fn sizes_of(alloc: Global, groups: &[RawGroup]) -> Result<Vec<u32>, Memory>
    ensures { IfOk result (λ sizes. AreSizes groups.now sizes.items) }
{
    let mut sizes = Vec::new(alloc);
    for k in 0..groups.len() {
        let at = groups.len() - 1 - k;
        let size = size_of_body(&groups[at + 1..], &sizes, &groups[at]);
        sizes.push(size)?;
    }
    Ok(sizes)
}

fn size_of_body(groups: &[RawGroup], sizes: &[u32], group: &RawGroup) -> u32
    requires { AreSizes groups.now sizes.now }
    ensures { result ≡ capped (nodes_size (group_size groups.now) group.now.nodes) }
{
    size_of_nodes(groups, sizes, group.nodes.items())
}

/// The size of a list that may use these groups.
pub(crate) fn size_of_nodes(groups: &[RawGroup], sizes: &[u32], nodes: &[RawNode]) -> u32
    requires { AreSizes groups.now sizes.now }
    ensures { result ≡ capped (nodes_size (group_size groups.now) nodes.now) }
{
    let mut size = 0;
    for node in nodes {
        size = plus(size, size_of_work(groups, sizes, &node.work));
    }
    size
}

fn plus(a: u32, b: u32) -> u32
    requires first { a ≤ MOST_NODES + 1 }
    requires second { b ≤ MOST_NODES + 1 }
    ensures { result ≡ capped (a + b) }
{
    (a + b).min(MOST_NODES + 1)
}

fn size_of_work(groups: &[RawGroup], sizes: &[u32], work: &RawWork) -> u32
    requires { AreSizes groups.now sizes.now }
    ensures value { result ≡ capped (work_size (group_size groups.now) work.now) }
    ensures small { result ≤ MOST_NODES + 1 }
{
    match work {
        RawWork::Source { .. } => 1,
        RawWork::Effect { .. } => 1,
        RawWork::GroupUse { group, .. } => size_of_group(groups, sizes, group.text()),
    }
}

// The size of the latest group of a name.
fn size_of_group(groups: &[RawGroup], sizes: &[u32], name: &str) -> u32
    requires { AreSizes groups.now sizes.now }
    ensures value { result ≡ capped (group_size groups.now name.now) }
    ensures small { result ≤ MOST_NODES + 1 }
{
    match groups {
        [] => 0,
        [group, earlier @ ..] => {
            if group.name.text() == name {
                sizes[earlier.len()]
            } else {
                size_of_group(earlier, sizes, name)
            }
        }
    }
}
