//! A graph as its file says it: texts for names, and numbers within the ranges of the format. Whether a
//! name, a pattern or a parameter means anything is not known yet. Each type keeps its ranges.
ghost use Rattle.std.specs.Prelude.{◌≡◌, ◌≤◌, ◌+◌, length, [], IfOk};
ghost use Rattle.fx_base.specs.declared.limits.TheConstants.{MOST_NODES};
ghost use Rattle.fx_text.specs.Order.{ClipsRise, ParamsRise};
ghost use Rattle.fx_text.specs.declared.raw.TheConstants.{MOST_TAKES, MOST_GROUPS};

use crate::value::{RawClip, RawParam, RawValue};
use fx_base::{Memory, Name, Names};
use fx_pixel::{Components, Depth, Format};
use std::alloc::Global;
use std::marker::Model;
use std::mem;

/// The project: its sides in pixels, from 1 to 8,192, and the depth and components of nodes without input.
#[derive(Clone, Copy, Debug, PartialEq, Eq)]
pub struct RawProject {
    pub width: u32,
    pub height: u32,
    pub depth: Depth,
    pub components: Components,
}

impl Model for RawProject {
    ghost use Rattle.fx_text.specs.Raw.{Project, AreSides};

    ghost Value = { Project };

    ghost view = { λ p. record { width = p.width; height = p.height; depth = p.depth; components = p.components } };

    ghost invariant = { λ p. AreSides p.width p.height };

    ghost inverse = { λ p. record { width = p.width; height = p.height; depth = p.depth; components = p.components } };
}

/// The frames to render, the first and the last of them.
#[derive(Clone, Copy, Debug, PartialEq, Eq)]
pub(crate) struct RawRange {
    pub(crate) first: u32,
    pub(crate) last: u32,
}

/// The node that is rendered, the pattern of the files' names, and the files' format.
#[derive(Debug, Drop)]
pub struct RawOutput {
    pub node: Name,
    pub file: Name,
    pub format: Format,
}

/// What a graph file says before its groups.
#[derive(Drop)]
pub(crate) struct RawHead {
    pub(crate) format: u32,
    pub(crate) project: RawProject,
    pub(crate) output: RawOutput,
    pub(crate) range: RawRange,
}

/// How a source's frames are taken: whether the nearest holds outside of them, and the depth and components that
/// they are converted to.
#[derive(Clone, Copy)]
pub(crate) struct Taking {
    pub(crate) hold: bool,
    pub(crate) depth: Depth,
    pub(crate) components: Components,
}

/// How an effect is used (OpenFX 1.4, "Image Effect Contexts").
#[derive(Clone, Copy, Debug, PartialEq, Eq)]
pub enum RawContext {
    Generator,
    Filter,
    Transition,
    General,
}

/// The connected clips of a node, in the byte order of their names.
#[derive(Debug, Drop)]
pub struct RawClips {
    items: Vec<RawClip>,
}

impl Model for RawClips {
    ghost use Rattle.std.specs.Prelude.{List};
    ghost use Rattle.fx_text.specs.declared.value.RawClip.{RawClip};
    ghost use Rattle.fx_text.specs.Order.{ClipsRise};

    ghost Value = { List RawClip };

    ghost view = { λ c. c.items.items };

    ghost invariant = { λ c. ClipsRise c.items.items };
}

impl RawClips {
    /// These clips, which rise strictly in the byte order of their names.
    pub fn of(items: Vec<RawClip>) -> RawClips
        requires { ClipsRise items.items }
        ensures { result ≡ items.items }
    {
        RawClips { items }
    }

    /// The clips in order.
    pub fn items(&self) -> &[RawClip]
        ensures value { result.now ≡ self.now }
        ensures rise { ClipsRise result.now }
    {
        self.items.as_slice()
    }

    /// The clips in order, given away.
    pub fn into_items(self) -> Vec<RawClip>
        ensures value { result.items ≡ self }
        ensures rise { ClipsRise result.items }
    {
        self.items
    }
}

/// The parameters of a node that have a value, in the byte order of their names.
#[derive(Debug, Drop)]
pub struct RawParams {
    items: Vec<RawParam>,
}

impl Model for RawParams {
    ghost use Rattle.std.specs.Prelude.{List};
    ghost use Rattle.fx_text.specs.declared.value.RawParam.{RawParam};
    ghost use Rattle.fx_text.specs.Order.{ParamsRise};

    ghost Value = { List RawParam };

    ghost view = { λ c. c.items.items };

    ghost invariant = { λ c. ParamsRise c.items.items };
}

impl RawParams {
    /// These parameters, which rise strictly in the byte order of their names.
    pub fn of(items: Vec<RawParam>) -> RawParams
        requires { ParamsRise items.items }
        ensures { result ≡ items.items }
    {
        RawParams { items }
    }

    /// The parameters in order.
    pub fn items(&self) -> &[RawParam]
        ensures value { result.now ≡ self.now }
        ensures rise { ParamsRise result.now }
    {
        self.items.as_slice()
    }

    /// The parameters in order, given away.
    pub fn into_items(self) -> Vec<RawParam>
        ensures value { result.items ≡ self }
        ensures rise { ParamsRise result.items }
    {
        self.items
    }

    /// Others that are the same.
    pub fn copied(&self, alloc: Global) -> Result<RawParams, Memory>
        ensures { IfOk result (λ params. params ≡ self.now) }
    {
        let items = params_copied(alloc, self.items.as_slice())?;
        Ok(RawParams { items })
    }
}

fn params_copied(alloc: Global, params: &[RawParam]) -> Result<Vec<RawParam>, Memory>
    ensures { IfOk result (λ copies. copies.items ≡ params.now) }
{
    let mut copies = Vec::new(alloc);
    for param in params {
        copies.push(param.copied(alloc)?)?;
    }
    Ok(copies)
}

/// What a node does: it reads frames, it is an effect over earlier nodes, or it is a group used in its place.
#[derive(Debug, Drop)]
pub enum RawWork {
    /// Frames from `first` to `last`, each 0 to 999,999, whose files the pattern names. Outside of them the
    /// nearest one holds, or the image is black. Each is converted to the depth and the components.
    Source {
        pattern: Name,
        first: u32,
        last: u32,
        hold: bool,
        depth: Depth,
        components: Components,
    },
    /// An effect, in its first context where none is given.
    Effect {
        effect: Name,
        context: Option<RawContext>,
        clips: RawClips,
        params: RawParams,
    },
    /// The group of this name, each of whose inputs is connected.
    GroupUse {
        group: Name,
        clips: RawClips,
    },
}

/// A node, under its name, and the path at which the file has it.
#[derive(Debug, Drop)]
pub struct RawNode {
    pub name: Name,
    pub path: Name,
    pub work: RawWork,
}

impl Model for RawNode {
    ghost use Rattle.fx_text.specs.Nodes.{Node, IsInRange};

    ghost Value = { Node };

    ghost view = { λ n. record { name = n.name; path = n.path; work = n.work } };

    ghost invariant = { λ n. IsInRange n.work };
}

/// The nodes of a graph, 1 to 1,024, in the order of the file.
#[derive(Debug, Drop)]
pub struct RawNodes {
    items: Vec<RawNode>,
}

impl Model for RawNodes {
    ghost use Rattle.std.specs.Prelude.{List};
    ghost use Rattle.fx_text.specs.Nodes.{Node, AreFew};

    ghost Value = { List Node };

    ghost view = { λ n. n.items.items };

    ghost invariant = { λ n. AreFew n.items.items };
}

impl RawNodes {
    /// These nodes, in this order.
    pub fn of(items: Vec<RawNode>) -> RawNodes
        requires { (1 ≤ length items.items) × (length items.items ≤ MOST_NODES) }
        ensures { result ≡ items.items }
    {
        RawNodes { items }
    }

    /// The nodes in order.
    pub fn items(&self) -> &[RawNode]
        ensures value { result.now ≡ self.now }
        ensures some { 1 ≤ length result.now }
        ensures few { length result.now ≤ MOST_NODES }
    {
        self.items.as_slice()
    }

    /// The nodes in order, given away.
    pub fn into_items(self) -> Vec<RawNode>
        ensures { result.items ≡ self }
    {
        self.items
    }
}

/// The most inputs of a group.
pub const MOST_INPUTS: usize = 16;

/// The most nodes of a group.
pub const MOST_GROUP_NODES: usize = 256;

/// A group: nodes that are used in the place of one, over inputs that each use connects, up to 16. It has 1 to
/// 256 nodes, and its value is that of the node which `output` names.
#[derive(Debug, Drop)]
pub struct RawGroup {
    pub name: Name,
    pub inputs: Names,
    pub nodes: RawNodes,
    pub output: Name,
}

impl Model for RawGroup {
    ghost use Rattle.fx_text.specs.Nodes.{Group, IsGroupSize};

    ghost Value = { Group };

    ghost view = { λ g. record { name = g.name; inputs = g.inputs; nodes = g.nodes; output = g.output } };

    ghost invariant = { λ g. IsGroupSize g.inputs g.nodes };
}

/// The most groups of a graph.
pub const MOST_GROUPS: usize = 64;

/// The groups of a graph, in the order of the file.
#[derive(Debug, Drop)]
pub struct RawGroups {
    items: Vec<RawGroup>,
}

impl Model for RawGroups {
    ghost use Rattle.std.specs.Prelude.{List};
    ghost use Rattle.fx_text.specs.Nodes.{Group, AreFewGroups};

    ghost Value = { List Group };

    ghost view = { λ g. g.items.items };

    ghost invariant = { λ g. AreFewGroups g.items.items };
}

impl RawGroups {
    /// These groups, in this order.
    pub fn of(items: Vec<RawGroup>) -> RawGroups
        requires { length items.items ≤ MOST_GROUPS }
        ensures { result ≡ items.items }
    {
        RawGroups { items }
    }

    /// The groups in order.
    pub fn items(&self) -> &[RawGroup]
        ensures value { result.now ≡ self.now }
        ensures few { length result.now ≤ MOST_GROUPS }
    {
        self.items.as_slice()
    }

    /// The groups in order, given away.
    pub fn into_items(self) -> Vec<RawGroup>
        ensures { result.items ≡ self }
    {
        self.items
    }
}

/// A parameter of an effect node that is given another value.
#[derive(Debug, Drop)]
pub struct RawEdit {
    pub node: Name,
    pub param: Name,
    pub value: RawValue,
}

/// The most edits of a take.
pub const MOST_EDITS: usize = 64;

/// A take: the pattern of its files' names, and its edits, 1 to 64, in the order of the file.
#[derive(Debug, Drop)]
pub struct RawTake {
    pub file: Name,
    pub edits: Vec<RawEdit>,
}

impl Model for RawTake {
    ghost use Rattle.fx_text.specs.Takes.{Take, AreFewEdits};

    ghost Value = { Take };

    ghost view = { λ t. record { file = t.file; edits = t.edits.items } };

    ghost invariant = { λ t. AreFewEdits t.edits.items };
}

/// The most takes of a graph.
pub const MOST_TAKES: usize = 64;

/// The takes of a graph, in the order of the file.
#[derive(Debug, Drop)]
pub struct RawTakes {
    items: Vec<RawTake>,
}

impl Model for RawTakes {
    ghost use Rattle.std.specs.Prelude.{List};
    ghost use Rattle.fx_text.specs.Takes.{Take, AreFewTakes};

    ghost Value = { List Take };

    ghost view = { λ t. t.items.items };

    ghost invariant = { λ t. AreFewTakes t.items.items };
}

impl RawTakes {
    /// These takes, in this order.
    pub fn of(items: Vec<RawTake>) -> RawTakes
        requires { length items.items ≤ MOST_TAKES }
        ensures { result ≡ items.items }
    {
        RawTakes { items }
    }

    /// The takes in order.
    pub fn items(&self) -> &[RawTake]
        ensures value { result.now ≡ self.now }
        ensures few { length result.now ≤ MOST_TAKES }
    {
        self.items.as_slice()
    }

    /// The takes in order, given away.
    pub fn into_items(self) -> Vec<RawTake>
        ensures value { result.items ≡ self }
        ensures few { length result.items ≤ MOST_TAKES }
    {
        self.items
    }
}

/// A graph file: its format's number, 1 or 2, the project, the output, the frames to render (0 to 999,999, at
/// most 100,000 of them), the groups, the nodes, and the takes.
#[derive(Debug, Drop)]
pub struct RawGraph {
    pub format: u32,
    pub project: RawProject,
    pub output: RawOutput,
    pub first: u32,
    pub last: u32,
    pub groups: RawGroups,
    pub nodes: RawNodes,
    pub takes: RawTakes,
}

impl Model for RawGraph {
    ghost use Rattle.fx_text.specs.Nodes.{Graph};
    ghost use Rattle.fx_text.specs.Raw.{IsHead};

    ghost Value = { Graph };

    ghost view = { λ g. record {
      format = g.format;
      project = g.project;
      output = g.output;
      first = g.first;
      last = g.last;
      groups = g.groups;
      nodes = g.nodes;
      takes = g.takes;
    } };

    ghost invariant = { λ g. IsHead g.format g.first g.last };
}

impl RawGraph {
    /// Its takes, given away: from then on it has none.
    pub fn take_takes(&mut self, alloc: Global) -> Vec<RawTake>
        ensures takes { result.items ≡ self.old.takes }
        ensures few { length result.items ≤ MOST_TAKES }
        ensures left { self.new ≡ record self.old { takes = [] } }
    {
        mem::replace(&mut self.takes, RawTakes::of(Vec::new(alloc))).into_items()
    }
}
