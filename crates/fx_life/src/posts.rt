//! Where the instance of each node of a graph is to be, and what each plug-in's instances are for.
ghost use Rattle.std.specs.Prelude.{◌≡◌, ◌<◌, ◌≤◌, ◌^◌, ◌++◌, ℕ, [], length, Some, IfOk, OnOk};
ghost use Rattle.fx_graph.specs.Shown.{does_of};
ghost use Rattle.fx_life.specs.Posts.{Used, used_by, post_at, uses_at, added, ArePosted};

use crate::uses::{Post, Use};
use fx_base::Memory;
use fx_effect::Catalogue;
use fx_graph::{Node, Work};
use std::alloc::Global;

// The post of each node, and by the number of an effect what it is used for.
#[derive(Drop)]
pub(crate) struct Posting {
    pub posts: Vec<Option<Post>>,
    pub uses: Vec<Vec<Use>>,
}

// A post for each node that uses an effect, behind those of the earlier nodes of that effect.
pub(crate) fn posted<E: Catalogue>(alloc: Global, nodes: &[Node<E>]) -> Result<Posting, Memory>
    requires { length nodes.now < 2 ^ 32 }
    ensures posts { let count = length nodes.now in
        IfOk result (λ s. ArePosted E.number_of nodes.now count s.posts.items s.uses.items) }
    ensures lists { IfOk result (λ s. length s.uses.items ≡ 64) }
{
    let mut uses = no_uses(alloc)?;
    let mut posts = Vec::new(alloc);
    for (k, node) in nodes.iter().enumerate() {
        let post = post_of(&mut uses, k as u32, &node.work)?;
        posts.push(post)?;
    }
    Ok(Posting { posts, uses })
}

// A list for each number of an effect.
fn no_uses(alloc: Global) -> Result<Vec<Vec<Use>>, Memory>
    ensures lists { IfOk result (λ uses. length uses.items ≡ 64) }
    ensures none_yet { IfOk result (λ uses. (n : ℕ) → uses_at uses.items n ≡ []) }
{
    let mut uses = Vec::new(alloc);
    for _ in 0..64usize {
        uses.push(Vec::new(alloc))?;
    }
    Ok(uses)
}

// The post of the node that does this work, where that is an effect's, whose use is added.
fn post_of<E: Catalogue>(
    uses: &mut Vec<Vec<Use>>,
    node: u32,
    work: &Work<E>,
) -> Result<Option<Post>, Memory>
    requires lists { length uses.old.items ≡ 64 }
    requires few { (n : ℕ) → length (uses_at uses.old.items n) ≤ node }
    ensures lists { length uses.new.items ≡ 64 }
    ensures added { OnOk result ((n : ℕ) →
        uses_at uses.new.items n
        ≡ uses_at uses.old.items n ++ added E.number_of node n (used_by (does_of work.now))) }
    ensures post { (used : Used E) → used_by (does_of work.now) ≡ Some used →
        let number = E.number_of used.effect in let place = length (uses_at uses.old.items number) in
        IfOk result (λ post. post ≡ post_at number place) }
{
    let Work::Effect {
        effect,
        context,
        ..
    } = work
    else {
        return Ok(None);
    };
    let plugin = effect.number();
    let mine = &mut uses[plugin as usize];
    let place = mine.len() as u32;
    mine.push(Use {
        node,
        context: *context,
    })?;
    Ok(Some(Post { plugin, place }))
}
