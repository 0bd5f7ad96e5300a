//! The part that makes files.
ghost use Rattle.std.specs.Prelude.{◌≡◌, ◌+◌, ◌<◌, ◌^◌, [], length};
ghost use Rattle.fx_pipe.specs.Blocks.{Makes, fetched_in};
ghost use Rattle.fx_pipe.specs.Moments.{AreDue};

use crate::{Made, Stage};
use fx_seq::SourceFrame;
use std::alloc::Global;
use std::collections::VecDeque;
use std::rt::Clock;
use std::sync::Wait;
use std::thread::Threads;

/// Makes the files of the moments of a block, one after the other, the first of which is this moment. Where it does
/// not, memory was wanting.
pub(crate) fn make_block<R: Threads + Wait + Clock + Sync, S: Stage>(
    rt: &R,
    alloc: Global,
    stage: &mut S,
    first: u64,
    fetched: &mut VecDeque<Vec<SourceFrame>>,
    made: &mut VecDeque<Made>,
) -> bool
    requires next { first ≡ S.next stage.old }
    requires few { first + length (fetched_in fetched.old.items) < 2 ^ 64 }
    requires due { AreDue (S.due (S.base stage.old)) first (fetched_in fetched.old.items) }
    requires empty { made.old.items ≡ [] }
    ensures base { S.base stage.new ≡ S.base stage.old }
    ensures makes { Makes (S.right (S.base stage.old)) first (fetched_in fetched.old.items) made.new.items
        (S.seen stage.old) (S.seen stage.new) (S.next stage.new) result }
{
    let mut moment = first;
    while let Some(frames) = fetched.pop_front() {
        match stage.made(rt, alloc, moment, frames) {
            Ok(one) => {
                if made.push_back(one).is_err() {
                    return false;
                }
            }
            Err(_) => return false,
        }
        moment += 1;
    }
    true
}
