//! What a worker is to do with a number.
ghost use Rattle.std.specs.Prelude.{◌≡◌, ℕ, IfOk};
ghost use Rattle.fx_pool.specs.Weights.{plus};

use fx_base::Memory;
use std::alloc::Global;
use std::rt::Clock;
use std::sync::Wait;

/// A job for numbers. It says which seats fit it, which numbers it takes, which outs are right for a
/// number, and what a seat and an out weigh: two whole numbers, each of them added by itself.
pub trait Job: Sync {
    /// What a worker works with: each worker has one, and brings it to each of its turns.
    type Seat: Send;

    /// What comes of a turn.
    type Out: Send + Drop;

    /// Which seats fit the job.
    ghost fits: { Self → Self.Seat → Type 0 };

    /// Which numbers it takes.
    ghost takes: { Self → ℕ → Type 0 };

    /// Which outs are right for a number.
    ghost right: { Self → ℕ → Self.Out → Type 0 };

    /// What a seat weighs.
    ghost weight: { Self.Seat → ℕ × ℕ };

    /// What an out weighs.
    ghost out_weight: { Self.Out → ℕ × ℕ };

    /// Does the job for the number `index`. The seat fits afterwards too, at `Memory` as well, which
    /// comes where memory is wanting.
    fn turn<R: Wait + Clock>(
        &self,
        rt: &R,
        alloc: Global,
        seat: &mut Self::Seat,
        index: u64,
    ) -> Result<Self::Out, Memory>
        requires fits { fits self.now seat.old }
        requires takes { takes self.now index }
        ensures fits { fits self.now seat.new }
        ensures right { IfOk result (λ out. right self.now index out) }
        ensures weighs { IfOk result (λ out. weight seat.new ≡ plus (weight seat.old) (out_weight out)) };
}

/// A job for the items of a list. It says which seats fit it, which items it takes under which index,
/// which outs are right for an index, the item before and the item after, and what a seat and an out
/// weigh, as a `Job` does.
pub trait ItemJob<I>: Sync {
    /// What a worker works with: each worker has one, and brings it to each of its turns.
    type Seat: Send;

    /// What comes of a turn.
    type Out: Send + Drop;

    /// Which seats fit the job.
    ghost fits: { Self → Self.Seat → Type 0 };

    /// Which items it takes, under which index.
    ghost takes: { Self → ℕ → I → Type 0 };

    /// Which outs are right for an index, the item before and the item after.
    ghost right: { Self → ℕ → I → I → Self.Out → Type 0 };

    /// What a seat weighs.
    ghost weight: { Self.Seat → ℕ × ℕ };

    /// What an out weighs.
    ghost out_weight: { Self.Out → ℕ × ℕ };

    /// Does the job for the item with this index. The seat fits afterwards too, at `Memory` as well,
    /// which comes where memory is wanting.
    fn turn<R: Wait + Clock>(
        &self,
        rt: &R,
        alloc: Global,
        seat: &mut Self::Seat,
        index: u64,
        item: &mut I,
    ) -> Result<Self::Out, Memory>
        requires fits { fits self.now seat.old }
        requires takes { takes self.now index item.old }
        ensures fits { fits self.now seat.new }
        ensures right { IfOk result (λ out. right self.now index item.old item.new out) }
        ensures weighs { IfOk result (λ out. weight seat.new ≡ plus (weight seat.old) (out_weight out)) };
}
