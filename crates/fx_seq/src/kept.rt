//! A value that contracts alone see, as std's `Snapshot`. What threads share has this one, since the check finds no
//! `Sync` for what holds a `Snapshot`.
ghost use Rattle.std.specs.Prelude.{◌≡◌};
ghost use Rattle.std.specs.Borrow.{ftrue};

use std::marker::{Model, PhantomData};

/// A `T` as contracts see it. It has no bytes and owns nothing.
pub struct Kept<T> {
    marker: PhantomData<T>,
    pub ghost value: { T },
}

impl<T> Model for Kept<T> {
    ghost also_owns = { λ _. ftrue };
}

impl<T> Kept<T> {
    /// The value as it is now.
    pub fn of(x: &T) -> Kept<T>
        ensures { result.value ≡ x.now }
    {
        let _ = x;
        Kept {
            marker: PhantomData,
        }
    }
}

impl<T> Drop for Kept<T> {
    fn drop(self) {
        let Self { marker: _ } = self;
    }
}

// It owns nothing.
unsafe impl<T> Send for Kept<T> {}

unsafe impl<T> Sync for Kept<T> {}
