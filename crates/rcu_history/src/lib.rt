//! A history that only proofs read: what happened, in order, where the program keeps less of it or nothing.
//!
//! It takes no memory, and its methods do nothing at run time. A part has one beside what it keeps, so that its law can speak
//! of all that it ever did.
//!
//! # What is proved
//!
//! - A history grows by what is noted, behind all that was.
//! - By `History::new` (`none`), `and` (`longer`).
#![tactic(auto)]

ghost use Rattle.std.specs.Prelude.{◌≡◌, List, [], ◌∷◌, ◌++◌};
ghost use Rattle.std.specs.Borrow.{ftrue};

use std::marker::{Model, PhantomData};

/// What happened so far. A clause reads it as `items`.
#[derive(Drop)]
pub struct History<T> {
    of: PhantomData<T>,
    pub ghost items: { List T },
}

impl<T> Model for History<T> {
    ghost also_owns = { λ _. ftrue };
}

// It owns nothing, so it may go to another thread.
unsafe impl<T: Send> Send for History<T> {}

impl<T> History<T> {
    /// Nothing has happened.
    pub fn new() -> History<T>
        ensures none { result.items ≡ [] }
    {
        History { of: PhantomData }
    }

    /// The history with one thing more, which comes after all others.
    pub fn and(&self, next: &T) -> History<T>
        ensures longer { result.items ≡ self.now.items ++ next.now ∷ [] }
    {
        History { of: PhantomData }
    }
}
