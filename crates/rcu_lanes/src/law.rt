//! The lane law as the rule that the deque keeps between any two steps of any threads: docs/specification/definitions.md,
//! "The running parts: laws" (lane law). The steps are those of docs/specification/tables.md, "Kinds of atomic step": put,
//! draw, split, join and take. Nothing here has a value that runs.

ghost use Rattle.std.specs.Prelude.{◌≡◌, true, false, [], ◌++◌};
ghost use Rattle.rcu_lanes.specs.Lane.{log, AllowedAfter, KeepsLaneLaw, rest_of};

use crate::rule::Rule;
use crossbeam_deque::protocol::{Join, Lesson, Outcome, Protocol, Split};
use crossbeam_deque::{Pass, Stealer, Worker};
use std::alloc::Global;
use std::collections::LinkedList;
use std::marker::PhantomData;

// What one end of a lane may do, and what it knows: the items that it put and those that it drew, first to last.
pub struct Log<T> {
    pub puts: bool,
    pub draws: bool,
    pub put: LinkedList<T>,
    pub drawn: LinkedList<T>,
}

// The lane law, for items that the rule `L` allows.
pub struct LaneLaw<L> {
    rule: PhantomData<L>,
}

impl<T, L: Rule<T>> Protocol<T, Log<T>> for LaneLaw<L> {
    ghost holds = { KeepsLaneLaw L.allows };

    ghost first = { log true true [] [] };

    ghost guest = { log false false [] [] };
}

// The ends of a lane: they part in `lane`, where the left one puts and the right one draws, and come together in `rest`.
pub struct Ends;

impl<T> Split<Log<T>> for Ends {
    ghost left = { λ v. log true false v.put [] };

    ghost right = { λ v. log false true [] v.drawn };
}

impl<T> Join<Log<T>> for Ends {
    ghost both = { λ v w. log true true v.put w.drawn };

    ghost spent = { log false false [] [] };
}

// A put, by the end that puts.
pub struct Put;

impl<T> Outcome<T, Log<T>> for Put {
    ghost then = { λ v xs w. w ≡ log v.puts v.draws (v.put ++ xs) v.drawn };
}

// A draw, by the end that draws.
pub struct Drawn<L> {
    rule: PhantomData<L>,
}

impl<T, L: Rule<T>> Outcome<T, Log<T>> for Drawn<L> {
    ghost then = { λ v xs w. (w ≡ log v.puts v.draws v.put (v.drawn ++ xs)) × AllowedAfter L.allows v.drawn xs };
}

// A take, where both ends have come together: it knows what the lane still holds.
pub struct Taken;

impl<T> Outcome<T, Log<T>> for Taken {
    ghost then = { λ v xs w. (w ≡ log v.puts v.draws v.put (v.drawn ++ xs)) × (rest_of v ≡ xs ++ rest_of w) × (w.put ≡ w.drawn ++ rest_of w) };

    ghost empty = { λ v. rest_of v ≡ [] };
}

// What a look tells where both ends have come together.
pub struct Whole;

impl<T> Lesson<T, Log<T>> for Whole {
    ghost fact = { λ v items. v.put ≡ v.drawn ++ rest_of v };
}

// The owner of the deque, which puts, and takes what is left.
pub type Owner<T, L> = Worker<T, Global, Log<T>, LaneLaw<L>>;

// The handle that draws.
pub type Thief<T, L> = Stealer<T, Global, Log<T>, LaneLaw<L>>;

// What the drawing end knows. It has no bytes.
pub type Drawing<T> = Pass<T, Log<T>>;
