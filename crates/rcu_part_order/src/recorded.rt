//! What a part keeps of the callbacks that it ran.

ghost use Rattle.std.specs.Prelude.{◌≡◌, ◌^◌, ◌<◌, true, [], length};
ghost use Rattle.rcu_part_order.specs.Kept.{IsKeptAs, IsLeft};

use rcu_history::History;
use rcu_jobs::Record;
use std::alloc::{AllocError, Global};
use std::mem::replace;

/// What is kept of the callbacks that ran, as it was chosen at `open`.
#[derive(Clone, Copy, Debug, PartialEq, Eq)]
pub enum Kept {
    /// Every record, until `close`: none can be taken out before.
    Whole,
    /// Every record, until it is taken out, or until `close`.
    Rest,
    /// None: a record goes as soon as its callback ran.
    Nothing,
}

/// What a part ran: all of it in a history that only proofs read, and of the records those that are left.
#[derive(Drop)]
pub struct Records<R> {
    kept: Kept,
    /// How many are here no more: they were taken out, or not kept.
    gone: usize,
    /// Those that are left, the last ones, in the order in which they ran.
    left: Vec<Record<R>>,
    /// All that ran, in order.
    all: History<Record<R>>,
    ghost rest: { IsLeft gone all.items left.items },
    ghost choice: { IsKeptAs kept gone left.items },
    ghost small: { length all.items < 2 ^ 64 },
}

impl<R: Drop> Records<R> {
    ghost use Rattle.std.specs.Prelude.{IfOk, ◌∷◌};
    ghost use Rattle.rcu_part_order.specs.Recorded.{HasRoom, HasRoomForTwo, and_ran, as_taken, recorded, takeable};

    /// Nothing ran.
    pub fn new(alloc: Global, kept: Kept) -> Records<R>
        ensures none { recorded result ≡ record { kept = kept; all = []; gone = 0 } }
    {
        Records {
            kept,
            gone: 0,
            left: Vec::new(alloc),
            all: History::new(),
        }
    }

    /// How many callbacks ran.
    pub fn len(&self) -> usize
        ensures { result ≡ length self.now.all.items }
    {
        self.gone + self.left.len()
    }

    /// How many records are left.
    pub fn records_left(&self) -> usize
        ensures { result ≡ length self.now.left.items }
    {
        self.left.len()
    }

    /// What is kept.
    pub fn kept(&self) -> Kept
        ensures { result ≡ self.now.kept }
    {
        self.kept
    }

    /// Finds room for the next record.
    ///
    /// # Errors
    ///
    /// Want of memory.
    pub fn find_room(&mut self) -> Result<(), AllocError>
        ensures same { recorded self.new ≡ recorded self.old }
        ensures room { IfOk result (λ _. HasRoom self.new) }
    {
        if self.len() == usize::MAX {
            return Err(AllocError);
        }
        match self.kept {
            Kept::Nothing => Ok(()),
            Kept::Whole | Kept::Rest => self.left.reserve(1),
        }
    }

    /// Whether there is room for two records more.
    pub fn has_room_for_two(&self) -> bool
        ensures { result ≡ true → HasRoomForTwo self.now }
    {
        if self.len() >= usize::MAX - 1 {
            return false;
        }
        match self.kept {
            Kept::Nothing => true,
            Kept::Whole | Kept::Rest => self.left.capacity() - self.left.len() >= 2,
        }
    }

    /// Adds the record of a callback that ran, after all others, in the room that was found. Where none is kept it goes.
    pub fn add(&mut self, next: Record<R>)
        requires room { HasRoom self.old }
        ensures added { recorded self.new ≡ and_ran (next ∷ []) (recorded self.old) }
        ensures room { HasRoomForTwo self.old → HasRoom self.new }
    {
        self.all = self.all.and(&next);
        match self.kept {
            Kept::Nothing => self.gone += 1,
            Kept::Whole | Kept::Rest => self.left.push_reserved(next),
        }
    }

    /// Takes out the records that are left, where these may be taken out; else none.
    pub fn take(&mut self, alloc: Global) -> Vec<Record<R>>
        ensures taken { result.items ≡ takeable self.old }
        ensures rest { recorded self.new ≡ as_taken (recorded self.old) }
    {
        match self.kept {
            Kept::Whole | Kept::Nothing => Vec::new(alloc),
            Kept::Rest => {
                self.gone += self.left.len();
                replace(&mut self.left, Vec::new(alloc))
            }
        }
    }

    /// Those that are left, in order.
    pub fn into_left(self) -> Vec<Record<R>>
        ensures { result ≡ self.left }
    {
        let Records { left, .. } = self;
        left
    }
}
