//! The library for C under the law of the core: each history that agrees with what a close of slots has left is closed.
//!
//! For those who judge the library for C. There is no code here: the contracts are laws over `Closes`, the clause that the close
//! of slots and the export over it have, and over `rcu_parts_law`.
//!
//! # What is proved
//!
//! - Where slots were those of one open, and were closed, every history that agrees with what is left of them is closed under
//!   the law of the core.
//! - The same of a close that is made again, after one for which there was no memory.
//! - By `every_history_of_slots` (`closed`, `again`).
#![tactic(auto)]

ghost use Rattle.std.specs.Prelude.{ℕ, List};
ghost use Rattle.std.specs.declared.result.Result.TheVariants.{Ok};
ghost use Rattle.rcu_agreement.specs.Agreement.{Agrees};
ghost use Rattle.rcu_c_slots.specs.Gathers.{AreOfTheOpen, Closes, ClosesAgain, OwesAgain};
ghost use Rattle.rcu_c_slots.specs.declared.slot.PartSlots.{PartSlots};
ghost use Rattle.rcu_c_slots.specs.declared.slot.Slot.{Slot};
ghost use Rattle.rcu_parts.specs.OneOpen.{parts_board};
ghost use Rattle.rcu_parts_law.specs.Accounts.{accounts_of};
ghost use Rattle.rcu_world_law.specs.Law.{IsClosed};
ghost use Rattle.rcu_world_law.specs.declared.marks.Mark.{Mark};

/// Whatever the threads did: every history that agrees with what a close of slots has left is closed under the law of the core.
pub fn every_history_of_slots()
    ensures closed { (old new : PartSlots) (counts : List (List ℕ)) (history : List Mark)
        → AreOfTheOpen old → (c : Closes (Ok tt) old new)
        → Agrees (accounts_of c.parts c.comes_to.closes.ends) counts history
        → IsClosed (parts_board c.parts).processors history }
    ensures again { (old new : Slot) (counts : List (List ℕ)) (history : List Mark)
        → OwesAgain old → (c : ClosesAgain (Ok tt) old new)
        → Agrees (accounts_of c.closing.parts c.comes_to.closes.ends) counts history
        → IsClosed (parts_board c.closing.parts).processors history }
{}
