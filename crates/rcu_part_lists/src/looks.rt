//! What a processor does with its own list: docs/specification/rules.md, "The calls, step by step", tick.

ghost use Rattle.std.specs.Prelude.{◌≡◌, ℕ, ◌≤◌, [], ◌∷◌, ◌++◌, List, IfSome, MatchOption};
ghost use Rattle.rcu_jobs.specs.declared.callback.Callback.{Callback};
ghost use Rattle.rcu_numbers.specs.Numbers.{snap_of};
ghost use Rattle.rcu_lists.specs.Labels.{Done, Labelled, marked, count, is_done};
ghost use Rattle.rcu_part_lists.specs.Aims.{AreUpTo, wanted};
ghost use Rattle.rcu_part_lists.specs.ProcessorLists.{holding, rear_of, held_in, after_look};
ghost use Rattle.rcu_part_lists.specs.Limits.{IsSafe};

use crate::processor_lists::ProcessorLists;
use crate::views::look_at;
use rcu_jobs::Callback;
use rcu_numbers::LAST_NUMBER;

impl<J: Drop> ProcessorLists<J> {
    /// Advances the own list by the number seen, and accelerates it by `snap` of the greater of that number and the
    /// newest stamp. Answers that where some callback waits for it, and it is to be asked for.
    pub fn look(&mut self, seen: u64) -> Option<u64>
        requires later { (holding self.old).advanced ≤ seen }
        requires small { seen ≤ LAST_NUMBER }
        ensures rear { rear_of self.new ≡ rear_of self.old }
        ensures list { holding self.new ≡ after_look seen (holding self.old) }
        ensures wanted { result ≡ wanted seen (holding self.old).own }
        ensures places { held_in (holding self.new) ≡ held_in (holding self.old) }

        // Each number that is waited for then is the one answered, or was waited for before.
        ensures needed { (s : ℕ) → AreUpTo s (holding self.old).own → IfSome result (λ n. n ≤ s)
            → AreUpTo s (holding self.new).own }
    {
        look_at(&mut self.own, seen)
    }

    /// The first callback, if it is done. Where the processor is Offloaded there is none.
    pub fn first(&self) -> Option<&Callback<J>>
        ensures first { MatchOption result (count is_done (holding self.now).own ≡ 0) (λ c.
            (rest : List (Labelled J))
            × ((holding self.now).own ≡ marked Done (c.now ∷ []) ++ rest)) }
        ensures safe { IfSome result (λ c. IsSafe c.now) }
    {
        self.own.first_done()
    }

    /// Takes the first callback, if it is done.
    pub fn take(&mut self) -> Option<Callback<J>>
        ensures rear { rear_of self.new ≡ rear_of self.old }
        ensures taken { MatchOption result
            ((count is_done (holding self.old).own ≡ 0) × (holding self.new ≡ holding self.old))
            (λ c. ((holding self.old).own ≡ marked Done (c ∷ []) ++ (holding self.new).own)
            × (holding self.new ≡ record (holding self.old) { own = (holding self.new).own })) }
        ensures places { IfSome result (λ c.
            held_in (holding self.old) ≡ c ∷ held_in (holding self.new)) }
        ensures graced { IfSome result (λ c. snap_of c.stamp ≤ (holding self.old).advanced) }
        ensures safe { IfSome result IsSafe }
    {
        self.own.take_done()
    }
}
