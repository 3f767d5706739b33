//! How a processor takes a new callback on: docs/specification/rules.md, "The calls, step by step", call_rcu.

ghost use Rattle.std.specs.Prelude.{◌≡◌, ◌<◌, true, [], ◌∷◌, ◌++◌, length, IsOk, OnOk};
ghost use Rattle.rcu_lanes.specs.Ends.{SameRear};
ghost use Rattle.rcu_part_lists.specs.ProcessorLists.{holding, rear_of, passed_on, IsReady, Takes};
ghost use Rattle.rcu_jobs.specs.Modes.{is_offloaded};
ghost use Rattle.rcu_part_lists.specs.Limits.{IsSafe};

use crate::processor_lists::ProcessorLists;
use crate::sends::hold_or_send;
use rcu_jobs::Callback;
use rcu_lists::Kind;
use rcu_numbers::MOST_CALLS;
use std::alloc::AllocError;

impl<J: Drop> ProcessorLists<J> {
    /// Finds room for one more callback, in the list that it goes to in this mode.
    ///
    /// # Errors
    ///
    /// Refusal 2, want of memory.
    pub fn reserve(&mut self) -> Result<(), AllocError>
        ensures rear { rear_of self.new ≡ rear_of self.old }
        ensures same { holding self.new ≡ holding self.old }
        ensures found { OnOk result (IsReady self.new) }
        ensures had { IsReady self.old → IsOk result }

        // An empty bypass list has room.
        ensures none { is_offloaded (holding self.old).mode ≡ true
            → (holding self.old).outgoing.bypass ≡ [] → IsOk result }
    {
        if self.mode.is_offloaded() {
            self.bypass.reserve()
        } else {
            self.own.reserve(1)
        }
    }

    /// Places an accepted callback, in the room that there is. In Offloaded it goes to the bypass list, and the list is
    /// released where the rules say so; in every other mode it goes to the processor's own list, whatever its kind.
    pub fn place(&mut self, moment: u64, kind: Kind, callback: Callback<J>)
        requires ready { IsReady self.old }
        requires safe { IsSafe callback }
        requires few { length (passed_on (holding self.old)) < MOST_CALLS }
        ensures lane { SameRear (rear_of self.old) (rear_of self.new) }
        ensures advanced { (holding self.new).advanced ≡ (holding self.old).advanced }
        ensures takes { Takes moment kind callback (holding self.old) (holding self.new) }

        // It is behind all that went before.
        ensures places { passed_on (holding self.new)
            ≡ passed_on (holding self.old) ++ callback ∷ [] }
    {
        if self.mode.is_offloaded() {
            hold_or_send(&mut self.outlet, &mut self.bypass, moment, kind, callback);
        } else {
            self.own.enqueue(callback);
        }
    }
}
