//! A tick's release of the bypass list, and the modes: docs/specification/rules.md, "Bypass lists" and "Modes".

ghost use Rattle.std.specs.Prelude.{◌≡◌, ◌/◌, ◌&&◌, ◌||◌, true, false};
ghost use Rattle.rcu_lanes.specs.Ends.{SameRear};
ghost use Rattle.rcu_part_lists.specs.ProcessorLists.{Holding, holding, rear_of, put_by, passed_on, AskedOn, PutsBypass, asked_off, Releases};
ghost use Rattle.rcu_jobs.specs.Modes.{is_local, is_offloaded, is_offloading};
ghost use Rattle.rcu_part_lists.specs.Modes.{settled};
ghost use Rattle.rcu_part_lists.specs.Limits.{AreBelow};

use crate::processor_lists::ProcessorLists;
use crate::sends::{pour_out, send_if_any, send_in_tick};
use rcu_jobs::Mode;

/// The mode once the turn word was read.
fn settled(mode: Mode, left: u64, turn: u64) -> Mode
    ensures { result ≡ settled left turn mode }
{
    match mode {
        Mode::Deoffloading if left <= turn / 2 => Mode::Local,
        other => other,
    }
}

/// Whether a processor that is asked off becomes Deoffloading; `clear` says whether its bypass list is empty.
fn can_leave(mode: Mode, clear: bool) -> bool
    ensures { result ≡ (is_offloading mode || (is_offloaded mode && clear)) }
{
    match mode {
        Mode::Offloading => true,
        Mode::Offloaded => clear,
        _ => false,
    }
}

impl<J: Drop> ProcessorLists<J> {
    /// A tick's release of the bypass list: because of its moment, or where the processor is asked to leave
    /// offloading, or where it was urged by a barrier. Outside Offloaded the list is empty, and nothing is released.
    pub fn release(&mut self, moment: u64, leaving: bool, urged: bool)
        ensures lane { SameRear (rear_of self.old) (rear_of self.new) }
        ensures advanced { (holding self.new).advanced ≡ (holding self.old).advanced }
        ensures releases { Releases moment leaving urged (holding self.old) (holding self.new) }
        ensures places { passed_on (holding self.new) ≡ passed_on (holding self.old) }
    {
        send_in_tick(&mut self.outlet, &mut self.bypass, moment, leaving, urged);
    }

    /// Puts the bypass list on the lane, as one batch, where it isn't empty. The last moment and the count stay.
    pub fn put_bypass(&mut self)
        ensures lane { SameRear (rear_of self.old) (rear_of self.new) }
        ensures advanced { (holding self.new).advanced ≡ (holding self.old).advanced }
        ensures puts { PutsBypass (holding self.old) (holding self.new) }
        ensures places { passed_on (holding self.new) ≡ passed_on (holding self.old) }
    {
        send_if_any(&mut self.outlet, &mut self.bypass);
    }

    /// Heeds what is asked of the processor, which accepted so many callbacks.
    pub fn switch(&mut self, on: bool, accepted: u64)
        requires { AreBelow accepted (put_by (holding self.old)) }
        ensures lane { SameRear (rear_of self.old) (rear_of self.new) }
        ensures advanced { (holding self.new).advanced ≡ (holding self.old).advanced }
        ensures off { on ≡ false → holding self.new ≡ asked_off accepted (holding self.old) }
        ensures on { on ≡ true → AskedOn (holding self.old) (holding self.new) }
        ensures places { passed_on (holding self.new) ≡ passed_on (holding self.old) }
    {
        if on {
            self.turn_on();
        } else {
            self.turn_off(accepted);
        }
    }

    // Asked on. Where there is no room to pour, the next tick tries again.
    fn turn_on(&mut self)
        ensures lane { SameRear (rear_of self.old) (rear_of self.new) }
        ensures advanced { (holding self.new).advanced ≡ (holding self.old).advanced }
        ensures on { AskedOn (holding self.old) (holding self.new) }
        ensures places { passed_on (holding self.new) ≡ passed_on (holding self.old) }
    {
        if self.mode.is_offloaded() {
            return;
        }
        if pour_out(&mut self.own, &mut self.outlet, &mut self.bypass) {
            self.mode = Mode::Offloaded;
        } else {
            self.mode = Mode::Offloading;
        }
    }

    // Asked off.
    fn turn_off(&mut self, accepted: u64)
        requires { AreBelow accepted (put_by (holding self.old)) }
        ensures rear { rear_of self.new ≡ rear_of self.old }
        ensures advanced { (holding self.new).advanced ≡ (holding self.old).advanced }
        ensures off { holding self.new ≡ asked_off accepted (holding self.old) }
    {
        if can_leave(self.mode, self.bypass.is_empty()) {
            self.mode = Mode::Deoffloading;
            self.left = accepted;
        }
    }

    /// In Deoffloading the turn word was read: the processor becomes Local where all that it accepted before it left
    /// has run.
    pub fn settle(&mut self, turn: u64)
        ensures rear { rear_of self.new ≡ rear_of self.old }
        ensures settled { holding self.new
            ≡ record (holding self.old)
            { mode = settled (holding self.old).left turn (holding self.old).mode } }

        // The group and the hand have none left.
        ensures local { is_local (holding self.old).mode ≡ false
            → is_local (holding self.new).mode ≡ true
            → AreBelow (turn / 2) (put_by (holding self.new)) }
    {
        self.mode = settled(self.mode, self.left, turn);
    }
}
