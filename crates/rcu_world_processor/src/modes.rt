//! The mode of a processor, what is asked of it, and whether it was urged.

ghost use Rattle.std.specs.Prelude.{◌≡◌, ◌/◌, true, false, nat_le, ◌&&◌, if◌then◌else◌, [], IsOk};
ghost use Rattle.rcu_jobs.specs.declared.modes.Mode.TheVariants.{Local};
ghost use Rattle.rcu_jobs.specs.Modes.{is_offloaded, is_deoffloading};
ghost use Rattle.rcu_world_law.specs.Steps.{pours, leaves, heeds, settles};
ghost use Rattle.rcu_world_processor.specs.Turns.{is_switching, can_switch};
ghost use Rattle.rcu_world_processor.specs.Views.{seen};
ghost use Rattle.rcu_world_processor.specs.Makes.{Makes, MakesIfOk};

use crate::bypass::{is_clear, pour_all};
use crate::processor::WorldProcessor;
use rcu_jobs::{Job, Mode};
use std::alloc::AllocError;

/// Whether a switch is asked for that can be made; `clear` says whether the bypass list is empty.
fn can_switch(mode: Mode, asked: bool, clear: bool) -> bool
    ensures { result ≡ can_switch mode asked clear }
{
    match mode {
        Mode::Offloaded => !asked && clear,
        Mode::Offloading => true,
        Mode::Local => asked,
        Mode::Deoffloading => asked,
    }
}

/// The mode once the turn was read, where `left` callbacks were accepted before the processor left.
fn settled(mode: Mode, left: u64, turn: u64) -> Mode
    ensures { result ≡ (if nat_le left (turn / 2) then Local else mode) }
{
    if left <= turn / 2 {
        return Mode::Local;
    }
    mode
}

impl<J: Job> WorldProcessor<J, J::Receipt> {
    /// Offloading is asked for, or against.
    pub fn ask(&mut self, on: bool)
        ensures step { Makes J.key_of J.gives (λ c. record c { asked = on }) self.old self.new }
    {
        self.asked = on;
    }

    /// A barrier urges it.
    pub fn urge(&mut self)
        ensures step { Makes J.key_of J.gives (λ c. record c { urged = true }) self.old self.new }
    {
        self.urged = true;
    }

    /// Whether a barrier urged it since it last heard.
    pub fn is_urged(&self) -> bool
        ensures { result ≡ (seen J.key_of self.now).urged }
    {
        self.urged
    }

    /// It has heard that it was urged.
    pub fn hear(&mut self)
        ensures step { Makes J.key_of J.gives (λ c. record c { urged = false }) self.old self.new }
    {
        self.urged = false;
    }

    /// Whether its callbacks go to the bypass list.
    pub fn is_offloaded(&self) -> bool
        ensures { result ≡ is_offloaded (seen J.key_of self.now).mode }
    {
        self.mode.is_offloaded()
    }

    /// Whether it is on its way from Offloaded to Local.
    pub fn is_deoffloading(&self) -> bool
        ensures { result ≡ is_deoffloading (seen J.key_of self.now).mode }
    {
        self.mode.is_deoffloading()
    }

    /// Whether a switch is asked for that can be made.
    pub fn is_switching(&self) -> bool
        ensures { result ≡ is_switching (seen J.key_of self.now) }
    {
        can_switch(self.mode, self.asked, is_clear(&self.bypass))
    }

    /// Local from Deoffloading, once the turn has reached all that was accepted before the processor left.
    pub fn settle(&mut self)
        ensures step { Makes J.key_of J.gives settles self.old self.new }
    {
        self.mode = settled(self.mode, self.left, self.turn);
    }

    /// Pours the own list into the bypass list. On an error nothing has moved.
    fn pour(&mut self) -> Result<(), AllocError>
        ensures step { MakesIfOk J.key_of J.gives pours result self.old self.new }
        ensures none { (seen J.key_of self.old).own ≡ [] → IsOk result }
    {
        pour_all(&mut self.own, &mut self.bypass)?;
        self.mode = Mode::Offloaded;
        Ok(())
    }

    fn leave(&mut self)
        ensures step { Makes J.key_of J.gives leaves self.old self.new }
    {
        self.mode = Mode::Deoffloading;
        self.left = self.count;
    }

    /// Pours, or waits in Offloading for room to pour.
    fn pour_or_wait(&mut self) -> bool
        requires mode { is_offloaded (seen J.key_of self.old).mode ≡ false }
        requires asked { (seen J.key_of self.old).asked ≡ true }
        ensures step { Makes J.key_of J.gives (heeds result) self.old self.new }
        ensures none { (seen J.key_of self.old).own ≡ [] → result ≡ true }
    {
        match self.pour() {
            Ok(()) => true,
            Err(_) => {
                self.mode = Mode::Offloading;
                false
            }
        }
    }

    /// Heeds what is asked, and says whether there was room to pour. An empty own list wants none.
    pub fn heed(&mut self) -> bool
        ensures step { Makes J.key_of J.gives (heeds result) self.old self.new }
        ensures none { (seen J.key_of self.old).own ≡ [] → result ≡ true }
    {
        if !self.is_switching() {
            return true;
        }
        if self.asked {
            return self.pour_or_wait();
        }
        self.leave();
        true
    }
}
