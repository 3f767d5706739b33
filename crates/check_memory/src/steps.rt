//! The calls of a runtime in turn: after each, what it says and shows is what the specification allows. A call that was
//! refused a growth is made once more.

ghost use Rattle.std.specs.Prelude.{◌≡◌, true};
ghost use Rattle.check_memory.specs.Asks.{MakesOnce};
ghost use Rattle.check_memory.specs.Ends.{accepted_in};
ghost use Rattle.check_memory.specs.Shows.{lists_of, number_of};
ghost use Rattle.check_memory.specs.Works.{callback_key};
ghost use Rattle.check_memory.specs.declared.machine.Cpu.{Cpu};
ghost use Rattle.check_memory.specs.declared.script.Action.TheVariants.{Call, Lazy};

use crate::checks::{Step, check, check_again};
use crate::growth::{Broken, Growth, Refusals};
use crate::machine::{Answer, Machine, Shown, accepted};
use crate::script::{Action, SCRIPT, Steps};
use crate::work::key_at;

/// How far a tick's moment is from that of the call before it: further than a lazy callback waits.
const TICK_MOMENTS: u64 = 16;

/// How far a script has come.
#[derive(Clone, Copy)]
pub struct Progress {
    pub refusals: Refusals,
    moment: u64,
    /// How many callbacks the group held in batches after its last turn.
    held: u64,
    /// Whether the offloadable processor was last asked to be offloaded.
    asked_on: bool,
}

impl Progress {
    /// Before the first action.
    pub fn new(refusals: Refusals) -> Progress
        ensures refusals { result.refusals ≡ refusals }
        ensures held { result.held ≡ 0 }
        ensures asked { result.asked_on ≡ true }
    {
        Progress {
            refusals,
            moment: 0,
            held: 0,
            asked_on: true,
        }
    }

    /// Performs the whole script.
    pub fn perform_all<M: Machine>(&mut self, machine: &mut M) -> Result<(), Broken>
        requires { M.holds machine.old }
        ensures holds { M.holds machine.new }
    {
        for steps in &SCRIPT {
            self.perform(machine, steps)?;
        }
        Ok(())
    }

    /// Performs these steps.
    pub fn perform<M: Machine>(&mut self, machine: &mut M, steps: Steps) -> Result<(), Broken>
        requires { M.holds machine.old }
        ensures holds { M.holds machine.new }
    {
        for (times, action) in steps {
            self.repeat(machine, *times, *action)?;
        }
        Ok(())
    }

    /// Makes a call so many times.
    pub fn repeat<M: Machine>(
        &mut self,
        machine: &mut M,
        times: u64,
        action: Action,
    ) -> Result<(), Broken>
        requires { M.holds machine.old }
        ensures holds { M.holds machine.new }
    {
        for _ in 0..times {
            self.make(machine, action)?;
        }
        Ok(())
    }

    /// Makes one call, and once more where it was refused a growth.
    fn make<M: Machine>(&mut self, machine: &mut M, action: Action) -> Result<(), Broken>
        requires { M.holds machine.old }
        ensures holds { M.holds machine.new }
    {
        let first = self.make_once(machine, action)?;
        let Some(growth) = first.refused else {
            return Ok(());
        };
        self.refusals.note(growth)?;
        if growth == Growth::CallPut {
            return Ok(());
        }
        check_again(&self.make_once(machine, action)?, growth)
    }

    /// Makes one call, and checks what stands after it.
    fn make_once<M: Machine>(&mut self, machine: &mut M, action: Action) -> Result<Step, Broken>
        requires { M.holds machine.old }
        ensures once { MakesOnce M.holds action result machine.new self.old self.new }
    {
        let before = shown(machine)?;
        self.moment = self.moment.wrapping_add(match action {
            Action::Tick(_) => TICK_MOMENTS,
            _ => 1,
        });
        if let Action::Ask(on) = action {
            self.asked_on = on;
        }
        let answer = machine.make(action, self.moment, next_key(action, &before));
        let after = shown(machine)?;
        let step = Step {
            action,
            before,
            answer,
            after,
            held: self.held,
            asked_on: self.asked_on,
            refused: None,
        };
        if let Answer::Turned(turn) = answer {
            self.held = turn.held;
        }
        check(step)
    }
}

/// What a runtime shows.
pub fn shown<M: Machine>(machine: &M) -> Result<Shown, Broken> {
    machine.shown().ok_or(Broken {
        at: Growth::Open,
        what: "a part is missing",
    })
}

/// The key of the job that a call hands in, by what its processor accepted before.
pub fn next_key(action: Action, before: &Shown) -> u64
    ensures call { (c : Cpu) → action ≡ Call c
        → result ≡ callback_key (number_of c) (accepted_in (lists_of before.now c)) }
    ensures lazy { (c : Cpu) → action ≡ Lazy c
        → result ≡ callback_key (number_of c) (accepted_in (lists_of before.now c)) }
{
    match action {
        Action::Call(cpu) | Action::Lazy(cpu) => key_at(cpu.number(), accepted(before.of(cpu))),
        _ => 0,
    }
}
