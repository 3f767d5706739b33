//! The driver's turn, which starts and ends grace periods, and reports for who is away (docs/specification/rules.md, "On the
//! core" and "Processors away").

ghost use Rattle.std.specs.Prelude.{◌≡◌, ◌%◌, ℕ, true, IfOk, OnErr};
ghost use Rattle.rcu_world_law.specs.Events.{is_enabled};
ghost use Rattle.rcu_world_law.specs.Events.CoreEvent.{Meet};
ghost use Rattle.rcu_world.specs.Turns.{IsAtRest, driver_answer, driver_events, end_events, meets, upto};
ghost use Rattle.rcu_world.specs.Views.{state};
ghost use Rattle.rcu_world.specs.Worlds.{IsWorld};
ghost use Rattle.rcu_world.specs.Stays.{LeadsUpto};

use crate::events::Event;
use crate::worlds::World;
use rcu_jobs::{DriverTurn, Job};
use std::alloc::AllocError;

impl<J: Job> World<J> {
    /// Reports for those of the first processors that are away and owe a report.
    ///
    /// # Errors
    ///
    /// Want of memory, at one of these. Those before it are reported for.
    fn meet_first(&mut self, processors: u64) -> Result<(), AllocError>
        requires { IsWorld J.key_of J.gives self.old.core }
        ensures events { LeadsUpto J.key_of J.gives self.old.core (upto meets processors) meets
            result self.new.core }
        ensures err_enabled { OnErr result
            ((cpu : ℕ) × (is_enabled (state J.key_of self.new.core) (Meet cpu) ≡ true)) }
    {
        for cpu in 0..processors {
            self.attempt(Event::Meet { cpu })?;
        }
        Ok(())
    }

    /// The driver's turn while a grace period is in progress.
    fn end_turn(&mut self) -> Result<DriverTurn, AllocError>
        requires world { IsWorld J.key_of J.gives self.old.core }
        requires progress { (state J.key_of self.old.core).number % 4 ≡ 1 }
        ensures events { LeadsUpto J.key_of J.gives self.old.core end_events meets result
            self.new.core }
        ensures answer { IfOk result (λ turn. turn ≡ driver_answer (state J.key_of self.old.core)) }
        ensures err_enabled { OnErr result
            ((cpu : ℕ) × (is_enabled (state J.key_of self.new.core) (Meet cpu) ≡ true)) }
    {
        let number = self.core.board.number();
        let first = self.core.first_waited();
        self.meet_first(first)?;
        if self.perform(Event::End) {
            return Ok(DriverTurn::Ended(number + 3));
        }
        Ok(DriverTurn::Waits(first))
    }

    /// The driver starts a grace period, where it can; or it reports for who is away, up to the first processor that is here
    /// and owes its report, and ends the grace period where there is none.
    ///
    /// # Errors
    ///
    /// Want of memory, only at a processor that is away and owes a report. Those before it are reported for.
    pub fn driver_turn(&mut self) -> Result<DriverTurn, AllocError>
        requires world { IsWorld J.key_of J.gives self.old.core }
        requires rest { IsAtRest (state J.key_of self.old.core) }
        ensures events { LeadsUpto J.key_of J.gives self.old.core driver_events meets result
            self.new.core }
        ensures answer { IfOk result (λ turn. turn ≡ driver_answer (state J.key_of self.old.core)) }
        ensures err_enabled { OnErr result
            ((cpu : ℕ) × (is_enabled (state J.key_of self.new.core) (Meet cpu) ≡ true)) }
    {
        let number = self.core.board.number();
        if number % 4 != 0 {
            return self.end_turn();
        }
        if self.perform(Event::Start) {
            return Ok(DriverTurn::Started(number + 1));
        }
        if number < self.core.needed {
            return Ok(DriverTurn::Spent);
        }
        Ok(DriverTurn::Idle)
    }
}
