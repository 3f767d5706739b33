//! The turn calls of a world: each is a list of events (docs/specification/rules.md, "On the core").

ghost use Rattle.std.specs.Prelude.{◌≡◌, ◌∷◌, [], ◌<◌, ◌≤◌, Bool, true, false, length, Some, None, IfOk, IsOk, OnOk, OnErr, if◌then◌else◌};
ghost use Rattle.rcu_world_law.specs.Events.{is_enabled};
ghost use Rattle.rcu_world_law.specs.Events.CoreEvent.{Ask, Put, Report};
ghost use Rattle.rcu_world_law.specs.States.{cpu_at, is_offloadable, owes};
ghost use Rattle.rcu_world_law.specs.declared.who.Side.TheVariants.{Local, Hand};
ghost use Rattle.rcu_world.specs.Events.{core_event, needs_room};
ghost use Rattle.rcu_world.specs.Turns.{IsAtRest, Leads, Rooms, hand_events, keeps_rest, look_events, offloadable_events, release_events, run_events, stop_of, switch_answer, switch_events, tick_events, where_enabled, KeepsRest};
ghost use Rattle.rcu_world.specs.Views.{state, SameState};
ghost use Rattle.rcu_world.specs.Worlds.{IsWorld};
ghost use Rattle.rcu_world.specs.Stays.{KeepsWorld, LeadsForSome, LeadsOrNone, LeadsWorld, TurnsWorld};

use crate::events::{Answer, Event};
use crate::modes::is_set;
use crate::worlds::World;
use rcu_jobs::{HandTurn, Job, Stop, SwitchFault, Ticked};
use rcu_world_law::who::{Side, Who};
use std::alloc::AllocError;

impl<J: Job> World<J> {
    /// One event that has no job: whether it was enabled.
    pub(crate) fn attempt(&mut self, event: Event<J>) -> Result<bool, AllocError>
        requires { IsWorld J.key_of J.gives self.old.core }
        ensures leads { OnOk result
            ((poured : Bool)
            × Leads (state J.key_of self.old.core)
            (where_enabled (core_event J.key_of poured event) (state J.key_of self.old.core))
            (state J.key_of self.new.core)) }
        ensures enabled { IfOk result (λ done.
            done ≡ is_enabled (state J.key_of self.old.core) (core_event J.key_of true event)) }
        ensures err { OnErr result (SameState J.key_of self.old.core self.new.core) }
        ensures err_enabled { OnErr result
            (is_enabled (state J.key_of self.old.core) (core_event J.key_of true event) ≡ true) }
        ensures err_room { OnErr result (needs_room (state J.key_of self.old.core) event ≡ true) }
        ensures room { needs_room (state J.key_of self.old.core) event ≡ false → IsOk result }
        ensures rest { keeps_rest (core_event J.key_of true event) ≡ true
            → KeepsRest J.key_of self.old.core self.new.core }
        ensures keeps { KeepsWorld J.key_of J.gives self.old.core self.new.core }
    {
        match self.step(event) {
            Answer::Done => Ok(true),
            Answer::Due => Ok(true),
            Answer::Skipped(_) => Ok(false),
            Answer::Memory(_) => Err(AllocError),
        }
    }

    /// One event that takes no memory: whether it was enabled.
    pub(crate) fn perform(&mut self, event: Event<J>) -> bool
        requires world { IsWorld J.key_of J.gives self.old.core }
        requires room { needs_room (state J.key_of self.old.core) event ≡ false }
        ensures leads { (poured : Bool)
            × Leads (state J.key_of self.old.core)
            (where_enabled (core_event J.key_of poured event) (state J.key_of self.old.core))
            (state J.key_of self.new.core) }
        ensures enabled { result
            ≡ is_enabled (state J.key_of self.old.core) (core_event J.key_of true event) }
        ensures rest { keeps_rest (core_event J.key_of true event) ≡ true
            → KeepsRest J.key_of self.old.core self.new.core }
        ensures keeps { KeepsWorld J.key_of J.gives self.old.core self.new.core }
    {
        match self.attempt(event) {
            Ok(done) => done,
            Err(_) => unreachable!(),
        }
    }

    /// A processor that is here reports a quiescent state: the number of the grace period that counts it, or None.
    ///
    /// # Errors
    ///
    /// Want of memory, only where the processor owed its report.
    pub fn quiescent(&mut self, cpu: u64) -> Result<Option<u64>, AllocError>
        requires world { IsWorld J.key_of J.gives self.old.core }
        requires there { cpu < length (state J.key_of self.old.core).cpus }
        requires here { (cpu_at (state J.key_of self.old.core) cpu).away ≡ false }
        requires rest { IsAtRest (state J.key_of self.old.core) }
        ensures events { LeadsOrNone J.key_of J.gives self.old.core (λ counted w. Report cpu ∷ [])
            result self.new.core }
        ensures number { IfOk result (λ counted.
            counted
            ≡ (if owes (state J.key_of self.old.core) cpu then Some
            (state J.key_of self.old.core).number else None)) }
        ensures err_owes { OnErr result (owes (state J.key_of self.old.core) cpu ≡ true) }
    {
        let counted = if self.core.board.owes(cpu) {
            Some(self.core.board.number())
        } else {
            None
        };
        self.attempt(Event::Report { cpu })?;
        Ok(counted)
    }
}

impl<J: Job> World<J> {
    /// The bypass list is put, where it isn't empty: whether there was room.
    pub(crate) fn put(&mut self, cpu: u64, moment: Option<u64>) -> bool
        requires { IsWorld J.key_of J.gives self.old.core }
        ensures events { LeadsWorld J.key_of J.gives self.old.core
            (λ w. if result then where_enabled (Put cpu moment) w else []) self.new.core }
    {
        match self.attempt(Event::Put { cpu, moment }) {
            Ok(_) => true,
            Err(_) => false,
        }
    }

    /// The look of a tick, and what it asks for.
    fn look_own(&mut self, cpu: u64)
        requires { IsWorld J.key_of J.gives self.old.core }
        ensures events { LeadsWorld J.key_of J.gives self.old.core (look_events cpu) self.new.core }
    {
        self.perform(Event::Look { cpu });
        self.perform(Event::Need { who: Who::Cpu(cpu) });
    }

    /// A tick's release of the bypass list.
    fn release(&mut self, cpu: u64, moment: u64)
        requires world { IsWorld J.key_of J.gives self.old.core }
        requires there { cpu < length (state J.key_of self.old.core).cpus }
        ensures events { LeadsForSome J.key_of J.gives self.old.core
            (λ (room : Bool). release_events cpu moment room) self.new.core }
    {
        let i = cpu as usize;
        let urged = self.core.processors[i].is_urged();
        self.perform(Event::Hear { cpu });
        if !self.core.processors[i].is_released_in_tick(urged, moment) {
            return;
        }
        let late = self.core.processors[i].moment_of_tick(moment);
        self.put(cpu, late);
    }

    /// A tick's switch of modes, where one is asked for.
    fn switch(&mut self, cpu: u64)
        requires world { IsWorld J.key_of J.gives self.old.core }
        requires there { cpu < length (state J.key_of self.old.core).cpus }
        ensures events { LeadsForSome J.key_of J.gives self.old.core
            (λ (rooms : Rooms). switch_events cpu rooms.pour rooms.put_again) self.new.core }
    {
        let i = cpu as usize;
        if !self.core.processors[i].is_switching() {
            return;
        }
        self.perform(Event::Heed { cpu });
        if !self.core.processors[i].is_offloaded() {
            return;
        }
        self.put(cpu, None);
    }

    /// What a tick does of an offloadable processor alone.
    fn tick_offloadable(&mut self, cpu: u64, moment: u64)
        requires world { IsWorld J.key_of J.gives self.old.core }
        requires there { cpu < length (state J.key_of self.old.core).cpus }
        ensures events { LeadsForSome J.key_of J.gives self.old.core
            (λ (rooms : Rooms). offloadable_events cpu moment rooms) self.new.core }
    {
        if !is_set(&self.core.offloadable, cpu as usize) {
            return;
        }
        self.release(cpu, moment);
        self.switch(cpu);
        self.perform(Event::Settle { cpu });
    }

    /// Runs callbacks of one side, up to `blimit`.
    fn run_some(&mut self, cpu: u64, by: Side) -> Ticked
        requires world { IsWorld J.key_of J.gives self.old.core }
        requires there { cpu < length (state J.key_of self.old.core).cpus }
        requires rest { IsAtRest (state J.key_of self.old.core) }
        ensures events { LeadsWorld J.key_of J.gives self.old.core
            (λ w. run_events cpu by result.ran) self.new.core }
        ensures stop { result.stop
            ≡ stop_of by (state J.key_of self.new.core).shape.blimit result.ran
            (cpu_at (state J.key_of self.new.core) cpu) }
        ensures most { result.ran ≤ (state J.key_of self.new.core).shape.blimit }
    {
        let blimit = self.core.blimit;
        let mut ran = 0;
        while ran < blimit {
            match self.attempt(Event::Claim { cpu, by }) {
                Err(_) => {
                    return Ticked {
                        ran,
                        stop: Stop::Memory,
                    };
                }
                Ok(false) => {
                    let stop = self.core.processors[cpu as usize].why_no_claim(by);
                    return Ticked { ran, stop };
                }
                Ok(true) => {}
            }
            self.perform(Event::Finish { cpu, by });
            ran += 1;
        }
        Ticked {
            ran,
            stop: Stop::Limit,
        }
    }

    /// The tick of a processor that is here (docs/specification/rules.md, "The calls, step by step").
    pub fn tick(&mut self, cpu: u64, moment: u64) -> Result<Ticked, AllocError>
        requires world { IsWorld J.key_of J.gives self.old.core }
        requires there { cpu < length (state J.key_of self.old.core).cpus }
        requires here { (cpu_at (state J.key_of self.old.core) cpu).away ≡ false }
        requires rest { IsAtRest (state J.key_of self.old.core) }
        ensures events { TurnsWorld J.key_of J.gives self.old.core
            (λ ticked v w. (rooms : Rooms) × Leads v (tick_events cpu moment rooms ticked.ran v) w)
            result self.new.core }
        ensures stop { IfOk result (λ ticked.
            ticked.stop
            ≡ stop_of Local (state J.key_of self.new.core).shape.blimit ticked.ran
            (cpu_at (state J.key_of self.new.core) cpu)) }
        ensures most { IfOk result (λ ticked.
            ticked.ran ≤ (state J.key_of self.new.core).shape.blimit) }
    {
        self.look_own(cpu);
        self.tick_offloadable(cpu, moment);
        Ok(self.run_some(cpu, Side::Local))
    }

    /// A hand's turn: it looks, fetches a batch if it holds none, and runs what it may.
    pub fn hand_turn(&mut self, cpu: u64) -> Result<HandTurn, AllocError>
        requires world { IsWorld J.key_of J.gives self.old.core }
        requires there { is_offloadable (state J.key_of self.old.core) cpu ≡ true }
        requires rest { IsAtRest (state J.key_of self.old.core) }
        ensures events { TurnsWorld J.key_of J.gives self.old.core
            (λ turn v w. Leads v (hand_events cpu turn.ran v) w) result self.new.core }
        ensures stop { IfOk result (λ turn.
            turn.stop
            ≡ stop_of Hand (state J.key_of self.new.core).shape.blimit turn.ran
            (cpu_at (state J.key_of self.new.core) cpu)) }
        ensures most { IfOk result (λ turn.
            turn.ran ≤ (state J.key_of self.new.core).shape.blimit) }
    {
        self.perform(Event::LookHand { cpu });
        self.perform(Event::Fetch { cpu });
        let Ticked { ran, stop } = self.run_some(cpu, Side::Hand);
        Ok(HandTurn { ran, stop })
    }

    /// Asks that a processor is offloaded, or is not.
    fn ask(&mut self, cpu: u64, on: bool) -> Result<(), SwitchFault>
        requires world { IsWorld J.key_of J.gives self.old.core }
        requires rest { IsAtRest (state J.key_of self.old.core) }
        ensures answer { result ≡ switch_answer (state J.key_of self.old.core) cpu }
        ensures events { LeadsWorld J.key_of J.gives self.old.core (where_enabled (Ask cpu on))
            self.new.core }
    {
        let done = self.perform(Event::Ask { cpu, on });
        if cpu as usize >= self.core.processors.len() {
            return Err(SwitchFault::NoProcessor(cpu));
        }
        if !done {
            return Err(SwitchFault::NotOffloadable(cpu));
        }
        Ok(())
    }

    /// Asks that a processor is offloaded. It heeds this in its next tick.
    pub fn offload(&mut self, cpu: u64) -> Result<(), SwitchFault>
        requires world { IsWorld J.key_of J.gives self.old.core }
        requires rest { IsAtRest (state J.key_of self.old.core) }
        ensures answer { result ≡ switch_answer (state J.key_of self.old.core) cpu }
        ensures events { LeadsWorld J.key_of J.gives self.old.core (where_enabled (Ask cpu true))
            self.new.core }
    {
        self.ask(cpu, true)
    }

    /// Asks that a processor is local. It heeds this in its next tick.
    pub fn deoffload(&mut self, cpu: u64) -> Result<(), SwitchFault>
        requires world { IsWorld J.key_of J.gives self.old.core }
        requires rest { IsAtRest (state J.key_of self.old.core) }
        ensures answer { result ≡ switch_answer (state J.key_of self.old.core) cpu }
        ensures events { LeadsWorld J.key_of J.gives self.old.core (where_enabled (Ask cpu false))
            self.new.core }
    {
        self.ask(cpu, false)
    }
}
