//! The state of the core, and its events.

ghost use Rattle.std.specs.Prelude.{◌≡◌, IfOk};
ghost use Rattle.rcu_world_law.specs.States.{opening};
ghost use Rattle.rcu_world.specs.Worlds.{IsFit, plan};
ghost use Rattle.rcu_world.specs.Ready.{LeavesRoom, UsesRoom};
ghost use Rattle.rcu_world.specs.Views.{state, AllGiven};
ghost use Rattle.rcu_world.specs.Stays.{Applies};

use crate::barriers::Barring;
use crate::boards::Board;
use crate::events::{Answer, Event};
use rcu_jobs::Job;
use rcu_numbers::Shape;
use rcu_world_law::marks::Mark;
use rcu_world_law::who::Who;
use rcu_world_processor::WorldProcessor;
use std::alloc::{AllocError, Global};
use std::mem::ManuallyDrop;

/// All processors, their board, and the history.
#[derive(Drop)]
pub struct Core<J, R> {
    pub(crate) alloc: Global,
    pub(crate) offloadable: Vec<bool>,
    pub(crate) stride: u64,
    pub(crate) blimit: u64,
    pub(crate) qhimark: u64,
    pub(crate) limit: u64,
    pub(crate) board: Board,
    pub(crate) needed: u64,
    pub(crate) processors: Vec<WorldProcessor<J, R>>,
    pub(crate) barriers: Vec<Barring>,
    pub(crate) history: Vec<Mark>,
    /// Always None, so nothing is left undropped in it. A list on the heap says nothing of the size of its items, and a call
    /// of a processor asks that a processor fits in memory: that follows from this place for one, which lies in the core itself.
    pub(crate) spare: ManuallyDrop<Option<WorldProcessor<J, R>>>,
}

impl<J: Job> Core<J, J::Receipt> {
    /// One event.
    pub fn apply(&mut self, event: Event<J>) -> Answer<J>
        requires fit { IsFit (state J.key_of self.old) }
        requires given { AllGiven J.gives self.old }
        ensures answers { Applies J.key_of J.gives self.old event result self.new }
        ensures ready { LeavesRoom event result self.new }
        ensures sure { UsesRoom self.old event result }
    {
        match event {
            Event::Accept { cpu, job } => self.accept(cpu, job),
            Event::Stamp { cpu, moment, lazy } => self.stamp(cpu, moment, lazy),
            Event::Put { cpu, moment } => self.put(cpu, moment),
            Event::Report { cpu } => self.report(cpu),
            Event::Start => self.start(),
            Event::End => self.end(),
            Event::Look { cpu } => self.look(cpu),
            Event::LookGroup { group } => self.look_group(group),
            Event::LookHand { cpu } => self.look_hand(cpu),
            Event::Draw { cpu } => self.draw(cpu),
            Event::Join { cpu } => self.join(cpu),
            Event::Give { cpu } => self.give(cpu),
            Event::Fetch { cpu } => self.fetch(cpu),
            Event::Claim { cpu, by } => self.claim(cpu, by),
            Event::Finish { cpu, by } => self.finish(cpu, by),
            Event::Ask { cpu, on } => self.ask(cpu, on),
            Event::Heed { cpu } => self.heed(cpu),
            Event::Settle { cpu } => self.settle(cpu),
            Event::Open { barrier } => self.open(barrier),
            Event::Count { barrier, cpu } => self.count(barrier, cpu),
            Event::Turn { barrier, cpu } => self.turn(barrier, cpu),
            Event::Pass { barrier } => self.pass(barrier),
            Event::Shut { cpu } => self.shut(cpu),
            Event::Urge => self.urge(),
            Event::Hear { cpu } => self.hear(cpu),
            Event::Leave { cpu } => self.leave(cpu),
            Event::Return { cpu } => self.come_back(cpu),
            Event::Meet { cpu } => self.meet(cpu),
            Event::Need { who } => match who {
                Who::Cpu(cpu) => self.need_own(cpu),
                Who::Group(group) => self.need_group(group),
            },
        }
    }
}

impl<J: Job> Core<J, J::Receipt> {
    /// All processors at rest. The offloadable ones are Offloaded, all others Local.
    pub fn new(alloc: Global, shape: Shape) -> Result<Self, AllocError>
        ensures opens { IfOk result (λ w.
            state J.key_of w ≡ opening shape.processors (plan shape)) }
        ensures given { IfOk result (λ w. AllGiven J.gives w) }
    {
        let mut offloadable = Vec::new(alloc);
        let mut processors = Vec::new(alloc);
        let mut mask = shape.offloadable;
        for _cpu in 0..shape.processors {
            let is_offloadable = mask % 2 == 1;
            offloadable.push(is_offloadable)?;
            processors.push(WorldProcessor::new(alloc, is_offloadable, shape.qhimark))?;
            mask /= 2;
        }
        Ok(Core {
            alloc,
            offloadable,
            stride: shape.stride,
            blimit: shape.blimit,
            qhimark: shape.qhimark,
            limit: shape.limit,
            board: Board::new(shape.processors),
            needed: 0,
            processors,
            barriers: Vec::new(alloc),
            history: Vec::new(alloc),
            spare: ManuallyDrop::new(None),
        })
    }
}
