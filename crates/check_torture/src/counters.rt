//! What a run counts.

ghost use Rattle.check_torture.specs.Sums.{AddsCalls, AddsSections, AddsOthers};

/// How often each thing was done or seen.
#[derive(Clone, Copy)]
pub struct Counters {
    /// Callbacks that were accepted.
    pub callbacks: u64,
    /// Those of them that a lazy call brought.
    pub lazy: u64,
    /// Callbacks that ran.
    pub ran: u64,
    /// Callbacks that were handed back.
    pub back: u64,
    /// Calls that were refused.
    pub refused: u64,
    /// Read sections whose version was in the table at their end.
    pub current: u64,
    /// Read sections whose version was removed at their end.
    pub removed: u64,
    /// Read sections whose version was freed at their end.
    pub freed: u64,
    /// Barriers that were opened.
    pub barriers: u64,
    /// With how many tickets control opened its own.
    pub tickets: u64,
    /// Those of them that were seen to pass.
    pub passed: u64,
    /// Runs that ended after a barrier with all tickets had passed.
    pub drained: u64,
    /// Switches that were asked for.
    pub switches: u64,
    /// Reports that were counted, as their processors were told.
    pub reports: u64,
    /// How often a processor was away.
    pub leaves: u64,
    /// Runs that were short enough for the law to be checked on their history.
    pub histories: u64,
}

impl Counters {
    /// Nothing was done.
    pub const NONE: Counters = Counters {
        callbacks: 0,
        lazy: 0,
        ran: 0,
        back: 0,
        refused: 0,
        current: 0,
        removed: 0,
        freed: 0,
        barriers: 0,
        tickets: 0,
        passed: 0,
        drained: 0,
        switches: 0,
        reports: 0,
        leaves: 0,
        histories: 0,
    };

    /// Adds what others were. A sum stays at the greatest `u64`.
    pub fn add(&mut self, more: &Counters)
        ensures calls { AddsCalls self.old more.now self.new }
        ensures sections { AddsSections self.old more.now self.new }
        ensures others { AddsOthers self.old more.now self.new }
    {
        self.callbacks = self.callbacks.saturating_add(more.callbacks);
        self.lazy = self.lazy.saturating_add(more.lazy);
        self.ran = self.ran.saturating_add(more.ran);
        self.back = self.back.saturating_add(more.back);
        self.refused = self.refused.saturating_add(more.refused);
        self.current = self.current.saturating_add(more.current);
        self.removed = self.removed.saturating_add(more.removed);
        self.freed = self.freed.saturating_add(more.freed);
        self.barriers = self.barriers.saturating_add(more.barriers);
        self.tickets = self.tickets.saturating_add(more.tickets);
        self.passed = self.passed.saturating_add(more.passed);
        self.drained = self.drained.saturating_add(more.drained);
        self.switches = self.switches.saturating_add(more.switches);
        self.reports = self.reports.saturating_add(more.reports);
        self.leaves = self.leaves.saturating_add(more.leaves);
        self.histories = self.histories.saturating_add(more.histories);
    }
}
