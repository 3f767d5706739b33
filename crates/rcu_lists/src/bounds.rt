//! Where a list of callbacks is cut into segments, and how that moves: docs/specification/rules.md, "Callback lists".

ghost use Rattle.std.specs.Prelude.{◌≡◌, ◌+◌, ◌<◌, ◌≤◌, ◌^◌, length, max, List};
ghost use Rattle.rcu_jobs.specs.declared.callback.Callback.{Callback};
ghost use Rattle.rcu_lists.specs.Labels.{carries, after_advance, after_accelerate, lengths_of, numbers_of};

/// Where a list is cut into done, wait, next-ready and next, and which numbers those in the middle wait for.
#[derive(Drop)]
pub(crate) struct Bounds {
    // The lengths of done, wait and next-ready. A segment that is merged or moved down costs no more than these.
    pub(crate) done: usize,
    pub(crate) wait: usize,
    pub(crate) ready: usize,
    // The numbers of wait and next-ready, 0 while empty.
    pub(crate) wait_number: u64,
    pub(crate) ready_number: u64,
    // The greatest number that the list was advanced by.
    pub(crate) advanced: u64,
    ghost counted: { done + wait + ready < 2 ^ 64 },
    ghost filled: { wait ≡ 0 → (ready ≡ 0) × (wait_number ≡ 0) },
    ghost single: { ready ≡ 0 → ready_number ≡ 0 },
    ghost rising: { 0 < ready → wait_number < ready_number },
}

impl Bounds {
    ghost use Rattle.rcu_lists.specs.Bounds.{cut_by, IsWithin};

    /// Those of a list that holds nothing.
    pub(crate) fn new() -> Bounds
        ensures done { result.done ≡ 0 }
        ensures wait { result.wait ≡ 0 }
        ensures ready { result.ready ≡ 0 }
        ensures advanced { result.advanced ≡ 0 }
    {
        Bounds {
            done: 0,
            wait: 0,
            ready: 0,
            wait_number: 0,
            ready_number: 0,
            advanced: 0,
        }
    }

    /// The list holds nothing any more.
    pub(crate) fn clear(&mut self)
        ensures done { self.new.done ≡ 0 }
        ensures wait { self.new.wait ≡ 0 }
        ensures ready { self.new.ready ≡ 0 }
        ensures advanced { self.new.advanced ≡ self.old.advanced }
    {
        self.done = 0;
        self.wait = 0;
        self.ready = 0;
        self.wait_number = 0;
        self.ready_number = 0;
    }

    /// Moves wait and next-ready into done, where their numbers are at most `seq`.
    pub(crate) fn advance<J>(&mut self, seq: u64)
        ensures list { (cs : List (Callback J)) → IsWithin self.old cs
            → cut_by self.new cs ≡ after_advance seq (cut_by self.old cs) }
        ensures within { (cs : List (Callback J)) → IsWithin self.old cs → IsWithin self.new cs }
        ensures advanced { self.new.advanced ≡ max self.old.advanced seq }
    {
        self.advanced = self.advanced.max(seq);
        if self.wait_number > seq {
            return;
        }
        self.done += self.wait;
        if self.ready_number > seq {
            self.wait = self.ready;
            self.wait_number = self.ready_number;
        } else {
            self.done += self.ready;
            self.wait = 0;
            self.wait_number = 0;
        }
        self.ready = 0;
        self.ready_number = 0;
    }

    /// Gives the number `seq` to next, in a list of this length, unless two lesser numbers are there. Answers whether some
    /// callback has this number then.
    pub(crate) fn accelerate<J>(&mut self, seq: u64, len: usize) -> bool
        requires within { self.old.done + self.old.wait + self.old.ready ≤ len }
        requires wait { self.old.wait_number ≤ seq }
        requires ready { self.old.ready_number ≤ seq }
        ensures list { (cs : List (Callback J)) → length cs ≡ len
            → cut_by self.new cs ≡ after_accelerate seq (cut_by self.old cs) }
        ensures carried { (cs : List (Callback J)) → length cs ≡ len
            → result ≡ carries seq (cut_by self.new cs) }
        ensures within { self.new.done + self.new.wait + self.new.ready ≤ len }
        ensures advanced { self.new.advanced ≡ self.old.advanced }
    {
        if self.ready > 0 && self.ready_number < seq {
            return false;
        }
        let not_done = len - self.done;
        if self.wait > 0 && self.wait_number < seq {
            let later = not_done - self.wait;
            if later == 0 {
                return false;
            }
            self.ready = later;
            self.ready_number = seq;
        } else {
            if not_done == 0 {
                return false;
            }
            self.wait = not_done;
            self.wait_number = seq;
            self.ready = 0;
            self.ready_number = 0;
        }
        true
    }

    /// The lengths of done, wait, next-ready and next, in a list of this length.
    pub(crate) fn lengths<J>(&self, len: usize) -> [u64; 4]
        requires within { self.now.done + self.now.wait + self.now.ready ≤ len }
        ensures { (cs : List (Callback J)) → length cs ≡ len
            → result ≡ lengths_of (cut_by self.now cs) }
    {
        let next = len - self.done - self.wait - self.ready;
        [
            self.done as u64,
            self.wait as u64,
            self.ready as u64,
            next as u64,
        ]
    }
}
