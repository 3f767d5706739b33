//! When a bypass list is released: docs/specification/rules.md, "Bypass lists".

ghost use Rattle.std.specs.Prelude.{◌≡◌, true, false, None};

/// How many plain callbacks of one moment are released one by one, each as it comes.
pub const MOST_DIRECT: u64 = 16;

/// How many moments a list of lazy callbacks alone waits before a tick releases it.
pub const LAZY_MOMENTS: u64 = 10;

/// How a callback is placed in a bypass list.
#[derive(Clone, Copy, Debug, PartialEq, Eq)]
pub enum Kind {
    /// It is to be run soon.
    Plain,
    /// It may wait for company.
    Lazy,
}

/// What a bypass list remembers beside its callbacks.
#[derive(Clone, Copy, Debug, PartialEq, Eq)]
pub struct Pace {
    /// The last moment, if there is one.
    pub last: Option<u64>,
    /// The direct count: how many plain callbacks of that moment were released one by one.
    pub direct: u64,
    /// Whether the list holds a plain callback.
    pub plain: bool,
    /// The kept moment: that of the first lazy callback in the list.
    pub lazy: Option<u64>,
}

impl Pace {
    ghost use Rattle.rcu_lists.specs.declared.pace.Kind.TheVariants.{Plain};
    ghost use Rattle.rcu_lists.specs.Release.{beginning, is_due, held, kept_moment, is_late, is_at, emptied};

    /// The pace of a list that was never used.
    pub fn new() -> Pace
        ensures { result ≡ beginning }
    {
        Pace {
            last: None,
            direct: 0,
            plain: false,
            lazy: None,
        }
    }

    /// Takes a callback of this kind on, in a list that now has the length `len`. Answers whether the list is due to be
    /// released.
    pub fn hold(&mut self, moment: u64, kind: Kind, len: u64, qhimark: u64) -> bool
        ensures due { result ≡ is_due moment kind self.old len qhimark }
        ensures held { self.new ≡ held moment kind self.old len }

        // The list is not empty.
        ensures some { self.new.plain ≡ false → self.new.lazy ≡ None → ⊥ }
    {
        match kind {
            Kind::Plain => self.hold_plain(moment, len, qhimark),
            Kind::Lazy => {
                self.hold_lazy(moment);
                qhimark <= len
            }
        }
    }

    // The rules "new moment", "after a lazy one", "alone" and "high mark", of which the first that holds decides.
    fn hold_plain(&mut self, moment: u64, len: u64, qhimark: u64) -> bool
        ensures due { result ≡ is_due moment Plain self.old len qhimark }
        ensures held { self.new ≡ held moment Plain self.old len }
        ensures some { self.new.plain ≡ true }
    {
        self.plain = true;
        if !self.is_at(moment) {
            self.last = Some(moment);
            self.direct = 1;
            return true;
        }
        if self.lazy.is_some() {
            return true;
        }
        if len == 1 && self.direct < MOST_DIRECT {
            self.direct += 1;
            return true;
        }
        len >= qhimark
    }

    // The moment of the first lazy callback is kept.
    fn hold_lazy(&mut self, moment: u64)
        ensures held { self.new ≡ record self.old { lazy = kept_moment moment self.old.lazy } }
        ensures some { self.new.lazy ≡ None → ⊥ }
    {
        if self.lazy.is_none() {
            self.lazy = Some(moment);
        }
    }

    /// Whether a tick releases the list because of its moment.
    pub fn is_late(&self, moment: u64) -> bool
        ensures { result ≡ is_late moment self.now }
    {
        if self.plain {
            return !self.is_at(moment);
        }
        match self.lazy {
            Some(first) => moment < first || moment - first >= LAZY_MOMENTS,
            None => false,
        }
    }

    // Whether this is the last moment.
    fn is_at(&self, moment: u64) -> bool
        ensures { result ≡ is_at moment self.now.last }
    {
        match self.last {
            Some(last) => last == moment,
            None => false,
        }
    }

    // The pace of a list that is empty again.
    pub(crate) fn emptied(self) -> Pace
        ensures { result ≡ emptied self }
    {
        Pace {
            plain: false,
            lazy: None,
            ..self
        }
    }
}
