//! The lists of a processor.

ghost use Rattle.std.specs.Prelude.{◌≡◌, true, false, [], ◌++◌, IfOk};
ghost use Rattle.rcu_lanes.specs.Ends.{items_put};
ghost use Rattle.rcu_lists.specs.Batches.{batch_items};
ghost use Rattle.rcu_lists.specs.Bypasses.{bypass_items};
ghost use Rattle.rcu_lists.specs.Labels.{callbacks_of};
ghost use Rattle.rcu_lists.specs.Release.{beginning};
ghost use Rattle.rcu_lists.specs.Segments.{labelled, advanced_by};
ghost use Rattle.rcu_part_lists.specs.Aims.{AreAimed};
ghost use Rattle.rcu_part_lists.specs.Lanes.{put_calls};
ghost use Rattle.rcu_jobs.specs.Modes.{is_offloaded, is_deoffloading};
ghost use Rattle.rcu_part_lists.specs.Limits.{AreFew, AreSafe, AreBelow};

use crate::lane_ends::Outlet;
use crate::limits::LaneLimits;
use rcu_jobs::{Callback, Lists, Mode};
use rcu_lanes::Rear;
use rcu_lists::{Batch, Bypass, Parcel, Segments};
use std::alloc::{AllocError, Global};
use std::collections::VecDeque;

/// The lists of one processor: its own list, the bypass list of an offloaded one, and the end of the lane to its group
/// (docs/specification/rules.md, "Bypass lists" and "Modes"). Which callbacks are where contracts see by
/// [`ProcessorLists`]'s view `holding`.
pub struct ProcessorLists<J> {
    pub(crate) outlet: Outlet<J>,
    pub(crate) mode: Mode,
    // The count accepted at the last entry to Deoffloading.
    pub(crate) left: u64,
    pub(crate) own: Segments<J>,
    pub(crate) bypass: Bypass<J>,
    // One of the two lists is in use.
    ghost bypassing: { is_offloaded mode ≡ true → labelled own ≡ [] },
    ghost alone: { is_offloaded mode ≡ false → bypass_items bypass ≡ [] },
    ghost safe: { AreSafe (bypass_items bypass) },
    ghost own_safe: { AreSafe (callbacks_of (labelled own)) },
    ghost few: { AreFew
        (put_calls outlet.rear ++ (bypass_items bypass ++ callbacks_of (labelled own))) },
    ghost aimed: { AreAimed (advanced_by own) (labelled own) },
    // What went over the lane was accepted before the processor left.
    ghost before: { is_deoffloading mode ≡ true → AreBelow left (put_calls outlet.rear) },
}

impl<J: Drop> ProcessorLists<J> {
    ghost use Rattle.rcu_part_lists.specs.ProcessorLists.{holding, first_holding, rear_of, cpu_lists};

    /// The lists of a processor that has accepted nothing. It starts Offloaded where it is offloadable, else Local.
    ///
    /// # Errors
    ///
    /// Want of memory.
    pub fn new(
        alloc: Global,
        rear: Rear<Parcel<J>, LaneLimits>,
        offloadable: bool,
        qhimark: u64,
    ) -> Result<ProcessorLists<J>, AllocError>
        requires { items_put rear ≡ [] }
        ensures rear { IfOk result (λ lists. rear_of lists ≡ rear) }
        ensures empty { IfOk result (λ lists. holding lists ≡ first_holding offloadable qhimark) }
    {
        let outlet = Outlet::new(alloc, rear)?;
        Ok(ProcessorLists {
            outlet,
            mode: Mode::first(offloadable),
            left: 0,
            own: Segments::new(alloc),
            bypass: Bypass::new(alloc, qhimark),
        })
    }

    /// Where new callbacks go.
    pub fn mode(&self) -> Mode
        ensures { result ≡ (holding self.now).mode }
    {
        self.mode
    }

    /// What is shown of it, where the processor accepted so many.
    pub fn lists(&self, accepted: u64) -> Lists
        ensures { result ≡ cpu_lists accepted (holding self.now) }
    {
        Lists::Cpu {
            mode: self.mode,
            accepted,
            bypass: self.bypass.len(),
            lengths: self.own.lengths(),
            numbers: self.own.numbers(),
        }
    }

    /// The end of its lane, the callbacks of its own list, and those of its bypass list.
    pub fn into_parts(self) -> (Rear<Parcel<J>, LaneLimits>, VecDeque<Callback<J>>, Batch<J>)
        ensures rear { result.0 ≡ rear_of self }
        ensures own { result.1.items ≡ callbacks_of (holding self).own }
        ensures bypass { batch_items result.2 ≡ (holding self).outgoing.bypass }
        ensures safe { AreSafe result.1.items × AreSafe (batch_items result.2) }
    {
        let ProcessorLists {
            outlet,
            mode: _,
            left: _,
            own,
            mut bypass,
        } = self;
        let released = bypass.flush();
        (outlet.into_rear(), own.into_callbacks(), released)
    }
}

impl<J: Drop> Drop for ProcessorLists<J> {
    fn drop(self) {
        let ProcessorLists {
            outlet: _,
            mode: _,
            left: _,
            own: _,
            bypass: _,
        } = self;
    }
}
