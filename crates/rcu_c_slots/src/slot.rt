//! Where the program keeps a part.

ghost use Rattle.std.specs.Prelude.{◌≡◌, ◌≢◌, true, false, None, Some, IfSome, IfNone, is_some};
ghost use Rattle.std.specs.Coded.{coded_option};
ghost use Rattle.std.specs.Int.{from_bool};
ghost use Rattle.std.specs.declared.option.Option.{Option};
ghost use Rattle.rcu_c_slots.specs.Holding.{holds};
ghost use Rattle.rcu_c_slots.specs.contracts.part.Lent.{the_row as lent_row};
ghost use Rattle.rcu_c_slots.specs.declared.part.Lent.{Lent as TheLent};

use crate::part::Lent;
use rcu_c_box::Loose;
use std::alloc::Global;
use std::marker::{Model, Send};
use std::mem::replace;
use std::ptr::null_mut;

/// A boxed part by its pointer, or nothing.
#[repr(C)]
#[derive(Drop)]
pub struct LoosePart {
    at: *mut (),
    alloc: Global,
    pub ghost value: { Option TheLent } by { coded_option lent_row.coded },
}

impl Model for LoosePart {
    ghost also_owns = { λ h. holds h.alloc h.at h.value };
}

impl LoosePart {
    /// The pointer of a boxed part.
    pub fn of(loose: Loose<Lent, Global>) -> LoosePart
        ensures { result.value ≡ Some loose.value }
    {
        let Loose { at, alloc } = loose;
        LoosePart {
            at: at as *mut (),
            alloc,
        }
    }

    /// Nothing.
    pub fn empty(alloc: Global) -> LoosePart
        ensures { result.value ≡ None }
    {
        LoosePart {
            at: null_mut(),
            alloc,
        }
    }

    /// The boxed part again.
    pub fn into_loose(self) -> Loose<Lent, Global>
        requires { self.value ≢ None }
        ensures { self.value ≡ Some result.value }
    {
        let LoosePart { at, alloc } = self;
        Loose {
            at: at as *mut Lent,
            alloc,
        }
    }
}

// What it points to is a boxed part, which may go to another thread.
unsafe impl Send for LoosePart {}

fn is_send<T: Send>(_value: &T) {}

/// A boxed part may go to another thread, and so may the slots that keep parts.
pub fn may_change_threads(lent: &Box<Lent, Global>, slots: &PartSlots) {
    is_send(lent);
    is_send(slots);
}

/// A boxed part by its pointer, or nothing, and which of the two: 1 or 0, in a word of its own, since a flag of one byte has a call
/// carry the seven bytes behind it too.
#[repr(C)]
#[derive(Drop)]
pub struct HeldPart {
    full: u64,
    pub part: LoosePart,
    ghost fits: { full ≡ from_bool (is_some part.value) },
}

/// A place for a part, which the program keeps. All zero it is empty.
#[repr(C)]
#[derive(Drop)]
pub struct Slot {
    pub held: HeldPart,
    /// How many read sections are open, where the program counts them.
    pub reading: u64,
    /// So that two slots share no line of a cache.
    filling: [u64; 5],
}

impl Slot {
    /// Takes the part out.
    pub fn take(&mut self, alloc: Global) -> Option<Box<Lent, Global>>
        ensures taken { IfSome result (λ boxed. self.old.held.part.value ≡ Some boxed.value) }
        ensures none { IfNone result (self.old.held.part.value ≡ None) }
        ensures empty { self.new.held.part.value ≡ None }
        ensures reading { self.new.reading ≡ self.old.reading }
    {
        let empty = HeldPart {
            full: 0,
            part: LoosePart::empty(alloc),
        };
        let HeldPart { full, part } = replace(&mut self.held, empty);
        if full == 0 {
            return None;
        }
        Some(part.into_loose().into_box())
    }

    /// Puts a part in.
    pub fn put(&mut self, lent: Box<Lent, Global>)
        ensures full { self.new.held.part.value ≡ Some lent.value }
        ensures reading { self.new.reading ≡ self.old.reading }
    {
        self.held = HeldPart {
            full: 1,
            part: LoosePart::of(Loose::of(lent)),
        };
    }

    /// Whether there is a part.
    pub fn is_full(&self) -> bool
        ensures full { result ≡ true → self.now.held.part.value ≢ None }
        ensures empty { result ≡ false → self.now.held.part.value ≡ None }
    {
        self.held.full != 0
    }
}

/// The slots of a runtime: `struct rcuo_parts`.
#[repr(C)]
#[derive(Drop)]
pub struct PartSlots {
    pub control: Slot,
    pub driver: Slot,
    pub processors: [Slot; 1024],
    pub groups: [Slot; 1024],
    pub hands: [Slot; 1024],
}
