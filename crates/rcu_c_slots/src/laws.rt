//! Laws over slots, which have no code.

ghost use Rattle.std.specs.Prelude.{ℕ};
ghost use Rattle.rcu_c_slots.specs.Gathers.{AreOfTheOpen};
ghost use Rattle.rcu_c_slots.specs.Opens.{OpensInto};
ghost use Rattle.rcu_c_slots.specs.declared.slot.PartSlots.{PartSlots as Slots};
ghost use Rattle.rcu_numbers.specs.declared.parts_shape.PartsShape.{PartsShape};
ghost use Rattle.rcu_part_order.specs.declared.recorded.Kept.{Kept};

/// What close asks is true of the slots that [`crate::open_into`] filled.
pub fn opened_slots()
    ensures { (kept : Kept) (shape : PartsShape) (number : ℕ) (slots : Slots)
        → OpensInto kept shape number slots → AreOfTheOpen slots }
{}
