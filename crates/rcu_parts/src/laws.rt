//! Laws over the parts, which have no code.

ghost use Rattle.rcu_jobs.specs.declared.Counts.{Counts};
ghost use Rattle.rcu_jobs.specs.declared.answers.Closed.{Closed};
ghost use Rattle.rcu_numbers.specs.declared.parts_shape.PartsShape.{PartsShape};
ghost use Rattle.rcu_parts.specs.AtClose.{AccountsFor, AnswersAll, ClosesWith, KeepWhole};
ghost use Rattle.rcu_parts.specs.Drained.{HasNoneBack, IsDrained};
ghost use Rattle.rcu_parts.specs.OneOpen.{AreOfOneOpen, Parts};
ghost use Rattle.rcu_parts.specs.Openings.{IsOpened};
ghost use Rattle.rcu_parts.specs.SameParts.{AreSameParts};

use rcu_jobs::Job;

/// Parts stay those of one open while each stays the same part, as every call leaves it: so what [`crate::close`] asks for is
/// known of the parts that [`crate::open`] gave, in whatever threads they were.
pub fn same_parts<J: Job>()
    ensures one { (old new : Parts J J.Receipt) → AreSameParts old new → AreOfOneOpen old
        → AreOfOneOpen new }
{}

/// Parts that [`crate::open`] gave keep every record as long as each stays the same part, so that [`crate::close`] answers the
/// records of all that ran.
pub fn records_of_all<J: Job>()
    ensures opened { (shape : PartsShape) (parts : Parts J J.Receipt) → IsOpened shape parts
        → KeepWhole parts }
    ensures stays { (old new : Parts J J.Receipt) → AreSameParts old new → KeepWhole old
        → KeepWhole new }
    ensures accounts { (parts : Parts J J.Receipt) (closed : Closed J J.Receipt) → KeepWhole parts
        → (answer : AccountsFor parts closed) → AnswersAll parts closed answer }
    ensures closes { (parts : Parts J J.Receipt) (closed : Closed J J.Receipt) → KeepWhole parts
        → (answer : ClosesWith J.key_of J.gives parts closed) → AnswersAll parts closed answer }
{}

/// The drain: where every processor was shut, and then a barrier passed that counts all that they had accepted, as one does
/// that was opened after `shut`, no job is handed back at [`crate::close`]. It is so for good, in whatever threads the parts
/// are, since no sight falls.
pub fn drained<J: Job>()
    ensures stays { (counts : Counts) (old new : Parts J J.Receipt) → AreSameParts old new
        → AreOfOneOpen old → IsDrained counts old → IsDrained counts new }
    ensures none_back { (counts : Counts) (parts : Parts J J.Receipt) (closed : Closed J J.Receipt)
        → AreOfOneOpen parts → IsDrained counts parts → AccountsFor parts closed
        → HasNoneBack closed }
{}
