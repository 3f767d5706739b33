//! The calls that a scenario makes, in order.

use crate::machine::Cpu;
use Action::{Ask, Barrier, Call, Drive, Group, Hand, Lazy, Poll, Report, Shut, Tick};
use Cpu::{Local, Offloadable};

/// A call, or a turn of one part.
#[derive(Clone, Copy)]
pub enum Action {
    Call(Cpu),
    Lazy(Cpu),
    Report(Cpu),
    Tick(Cpu),
    Drive,
    Group,
    Hand,
    /// Asks the offloadable processor to be offloaded, or local.
    Ask(bool),
    /// Opens a barrier, which urges.
    Barrier,
    /// Opens a barrier, and polls it.
    Poll,
    Shut,
}

/// Actions, each with how often it is made.
pub type Steps = &'static [(u64, Action)];

/// A grace period, from its start to its end.
const GRACE: Steps = &[
    (1, Drive),
    (1, Report(Local)),
    (1, Report(Offloadable)),
    (1, Drive),
];

/// The local processor's list, and its records.
const ON_THE_LOCAL_ONE: Steps = &[(20, Call(Local)), (20, Lazy(Local)), (1, Tick(Local))];

/// A batch of 21 callbacks, as many more as the lane begins with places, and one more, which a tick puts because of its
/// moment.
const RELEASES: Steps = &[
    (4, Tick(Local)),
    (20, Lazy(Offloadable)),
    (16, Call(Offloadable)),
    (3, Lazy(Offloadable)),
    (1, Tick(Offloadable)),
    (1, Group),
];

/// What was drawn is given in batches of 17, and runs. Then a batch of 320.
const GIVES: Steps = &[
    (4, Group),
    (4, Hand),
    (320, Lazy(Offloadable)),
    (1, Tick(Offloadable)),
    (1, Group),
];

/// More batches than the done lane begins with places, and than the lane has by now.
const LONG_LANES: Steps = &[
    (19, Group),
    (20, Hand),
    (40, Call(Offloadable)),
    (1, Lazy(Offloadable)),
    (1, Barrier),
    (1, Tick(Offloadable)),
];

/// To local while callbacks wait, and back: the own list is poured.
const THERE_AND_BACK: Steps = &[
    (1, Ask(false)),
    (1, Tick(Offloadable)),
    (20, Call(Offloadable)),
    (5, Lazy(Offloadable)),
    (1, Ask(true)),
    (1, Tick(Offloadable)),
    (1, Group),
];

/// All runs. To local, where the processor's own tick runs callbacks.
const TO_LOCAL: Steps = &[
    (6, Group),
    (6, Hand),
    (1, Poll),
    (1, Ask(false)),
    (2, Tick(Offloadable)),
    (40, Call(Offloadable)),
    (40, Lazy(Local)),
    (1, Tick(Offloadable)),
    (1, Tick(Local)),
];

/// Some run, and what is left waits.
const THE_END: Steps = &[
    (2, Tick(Offloadable)),
    (1, Tick(Local)),
    (20, Call(Offloadable)),
    (1, Shut),
];

/// All actions, in order. A batch has sixteen places without memory, and a lane sixteen for batches; so each list is made
/// longer than that.
pub static SCRIPT: [Steps; 13] = [
    ON_THE_LOCAL_ONE,
    GRACE,
    RELEASES,
    GRACE,
    GIVES,
    GRACE,
    LONG_LANES,
    THERE_AND_BACK,
    GRACE,
    TO_LOCAL,
    GRACE,
    THE_END,
    GRACE,
];

/// The calls that only the core can be refused, since it keeps a history: each adds to it.
pub const SHORT_SCRIPT: Steps = &[
    (1, Call(Local)),
    (1, Tick(Local)),
    (1, Drive),
    (1, Report(Local)),
    (1, Report(Offloadable)),
    (1, Drive),
    (1, Tick(Local)),
    (1, Poll),
    (1, Shut),
];

/// What adds one mark to the history.
pub const ONE_MARK: Action = Barrier;
