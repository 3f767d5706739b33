//! What crosses between C and the library: plain words.

ghost use Rattle.std.specs.Prelude.{◌≡◌, ◌<◌, IfNone, IfSome};
ghost use Rattle.rcu_c.specs.Words.{AreCountsOf, AreListWords, AreTurnWords, mode_number};

use rcu_c_slots::ForeignJob;
use rcu_jobs::{Counts, DriverTurn, Lists, Mode};
use rcu_numbers::PARTS_PROCESSORS;

/// `struct rcuo_shape`: what the header makes of `struct rcuo_settings`.
#[repr(C)]
#[derive(Clone, Copy)]
pub struct Settings {
    pub processors: u64,
    pub stride: u64,
    pub blimit: u64,
    pub qhimark: u64,
    /// 0 for none: the processors accept as many as can be counted.
    pub limit: u64,
    /// The offloadable processors: bit `p % 64` of word `p / 64` for processor `p`.
    pub offloadable: [u64; 16],
    /// Whether each processor is offloadable, whatever the words say.
    pub all: bool,
    /// Whether the record of each callback that ran is kept until the runtime closes.
    pub records: bool,
}

/// `struct rcuo_ticket`.
#[repr(C)]
#[derive(Clone, Copy)]
pub struct TicketWords {
    pub processor: u64,
    pub number: u64,
}

/// `struct rcuo_counts`.
#[repr(C)]
#[derive(Clone, Copy)]
pub struct CountWords {
    pub processors: u64,
    pub counts: [u64; 1024],
}

/// `struct rcuo_driver_turn`.
#[repr(C)]
#[derive(Clone, Copy)]
pub struct DriverWords {
    pub step: u64,
    pub number: u64,
}

/// `struct rcuo_group_turn`.
#[repr(C)]
#[derive(Clone, Copy)]
pub struct GroupWords {
    pub took: u64,
    pub gave: u64,
    pub held: u64,
}

/// `struct rcuo_lists`.
#[repr(C)]
#[derive(Clone, Copy)]
pub struct ListWords {
    pub mode: u64,
    pub accepted: u64,
    pub bypass: u64,
    pub lengths: [u64; 4],
    pub numbers: [u64; 2],
}

/// `struct rcuo_record`.
#[repr(C)]
#[derive(Clone, Copy)]
pub struct RecordWords {
    pub number: u64,
    pub stamp: u64,
    pub ready: u64,
    pub job: ForeignJob,
}

/// The words of counts.
pub(crate) fn words_of_counts(counts: &Counts) -> CountWords
    ensures { (result.processors ≡ counts.now.n) × (result.counts ≡ counts.now.counts) }
{
    CountWords {
        processors: counts.n,
        counts: counts.counts,
    }
}

/// The counts of words; None where there are too many processors.
pub(crate) fn counts_of_words(words: &CountWords) -> Option<Counts>
    ensures some { IfSome result (λ counts. AreCountsOf words.now counts) }
    ensures none { IfNone result (PARTS_PROCESSORS < words.now.processors) }
{
    if words.processors > PARTS_PROCESSORS {
        return None;
    }
    let mut counts = Counts::new(words.processors);
    for p in 0..words.processors {
        counts.set(p, words.counts[p as usize]);
    }
    Some(counts)
}

/// The words of a driver's turn: 0 idle, 1 started, 2 ended, 3 waits, with the number of the grace period or of the
/// processor that it waits for.
pub(crate) fn words_of_driver(turn: DriverTurn) -> DriverWords
    ensures { AreTurnWords turn result }
{
    match turn {
        DriverTurn::Started(number) => DriverWords { step: 1, number },
        DriverTurn::Ended(number) => DriverWords { step: 2, number },
        DriverTurn::Waits(processor) => DriverWords {
            step: 3,
            number: processor,
        },
        DriverTurn::Idle | DriverTurn::Spent => DriverWords { step: 0, number: 0 },
    }
}

/// The number of a mode, as `enum rcuo_mode` has it.
fn word_of_mode(mode: Mode) -> u64
    ensures { result ≡ mode_number mode }
{
    match mode {
        Mode::Local => 0,
        Mode::Offloading => 1,
        Mode::Offloaded => 2,
        Mode::Deoffloading => 3,
    }
}

/// The words of lists.
pub(crate) fn words_of_lists(lists: Lists) -> ListWords
    ensures { AreListWords result lists }
{
    match lists {
        Lists::Cpu {
            mode,
            accepted,
            bypass,
            lengths,
            numbers,
        } => ListWords {
            mode: word_of_mode(mode),
            accepted,
            bypass,
            lengths,
            numbers,
        },
        Lists::Folk { lengths, numbers } => ListWords {
            mode: 0,
            accepted: 0,
            bypass: 0,
            lengths,
            numbers,
        },
    }
}
