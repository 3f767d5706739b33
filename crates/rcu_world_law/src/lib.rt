//! The law of the core, and the core as a pure machine of all its events.
//!
//! Read `specs/Law.antt` for what is proved of a history, `specs/Events.antt` for the machine, and the contracts below for
//! what holds of it. Grace-period numbers are those of rcu_numbers.
//!
//! # What is proved
//!
//! - Whatever events come to a core of up to 32 processors, switches, lazy calls, barriers and shuts among
//!   them: its history is lawful (ordered, graced, barred, opened, shut, in every prefix), and what `close`
//!   adds closes it (settled: accepted = ran, then handed back).
//! - While a processor is Offloaded it has nothing to claim itself; a Local one has nothing left with its group
//!   or hand.
//! - Nothing is accepted after the first callback is handed back.
//! - By `every_schedule` (`lawful`, `closed`, `recorded`), `offloaded_runs_nothing`,
//!   `local_has_nothing_offloaded`, `lists_stay_labelled`, `nothing_accepted_after_back`.
#![tactic(auto)]

pub mod labels;
pub mod marks;
pub mod who;

ghost use Rattle.std.specs.Prelude.{[], ℕ, List, false, true, ◌≡◌, ◌<◌, ◌≤◌};
ghost use Rattle.rcu_world_law.specs.declared.marks.Mark.{Mark};
ghost use Rattle.rcu_jobs.specs.Modes.{is_offloaded};
ghost use Rattle.rcu_world_law.specs.States.{Shape, opening, cpu_at};
ghost use Rattle.rcu_world_law.specs.Events.{CoreEvent, is_enabled, run};
ghost use Rattle.rcu_world_law.specs.Events.CoreEvent.{Claim};
ghost use Rattle.rcu_world_law.specs.Invariant.{AreRecords, HasLabelledLists};
ghost use Rattle.rcu_world_law.specs.Places.{offloaded_callbacks};
ghost use Rattle.rcu_jobs.specs.declared.modes.Mode.TheVariants.{Local};
ghost use Rattle.rcu_world_law.specs.declared.who.Side.TheVariants as sides;
ghost use Rattle.rcu_world_law.specs.Law.{IsLawful, IsClosed, HasNothingAcceptedAfterBack};
ghost use Rattle.rcu_world_law.specs.Closing.{closing};

/// Whatever events come to a core of `n` processors, its history is lawful, what `close` makes of it is closed, and the
/// records of each processor are those of its `Ran` marks, each made at a sight of `snap(stamp)` or more
/// (`docs/specification/definitions.md`, "The law").
pub fn every_schedule()
    ensures lawful { (n : ℕ) (shape : Shape) (events : List CoreEvent)
        → IsLawful n (run events (opening n shape)).history }
    ensures closed { (n : ℕ) (shape : Shape) (events : List CoreEvent)
        → IsClosed n (closing (run events (opening n shape))) }
    ensures recorded { (n : ℕ) (shape : Shape) (events : List CoreEvent) → (p : ℕ) → p < n
        → AreRecords (run events (opening n shape)).history p
        (cpu_at (run events (opening n shape)) p).runs }
{}

/// While a processor is Offloaded, it has nothing to claim itself: only its hand runs its callbacks
/// (`docs/specification/promises.md`, "Headline on the core").
pub fn offloaded_runs_nothing()
    ensures { (n : ℕ) (shape : Shape) (events : List CoreEvent) → (p : ℕ)
        → is_offloaded (cpu_at (run events (opening n shape)) p).mode ≡ true
        → is_enabled (run events (opening n shape)) (Claim p sides.Local) ≡ false }
{}

/// A Local processor has no callback left with its group or its hand: it became Local only once the turn had reached all
/// that were offloaded (`docs/specification/rules.md`, "Modes").
pub fn local_has_nothing_offloaded()
    ensures { (n : ℕ) (shape : Shape) (events : List CoreEvent) → (p : ℕ) → p < n
        → (cpu_at (run events (opening n shape)) p).mode ≡ Local
        → offloaded_callbacks (cpu_at (run events (opening n shape)) p) ≡ [] }
{}

/// Under every event, the own list of each processor and its list in the group are labelled lists, and a look finds the
/// condition of `accelerate` (`docs/specification/definitions.md`, "Lists"; `docs/specification/rules.md`, "Callback lists").
pub fn lists_stay_labelled()
    ensures { (n : ℕ) (shape : Shape) (events : List CoreEvent) → (p : ℕ) → p < n
        → HasLabelledLists (run events (opening n shape)) p }
{}

/// A law over the definitions alone: a closed history has no `Accepted(p)` after the first `Back` of `p`.
pub fn nothing_accepted_after_back()
    ensures { (n : ℕ) (history : List Mark) → IsClosed n history
        → HasNothingAcceptedAfterBack history }
{}
