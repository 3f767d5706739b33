//! The running parts under the law of the core: each history that agrees with what `close` answers is closed.
//!
//! Read `specs/Accounts.antt` for what a history agrees with, and `rcu_agreement` for what agreeing is. There is no code here.
//!
//! # What is proved
//!
//! - Every history that agrees with what `close` answers is closed; and there is one.
//! - By `every_history` (`closed`, `sound`, `one`, `barriers`).
//! - The accounts are what `close` answers.
//! - By `accounts_are_answered` (`row`, `reports`, `ran`, `back`), over `accounts_of` in `specs/Accounts.antt`.
//! - What a poll and a shut saw is among them.
//! - By `sights_are_accounted` (`polled`, `shut`).
//! - Such a history waits for readers.
//! - By `readers_are_waited_for` (`waits`, `runs_before`).
#![tactic(auto)]

ghost use Rattle.std.specs.Prelude.{◌≡◌, ◌<◌, ◌≤◌, ℕ, List, map};
ghost use Rattle.std.specs.List.{Any};
ghost use Rattle.rcu_agreement.specs.Accounts.{account_at};
ghost use Rattle.rcu_agreement.specs.Agreement.{Agrees};
ghost use Rattle.rcu_agreement.specs.Plain.{MayPass, plain};
ghost use Rattle.rcu_agreement.specs.ReadSections.{ReportsOutside, RunsBeforeReaders, Step, WaitsForReaders, history_of};
ghost use Rattle.rcu_jobs.specs.declared.Counts.{Counts};
ghost use Rattle.rcu_jobs.specs.declared.answers.Closed.{Closed};
ghost use Rattle.rcu_part_control.specs.Barriers.{IsOver, count_at};
ghost use Rattle.rcu_parts.specs.Drained.{polling_views};
ghost use Rattle.rcu_parts.specs.AtClose.{AccountsFor, ClosesWith, KeepWhole};
ghost use Rattle.rcu_parts.specs.OneOpen.{AreOfOneOpen, Parts, parts_board};
ghost use Rattle.rcu_parts_law.specs.Accounts.{SawShutAt, accounts_of};
ghost use Rattle.rcu_part_close.specs.Closing.{InRow};
ghost use Rattle.rcu_world_law.specs.Law.{IsClosed};
ghost use Rattle.rcu_world_law.specs.declared.marks.Mark.{Mark};

use rcu_jobs::Job;

/// Whatever the threads did: every history that agrees with what [`close`](rcu_parts::close) answers is closed under the law
/// of the core, with barriers, processors that were away, and records that were taken out or never kept; and there is one,
/// also one in which barriers pass.
pub fn every_history<J: Job>()
    ensures closed { (parts : Parts J J.Receipt) (closed : Closed J J.Receipt)
        (counts : List (List ℕ)) (history : List Mark) → AreOfOneOpen parts
        → (answer : AccountsFor parts closed)
        → Agrees (accounts_of parts answer.ends) counts history
        → IsClosed (parts_board parts).processors history }
    ensures sound { (parts : Parts J J.Receipt) (closed : Closed J J.Receipt)
        (counts : List (List ℕ)) (history : List Mark) → AreOfOneOpen parts
        → (answer : ClosesWith J.key_of J.gives parts closed)
        → Agrees (accounts_of parts answer.ends) counts history
        → IsClosed (parts_board parts).processors history }
    ensures one { (parts : Parts J J.Receipt) (closed : Closed J J.Receipt)
        (counts : List (List ℕ)) → (answer : AccountsFor parts closed)
        → Agrees (accounts_of parts answer.ends) counts
        (plain 0 (accounts_of parts answer.ends)) }
    ensures barriers { (parts : Parts J J.Receipt) (closed : Closed J J.Receipt)
        (counts : List (List ℕ)) (barriers : ℕ) → (answer : AccountsFor parts closed)
        → MayPass (accounts_of parts answer.ends) counts barriers
        → Agrees (accounts_of parts answer.ends) counts
        (plain barriers (accounts_of parts answer.ends)) }
{}

/// The accounts are what `close` answers: in the order of the processors, with the grace periods that each passed; where the
/// parts keep every record, with the keys of the records, and where jobs are sound, with those of the jobs that come back.
pub fn accounts_are_answered<J: Job>()
    ensures row { (parts : Parts J J.Receipt) (closed : Closed J J.Receipt) → AreOfOneOpen parts
        → (answer : AccountsFor parts closed) → InRow 0 answer.ends }
    ensures reports { (parts : Parts J J.Receipt) (closed : Closed J J.Receipt)
        → (answer : AccountsFor parts closed)
        → closed.reports.items ≡ map (λ a. a.reports) (accounts_of parts answer.ends) }
    ensures ran { (parts : Parts J J.Receipt) (closed : Closed J J.Receipt) → KeepWhole parts
        → (answer : AccountsFor parts closed)
        → map (λ records. map (λ r. r.key) records.items) closed.ran.items
        ≡ map (λ a. a.ran) (accounts_of parts answer.ends) }
    ensures back { (parts : Parts J J.Receipt) (closed : Closed J J.Receipt)
        → (answer : ClosesWith J.key_of J.gives parts closed)
        → map (λ jobs. map J.key_of jobs.items) closed.back.items
        ≡ map (λ a. a.back) (accounts_of parts answer.ends) }
{}

/// What agreeing says of seats is so by the contracts of their calls: where a part that polls has seen a barrier over, as a
/// poll that lets it pass says of its seat, or a processor shut, as `shut` says of control's, the accounts have that sight.
pub fn sights_are_accounted<J: Job>()
    ensures polled { (counts : Counts) (parts : Parts J J.Receipt) (closed : Closed J J.Receipt)
        → AreOfOneOpen parts → (answer : AccountsFor parts closed)
        → counts.n ≡ (parts_board parts).processors → Any (IsOver counts) (polling_views parts)
        → (p : ℕ) → p < counts.n
        → Any (λ turn. count_at counts p ≤ turn)
        (account_at (accounts_of parts answer.ends) p).turns }
    ensures shut { (p count : ℕ) (parts : Parts J J.Receipt) (closed : Closed J J.Receipt)
        → AreOfOneOpen parts → (answer : AccountsFor parts closed)
        → p < (parts_board parts).processors
        → Any (SawShutAt p count) (polling_views parts)
        → Any (λ seen. seen ≡ count) (account_at (accounts_of parts answer.ends) p).shuts }
{}

/// The grace-period guarantee of RCU on the running parts: of each history that agrees with what `close` answers, where no
/// processor reports within a read section of its own, each section that was open when a callback was accepted has ended
/// before that callback runs.
pub fn readers_are_waited_for<J: Job>()
    ensures waits { (parts : Parts J J.Receipt) (closed : Closed J J.Receipt)
        (counts : List (List ℕ)) (steps : List Step) → AreOfOneOpen parts
        → (answer : AccountsFor parts closed)
        → Agrees (accounts_of parts answer.ends) counts (history_of steps) → ReportsOutside steps
        → WaitsForReaders (parts_board parts).processors steps }
    ensures runs_before { (parts : Parts J J.Receipt) (closed : Closed J J.Receipt)
        (counts : List (List ℕ)) (steps : List Step) → AreOfOneOpen parts
        → (answer : AccountsFor parts closed)
        → Agrees (accounts_of parts answer.ends) counts (history_of steps) → ReportsOutside steps
        → RunsBeforeReaders (parts_board parts).processors steps }
{}
