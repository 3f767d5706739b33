//! Which histories agree with what is known of a runtime at its end; each is closed under the law of the core.
//!
//! Read `specs/Agreement.antt` for what agreeing is. There is no code here: each contract is a law over plain data.
//!
//! # What is proved
//!
//! - Every history that agrees with what is known at the end is closed under the law of the core.
//! - By `agreeing_is_closed` (`closed`), over `Agrees` in `specs/Agreement.antt`.
//! - There is a history that agrees, also one whose barriers open and pass.
//! - By `one_agrees`.
//! - A read section that was open at an acceptance has ended before the callback runs.
//! - By `readers_are_waited_for` (`waits`, `runs_before`).
#![tactic(auto)]

ghost use Rattle.std.specs.Prelude.{ℕ, List, length};
ghost use Rattle.rcu_agreement.specs.Accounts.{Account, AreAccounts};
ghost use Rattle.rcu_agreement.specs.Agreement.{Agrees};
ghost use Rattle.rcu_agreement.specs.Plain.{MayPass, plain};
ghost use Rattle.rcu_agreement.specs.ReadSections.{ReportsOutside, RunsBeforeReaders, Step, WaitsForReaders, history_of};
ghost use Rattle.rcu_world_law.specs.Law.{IsClosed, IsLawful};
ghost use Rattle.rcu_world_law.specs.declared.marks.Mark.{Mark};

/// Every history that agrees with what is known of each processor at the end, and of each barrier, is closed under the law of
/// the core: ordered, graced, barred, opened and shut in every prefix, and settled.
pub fn agreeing_is_closed()
    ensures closed { (accounts : List Account) (counts : List (List ℕ)) (history : List Mark)
        → AreAccounts accounts → Agrees accounts counts history
        → IsClosed (length accounts) history }
{}

/// There is a history that agrees, whatever is known; and one in which barriers pass, where a seat saw as many run as each
/// counts.
pub fn one_agrees()
    ensures plain { (accounts : List Account) (counts : List (List ℕ))
        → Agrees accounts counts (plain 0 accounts) }
    ensures barriers { (accounts : List Account) (counts : List (List ℕ)) (barriers : ℕ)
        → MayPass accounts counts barriers → Agrees accounts counts (plain barriers accounts) }
{}

/// The grace-period guarantee of RCU, of each lawful history: where no processor reports within a read section of its own, each
/// section that was open when a callback was accepted has ended before that callback runs; and so each that is open when it
/// runs began after it was accepted.
pub fn readers_are_waited_for()
    ensures waits { (n : ℕ) (steps : List Step) → IsLawful n (history_of steps)
        → ReportsOutside steps → WaitsForReaders n steps }
    ensures runs_before { (n : ℕ) (steps : List Step) → IsLawful n (history_of steps)
        → ReportsOutside steps → RunsBeforeReaders n steps }
{}
