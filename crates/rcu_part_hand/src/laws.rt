//! Laws over a hand's part, which have no code.

ghost use Rattle.std.specs.Prelude.{◌≡◌, ℕ, ◌+◌};
ghost use Rattle.rcu_board.specs.Views.{sight};
ghost use Rattle.rcu_part_hand.specs.Hands.{Ran, hand_view};
ghost use Rattle.rcu_part_hand.specs.TwoSteps.{RunsInTwoSteps};
ghost use Rattle.rcu_part_hand.specs.declared.hand.HandState.{HandState};

use rcu_jobs::Job;

/// A turn means begins and finishes in a loop with one look: the claim by which a begin hands a job out, and its finish,
/// are one run of a turn's list of runs, and follow what a turn ran already at the same look.
pub fn turns_in_two_steps<J: Job>()
    ensures one { (seen : ℕ) (p q : HandState J J.Receipt) → sight (hand_view p) ≡ seen
        → RunsInTwoSteps seen p q → Ran 1 1 seen p q }
    ensures more { (ran tried seen : ℕ) (o p q : HandState J J.Receipt) → p.hand.cpu ≡ o.hand.cpu
        → Ran ran tried seen o p → RunsInTwoSteps seen p q → Ran (ran + 1) (tried + 1) seen o q }
{}
