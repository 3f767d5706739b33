//! Laws over plain data, which have no code.

ghost use Rattle.std.specs.Prelude.{◌≡◌, ◌+◌, ◌*◌, ◌/◌, ◌<◌, ◌≤◌, ◌∷◌, ◌++◌, ℕ, List, All, false, length};
ghost use mathlib.Core.Option.{some};
ghost use lib.ListN.{get_elem?};
ghost use Rattle.rcu_board.specs.Quiets.{Chain};
ghost use Rattle.rcu_board.specs.declared.view.Quiet.{Quiet};
ghost use Rattle.rcu_board.specs.Views.{claimed, seen_at, tally, total};
ghost use Rattle.rcu_board.specs.Words.{is_asks};
ghost use Rattle.rcu_board.specs.declared.view.View.{View};
ghost use Rattle.rcu_part_close.specs.Closing.{Closes, CpuEnd, Ends, HaveEnded};
ghost use Rattle.rcu_part_close.specs.Gathered.{gather};
ghost use Rattle.rcu_part_close.specs.Parts.{IsSoundPart};

use rcu_jobs::Job;

/// What a view knows that took in others, one after another: the weights, the claims and the tallies add up, and its sight
/// of a word that only grows is at least that of each.
pub fn gathering()
    ensures weights { (v : View) (ws : List View)
        → (gather v ws).weight ≡ total (λ w. w.weight) (v ∷ ws) }
    ensures claims { (p j : ℕ) (v : View) (ws : List View)
        → claimed p j (gather v ws) ≡ total (claimed p j) (v ∷ ws) }
    ensures tallies { (i : ℕ) (v : View) (ws : List View)
        → tally (gather v ws) i ≡ total (λ w. tally w i) (v ∷ ws) }
    ensures sights { (n i : ℕ) (v : View) (ws : List View) → i < n → is_asks i ≡ false
        → All (λ w. length w.seen ≡ n) (v ∷ ws)
        → All (λ w. seen_at w i ≤ seen_at (gather v ws) i) (v ∷ ws) }
{}

/// Where the parts of one open have ended, each processor and its hand by [`end_offloadable`](crate::end_offloadable) or
/// [`end_local`](crate::end_local), the last loads say of each what `close` promises, also of its jobs where these were
/// sound.
pub fn closing<J: Job>()
    ensures ends { (n x : ℕ) (v : View) (others : List View) (es : List (CpuEnd J J.Receipt))
        → HaveEnded J.key_of J.gives n x v others es → Ends v others es }
    ensures closes { (n x : ℕ) (v : View) (others : List View) (es : List (CpuEnd J J.Receipt))
        → HaveEnded J.key_of J.gives n x v others es
        → All (λ e. IsSoundPart J.key_of J.gives e.part) es → Closes J.key_of J.gives v others es }
{}

/// A processor that was never away passed each grace period by a report: its k-th from 0 was made in the grace period 4k + 1,
/// and it made as many as its report word counts.
pub fn reporting()
    ensures numbers { (to k : ℕ) (x : Quiet) (quiets : List Quiet) → Chain 0 quiets to
        → All (λ q. q.away ≡ false) quiets → get_elem? quiets k ≡ some x → x.to ≡ 4 * k + 1 }
    ensures count { (to : ℕ) (quiets : List Quiet) → Chain 0 quiets to
        → All (λ q. q.away ≡ false) quiets → length quiets ≡ (to + 3) / 4 }
{}
