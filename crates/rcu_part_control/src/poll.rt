//! Control's polls for a grace period, without a callback.

ghost use Rattle.std.specs.Prelude.{◌≡◌, ◌≤◌, ◌↔◌, IsTrue};
ghost use Rattle.rcu_board.specs.Plays.{looked};
ghost use Rattle.rcu_board.specs.Views.{sight};
ghost use Rattle.rcu_numbers.specs.Numbers.{snap_of};
ghost use Rattle.rcu_part_control.specs.Parts.{SameControl, control_view};
ghost use Rattle.rcu_part_control.specs.Polls.{AsksForCookie};

use crate::control::Control;
use rcu_board::{look, need};
use rcu_numbers::{done, snap};

impl Control {
    /// Asks for a grace period that begins after this call, and answers its cookie, which [`poll_state`](Control::poll_state)
    /// takes: the number at which it will have ended.
    pub fn start_poll(&mut self) -> u64
        ensures same { SameControl self.old self.new }
        ensures cookie { result ≡ snap_of (sight (control_view self.new)) }
        ensures asked { AsksForCookie result (control_view self.old) (control_view self.new) }
        ensures later { sight (control_view self.old) ≤ sight (control_view self.new) }
    {
        let seen = look(&self.board, &mut self.seat);
        let cookie = snap(seen);
        need(&self.board, &mut self.seat, cookie);
        cookie
    }

    /// Whether the grace period of a cookie has ended, by one look. A cookie is a number; of another open it means as much there.
    pub fn poll_state(&mut self, cookie: u64) -> bool
        ensures same { SameControl self.old self.new }
        ensures looks { control_view self.new
            ≡ looked (sight (control_view self.new)) (control_view self.old) }
        ensures elapsed { IsTrue result ↔ (cookie ≤ sight (control_view self.new)) }
    {
        let seen = look(&self.board, &mut self.seat);
        done(seen, cookie)
    }
}
