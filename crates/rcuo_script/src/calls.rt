//! The commands that take a job: calls, plain or lazy.

ghost use Rattle.std.specs.Prelude.{◌≡◌, ◌<◌, ◌+◌, ◌++◌, if◌then◌else◌, option_to_list, true, option_map};
ghost use Rattle.std.specs.Option.{is_some};
ghost use Rattle.std.specs.VecDeque.{deque_len};
ghost use Rattle.rcuo_script.specs.Calls.{is_call, is_show, route_in};

use rcu_setup::Command;
use std::collections::VecDeque;

/// The route that a call line sets, or None where the command is no call line.
pub fn route_of(command: &Command) -> Option<(&str, u32)>
    ensures { option_map (λ r. (r.0.now, r.1)) result ≡ route_in command.now }
{
    match command {
        Command::Call { name, hop, .. } | Command::Lazy { name, hop, .. } => {
            Some((name.as_str(), *hop))
        }
        _ => None,
    }
}

/// The job of a command: the first that is left where the command is a call.
pub fn job_for<J>(command: &Command, jobs: &mut VecDeque<J>) -> Option<J>
    requires { is_call command.now ≡ true → 0 < deque_len jobs.old }
    ensures job { is_some result ≡ is_call command.now }
    ensures first { jobs.old.items ≡ option_to_list result ++ jobs.new.items }
    ensures left { deque_len jobs.new + (if is_call command.now then 1 else 0)
        ≡ deque_len jobs.old }
{
    match route_of(command) {
        Some(_) => jobs.pop_front(),
        None => None,
    }
}

/// Whether the command is `show`, which alone prints more than one line.
pub fn is_show(command: &Command) -> bool
    ensures { result ≡ is_show command.now }
{
    matches!(command, Command::Show)
}
