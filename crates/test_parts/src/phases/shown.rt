//! How a failed test shows what was answered.

use crate::phases::phase::{Answer, Reply};
use std::fmt;

impl fmt::Debug for Answer {
    fn fmt<W: fmt::Write>(&self, f: &mut fmt::Formatter<W>) -> fmt::Result {
        match self {
            Answer::Accepted(ticket) => fmt::Debug::fmt(&("Accepted", ticket), f),
            Answer::Refused(number) => fmt::Debug::fmt(&("Refused", number), f),
            Answer::Reported(counted) => fmt::Debug::fmt(&("Reported", counted), f),
            Answer::Ticked(ticked) => fmt::Debug::fmt(&("Ticked", ticked), f),
            Answer::NoProcessor => f.write_str("NoProcessor"),
        }
    }
}

impl fmt::Debug for Reply {
    fn fmt<W: fmt::Write>(&self, f: &mut fmt::Formatter<W>) -> fmt::Result {
        match self {
            Reply::Opened => f.write_str("Opened"),
            Reply::Refused(fault) => fmt::Debug::fmt(&("Refused", fault), f),
            Reply::Waits => f.write_str("Waits"),
            Reply::Passed => f.write_str("Passed"),
            Reply::NoBarrier => f.write_str("NoBarrier"),
        }
    }
}
