//! A runtime in one thread: what a program of one's own calls.

use crate::whole::Whole;
use rcu_parts::Parts;

/// A runtime in one thread: all parts of one open, which stay whole. A contract sees the parts.
pub type Runtime<J> = Whole<Parts<J>>;
