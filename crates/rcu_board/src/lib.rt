//! The board: the words that all running parts share, and the atomic steps on them.
//!
//! Every word changes only by these steps. Between any two steps of any threads the board law, the accept law, the turn
//! law and the ask law hold (docs/specification/definitions.md, "The running parts: laws"; `BoardRule` in specs/Laws). The
//! words and the kinds of step stand in docs/specification/tables.md. No step waits, none is tried twice, and none but
//! [`open_board`] takes memory.
//!
//! # What is proved
//!
//! - The words that all threads share change only by the named steps, and between any two steps of any threads
//!   the number law, the report law, the accept law, the turn law and the ask law hold, and each word on which
//!   no seat has made a step is 0, but what is asked of a processor.
//! - A seat changes its own view alone, by a named function for each step, no sight falls, and one that saw a
//!   processor shut stays as it is.
//! - Where in memory a word stands is no matter of these: each stands in cache lines of its own.
//! - The seats are made all or none, and the seat that took in all others learns from one load of each word
//!   that each number below the turn was claimed once, that each processor passed each grace period that ended,
//!   by a report or by being away, that no stamp and no claim is later, and that each accept word is twice the
//!   length of the accepted list, plus 1 once shut.
//! - By the rule `Rule`, which holds between any two steps (`BoardRule` in its specs, one law for each word,
//!   and `begins`); `view` and `same` of `look`, `report` (`counted`), `leave`, `come_back` (`later`), `start`,
//!   `end`, `sighted` (`law`), `meet` (`won`, `lost`, `other`), `need`, `needed`, `accept` (`won`, `shut`),
//!   `shut_one`, `count_of` (`own`), `claim` (`won`, `lost`), `finish`, `go_on`, `turn_of`, `ask`, `asked`,
//!   `halt`, `halted`, `urge`, `heard`; `open_board` (`seats`), `merge` (`view`), `last_look` (`stands`),
//!   `last_turn_of`, `last_report_of` (`settled`), `last_count_of` (`counted`).
#![tactic(auto)]

mod board;
mod gather;
mod open;
mod padding;
mod plays;
mod steps;
mod view;

pub use board::{Board, Frame, Gathered, Role, Seat};
pub use gather::{last_count_of, last_look, last_report_of, last_turn_of, merge};
pub use open::{Seats, open_board};
pub use plays::Rule;
pub use steps::{
    Claimed, accept, ask, asked, claim, come_back, count_of, end, finish, go_on, halt, halted,
    heard, leave, look, meet, need, needed, report, shut_one, sighted, start, turn_of, urge,
    urge_words,
};
pub use view::{Accepted, Claim, Own, Quiet, View};
