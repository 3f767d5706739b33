//! What each kind of step on a board costs, alone and beside a thread on the same word, and what crosses a lane a second.
//!
//! With the argument `time` the program prints nanoseconds of the steps, and then the rates of the lane. Without it, each row
//! makes a fixed number of steps, and the program says how many rows made all of them; then it hands over a fixed number of
//! items, and says how many came, each once and in order.
//!
//! # What is proved
//!
//! - A program for measuring alone.
//! - Where it answers that all rounds were made, the seat made so many steps on the word that the row measures,
//!   one in each round, of a claim and its end two; and so many grace periods were ended, of each of which the
//!   processor made a step on the board word.
//! - What that took is measured.
//! - By `Kind::step` (`made`), `repeat` (`made`), `repeat_grace_periods` (`ended`, `reported`), over
//!   `HasStepped` in `specs/Stays.antt`.
#![tactic(auto)]

mod kinds;
mod lanes;
mod measure;
mod rows;
mod seats;

use crate::measure::Plan;
use std::{env, io};

fn main(rt: HostRuntime) -> io::Result<()> {
    let alloc = rt.alloc();
    if env::args(&rt)?.any(|word| word.as_str() == "time") {
        let plan = Plan {
            rounds: 400_000,
            prints: true,
        };
        let _rows = rows::all(&rt, alloc, plan)?;
        return lanes::time(&rt, alloc);
    }
    let plan = Plan {
        rounds: 1000,
        prints: false,
    };
    let rows = rows::all(&rt, alloc, plan)?;
    println!(rt; "{rows} rows of 1000 rounds alone and 1000 beside a second thread")?;
    lanes::count(&rt, alloc)
}
