//! What calls cost on lists of several lengths.

ghost use Rattle.std.specs.Prelude.{◌+◌, ◌^◌, ◌<◌};

use rcu_jobs::Callback;
use rcu_lists::Segments;
use std::alloc::{AllocError, Global};
use std::io;
use std::time::Instant;

const ROUNDS: u64 = 100_000;

/// Prints, for a list of 10, 1,000 and 100,000 callbacks, how long a round takes of `enqueue`, `accelerate`, `advance`
/// and `take_done`, which leaves the length as it was.
pub fn measure(rt: &HostRuntime) -> io::Result<()> {
    for length in [10u64, 1_000, 100_000] {
        let mut list = filled(rt.alloc(), length)?;
        let start = Instant::now(rt)?;
        let mut taken = 0u64;
        for round in 0..ROUNDS {
            taken = taken.wrapping_add(turn(&mut list, 4 * round)?);
        }
        let nanos = start.elapsed(rt)?.as_nanos();
        println!(rt;
            "{length} callbacks: {} ns a round, {taken} taken",
            nanos / u128::from(ROUNDS)
        )?;
    }
    Ok(())
}

// A list of so many done callbacks.
fn filled(alloc: Global, length: u64) -> Result<Segments<()>, AllocError> {
    let mut list = Segments::new(alloc);
    for _ in 0..length {
        add(&mut list, 0)?;
    }
    if list.may_accelerate(4) {
        list.accelerate(4);
    }
    list.advance(4);
    Ok(list)
}

fn add(list: &mut Segments<()>, stamp: u64) -> Result<(), AllocError> {
    list.reserve(1)?;
    list.enqueue(Callback {
        cpu: 0,
        number: 0,
        key: 0,
        stamp,
        job: (),
    });
    Ok(())
}

// One callback comes with this stamp, and one goes. Answers how many went.
fn turn(list: &mut Segments<()>, stamp: u64) -> Result<u64, AllocError>
    requires { stamp + 4 < 2 ^ 64 }
{
    add(list, stamp)?;
    let seq = stamp + 4;
    if list.may_accelerate(seq) {
        list.accelerate(seq);
    }
    list.advance(seq);
    Ok(u64::from(list.take_done().is_some()))
}
