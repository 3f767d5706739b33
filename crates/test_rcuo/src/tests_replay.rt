//! A writer that fails, at each of its calls.

use crate::expect::expect_same;
use rcu_jobs::BoxedJob;
use rcu_numbers::Shape;
use rcu_setup::{Command, Setup};
use rcuo_replay::replay;
use rcuo_script::Fault;
use std::alloc::Global;
use std::io;
use std::io::Write;
use std::process::Abort;

// A writer that fails once it has taken so many steps.
#[derive(Drop)]
struct Broken {
    left: u64,
    taken: u64,
}

impl Write for Broken {
    fn write(&mut self, buf: &[u8]) -> io::Result<usize> {
        if self.left == 0 {
            return Err(io::Error::from(io::ErrorKind::BrokenPipe));
        }
        self.left -= 1;
        self.taken = self.taken.wrapping_add(1);
        Ok(buf.len())
    }

    fn flush(&mut self) -> io::Result<()> {
        if self.left == 0 {
            return Err(io::Error::from(io::ErrorKind::BrokenPipe));
        }
        Ok(())
    }
}

// Whether a replay in which each command writes ends as it should, where its writer fails once it has taken so many steps: at that
// step, and nothing more is written.
fn ends_as_it_should(rt: &impl Abort, alloc: Global, left: u64) -> bool {
    let shape = Shape::new(1, 1, 1, 10, 10000, 1000000).expect(rt, "a shape");
    let script = vec![in alloc;
        Command::Driver,
        Command::Show,
        Command::Group { group: 0 },
        Command::Hand { cpu: 0 },
        Command::Barrier,
        Command::Poll,
        Command::Shut,
    ];
    let setup = Setup {
        shape,
        calls: 0,
        routes: Vec::new(alloc),
        script: script.expect(rt, "memory"),
    };
    let jobs = Vec::<BoxedJob<65536>>::new(alloc);
    let mut writer = Broken { left, taken: 0 };
    match replay(alloc, &setup, jobs, &mut writer) {
        Ok(()) => writer.left > 0,
        Err(Fault::CannotWrite) => writer.taken == left,
        Err(_) => false,
    }
}

#[test]
fn fails_at_each_write(rt: HostRuntime) {
    for left in 0..80u64 {
        let found = (left, ends_as_it_should(&rt, rt.alloc(), left));
        expect_same(&rt, "writes", found, (left, true));
    }
}
