//! Words of the command line, and a reader that fails.

use crate::expect::expect_same;
use rcu_setup::SetupFault;
use rcuo_plan::{Refusal, read_plan};
use rcuo_script::Fault;
use std::alloc::Global;
use std::io;
use std::io::{Cursor, Read};
use std::process::Abort;

// A reader that fails once it has taken so many steps.
#[derive(Drop)]
struct Broken {
    left: u64,
}

impl Read for Broken {
    fn read(&mut self, buf: &mut [u8]) -> io::Result<usize> {
        if self.left == 0 || buf.is_empty() {
            return Err(io::Error::from(io::ErrorKind::BrokenPipe));
        }
        self.left -= 1;
        buf[0] = b'#';
        Ok(1)
    }
}

// What a refusal is of.
fn kind_of(refusal: &Refusal) -> &'static str {
    match refusal {
        Refusal::Words(_) => "words",
        Refusal::Fault(Fault::CannotRead) => "a failed read",
        Refusal::Fault(Fault::Setup(SetupFault::NotToml)) => "no document",
        _ => "another",
    }
}

// What the refusal of a plan is of, by one word. "a plan" where there is one.
fn refused<R: Read>(rt: &impl Abort, alloc: Global, word: &str, reader: &mut R) -> &'static str {
    let words = [String::from_str(alloc, word).expect(rt, "memory")];
    match read_plan(alloc, &words, reader) {
        Ok(_) => "a plan",
        Err(refusal) => kind_of(&refusal),
    }
}

#[test]
fn fails_at_each_read(rt: HostRuntime) {
    for left in 0..3u64 {
        let found = refused(&rt, rt.alloc(), "replay", &mut Broken { left });
        expect_same(&rt, "of a failed read", found, "a failed read");
    }
}

#[test]
fn other_words_are_refused_before_reading(rt: HostRuntime) {
    for word in ["thread", "replays", "--help", ""] {
        let found = refused(&rt, rt.alloc(), word, &mut Broken { left: 0 });
        expect_same(&rt, word, found, "words");
    }
}

#[test]
fn a_text_that_is_too_long_or_no_text(rt: HostRuntime) {
    for bytes in [
        b"processors = 1 # \xff".as_slice(),
        b"processors".as_slice(),
    ] {
        let found = refused(&rt, rt.alloc(), "replay", &mut Cursor::new(bytes));
        expect_same(&rt, "no document", found, "no document");
    }
}
