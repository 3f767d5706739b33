//! Whole versions of a route table.

use crate::expect::{expect_same, expect_text};
use crate::tests_setup::setup_of;
use rcuo_script::{Retired, versions_by_rounds, versions_by_script};
use std::alloc::Global;
use std::process::Abort;

// A version, by its key and its routes in order.
fn shown(rt: &impl Abort, alloc: Global, version: &Retired) -> String {
    let key = version.key;
    let mut text = format!(in alloc; "{key}:").ok().expect(rt, "memory");
    for (name, hop) in version.table.iter() {
        let route = format!(in alloc; " {name}={hop}").ok().expect(rt, "memory");
        text.push_str(route.as_str()).expect(rt, "memory");
    }
    text
}

// The versions are these, in order.
fn expect_versions(rt: &impl Abort, alloc: Global, versions: &[Retired], wants: &[&str]) {
    expect_same(rt, "versions", versions.len(), wants.len());
    for (version, wanted) in versions.iter().zip(wants) {
        let text = Some(shown(rt, alloc, version));
        expect_text(rt, "a version", text, wanted);
    }
}

// Names that are given again keep their places, in the setup and in a call line.
const SCRIPT: &str = "processors = 2
routes = [\"a=1\", \"b=2\", \"a=3\"]
script = [\"call 0 0 c 4\", \"tick 0 0\", \"lazy 1 5 b 6\", \"call 0 0 d 7\"]";

#[test]
fn whole_versions_of_a_script(rt: HostRuntime) {
    let setup = setup_of(&rt, rt.alloc(), SCRIPT);
    let versions = versions_by_script(rt.alloc(), &setup).ok();
    let versions = versions.expect(&rt, "memory");
    let wants = ["2: a=3 b=2", "65539: a=3 b=2 c=4", "131075: a=3 b=6 c=4"];
    expect_versions(&rt, rt.alloc(), versions.as_slice(), &wants);
}

const ROUNDS: &str = "processors = 2
calls = 2
routes = [\"c1=9\"]";

#[test]
fn whole_versions_of_rounds(rt: HostRuntime) {
    let setup = setup_of(&rt, rt.alloc(), ROUNDS);
    let versions = versions_by_rounds(rt.alloc(), &setup).ok();
    let versions = versions.expect(&rt, "memory");
    let wants = [
        "1: c1=9",
        "65538: c1=9 c0=0",
        "131074: c1=0 c0=0",
        "196610: c1=0 c0=1",
    ];
    expect_versions(&rt, rt.alloc(), versions.as_slice(), &wants);
}
