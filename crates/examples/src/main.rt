//! Runs each example script, and says whether it wrote what is expected of it.
#![tactic(auto)]

use script::run::run_script;
use std::{fs, io};

// What is expected of `control` is wrong on purpose: the comparison must tell.
const NAMES: [&str; 15] = [
    "alert-then-signal",
    "alertp-leaves",
    "alertwait-compare",
    "broadcast",
    "control",
    "join-before-test",
    "limits",
    "limits-ranked",
    "lost-signal",
    "mutex",
    "semaphore",
    "signal-after-quit",
    "small-nub",
    "wait-wakes",
    "woken-alertp-tries",
];

// Whether the example script of this name writes what is expected.
fn as_expected(rt: &HostRuntime, name: &str) -> io::Result<bool> {
    let heap = rt.alloc();
    let script = format!(in heap; "{name}.script")?;
    let expected = format!(in heap; "{name}.expected")?;
    let input = fs::read(rt, &script)?;
    let wanted = fs::read(rt, &expected)?;
    let written = run_script(heap, &input)?;
    Ok(written == wanted)
}

fn main(rt: HostRuntime) -> io::Result<()> {
    for name in NAMES {
        let verdict = if as_expected(&rt, name)? {
            "as expected"
        } else {
            "differs"
        };
        println!(rt; "{name}: {verdict}")?;
    }
    Ok(())
}
