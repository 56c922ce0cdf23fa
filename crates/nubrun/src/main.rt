//! Reads a script from standard input, whole, and writes its answers at once.
#![tactic(auto)]

use script::run::run_script;
use std::io;
use std::io::{Read, Write};

fn main(rt: HostRuntime) -> io::Result<()> {
    let mut input = Vec::new(rt.alloc());
    rt.stdin().read_to_end(&mut input)?;
    let out = run_script(rt.alloc(), &input)?;
    rt.stdout().write_all(&out)
}
