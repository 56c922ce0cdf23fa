//! Prints the stages as the code has them: a table, pictures of the paths that they make, and a wait's two ways out.
#![tactic(auto)]

mod arrows;
mod calls;
mod edge;
mod full;
mod names;
mod page;
mod paths;
mod picture;
mod probe;
mod reach;
mod seen;
mod table;
mod text;
mod walk;

use arrows::Map;
use paths::Paths;
use std::io;
use table::Table;
use walk::Walks;

fn main(rt: HostRuntime) -> io::Result<()> {
    let mut map = Map::new();
    map.explore()?;
    let table = Table(&map);
    let paths = Paths(&map);
    print!(rt; "{table}\n{paths}\n{Walks}")
}
