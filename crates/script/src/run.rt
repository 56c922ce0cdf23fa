//! The whole program on values: from the bytes read to the bytes written.
ghost use Rattle.std.specs.Prelude.{◌≡◌, IfOk};
ghost use Rattle.script.specs.Written.{written};
ghost use Rattle.script.specs.Played.{Played};

use crate::machines::On;
use lines::first_come::FirstCome;
use lines::ranked::Ranked;
use std::alloc::{AllocError, Global};
use text::run::run;

// What is written of the script, on first-come lines after N and on ranked lines after K. Apart from the entry, which has a
// proof file: a planted bug is refused by this contract.
fn ran(heap: Global, input: &[u8]) -> Result<Vec<u8>, AllocError>
    ensures { IfOk result (λ v. v.items ≡ written input.now) }
{
    run::<On<FirstCome>, On<Ranked>>(heap, input)
}

/// What is written of the script `input`, on first-come lines after N and on ranked lines after K, or want of memory.
///
/// The bytes are those of the definition (`text`), and they are what a nub answers along a right run of the
/// submissions and turns in the script (`run`).
pub fn run_script(heap: Global, input: &[u8]) -> Result<Vec<u8>, AllocError>
    ensures text { IfOk result (λ v. v.items ≡ written input.now) }
    ensures run { IfOk result (λ v. Played input.now v.items) }
{
    ran(heap, input)
}
