//! Whole scripts: bytes in, bytes out.
ghost use Rattle.std.specs.Prelude.{◌≡◌};
ghost use Rattle.embed.specs.Play.{laid};
ghost use Rattle.embed.specs.Into.{RanInto};

use script::run::run_script;
use std::alloc::Global;

/// Writes `text` from the first place on, as far as there are places.
pub(crate) fn lay(text: &[u8], output: &mut [u8])
    ensures { output.new ≡ laid text.now output.old }
{
    let n = text.len().min(output.len());
    output[..n].copy_from_slice(&text[..n]);
}

// Runs a script into `output`, and gives the length of what is written, or the largest number, which C knows want of memory by.
// Apart from the exported function, so that a proof file is of this one.
fn run_into(heap: Global, input: &[u8], output: &mut [u8]) -> usize
    ensures { RanInto input.now output.old result output.new }
{
    match run_script(heap, input) {
        Ok(text) => {
            lay(text.as_slice(), output);
            text.len()
        }
        Err(_) => usize::MAX,
    }
}

/// Runs a script. What is written of it goes to `output`, as far as there are places. Gives the length of all that is
/// written, and the largest number, with `output` as it was, where there is no memory for it.
#[unsafe(no_mangle)]
pub extern "C" fn lishabon_script(heap: Global, input: &[u8], output: &mut [u8]) -> usize
    ensures { RanInto input.now output.old result output.new }
{
    run_into(heap, input, output)
}
