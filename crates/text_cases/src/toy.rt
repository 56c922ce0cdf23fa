//! A machine for the cases, which is only there to be told apart: it keeps one number.
ghost use Rattle.text_cases.specs.Toy.{toy};

use text::answer::Report;
use text::machine::Machine;

/// A machine that keeps the last number of its last submission, and reports its kind as the action.
#[derive(Drop)]
pub struct Toy<const KIND: u8> {
    last: u32,
}

impl<const KIND: u8> Machine for Toy<KIND> {
    ghost model = { toy KIND };

    ghost state = { λ t. t.last };

    fn build(sizes: [u32; 5]) -> Result<Self, u8> {
        if sizes[0] == 0 {
            Err(8)
        } else {
            Ok(Toy { last: sizes[4] })
        }
    }

    fn submit(&mut self, call: [u32; 4]) -> Result<(), u8> {
        if call[0] % 2 == 1 {
            return Err(2);
        }
        self.last = call[3];
        Ok(())
    }

    fn turn(&mut self, thread: u32) -> Result<Report, u8> {
        if thread <= 63 {
            Ok(Report {
                status: 3,
                value: self.last,
                action: KIND,
                mask: 18_446_744_073_709_551_615,
            })
        } else {
            Err(1)
        }
    }
}
