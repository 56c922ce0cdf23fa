//! What a record holds besides its stage, found by trying a copy of it.
ghost use Rattle.std.specs.Prelude.{◌≡◌, ◌&&◌, ◌==◌};
ghost use Rattle.stages.specs.Names.{is_alert_wait, is_alerted};
ghost use Rattle.stages.specs.Calls.{kind_of};
ghost use Rattle.stage_map.specs.Taking.{answers_one};

use stages::call::Call;
use stages::step::*;
use thread::record::Thread;

// A sight with nothing in the way.
const FREE: Sight = Sight {
    spin: false,
    bit: false,
    empty: true,
    count: 0,
};

// Whether its turn, with nothing in the way, answers 1.
fn answers(mut thread: Thread) -> bool
    ensures { result ≡ answers_one thread }
{
    thread.turn(FREE).is_some_and(|step| step.value == 1)
}

/// Its alert flag: what a TestAlert in its place would answer.
pub(crate) fn flag(mut thread: Thread) -> bool
    ensures { result ≡ thread.alert }
{
    thread.start(Call::TestAlert);
    answers(thread)
}

/// Whether it is an AlertWait that has chosen the alert: what its Try of a free gate would answer.
pub(crate) fn quits(mut thread: Thread) -> bool
    ensures { result ≡ (is_alert_wait (kind_of thread.call) && is_alerted thread.outcome) }
{
    thread.wake(LineEffect::WakeGate);
    answers(thread)
}
