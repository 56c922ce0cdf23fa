//! The record of a thread, and its own part of a turn: one match on its stage together with its call.
ghost use Rattle.std.specs.Prelude.{◌≡◌, false, if◌then◌else◌, Some, None};
ghost use Rattle.thread.specs.Turns.{thread_after, step_after, started, idle_thread, at_stage, finished, step_by};

use stages::action::*;
use stages::call::Call;
use stages::stage::Stage;
use stages::step::*;

mod outside;
mod reads;

/// A thread: its alert flag, its stage, its call, the count that it kept, and its outcome once it has chosen one.
#[derive(Clone, Copy)]
pub struct Thread {
    alert: bool,
    stage: Stage,
    call: Option<Call>,
    kept: u32,
    outcome: Option<Outcome>,
}

// A step that does nothing outside the record.
fn quiet(status: Status, action: Option<Action>) -> Step
    ensures { result ≡ step_by status 0 action SpinEffect.Keep GateEffect.Keep LineEffect.Keep FlagEffect.Keep }
{
    Step {
        status,
        value: 0,
        action,
        spin: SpinEffect::Keep,
        gate: GateEffect::Keep,
        line: LineEffect::Keep,
        flag: FlagEffect::Keep,
    }
}

impl Thread {
    /// A new thread.
    pub fn new() -> Thread
        ensures { result ≡ idle_thread }
    {
        Thread {
            alert: false,
            stage: Stage::Idle,
            call: None,
            kept: 0,
            outcome: None,
        }
    }

    // On to `next`. The clauses here and below are equations, with one word each for what becomes of the record.
    fn go(&mut self, next: Stage) -> Step
        ensures after { self.new ≡ at_stage next self.old }
        ensures value { result ≡ step_by Status.On 0 None SpinEffect.Keep GateEffect.Keep LineEffect.Keep FlagEffect.Keep }
    {
        self.stage = next;
        quiet(Status::On, None)
    }

    // On to `next` with the spin bit, or spun.
    fn spin(&mut self, taken: bool, next: Stage) -> Step
        ensures after { self.new ≡ at_stage (if taken then self.old.stage else next) self.old }
        ensures value { result ≡ step_by (if taken then Status.Spun else Status.On) 0 None (if taken then SpinEffect.Keep else SpinEffect.Set) GateEffect.Keep LineEffect.Keep FlagEffect.Keep }
    {
        if taken {
            return quiet(Status::Spun, None);
        }
        Step {
            spin: SpinEffect::Set,
            ..self.go(next)
        }
    }

    // On to `next`, clearing the spin bit.
    fn unspin(&mut self, next: Stage) -> Step
        ensures after { self.new ≡ at_stage next self.old }
        ensures value { result ≡ step_by Status.On 0 None SpinEffect.Clear GateEffect.Keep LineEffect.Keep FlagEffect.Keep }
    {
        Step {
            spin: SpinEffect::Clear,
            ..self.go(next)
        }
    }

    // On to `next`, working on a line.
    fn line(&mut self, effect: LineEffect, action: Option<Action>, next: Stage) -> Step
        ensures after { self.new ≡ at_stage next self.old }
        ensures value { result ≡ step_by Status.On 0 action SpinEffect.Keep GateEffect.Keep effect FlagEffect.Keep }
    {
        Step {
            line: effect,
            action,
            ..self.go(next)
        }
    }

    // On to Look, freeing the gate.
    fn free(&mut self, action: Option<Action>) -> Step
        ensures after { self.new ≡ at_stage Stage.Look self.old }
        ensures value { result ≡ step_by Status.On 0 action SpinEffect.Keep GateEffect.Free LineEffect.Keep FlagEffect.Keep }
    {
        Step {
            gate: GateEffect::Free,
            action,
            ..self.go(Stage::Look)
        }
    }

    // On to `next`, the outcome chosen.
    fn choose(&mut self, outcome: Outcome, next: Stage) -> Step
        ensures after { self.new ≡ record { alert = self.old.alert; stage = next; call = self.old.call; kept = self.old.kept; outcome = Some outcome } }
        ensures value { result ≡ step_by Status.On 0 (Some Action.ChooseOutcome) SpinEffect.Keep GateEffect.Keep LineEffect.Keep FlagEffect.Keep }
    {
        self.outcome = Some(outcome);
        Step {
            action: Some(Action::ChooseOutcome),
            ..self.go(next)
        }
    }

    // Back to Idle, with no call and no outcome.
    fn finish(&mut self, action: Option<Action>) -> Step
        ensures after { self.new ≡ finished self.old }
        ensures value { result ≡ step_by Status.Finished 0 action SpinEffect.Keep GateEffect.Keep LineEffect.Keep FlagEffect.Keep }
    {
        self.stage = Stage::Idle;
        self.call = None;
        self.outcome = None;
        quiet(Status::Finished, action)
    }

    // Finished, clearing the spin bit.
    fn finish_out(&mut self) -> Step
        ensures after { self.new ≡ finished self.old }
        ensures value { result ≡ step_by Status.Finished 0 None SpinEffect.Clear GateEffect.Keep LineEffect.Keep FlagEffect.Keep }
    {
        Step {
            spin: SpinEffect::Clear,
            ..self.finish(None)
        }
    }

    // Finished, the gate taken.
    fn take(&mut self, action: Option<Action>, value: u32) -> Step
        ensures after { self.new ≡ finished self.old }
        ensures value { result ≡ step_by Status.Finished value action SpinEffect.Keep GateEffect.Take LineEffect.Keep FlagEffect.Keep }
    {
        Step {
            value,
            gate: GateEffect::Take,
            ..self.finish(action)
        }
    }

    // Finished, the own flag cleared.
    fn lower_flag(&mut self, action: Action, value: u32) -> Step
        ensures after { self.new ≡ record { alert = false; stage = Stage.Idle; call = None; kept = self.old.kept; outcome = None } }
        ensures value { result ≡ step_by Status.Finished value (Some action) SpinEffect.Keep GateEffect.Keep LineEffect.Keep FlagEffect.ClearOwn }
    {
        self.alert = false;
        Step {
            value,
            flag: FlagEffect::ClearOwn,
            ..self.finish(Some(action))
        }
    }

    /// The record's part of its turn, and what is left to do outside it; none for an idle thread.
    ///
    /// Pairs of a stage and a call that never meet have an answer too, so that nothing is asked of the caller.
    pub fn turn(&mut self, seen: Sight) -> Option<Step>
        ensures after { self.new ≡ thread_after self.old seen }
        ensures value { result ≡ step_after self.old seen }
    {
        let step = match (self.stage, self.call) {
            (Stage::Idle, _) => return None,
            (Stage::Try, Some(Call::AlertP(_))) if seen.bit => self.go(Stage::Peek),
            (Stage::Try, _) if seen.bit => self.go(Stage::LineSpin),
            (Stage::Try, Some(Call::Acquire(_))) => self.take(Some(Action::Acquire), 0),
            (Stage::Try, Some(Call::Wait(_, _))) => self.take(Some(Action::Resume), 0),
            (Stage::Try, Some(Call::P(_))) => self.take(Some(Action::P), 0),
            (Stage::Try, Some(Call::AlertP(_))) => self.take(Some(Action::AlertPReturns), 0),
            (Stage::Try, Some(Call::AlertWait(_, _))) => match self.outcome {
                Some(Outcome::Alerted) => self.take(Some(Action::GetMutex), 1),
                _ => self.take(Some(Action::GetMutex), 0),
            },
            (Stage::Try, _) => self.take(None, 0),
            (Stage::Peek, _) if self.alert => self.lower_flag(Action::AlertPRaises, 1),
            (Stage::Peek, _) => Step {
                flag: FlagEffect::ClearOwn,
                ..self.go(Stage::LineSpin)
            },
            (Stage::LineSpin, _) => self.spin(seen.spin, Stage::Add),
            (Stage::Add, _) => self.line(LineEffect::JoinGate, None, Stage::Test),
            (Stage::Test, _) if seen.bit => self.go(Stage::Park),
            (Stage::Test, _) => self.go(Stage::Undo),
            (Stage::Park, _) => self.unspin(Stage::Parked),
            (Stage::Parked, Some(Call::AlertP(_))) if self.alert => self.go(Stage::LeaveSpin),
            (Stage::Parked, _) => quiet(Status::Parked, None),
            (Stage::LeaveSpin, _) => self.spin(seen.spin, Stage::Leave),
            (Stage::Leave, _) => self.line(LineEffect::LeaveGate, None, Stage::LeaveOut),
            (Stage::LeaveOut, _) => self.unspin(Stage::Peek),
            (Stage::Undo, _) => self.line(LineEffect::LeaveGate, None, Stage::UndoOut),
            (Stage::UndoOut, _) => self.unspin(Stage::Try),
            (Stage::Clear, Some(Call::Release(_))) => self.free(Some(Action::Release)),
            (Stage::Clear, Some(Call::V(_))) => self.free(Some(Action::V)),
            (Stage::Clear, _) => self.free(None),
            (Stage::Look, _) if !seen.empty => self.go(Stage::WakeSpin),
            (Stage::Look, Some(Call::Wait(_, _) | Call::AlertWait(_, _))) => self.go(
                Stage::BlockSpin,
            ),
            (Stage::Look, _) => self.finish(None),
            (Stage::WakeSpin, _) => self.spin(seen.spin, Stage::Wake),
            (Stage::Wake, _) => self.line(LineEffect::WakeGate, None, Stage::WakeOut),
            (Stage::WakeOut, Some(Call::Wait(_, _) | Call::AlertWait(_, _))) => self.unspin(
                Stage::BlockSpin,
            ),
            (Stage::WakeOut, _) => self.finish_out(),
            (Stage::Read, _) => {
                self.kept = seen.count;
                Step {
                    action: Some(Action::Enqueue),
                    ..self.go(Stage::Clear)
                }
            }
            (Stage::BlockSpin, _) => self.spin(seen.spin, Stage::Compare),
            (Stage::Compare, _) if self.kept == seen.count => self.line(
                LineEffect::JoinCondition,
                None,
                Stage::BlockPark,
            ),
            (Stage::Compare, Some(Call::AlertWait(_, _))) => self.choose(
                Outcome::Signalled,
                Stage::BlockOut,
            ),
            (Stage::Compare, _) => self.go(Stage::BlockOut),
            (Stage::BlockPark, _) => self.unspin(Stage::Waiting),
            (Stage::Waiting, Some(Call::AlertWait(_, _))) if self.alert => self.go(Stage::QuitSpin),
            (Stage::Waiting, _) => quiet(Status::Parked, None),
            (Stage::QuitSpin, _) => self.spin(seen.spin, Stage::Quit),
            (Stage::Quit, _) => {
                self.alert = false;
                let chosen = self.choose(Outcome::Alerted, Stage::BlockOut);
                Step {
                    value: 1,
                    line: LineEffect::LeaveCondition,
                    flag: FlagEffect::ClearOwn,
                    ..chosen
                }
            }
            (Stage::BlockOut, _) => self.unspin(Stage::Try),
            (Stage::Choose, _) => self.choose(Outcome::Signalled, Stage::Try),
            (Stage::SigSpin, _) => self.spin(seen.spin, Stage::Sig),
            (Stage::Sig, Some(Call::Broadcast(_))) => self.line(
                LineEffect::SignalAll,
                Some(Action::Broadcast),
                Stage::SigOut,
            ),
            (Stage::Sig, _) => self.line(
                LineEffect::SignalOne,
                Some(Action::Signal),
                Stage::SigOut,
            ),
            (Stage::SigOut, _) => self.finish_out(),
            (Stage::Set, _) => Step {
                flag: FlagEffect::SetNamed,
                ..self.finish(Some(Action::Alert))
            },
            (Stage::Swap, _) => {
                let value = u32::from(self.alert);
                self.lower_flag(Action::TestAlert, value)
            }
        };
        Some(step)
    }

    /// Its call begins.
    pub fn start(&mut self, call: Call)
        ensures { self.new ≡ started (Some call) self.old }
    {
        self.stage = call.first();
        self.call = Some(call);
    }
}
