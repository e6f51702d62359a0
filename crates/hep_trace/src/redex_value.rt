//! The result of the next operation of a process.
ghost use Rattle.std.specs.Prelude.{◌≡◌, ℕ, List};
ghost use Rattle.hep_machine.specs.Words.{Level, Process as SourceProcess, Redex, answer_of, evaluating, next_of, run, scope_of, unit_at, unit_of, wants};
ghost use Rattle.hep_step.specs.Replies.{reply_meant};
ghost use Rattle.hep_trace.specs.References.{IsAhead};
ghost use Rattle.hep_trace.specs.RedexValues.{value_replied};
ghost use Rattle.hep_event.specs.StepTexts.{value_given};

use crate::reference::LiveProcess;
use hep_cells::AccessOutcome;
use hep_event::{replies_are_answers, reply_ahead};
use hep_source::Value;
use hep_step::Reply;

// The value of a reply, if it has one.
fn value_of(reply: Reply) -> Option<Value>
    ensures { result ≡ value_replied (reply_meant reply) }
{
    match reply {
        Reply::Result(Ok(value)) => Some(value),
        Reply::Result(Err(_)) => None,
        Reply::Accessed { outcome, .. } => match outcome {
            AccessOutcome::Gives(value) => Some(value),
            AccessOutcome::Makes { value, .. } => Some(value),
            _ => None,
        },
    }
}

/// The value of the redex that comes next of a process, if it gives one.
pub fn value_ahead(ahead: &LiveProcess<'_>) -> Option<Value>
    requires { (cells : ℕ) × (choices : List ℕ) × (top : Level × SourceProcess) × IsAhead cells choices ahead.now top }
    ensures { (cells : ℕ) (choices : List ℕ) (top : Level × SourceProcess) (q : Redex) → IsAhead cells choices ahead.now top
        → next_of (unit_at ahead.now.image.now (unit_of (run ahead.now.image.now choices) top.0.activation)) top.0.work ≡ wants (evaluating q)
        → result ≡ value_given (answer_of (scope_of ahead.now.image.now (run ahead.now.image.now choices) top.0.activation)
        (run ahead.now.image.now choices).store q) }
{
    ahead.image.is_runnable();
    replies_are_answers();
    let reply = reply_ahead(ahead.machine, ahead.image, ahead.process, ahead.coming)?;
    value_of(reply)
}
