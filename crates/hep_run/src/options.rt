//! The options of a run by workers and of `check --format`, and the result of a run.
ghost use Rattle.std.specs.Prelude.{◌≡◌};
ghost use Rattle.hep_outcome.specs.Statuses.{status_code};

use hep_history::History;
use hep_outcome::Status;
use hep_workers::WorkOptions;

/// The options of a run by workers, and what makes their steps.
#[derive(Drop)]
pub struct WorkRequest<'a, H, G> {
    /// The runtime that starts the threads.
    pub threads: &'a H,
    pub options: &'a WorkOptions,
    /// The gate that makes the private steps of workers.
    pub gate: &'a G,
}

/// How a refusal or a warning is written.
#[derive(Clone, Copy)]
pub enum DiagnosticFormat {
    /// As GNU compilers write it, to standard error.
    Gnu,
    /// As an object of JSON, to standard output.
    Json,
}

/// What `check --format` is asked for.
#[derive(Clone, Copy)]
pub struct DiagnosticsRequest<'a> {
    /// The name of the file that has the source, as each line has it.
    pub file: &'a [u8],
    pub format: DiagnosticFormat,
    /// Whether warnings are written too.
    pub warn: bool,
}

/// The result of a run.
#[derive(Drop)]
pub struct Run {
    /// The exit status of the program: the code of a `Status`.
    pub status: u8,
    /// An entry for each choice that was made; none where the source is refused or couldn't be read, or memory was
    /// refused.
    pub history: History,
}

impl Run {
    // A run with this status and this history.
    pub(crate) fn new(status: Status, history: History) -> Run
        ensures status { result.status ≡ status_code status }
        ensures history { result.history ≡ history }
    {
        Run {
            status: status.code(),
            history,
        }
    }
}
