//! Why there is no report.

use thiserror::Error;

/// Why a core and the logs of its workers make no report. `NoMemory` comes first; of the others the first by number
/// is reported.
#[derive(Clone, Copy, Debug, PartialEq, Eq, Error)]
pub enum CloseFault {
    /// Memory was refused.
    #[error("no memory")]
    NoMemory,
    /// The receipts aren't the history's entries, each once.
    #[error("701: the receipts are not the entries of the history, each once")]
    NotTheEntries,
    /// The indexes of a log don't rise.
    #[error("702: the indexes of a log do not rise")]
    NotRising,
    /// The core isn't of the image, the arena size and the step limit handed in.
    #[error("703: the core is not of what was handed in")]
    NotTheRun,
    /// The run could go on.
    #[error("705: the run goes on")]
    StillRunning,
}
