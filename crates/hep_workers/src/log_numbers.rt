//! Whether each log is of its worker.
ghost use Rattle.std.specs.Prelude.{◌≡◌, ◌<◌, ◌^◌, length};
ghost use Rattle.hep_workers.specs.Receipts as spec;
ghost use Rattle.hep_workers.specs.Receipts.{are_numbered};

use crate::receipt::Log;

/// Whether there is one log for each worker, in the order of their numbers, with receipts of that worker alone.
pub fn are_of_workers(logs: &[Log], workers: u32) -> bool
    ensures { result ≡ spec.are_of_workers workers logs.now }
{
    logs.len() == workers as usize && are_in_order(logs)
}

// Whether the logs are those of worker 1, of worker 2, and so on.
fn are_in_order(logs: &[Log]) -> bool
    requires { length logs.now < 2 ^ 32 }
    ensures { result ≡ are_numbered 1 logs.now }
{
    for i in 0..logs.len() {
        if !logs[i].is_of(i as u32 + 1) {
            return false;
        }
    }
    true
}
