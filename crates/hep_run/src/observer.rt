//! Who is told of the runs of a sample.

/// Is told of each run of a sample when it was made. No contract speaks of what it does then.
pub trait Observer {
    /// `made` runs have been made, the last one by this seed. `is_first` says whether it is the first one of its outcome.
    fn run_made(&self, made: u32, seed: u64, is_first: bool);
}
