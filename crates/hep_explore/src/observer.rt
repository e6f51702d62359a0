//! Who is told of the states of a search.

/// Is told during a search how many states have been found. No contract speaks of what it does then.
pub trait SearchObserver {
    /// `states` states have been found, and the steps of one more of them have been made.
    fn states_found(&self, states: usize);
}
