//! Places at which the threads of a run may wait for each other.

/// Is called before each step of a run in threads.
pub trait Meet: Sync {
    /// Called by the thread of the script with this number before each of its steps, while it doesn't
    /// hold the lock. It may wait.
    fn before(&self, from: usize);
}

/// Lets each thread go on at once.
#[derive(Clone, Copy, Debug)]
pub struct NoMeet;

impl Meet for NoMeet {
    fn before(&self, _from: usize) {}
}
