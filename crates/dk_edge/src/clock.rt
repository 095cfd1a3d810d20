//! Moments, and a little waiting.

/// A clock. Moments are in ms.
pub trait Clock {
    /// The moment now.
    fn now(&self) -> u64;

    /// Lets a little time pass, if it can. Nothing is promised of it.
    fn pause(&self);
}
