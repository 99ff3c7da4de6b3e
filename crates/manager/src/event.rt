// What a manager is told at which it may give a rank.
#[derive(Clone, Copy, Debug, PartialEq, Eq)]
pub enum Event {
    // A job began a transaction.
    Began { job: usize },
    // A job wrote a word that it had not written yet; it has now written so many.
    Wrote { job: usize, length: usize },
}
