//! What is noted of the answers of a race.

/// What is noted of an answer.
#[derive(Clone, Copy)]
pub struct Note {
    /// The number of the refusal; 0 of a receipt, whose other numbers these are.
    pub code: u8,
    pub ticket: u64,
    pub place: u64,
    /// The number of its command.
    pub number: u64,
    /// The text or the run that its reply names.
    pub named: u64,
    /// Whether that run was there before.
    pub is_again: bool,
}

/// What came of a race.
#[derive(Drop)]
pub struct Raced {
    /// What the text was answered, and each thread's answers, in the order in which it has fetched them.
    pub notes: Vec<Vec<Note>>,
    /// How many receipts were published then.
    pub published: u64,
    /// The number for which serving has ended, 0 where all was answered.
    pub ended: u8,
}
