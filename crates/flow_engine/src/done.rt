//! What becomes of batches, and of lists of commands.
use flow_base::memory::NoMemory;
use flow_base::submission::Receipt;
use flow_model::answer::{Answer, Stop};
use flow_view::fault::ViewFault;

/// What became of a batch: how its commit has ended, without the batch and the stamp.
#[derive(Drop)]
pub enum Done {
    /// It is kept: the receipts of its commands.
    Kept(Vec<Receipt>),
    /// E80 or E01: nothing has changed, and the engine goes on.
    NotApplied(ViewFault),
    /// E84: nobody knows until the store is opened again whether it is kept. The engine has halted.
    Unknown,
    /// E85: the engine had halted before.
    Halted,
}

/// Why not all commands of a list have an answer.
#[derive(Drop)]
pub enum Unanswered {
    /// E01, before the first command: nothing has changed.
    NoMemory(NoMemory),
    /// E84 or E85, behind the answers to the first commands. None after these was applied, but perhaps the one at which the
    /// stop came.
    Stopped(Vec<Answer>, Stop),
}
