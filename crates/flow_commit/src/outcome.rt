//! How a commit has ended.
use crate::batch::Batch;
use crate::stamp::Stamp;
use flow_base::submission::Receipt;
use flow_view::fault::ViewFault;

/// What became of a batch. Where it isn't kept it comes back.
pub enum Outcome {
    /// It is kept: the receipts of its commands, and the stamp of this commit.
    Kept(Vec<Receipt>, Stamp),
    /// E80 or E01: nothing has changed, and the keeper goes on.
    NotApplied(Batch, ViewFault),
    /// E84: nobody knows until the store is opened again whether it is kept, since the end of the transaction was refused with
    /// this, E80 or E01. The keeper has halted.
    Unknown(Batch, ViewFault),
    /// E85: the keeper had halted before.
    Halted(Batch),
}
