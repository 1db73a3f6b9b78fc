//! The receipts of a batch that was kept.
ghost use Rattle.std.specs.Prelude.{◌≡◌, ◌+◌, ◌<◌, ◌≤◌, ◌^◌, [], length, vec_len, vec_capacity};
ghost use Rattle.flow_commit.specs.Keeping.{receipt_with, receipts_with};

use flow_base::command::Reply;
use flow_base::submission::{Receipt, Taken};

fn receipt(place: u64, taken: Taken, reply: Reply) -> Receipt
    ensures { result ≡ receipt_with place taken reply }
{
    let Taken { ticket, command } = taken;
    Receipt {
        ticket,
        place,
        command,
        reply,
    }
}

/// Puts the receipts of a batch into this list, which has room for them: its replies, at the places behind so many commands.
pub(crate) fn add_receipts(
    receipts: &mut Vec<Receipt>,
    kept: u64,
    batch: Vec<Taken>,
    replies: Vec<Reply>,
)
    requires none { receipts.old.items ≡ [] }
    requires room { vec_len receipts.old + length batch.items ≤ vec_capacity receipts.old }
    requires places { kept + length batch.items < 2 ^ 64 }
    ensures { receipts.new.items ≡ receipts_with kept batch.items replies.items }
{
    let mut place = kept;
    for (taken, reply) in batch.into_iter().zip(replies) {
        place += 1;
        receipts.push_reserved(receipt(place, taken, reply));
    }
}
