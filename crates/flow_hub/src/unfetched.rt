//! Where the answer to a ticket stands, among those that weren't fetched.
ghost use Rattle.std.specs.Prelude.{◌≡◌, ◌≢◌, ◌<◌, length, slice_index_or, All, IfSome, IfNone};
ghost use Rattle.std.specs.List.Sorted.{IsNonDecreasingBy};
ghost use Rattle.flow_base.specs.declared.submission.Receipt.{Receipt as AReceipt};
ghost use Rattle.flow_queues.specs.declared.refused.Refused.{Refused as ARefused};
ghost use Rattle.flow_hub.specs.Asks.{ticket_of, ticket_gone};

use flow_base::submission::Receipt;
use flow_queues::refused::Refused;

/// Where the receipt for a ticket stands. None if it isn't there. Tickets rise along the list, so of a thousand receipts, most of which
/// nobody may wait for, it looks at ten.
pub(crate) fn ticket_at(answered: &[Receipt], ticket: u64) -> Option<usize>
    requires rising { IsNonDecreasingBy ticket_of answered.now }
    ensures found { IfSome result (λ k. (k < length answered.now) × ((d : AReceipt) → (slice_index_or answered.now k d).ticket ≡ ticket)) }
    ensures none { IfNone result (All (λ r. r.ticket ≢ ticket) answered.now) }
{
    answered
        .binary_search_by_key(&ticket, |receipt| receipt.ticket)
        .ok()
}

/// Where the refusal of a ticket stands, in the same way.
pub(crate) fn refused_at(refused: &[Refused], ticket: u64) -> Option<usize>
    requires rising { IsNonDecreasingBy ticket_gone refused.now }
    ensures found { IfSome result (λ k. (k < length refused.now)
        × ((d : ARefused) → (slice_index_or refused.now k d).asked.ticket ≡ ticket)) }
    ensures none { IfNone result (All (λ r. r.asked.ticket ≢ ticket) refused.now) }
{
    refused
        .binary_search_by_key(&ticket, |refused| refused.asked.ticket)
        .ok()
}
