//! What a hub does with its lists under the lock.
ghost use Rattle.std.specs.Prelude.{◌≡◌, ◌≢◌, ◌+◌, ◌<◌, ◌≤◌, [], ◌++◌, length, map, vec_len, slice_index_or, take, drop, remove, All, IfSome, IfNone, Some, slice_get};
ghost use Rattle.std.specs.Vec.{vec_capacity};
ghost use Rattle.std.specs.VecDeque.{deque_len, deque_capacity};
ghost use Rattle.flow_queues.specs.Refusing.{refused_by};

use crate::refused::Refused;
use flow_base::code::Code;
use flow_base::submission::{Receipt, Taken};
use std::collections::VecDeque;

/// Where a number stands among these. None where it isn't there.
pub fn place_of(numbers: &[u64], number: u64) -> Option<usize>
    ensures found { IfSome result (λ k. (k < length numbers.now) × (slice_get numbers.now k ≡ Some number)) }
    ensures none { IfNone result (All (λ n. n ≢ number) numbers.now) }
{
    for k in 0..numbers.len() {
        if numbers[k] == number {
            return Some(k);
        }
    }
    None
}

/// Takes out the receipt at this place.
pub fn take_receipt(answered: &mut Vec<Receipt>, k: usize) -> Receipt
    requires { k < vec_len answered.old }
    ensures value { result ≡ slice_index_or answered.old.items k result }
    ensures items { answered.new.items ≡ remove answered.old.items k }
    ensures parts { answered.new.items ≡ take k answered.old.items ++ drop (k + 1) answered.old.items }
    ensures len { vec_len answered.new + 1 ≡ vec_len answered.old }
    ensures capacity { vec_capacity answered.new ≡ vec_capacity answered.old }
{
    answered.remove(k)
}

/// Moves receipts behind those that weren't fetched.
pub fn push_receipts(answered: &mut Vec<Receipt>, mut receipts: Vec<Receipt>)
    requires { vec_len answered.old + vec_len receipts ≤ vec_capacity answered.old }
    ensures items { answered.new.items ≡ answered.old.items ++ receipts.items }
    ensures len { vec_len answered.new ≡ vec_len answered.old + vec_len receipts }
    ensures capacity { vec_capacity answered.old ≤ vec_capacity answered.new }
{
    if answered.append(&mut receipts).is_err() {
        unreachable!();
    }
}

/// Moves what was taken behind those that were answered by a code.
pub fn refuse_all(refused: &mut Vec<Refused>, all: Vec<Taken>, code: Code)
    requires { vec_len refused.old + vec_len all ≤ vec_capacity refused.old }
    ensures items { refused.new.items ≡ refused.old.items ++ map (refused_by code) all.items }
    ensures capacity { vec_capacity refused.new ≡ vec_capacity refused.old }
{
    for asked in all {
        refused.push_reserved(Refused { asked, code });
    }
}

/// Moves the first `most` of those that wait into an empty list, or all where they are fewer.
pub fn move_front(waiting: &mut VecDeque<Taken>, into: &mut Vec<Taken>, most: usize)
    requires room { (into.old.items ≡ []) × (most ≤ vec_capacity into.old) }
    ensures parts { waiting.old.items ≡ into.new.items ++ waiting.new.items }
    ensures count { (length into.new.items ≤ most) × (vec_capacity into.new ≡ vec_capacity into.old) }
    ensures some { into.new.items ≡ [] → 0 < most → waiting.old.items ≡ [] }
    ensures all { length into.new.items < most → waiting.new.items ≡ [] }
    ensures lengths { (deque_len waiting.new + length into.new.items ≡ deque_len waiting.old)
        × (deque_capacity waiting.new ≡ deque_capacity waiting.old) }
{
    while into.len() < most {
        let Some(taken) = waiting.pop_front() else {
            return;
        };
        into.push_reserved(taken);
    }
}
