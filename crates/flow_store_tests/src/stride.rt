//! Which calls a sweep meets: in the gate a part of them, and all by hand.
use std::alloc::Alloc;
use std::env::{self, Env};

/// The usual step of a sweep, or the number that the environment has as `SWEEP`: with 1 each call is met in each way.
pub fn stride<R: Env + Alloc>(rt: &R, usual: u64) -> u64 {
    match env::var(rt, "SWEEP") {
        Ok(word) => word.as_str().parse::<u64>().unwrap_or(usual),
        Err(_) => usual,
    }
}

/// Whether a sweep of this step meets a call in a way. Each way has a number, and meets other calls.
pub fn is_met(call: u64, way: u64, step: u64) -> bool {
    step <= 1 || call % step == way % step
}
