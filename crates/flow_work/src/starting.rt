//! Threads whose results cross to who joins them, whatever it is that contracts see in these.
ghost use Rattle.std.specs.Prelude.{◌≡◌, IfErr, IfOk};

use crate::owing::{Closing, LastSeen};
use flow_base::fault::Fault;
use std::alloc::AllocError;
use std::thread;
use std::thread::{Promise, PromisedHandle, Threads};

/// Starts a thread that takes from one thing and gives to another. E01 where there is none.
pub(crate) fn start_seen<R, A, Z, Q, F>(
    rt: &R,
    owed: Q,
    body: F,
) -> Result<PromisedHandle<LastSeen<A, Z>, Q>, Fault>
where
    R: Threads,
    A: 'static,
    Z: 'static,
    Q: Promise<LastSeen<A, Z>> + Drop,
    F: FnOnce() -> LastSeen<A, Z> + Send + Drop + 'static,
    requires runs { F.pre body }
    requires keeps { (r : _) → F.post body r → Q.kept_by owed r }
    ensures owed { IfOk result (λ h. h.promise ≡ owed) }
    ensures refused { IfErr result (λ f. f ≡ Fault.NoMemory _) }
{
    match thread::spawn_with(rt, owed, body) {
        Ok(thread) => Ok(thread),
        Err(refused) => Err(Fault::from(AllocError::from(refused))),
    }
}

/// Starts a thread that answers lines and closes a hub. E01 where there is none.
pub(crate) fn start_closing<R, T, S, G, Q, F>(
    rt: &R,
    owed: Q,
    body: F,
) -> Result<PromisedHandle<Closing<T, S, G>, Q>, Fault>
where
    R: Threads,
    T: Send + Drop + 'static,
    S: 'static,
    G: 'static,
    Q: Promise<Closing<T, S, G>> + Drop,
    F: FnOnce() -> Closing<T, S, G> + Send + Drop + 'static,
    requires runs { F.pre body }
    requires keeps { (r : _) → F.post body r → Q.kept_by owed r }
    ensures owed { IfOk result (λ h. h.promise ≡ owed) }
    ensures refused { IfErr result (λ f. f ≡ Fault.NoMemory _) }
{
    match thread::spawn_with(rt, owed, body) {
        Ok(thread) => Ok(thread),
        Err(refused) => Err(Fault::from(AllocError::from(refused))),
    }
}
