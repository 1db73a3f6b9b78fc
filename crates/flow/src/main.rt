//! `flow`: checks programs of workflows, answers command lines, and keeps an engine running.
#![tactic(auto)]

mod calls;
mod ends;
mod host;
mod looking;
mod moving;
mod over;
mod replaying;
mod running;
mod settings;
mod standard;
mod store;
mod system;
mod texts;

use crate::calls::called;
use flow_cli::ending::ended_early;
use flow_lines::streams::Writing;
use std::io;
use std::process::ExitCode;

/// Hands the system of the process, and who starts threads, to what answers the words. It says why the call ended early, if it did, and
/// ends with the status.
fn main(rt: HostRuntime) -> ExitCode {
    let mut output = Writing::new(io::writer(&rt));
    let mut errors = Writing::new(rt.stderr());
    let outcome = called(rt.alloc(), &rt, &rt, &mut output, &mut errors);
    let end = ended_early(rt.alloc(), &mut errors, &outcome);
    ExitCode::from(end.status)
}
