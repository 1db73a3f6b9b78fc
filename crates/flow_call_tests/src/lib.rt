//! Tests of what no line reaches: calls with ample memory whose answer is compared, histories that no store holds, and the
//! positions that are kept.
#![tactic(auto)]

#[cfg(test)]
mod activities_builtin;
#[cfg(test)]
mod commands_decided;
#[cfg(test)]
mod commands_kept;
#[cfg(test)]
mod events_copied;
#[cfg(test)]
mod events_replayed;
#[cfg(test)]
mod histories;
#[cfg(test)]
mod lines_deciding;
#[cfg(test)]
mod lines_ends;
#[cfg(test)]
mod lines_faults;
#[cfg(test)]
mod lines_stops;
#[cfg(test)]
mod lists_unseen;
#[cfg(test)]
mod positions;
#[cfg(test)]
mod programs_kept;
#[cfg(test)]
mod replays;
#[cfg(test)]
mod rows_read;
#[cfg(test)]
mod rows_written;
#[cfg(test)]
mod runs_verified;
#[cfg(test)]
mod texts;
#[cfg(test)]
mod turns;
#[cfg(test)]
mod values;
