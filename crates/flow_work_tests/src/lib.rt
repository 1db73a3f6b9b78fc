//! Tests of hubs, submitters and publishers, of an engine that serves a hub, and of one that runs over lines.
#![tactic(auto)]

#[cfg(test)]
mod clock;
#[cfg(test)]
mod commands;
#[cfg(test)]
mod feeding;
#[cfg(test)]
mod outside;
#[cfg(test)]
mod refusing;
#[cfg(test)]
mod runs;
#[cfg(test)]
mod serving;
#[cfg(test)]
mod threads;
#[cfg(test)]
mod tickets;
#[cfg(test)]
mod together;
#[cfg(test)]
mod working;
