//! Tests over a store: its tables, what a keeper keeps in it, what is found when it is opened, the damage of its rows, what an engine
//! does with batches and commands; and disks that stop or fail at one call, each one in turn, with an engine over a file on such a disk.
#![tactic(auto)]

#[cfg(test)]
mod acts;
#[cfg(test)]
mod batches;
#[cfg(test)]
mod boards;
#[cfg(test)]
mod books;
#[cfg(test)]
mod calls;
#[cfg(test)]
mod capacities;
#[cfg(test)]
mod course;
#[cfg(test)]
mod damages;
#[cfg(test)]
mod disk_calls;
#[cfg(test)]
mod driving;
#[cfg(test)]
mod engines;
#[cfg(test)]
mod failed_disk;
#[cfg(test)]
mod failed_verify;
#[cfg(test)]
mod failures;
#[cfg(test)]
mod files;
#[cfg(test)]
mod keepers;
#[cfg(test)]
mod keeping;
#[cfg(test)]
mod lists;
#[cfg(test)]
mod moves;
#[cfg(test)]
mod opening;
#[cfg(test)]
mod positions;
#[cfg(test)]
mod rule;
#[cfg(test)]
mod stopped_disk;
#[cfg(test)]
mod stops;
#[cfg(test)]
mod stride;
#[cfg(test)]
mod tables;
#[cfg(test)]
mod thousand;
#[cfg(test)]
mod verifying;
#[cfg(test)]
mod worked_rows;
