//! Tests of `flow_sql` and `flow_tables`: each read and each change on tables in memory, opening, and the tables as one value.
mod changes;
mod commits;
mod found;
mod heads;
mod keys;
mod opening;
mod puts;
mod reads;
mod rows;
mod statements;
mod steps;
mod transaction;
mod whole_changes;
