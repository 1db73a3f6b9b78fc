//! What is printed.
use flow_base::task::Task;
use flow_lines::reply::Line;

/// A line that was printed.
#[derive(Debug, Drop)]
pub enum Shown {
    /// What a line that was read is answered.
    Reply(Line),
    /// A task that is to be done outside.
    Task(Task),
}
