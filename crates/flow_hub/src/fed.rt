//! What came of asking for a task.
use flow_base::task::Task;

/// What came of asking for a task, by one who has more to do than to hand tasks on.
#[derive(Debug, Drop)]
pub enum Fed {
    /// The next task.
    Task(Task),
    /// All that was posted is given out.
    Nothing,
    /// The hub is closed.
    Closed,
}

/// Until when to wait for a task, beside the hub's closing.
#[derive(Clone, Copy)]
pub(crate) enum Until {
    /// Until it is there.
    There,
    /// Or somebody rings.
    Rung,
    /// Or none is left of what stands behind all that is answered.
    Boarded,
}
