//! How those who answer lines are told that none is answered any more.
use crate::input::InputMessage;
use crossbeam_channel::Sender;
use std::sync::Wait;

/// The end by which the thread that answers lines is told that no line is answered any more: without that it may wait for one for good.
/// It can't be let go of, and `stop` alone takes it. So no body that serves forgets to tell.
pub(crate) struct Stopper {
    lines: Sender<InputMessage>,
}

impl Stopper {
    /// It is made once the thread has started.
    pub(crate) fn new(lines: Sender<InputMessage>) -> Stopper {
        Stopper { lines }
    }

    /// Tells it.
    pub(crate) fn stop<R: Wait>(self, rt: &R) {
        let Stopper { lines } = self;
        let _ = lines.send(rt, InputMessage::Stopped);
    }
}
