use flow_base::text::Key;
use flow_base::value::Kind;

/// An open wait: the event that began it, and what waits.
#[derive(Debug, Drop)]
pub enum OpenWait {
    /// The event that scheduled the activity, the variable, and the type that the activity gives.
    Activity(u64, Key, Kind),
    /// The event that started the timer.
    Timer(u64),
    /// The variable and the signal.
    Signal(Key, Key),
    /// The variable, the signal, and the event that started the timer.
    SignalFor(Key, Key, u64),
}
