//! Submissions that were answered by a code.
use flow_base::code::Code;
use flow_base::submission::Taken;

/// A submission that was answered by a code: its command isn't kept, or nobody knows.
#[derive(Drop)]
pub struct Refused {
    pub asked: Taken,
    pub code: Code,
}
