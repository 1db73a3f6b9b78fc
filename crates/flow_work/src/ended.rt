//! What comes of an engine that ran.
ghost use Rattle.std.specs.Prelude.{◌≡◌, ◌≤◌, IfOk, IfErr, OnOk, Ok, Err};

use crate::shown::Shown;
use crate::status::Status;
use flow_base::fault::Fault;
use flow_base::text::RawText;
use unseen::Listed;

/// What came of an engine that ran.
#[derive(Debug, Drop)]
pub struct Ended<W> {
    /// Where the replies went.
    pub writer: W,
    /// The greatest status of what was printed, and of what couldn't be read or written.
    pub status: Status,
    /// Why the engine serves no more: E84, E85 or E01.
    pub served: Result<(), Fault>,
}

impl<W: Drop> Ended<W> {
    /// The status that the program ends with, where no fault ended it.
    pub fn outcome(self) -> Result<u8, Fault>
        ensures done { IfOk result (λ n. (n ≡ self.status) × (n ≤ 3)) }
        ensures served { OnOk self.served (result ≡ Ok self.status) }
        ensures fault { IfErr self.served (λ f. result ≡ Err f) }
    {
        let Ended {
            writer: _writer,
            status,
            served,
        } = self;
        match served {
            Ok(()) => Ok(status.get()),
            Err(fault) => Err(fault),
        }
    }
}

/// What came of an engine that ran and whose activities are outside.
#[derive(Drop)]
pub struct Served<W> {
    pub ended: Ended<W>,
    /// Whether a write has failed, so that not all was printed.
    pub is_mute: bool,
    /// The lines that were taken in, for contracts alone.
    pub lines: Listed<RawText>,
    /// The lines that were printed, for contracts alone.
    pub shown: Listed<Shown>,
}

impl<W: Drop> Served<W> {
    /// As that of [`Ended`].
    pub fn outcome(self) -> Result<u8, Fault>
        ensures done { IfOk result (λ n. (n ≡ self.ended.status) × (n ≤ 3)) }
        ensures served { OnOk self.ended.served (result ≡ Ok self.ended.status) }
        ensures fault { IfErr self.ended.served (λ f. result ≡ Err f) }
    {
        let Served {
            ended,
            is_mute: _,
            lines: _lines,
            shown: _shown,
        } = self;
        ended.outcome()
    }
}
