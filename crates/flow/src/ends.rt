//! The end of a call whose fault tells by itself why.
ghost use Rattle.std.specs.Prelude.{◌≡◌};
ghost use Rattle.flow.specs.Ends.{told_early};

use flow_base::fault::Fault;
use flow_cli::reason::Early;

/// An end whose fault tells by itself why.
pub fn early(outcome: Result<u8, Fault>) -> Result<u8, Early>
    ensures { result ≡ told_early outcome }
{
    match outcome {
        Ok(status) => Ok(status),
        Err(fault) => Err(Early::from(fault)),
    }
}
