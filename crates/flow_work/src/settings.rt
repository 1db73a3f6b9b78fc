//! The settings file of the program.
ghost use Rattle.std.specs.Prelude.{◌≡◌, ◌⊎◌, IfOk, IfErr};
ghost use Rattle.flow_work.specs.Configured.{GivesSettings, IsNoSettings};

use flow_base::fault::Fault;
use flow_base::memory::NoMemory;
use flow_settings::settings::Settings;
use std::alloc::Global;
use std::io;
use std::io::ErrorKind;

/// The settings that a file gives which was read: E96 also where it couldn't be read, or is no UTF-8.
pub fn settings_of(alloc: Global, read: Result<String, io::Error>) -> Result<Settings, Fault>
    ensures given { IfOk result (λ s. GivesSettings read s) }
    ensures bad { IfErr result (λ f. f ≡ Fault.BadSettings → IsNoSettings read) }
    ensures among { IfErr result (λ f. (f ≡ Fault.NoMemory _) ⊎ (f ≡ Fault.BadSettings)) }
{
    match read {
        Ok(text) => Settings::read(alloc, text.as_str()),
        Err(error) => match error.kind() {
            ErrorKind::OutOfMemory => Err(Fault::NoMemory(NoMemory::told())),
            _ => Err(Fault::BadSettings),
        },
    }
}
