//! Tasks whose activity no worker has, and who tells of them.
ghost use Rattle.std.specs.Prelude.{◌≡◌};

use crate::tally::Tally;
use flow_base::task::Task;
use flow_base::text::Key;
use std::alloc::{AllocError, Global};
use std::io::Write;
use std::sync::{Arc, Mutex, Wait};

/// What becomes of a task whose activity no worker has.
#[derive(Drop)]
pub enum UnknownActivity<P> {
    /// It fails.
    Fail,
    /// It is left alone, and its activity's name is told here, once.
    Leave(P),
}

/// The names of activities that no worker has, as they were told.
#[derive(Drop)]
struct Names<P: Write> {
    alloc: Global,
    errors: P,
    told: Vec<Key>,
    /// What goes before a line, so that it stands alone on a terminal on which something else is drawn.
    before: &'static str,
}

impl<P: Write + Drop> Names<P> {
    fn is_told(&self, name: &str) -> bool {
        for told in &self.told {
            if told.as_str() == name {
                return true;
            }
        }
        false
    }

    /// What can't be written is nothing to the engine.
    fn write(&mut self, name: &str) {
        let _before = self.errors.write_all(self.before.as_bytes());
        let _said = self.errors.write_all(b"no worker has the activity `");
        let _named = self.errors.write_all(name.as_bytes());
        let _rest = self.errors.write_all(b"`: its tasks stay open\n");
        let _flushed = self.errors.flush();
    }

    /// Keeps a name, so that it isn't told again. Where memory is refused it will be.
    fn keep(&mut self, name: &Key) -> Result<(), AllocError> {
        let name = name.copy(self.alloc)?;
        self.told.push(name)?;
        Ok(())
    }

    fn tell(&mut self, name: &Key) {
        if self.is_told(name.as_str()) {
            return;
        }
        self.write(name.as_str());
        let _kept = self.keep(name);
    }
}

/// What the workers share of it.
#[derive(Drop)]
pub(crate) struct Strangers<P: Write> {
    names: Option<Arc<Mutex<Names<P>>>>,
}

impl<P: Write + Drop> Strangers<P> {
    /// What this says. A terminal is one on which something else is drawn.
    pub(crate) fn new(
        alloc: Global,
        unknown: UnknownActivity<P>,
        is_terminal: bool,
    ) -> Result<Strangers<P>, AllocError> {
        let UnknownActivity::Leave(errors) = unknown else {
            return Ok(Strangers { names: None });
        };
        let before = if is_terminal { "\r\x1b[K" } else { "" };
        let names = Names {
            alloc,
            errors,
            told: Vec::new(alloc),
            before,
        };
        Ok(Strangers {
            names: Some(Arc::new(alloc, Mutex::new(names))?),
        })
    }

    /// For one more worker, whose tasks are counted here.
    pub(crate) fn share(&self, tally: Tally) -> Result<Stranger<P>, AllocError> {
        let names = match &self.names {
            Some(names) => Some(Arc::try_clone(names)?),
            None => None,
        };
        Ok(Stranger { names, tally })
    }
}

/// What one worker has of it.
#[derive(Drop)]
pub(crate) struct Stranger<P: Write> {
    names: Option<Arc<Mutex<Names<P>>>>,
    tally: Tally,
}

impl<P: Write + Drop> flow_pool::unknown::Unknown for Stranger<P> {
    ghost use Rattle.std.specs.Prelude.{is_some};

    ghost leaves = { λ s. is_some s.names };

    fn leave<R: Wait>(&mut self, rt: &R, task: &Task) -> bool {
        let Some(names) = &self.names else {
            return false;
        };
        names.lock(rt).tell(&task.activity);
        self.tally.end();
        true
    }
}
