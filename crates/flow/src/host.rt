//! The system of a process. Each call is a call of the standard library or of `sqlite`, whose answer it hands on: that it is of this name,
//! this file and this stream is read here, since no contract can say it.
ghost use Rattle.flow.specs.Openings.{HasLooked};

use crate::looking::{is_not_there, unopened};
use crate::system::System;
use flow_cli::reason::Unopened;
use flow_lines::streams::Reading;
use sqlite::{Connection, Error, ErrorCode, File, FileStore};
use std::io::{BufReader, IsTerminal, Stderr, StdinLock, Stdout};
use std::{env, fs, io};

impl System for HostRuntime {
    type Base = FileStore<File>;

    type Lines = Reading<BufReader<StdinLock<'static>>>;

    type Reader = BufReader<StdinLock<'static>>;

    type Replies = Stdout;

    type Notes = Stderr;

    ghost calls = { λ _ _. Unit {0} };

    ghost reads = { λ _ _ _. Unit {0} };

    ghost takes = { λ _ _. Unit {0} };

    ghost lists = { λ _ _ _. Unit {0} };

    ghost misses = { λ _ _ _. Unit {0} };

    ghost opens = { λ _ _ _. Unit {0} };

    ghost finds = { λ _ _ said why. HasLooked said why };

    ghost closes = { λ _ _. Unit {0} };

    ghost gives = { λ _ _. Unit {0} };

    ghost lends = { λ _ _. Unit {0} };

    ghost prints = { λ _ _. Unit {0} };

    fn words(&self) -> io::Result<Vec<String>> {
        Ok(env::args(self)?.collect::<Vec<String>>(self.alloc())?)
    }

    fn text(&self, file: &str) -> io::Result<String> {
        fs::read_to_string(self, file)
    }

    fn input(&self) -> io::Result<String> {
        io::read_to_string(self.alloc(), io::Input::reader(self))
    }

    fn folder(&self, path: &str) -> io::Result<Option<Vec<String>>> {
        let entries = match fs::read_dir(self, path) {
            Ok(entries) => entries,
            Err(_) => return Ok(None),
        };
        let mut files = Vec::new(self.alloc());
        for entry in entries {
            files.push(String::from_str(self.alloc(), entry?.path().as_str())?)?;
        }
        files.sort_unstable();
        Ok(Some(files))
    }

    fn is_not_there(&self, file: &str) -> bool {
        is_not_there(self, file)
    }

    fn open(&self, file: &str) -> Result<Connection<FileStore<File>>, Error> {
        Connection::open(self, file)
    }

    fn unopened(&self, file: &str, said: ErrorCode) -> Unopened {
        unopened(self, file, said)
    }

    fn close(&self, conn: &mut Option<Connection<FileStore<File>>>) {
        if let Some(conn) = conn.take() {
            let _ = conn.close();
        }
    }

    fn lines(&self) -> io::Result<Reading<BufReader<StdinLock<'static>>>> {
        Ok(Reading::new(BufReader::new(self.alloc(), io::Input::reader(self))?))
    }

    fn reader(&self) -> io::Result<BufReader<StdinLock<'static>>> {
        BufReader::new(self.alloc(), io::Input::reader(self))
    }

    fn replies(&self) -> Stdout {
        self.stdout()
    }

    fn notes(&self) -> Stderr {
        self.stderr()
    }

    fn terminal(&self) -> Option<Stderr> {
        let stderr = self.stderr();
        if stderr.is_terminal() {
            Some(stderr)
        } else {
            None
        }
    }
}
