ghost use Rattle.std.specs.Prelude.{◌≡◌};
ghost use Rattle.flow_base.specs.Codes.{code_number};

use std::fmt;

/// The number of a refusal. A number is given once and keeps its meaning.
#[derive(Clone, Copy, Debug, PartialEq, Eq)]
pub enum Code {
    /// E01: a growth of memory was refused.
    NoMemory,
    /// E02: no value, key or command stands there.
    NotAValue,
    /// E03: a text or a key is too long.
    TooLong,
    /// E10: no token begins here.
    BadToken,
    /// E11: no program goes on so.
    Unexpected,
    /// E12: the text has more than 65,536 bytes.
    TextTooLong,
    /// E13: too many brackets are open, or an expression has too many operators.
    TooDeep,
    /// E20: the variable isn't visible.
    NotVisible,
    /// E21: the name is declared already.
    DeclaredTwice,
    /// E22: the type doesn't fit.
    BadType,
    /// E23: another number of arguments is declared.
    BadCount,
    /// E24: a parallel block can't end the run.
    EndsInParallel,
    /// E25: the patch id stands already.
    PatchTwice,
    /// E26: too many names or parameter types.
    TooManyNames,
    /// E27: too many branches.
    TooManyBranches,
    /// E28: attempts or pause are out of range.
    BadRetry,
    /// E29: the activity or signal isn't declared.
    NotDeclared,
    /// E30: no such kind of event.
    BadKind,
    /// E31: no body of such an event.
    BadBody,
    /// E32: another spelling of the body.
    SecondSpelling,
    /// E40: the run doesn't wait for this input.
    NotAwaited,
    /// E41: the run is closed.
    Closed,
    /// E50 in a replay: an event of another kind.
    OtherKind,
    /// E51 in a replay: an event of other content.
    OtherContent,
    /// E52 in a replay: an event is missing.
    MissingEvent,
    /// E53 in a replay: the program asks no such command.
    ExtraEvent,
    /// E54 in a replay: the run doesn't wait for this input.
    InputNotAwaited,
    /// E55 in a replay: the run is closed already.
    AfterClose,
    /// E56 in a replay: the event's number or moment is wrong.
    BadNumbering,
    /// E57: the text isn't the old one with lists wrapped in patches.
    NotAWrap,
    /// E58: the text isn't the old one with patches retired.
    NotSettled,
    /// E60: no such text.
    NoText,
    /// E61: the arguments don't fit the parameters.
    BadArguments,
    /// E62: a run of the flow is open already.
    AlreadyOpen,
    /// E63: no run of the flow is open.
    NoOpenRun,
    /// E64: the run is closed, or the event is no open activity of it.
    NotOpen,
    /// E65: the attempt isn't the current one.
    OldAttempt,
    /// E66: the value has the wrong type.
    WrongType,
    /// E67: the run's text declares no such signal.
    NoSuchSignal,
    /// E68: the history doesn't replay under the text.
    Mismatch,
    /// E69: the history is full.
    HistoryFull,
    /// E70: no such run.
    NoRun,
    /// E80: the store refused a statement.
    StoreRefused,
    /// E81: the file holds something else than our tables.
    NotOurs,
    /// E82: the tables have another format.
    BadVersion,
    /// E83: the rows stand for no book.
    Damaged,
    /// E84: the commit failed, so what is kept isn't known.
    Unknown,
    /// E85: nothing more is done until the store is opened again.
    Halted,
    /// E93: a program file can't be read.
    NoFile,
    /// E94: a read of an input failed.
    InputFailed,
    /// E95: a write to an output failed.
    OutputFailed,
    /// E96: a file gives no settings.
    BadSettings,
    /// E97: bad usage.
    BadUsage,
}

impl Code {
    /// The number, as in `E01`.
    pub fn number(self) -> u8
        ensures { result ≡ code_number self }
    {
        match self {
            Code::NoMemory => 1,
            Code::NotAValue => 2,
            Code::TooLong => 3,
            Code::BadToken => 10,
            Code::Unexpected => 11,
            Code::TextTooLong => 12,
            Code::TooDeep => 13,
            Code::NotVisible => 20,
            Code::DeclaredTwice => 21,
            Code::BadType => 22,
            Code::BadCount => 23,
            Code::EndsInParallel => 24,
            Code::PatchTwice => 25,
            Code::TooManyNames => 26,
            Code::TooManyBranches => 27,
            Code::BadRetry => 28,
            Code::NotDeclared => 29,
            Code::BadKind => 30,
            Code::BadBody => 31,
            Code::SecondSpelling => 32,
            Code::NotAwaited => 40,
            Code::Closed => 41,
            Code::OtherKind => 50,
            Code::OtherContent => 51,
            Code::MissingEvent => 52,
            Code::ExtraEvent => 53,
            Code::InputNotAwaited => 54,
            Code::AfterClose => 55,
            Code::BadNumbering => 56,
            Code::NotAWrap => 57,
            Code::NotSettled => 58,
            Code::NoText => 60,
            Code::BadArguments => 61,
            Code::AlreadyOpen => 62,
            Code::NoOpenRun => 63,
            Code::NotOpen => 64,
            Code::OldAttempt => 65,
            Code::WrongType => 66,
            Code::NoSuchSignal => 67,
            Code::Mismatch => 68,
            Code::HistoryFull => 69,
            Code::NoRun => 70,
            Code::StoreRefused => 80,
            Code::NotOurs => 81,
            Code::BadVersion => 82,
            Code::Damaged => 83,
            Code::Unknown => 84,
            Code::Halted => 85,
            Code::NoFile => 93,
            Code::InputFailed => 94,
            Code::OutputFailed => 95,
            Code::BadSettings => 96,
            Code::BadUsage => 97,
        }
    }
}

impl fmt::Display for Code {
    ghost use Rattle.std.specs.Prelude.{Some};
    ghost use Rattle.flow_base.specs.Codes.{code_text};

    ghost output = { λ c. Some (code_text c) };

    fn fmt<W: fmt::Write>(&self, f: &mut fmt::Formatter<W>) -> fmt::Result {
        let tens = self.number() / 10;
        let ones = self.number() % 10;
        write!(f, "E{tens}{ones}")
    }
}
