//! The words that stand for types and causes in rows, lines and texts.
ghost use Rattle.std.specs.Prelude.{◌≡◌};
ghost use Rattle.flow_base.specs.Names.{kind_named, cause_named, kind_name, cause_name};

use crate::event::Cause;
use crate::value::Kind;

impl Kind {
    /// The type of this name.
    pub fn named(name: &str) -> Option<Kind>
        ensures { result ≡ kind_named name.now }
    {
        match name {
            "int" => Some(Kind::Int),
            "text" => Some(Kind::Text),
            _ => None,
        }
    }

    /// Its name.
    pub fn name(self) -> &'static str
        ensures { result.now ≡ kind_name self }
    {
        match self {
            Kind::Int => "int",
            Kind::Text => "text",
        }
    }
}

impl Cause {
    /// The cause of this name.
    pub fn named(name: &str) -> Option<Cause>
        ensures { result ≡ cause_named name.now }
    {
        match name {
            "Arith" => Some(Cause::Arith),
            "TextLimit" => Some(Cause::TextLimit),
            "BadDelay" => Some(Cause::BadDelay),
            "WaitLimit" => Some(Cause::WaitLimit),
            "TurnBudget" => Some(Cause::TurnBudget),
            "ChainLimit" => Some(Cause::ChainLimit),
            "ActivityFailed" => Some(Cause::ActivityFailed),
            "UserFail" => Some(Cause::UserFail),
            _ => None,
        }
    }

    /// Its name.
    pub fn name(self) -> &'static str
        ensures { result.now ≡ cause_name self }
    {
        match self {
            Cause::Arith => "Arith",
            Cause::TextLimit => "TextLimit",
            Cause::BadDelay => "BadDelay",
            Cause::WaitLimit => "WaitLimit",
            Cause::TurnBudget => "TurnBudget",
            Cause::ChainLimit => "ChainLimit",
            Cause::ActivityFailed => "ActivityFailed",
            Cause::UserFail => "UserFail",
        }
    }
}
