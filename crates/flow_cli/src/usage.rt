//! How the program is called.
ghost use Rattle.std.specs.Prelude.{◌≡◌, map, string_bytes};
ghost use Rattle.flow_cli.specs.Usages.{call_named, meant_by, usage_text};

/// A call of the program, by its first word.
#[derive(Clone, Copy, Debug, PartialEq, Eq)]
pub enum CallName {
    Check,
    Safe,
    Settle,
    Replay,
    Drive,
    Work,
    Serve,
    History,
    Open,
    Verify,
}

impl CallName {
    /// The call that begins with this word.
    pub fn named(word: &str) -> Option<CallName>
        ensures { result ≡ call_named word.now }
    {
        match word {
            "check" => Some(CallName::Check),
            "safe" => Some(CallName::Safe),
            "settle" => Some(CallName::Settle),
            "replay" => Some(CallName::Replay),
            "drive" => Some(CallName::Drive),
            "work" => Some(CallName::Work),
            "serve" => Some(CallName::Serve),
            "history" => Some(CallName::History),
            "open" => Some(CallName::Open),
            "verify" => Some(CallName::Verify),
            _ => None,
        }
    }
}

/// The lines that show how the program is called: by one call, with what its numbers may be, or by any.
pub fn usage(call: Option<CallName>) -> &'static str
    ensures { result.now ≡ usage_text call }
{
    match call {
        Some(CallName::Check) => "  flow check FILE\n",
        Some(CallName::Safe) => "  flow safe OLD NEW\n",
        Some(CallName::Settle) => "  flow settle OLD NEW\n",
        Some(CallName::Replay) => "  flow replay FILE HISTORY\n",
        Some(CallName::Drive) => {
            "  flow drive DB [--batch N] [--cache N]\n\
            \x20 --batch takes 1 to 64, --cache 1 to 4096\n"
        }
        Some(CallName::Work) => "  flow work DB [--settings FILE] [--leave-unknown]\n",
        Some(CallName::Serve) => "  flow serve DB [--settings FILE]\n",
        Some(CallName::History) => {
            "  flow history DB RUN\n\
            \x20 RUN is a number, from 1 up\n"
        }
        Some(CallName::Open) => "  flow open DB\n",
        Some(CallName::Verify) => "  flow verify DB\n",
        None => {
            "  flow check FILE\n\
            \x20 flow safe OLD NEW\n\
            \x20 flow settle OLD NEW\n\
            \x20 flow replay FILE HISTORY\n\
            \x20 flow drive DB [--batch N] [--cache N]\n\
            \x20 flow work DB [--settings FILE] [--leave-unknown]\n\
            \x20 flow serve DB [--settings FILE]\n\
            \x20 flow history DB RUN\n\
            \x20 flow open DB\n\
            \x20 flow verify DB\n"
        }
    }
}

/// The call that words are meant as; the first of them is the program's own.
pub fn meant(words: &[String]) -> Option<CallName>
    ensures { result ≡ meant_by (map string_bytes words.now) }
{
    match words {
        [_, word, ..] => CallName::named(word.as_str()),
        _ => None,
    }
}
