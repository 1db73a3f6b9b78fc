//! What the words of a call ask for.
use std::time::Duration;

/// What threads submit, and how.
#[derive(Clone, Copy)]
pub struct Plan {
    /// How many threads submit.
    pub threads: u64,
    /// How many starts each of them submits.
    pub each: u64,
    /// How many submissions a thread leaves unfetched.
    pub window: usize,
    /// How many commands are committed together, 1 to 64.
    pub most: usize,
    /// How long nothing is submitted behind the text.
    pub pause: Duration,
    /// How many calls of the log don't fail.
    pub calls: u64,
}

const TWO: Plan = Plan {
    threads: 2,
    each: 500,
    window: 32,
    most: 64,
    pause: Duration::ZERO,
    calls: u64::MAX,
};

const EIGHT: Plan = Plan {
    threads: 8,
    each: 50,
    window: 4,
    most: 16,
    pause: Duration::ZERO,
    calls: u64::MAX,
};

/// The calls of the opening and of some commits pass, and far from all.
const FAILING: Plan = Plan {
    threads: 8,
    each: 50,
    window: 4,
    most: 16,
    pause: Duration::ZERO,
    calls: 60,
};

/// What is asked for.
#[derive(Clone, Copy)]
pub enum Asked {
    /// What is told of three races.
    Races,
    /// How long one thread takes over a plan.
    Drive(Plan),
    /// How long the threads of a plan take.
    Serve(Plan),
}

fn number(words: &[String], at: usize) -> Option<u64> {
    words.get(at)?.as_str().parse::<u64>().ok()
}

/// The plan in the words behind the mode.
fn plan_of(words: &[String]) -> Option<Plan> {
    Some(Plan {
        threads: number(words, 2)?,
        each: number(words, 3)?,
        window: number(words, 4)? as usize,
        most: number(words, 5)? as usize,
        pause: Duration::from_millis(number(words, 6)?),
        calls: u64::MAX,
    })
}

/// The three races that are told of.
pub fn race_at(at: u64) -> Option<Plan> {
    if at == 0 {
        Some(TWO)
    } else if at == 1 {
        Some(EIGHT)
    } else if at == 2 {
        Some(FAILING)
    } else {
        None
    }
}

/// What a race is called.
pub fn name_at(at: u64) -> &'static str {
    if at == 0 {
        "two threads"
    } else if at == 1 {
        "eight threads"
    } else {
        "eight threads, a log that fails"
    }
}

/// The three races where the words ask for nothing else.
pub fn asked_by(words: &[String]) -> Asked {
    match (words.get(1), plan_of(words)) {
        (Some(mode), Some(plan)) if mode.as_str() == "drive" => Asked::Drive(plan),
        (Some(mode), Some(plan)) if mode.as_str() == "serve" => Asked::Serve(plan),
        _ => Asked::Races,
    }
}
