ghost use Rattle.std.specs.Prelude.{◌≡◌};
ghost use Rattle.flow_model.specs.Tokens.{spelled, keyword_of};

use flow_base::token::Mark;

/// The keywords.
const KEYWORDS: [Mark; 27] = [
    Mark::Workflow,
    Mark::Activity,
    Mark::Signal,
    Mark::Let,
    Mark::If,
    Mark::Else,
    Mark::While,
    Mark::Call,
    Mark::Retry,
    Mark::Every,
    Mark::Sleep,
    Mark::Wait,
    Mark::For,
    Mark::Parallel,
    Mark::Patch,
    Mark::Return,
    Mark::Fail,
    Mark::Continue,
    Mark::As,
    Mark::New,
    Mark::Int,
    Mark::Text,
    Mark::Len,
    Mark::Now,
    Mark::And,
    Mark::Or,
    Mark::Not,
];

/// The bytes of a keyword or a mark in a text.
pub fn spelled(mark: Mark) -> &'static str
    ensures { result.now ≡ spelled mark }
{
    match mark {
        Mark::Workflow => "workflow",
        Mark::Activity => "activity",
        Mark::Signal => "signal",
        Mark::Let => "let",
        Mark::If => "if",
        Mark::Else => "else",
        Mark::While => "while",
        Mark::Call => "call",
        Mark::Retry => "retry",
        Mark::Every => "every",
        Mark::Sleep => "sleep",
        Mark::Wait => "wait",
        Mark::For => "for",
        Mark::Parallel => "parallel",
        Mark::Patch => "patch",
        Mark::Return => "return",
        Mark::Fail => "fail",
        Mark::Continue => "continue",
        Mark::As => "as",
        Mark::New => "new",
        Mark::Int => "int",
        Mark::Text => "text",
        Mark::Len => "len",
        Mark::Now => "now",
        Mark::And => "and",
        Mark::Or => "or",
        Mark::Not => "not",
        Mark::Open => "(",
        Mark::Close => ")",
        Mark::BraceOpen => "{",
        Mark::BraceClose => "}",
        Mark::Comma => ",",
        Mark::Semicolon => ";",
        Mark::Colon => ":",
        Mark::Assign => "=",
        Mark::Equal => "==",
        Mark::Differ => "!=",
        Mark::Less => "<",
        Mark::AtMost => "<=",
        Mark::Greater => ">",
        Mark::AtLeast => ">=",
        Mark::Arrow => "->",
        Mark::Plus => "+",
        Mark::Join => "++",
        Mark::Minus => "-",
        Mark::Times => "*",
        Mark::Over => "/",
        Mark::Percent => "%",
    }
}

/// The keyword of these letters, if they are one.
pub fn keyword(letters: &str) -> Option<Mark>
    ensures { result ≡ keyword_of letters.now }
{
    for mark in KEYWORDS {
        if spelled(mark) == letters {
            return Some(mark);
        }
    }
    None
}
