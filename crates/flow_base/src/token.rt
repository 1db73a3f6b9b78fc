use crate::text::{Key, Text};

/// Keywords and marks.
#[derive(Clone, Copy, Debug, PartialEq, Eq)]
pub enum Mark {
    Workflow,
    Activity,
    Signal,
    Let,
    If,
    Else,
    While,
    Call,
    Retry,
    Every,
    Sleep,
    Wait,
    For,
    Parallel,
    Patch,
    Return,
    Fail,
    Continue,
    As,
    New,
    Int,
    Text,
    Len,
    Now,
    And,
    Or,
    Not,
    /// `(`
    Open,
    /// `)`
    Close,
    /// `{`
    BraceOpen,
    /// `}`
    BraceClose,
    /// `,`
    Comma,
    /// `;`
    Semicolon,
    /// `:`
    Colon,
    /// `=`
    Assign,
    /// `==`
    Equal,
    /// `!=`
    Differ,
    /// `<`
    Less,
    /// `<=`
    AtMost,
    /// `>`
    Greater,
    /// `>=`
    AtLeast,
    /// `->`
    Arrow,
    /// `+`
    Plus,
    /// `++`
    Join,
    /// `-`
    Minus,
    /// `*`
    Times,
    /// `/`
    Over,
    /// `%`
    Percent,
}

/// What a token is, with its value.
#[derive(Debug, Drop)]
pub enum Word {
    Name(Key),
    Int(i64),
    Text(Text),
    Mark(Mark),
}

/// A token of a program text, from the byte at which it begins to the one behind it.
#[derive(Debug, Drop)]
pub struct Token {
    pub word: Word,
    pub from: usize,
    pub to: usize,
}
