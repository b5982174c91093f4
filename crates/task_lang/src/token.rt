//! Tokens, and the tables of the language that need a type of their own.
//! This project's own.
use rcp_base::Name;

/// A token. `Bad` is what no text of the language has.
#[derive(Clone, Copy, Debug)]
pub enum Token {
    Word(Name),
    Number(i64),
    Let,
    And,
    Or,
    Not,
    Abs,
    Min,
    Max,
    Clamp,
    If,
    Assign,
    EqualEqual,
    NotEqual,
    LessEqual,
    GreaterEqual,
    Less,
    Greater,
    Equal,
    Plus,
    Minus,
    Star,
    Slash,
    Percent,
    Open,
    Close,
    Comma,
    Semicolon,
    Bad,
}

/// A token that stands between the parts of a form or a statement.
#[derive(Clone, Copy, Debug)]
pub enum Mark {
    Open,
    Close,
    Comma,
    Assign,
    Equal,
    Semicolon,
}

/// What encloses expressions in brackets.
#[derive(Clone, Copy, Debug)]
pub enum Form {
    Brackets,
    Abs,
    Min,
    Max,
    Clamp,
    If,
}
