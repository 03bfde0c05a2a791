//! A token of a clause by what it stands for.

use apd_base::Ids;
use apd_term::NameId;

/// What a token stands for in its clause.
#[derive(Drop)]
pub enum Sort {
    Name(NameId),
    /// A name in single quotes.
    Quoted(NameId),
    /// The codes of the characters in double quotes.
    Codes(Ids),
    /// A variable with its number in the clause, from 1.
    Variable(u64),
    Integer(u64),
    Open,
    Close,
    OpenList,
    CloseList,
    OpenCurly,
    CloseCurly,
    Comma,
    Bar,
    End,
}

/// A token of a clause by what it stands for.
#[derive(Drop)]
pub struct Lexeme {
    pub sort: Sort,
    /// Whether layout or a comment stands directly before it.
    pub spaced: bool,
    /// The place of its first byte in the text.
    pub start: u32,
}
