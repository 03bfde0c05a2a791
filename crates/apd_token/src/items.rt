//! Tokens.

use apd_base::ListOf;

/// What a token is.
#[derive(Clone, Copy, PartialEq, Eq)]
pub enum TokenKind {
    /// A small letter followed by letters, digits and `_`; graphic characters; `!` or `;`.
    Name,
    /// A name in single quotes.
    Quoted,
    /// A text in double quotes, which stands for the list of its characters' codes.
    Codes,
    /// A capital letter or `_`, followed by letters, digits and `_`.
    Variable,
    /// An integer without a sign, at most 2 ^ 63.
    Integer(u64),
    /// `(`
    Open,
    /// `)`
    Close,
    /// `[`
    OpenList,
    /// `]`
    CloseList,
    /// `{`
    OpenCurly,
    /// `}`
    CloseCurly,
    /// `,`
    Comma,
    /// `|`
    Bar,
    /// The full stop that ends a clause.
    End,
}

/// A token, with the places of its bytes in the text.
#[derive(Clone, Copy, PartialEq, Eq)]
pub struct Token {
    pub kind: TokenKind,
    /// The place of its first byte, from 0.
    pub start: u32,
    /// The place behind its last byte.
    pub end: u32,
    /// Whether layout or a comment stands directly before it, or it is the first token.
    pub spaced: bool,
}

/// Tokens in the order of the text.
pub type Tokens = ListOf<Token>;
