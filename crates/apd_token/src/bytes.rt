//! What a byte begins.

ghost use Rattle.std.specs.Prelude.{◌≡◌, ◌≤◌};
ghost use Rattle.std.specs.Char.{digit_value};
ghost use Rattle.apd_token.specs.Bytes.{class_of, bracket_of, in_set, is_layout, is_small, is_capital, is_digit, is_word, is_graphic, is_bracket, is_simple, simple_code, escape_of, mark_of};

use crate::items::TokenKind;

/// What a byte begins outside quotes and comments.
#[derive(Clone, Copy)]
pub enum Class {
    Layout,
    Small,
    Capital,
    Digit,
    Graphic,
    Solo,
    Bracket,
    Percent,
    Quote,
    Other,
}

/// The bytes that a run goes over.
#[derive(Clone, Copy)]
pub enum Set {
    Word,
    Symbols,
    Digits,
    Octal,
    Hex,
    Binary,
    Line,
}

/// What a byte behind a 0 begins.
#[derive(Clone, Copy)]
pub enum NumberMark {
    Hex,
    Octal,
    Binary,
    Code,
    Nothing,
}

/// What a byte begins behind a backslash.
#[derive(Clone, Copy)]
pub enum Escape {
    Newline,
    Octal,
    Hex,
    Simple,
    Unknown,
}

pub(crate) fn is_layout(b: u8) -> bool
    ensures { result ≡ is_layout b }
{
    b == b' ' || (b'\t' <= b && b <= b'\r')
}

pub fn is_small(b: u8) -> bool
    ensures { result ≡ is_small b }
{
    b'a' <= b && b <= b'z'
}

fn is_capital(b: u8) -> bool
    ensures { result ≡ is_capital b }
{
    (b'A' <= b && b <= b'Z') || b == b'_'
}

pub(crate) fn is_digit(b: u8) -> bool
    ensures { result ≡ is_digit b }
{
    b'0' <= b && b <= b'9'
}

pub fn is_word(b: u8) -> bool
    ensures { result ≡ is_word b }
{
    is_small(b) || is_capital(b) || is_digit(b)
}

pub fn is_graphic(b: u8) -> bool
    ensures { result ≡ is_graphic b }
{
    (b'#' <= b && b <= b'$')
        || b == b'&'
        || (b'*' <= b && b <= b'+')
        || (b'-' <= b && b <= b'/')
        || b == b':'
        || (b'<' <= b && b <= b'@')
        || b == b'\\'
        || b == b'^'
        || b == b'~'
}

fn is_bracket(b: u8) -> bool
    ensures { result ≡ is_bracket b }
{
    (b'(' <= b && b <= b')') || b == b',' || b == b'[' || b == b']' || (b'{' <= b && b <= b'}')
}

pub(crate) fn class_of(b: u8) -> Class
    ensures { result ≡ class_of b }
{
    if is_layout(b) {
        Class::Layout
    } else if is_small(b) {
        Class::Small
    } else if is_capital(b) {
        Class::Capital
    } else if is_digit(b) {
        Class::Digit
    } else if is_graphic(b) {
        Class::Graphic
    } else if is_bracket(b) {
        Class::Bracket
    } else if b == b'!' || b == b';' {
        Class::Solo
    } else if b == b'%' {
        Class::Percent
    } else if b == b'\'' || b == b'"' {
        Class::Quote
    } else {
        Class::Other
    }
}

pub(crate) fn bracket_of(b: u8) -> TokenKind
    ensures { result ≡ bracket_of b }
{
    if b == b'(' {
        TokenKind::Open
    } else if b == b')' {
        TokenKind::Close
    } else if b == b'[' {
        TokenKind::OpenList
    } else if b == b']' {
        TokenKind::CloseList
    } else if b == b'{' {
        TokenKind::OpenCurly
    } else if b == b'}' {
        TokenKind::CloseCurly
    } else if b == b',' {
        TokenKind::Comma
    } else {
        TokenKind::Bar
    }
}

pub(crate) fn in_set(set: Set, b: u8) -> bool
    ensures { result ≡ in_set set b }
{
    match set {
        Set::Word => is_word(b),
        Set::Symbols => is_graphic(b),
        Set::Digits => is_digit(b),
        Set::Octal => b'0' <= b && b <= b'7',
        Set::Hex => is_digit(b) || (b'A' <= b && b <= b'F') || (b'a' <= b && b <= b'f'),
        Set::Binary => b'0' <= b && b <= b'1',
        Set::Line => b != b'\n',
    }
}

fn is_simple(b: u8) -> bool
    ensures { result ≡ is_simple b }
{
    (b'a' <= b && b <= b'b')
        || b == b't'
        || b == b'n'
        || b == b'v'
        || b == b'f'
        || b == b'r'
        || b == b'\\'
        || b == b'\''
        || b == b'"'
        || b == b'`'
}

/// The code of the character that a simple escape stands for, by the byte behind its backslash.
pub(crate) fn simple_code(b: u8) -> u8
    ensures { result ≡ simple_code b }
{
    if b == b'a' {
        7
    } else if b == b'b' {
        8
    } else if b == b't' {
        9
    } else if b == b'n' {
        10
    } else if b == b'v' {
        11
    } else if b == b'f' {
        12
    } else if b == b'r' {
        13
    } else {
        b
    }
}

pub(crate) fn escape_of(b: u8) -> Escape
    ensures { result ≡ escape_of b }
{
    if b == b'\n' {
        Escape::Newline
    } else if b'0' <= b && b <= b'7' {
        Escape::Octal
    } else if b == b'x' {
        Escape::Hex
    } else if is_simple(b) {
        Escape::Simple
    } else {
        Escape::Unknown
    }
}

pub(crate) fn mark_of(b: u8) -> NumberMark
    ensures { result ≡ mark_of b }
{
    if b == b'x' {
        NumberMark::Hex
    } else if b == b'o' {
        NumberMark::Octal
    } else if b == b'b' {
        NumberMark::Binary
    } else if b == b'\'' {
        NumberMark::Code
    } else {
        NumberMark::Nothing
    }
}

/// The value of a digit of a radix of at most 36, and 36 for any other byte.
pub(crate) fn digit_value(b: u8) -> u64
    ensures value { result ≡ digit_value b }
    ensures small { result ≤ 36 }
{
    if b < b'0' {
        36
    } else if b <= b'9' {
        u64::from(b - b'0')
    } else if b < b'A' {
        36
    } else if b <= b'Z' {
        u64::from(b - b'A') + 10
    } else if b < b'a' {
        36
    } else if b <= b'z' {
        u64::from(b - b'a') + 10
    } else {
        36
    }
}
