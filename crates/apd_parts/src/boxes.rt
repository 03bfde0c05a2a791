//! The words between a call and its caller, outside quotes.

ghost use Rattle.std.specs.Prelude.{◌≡◌, ◌+◌, ◌<◌, ◌≤◌, ◌^◌, None, Some, MatchOption, if◌then◌else◌, length};
ghost use Rattle.apd_parts.specs.Parts.{box_first, box_outside, boxed_in, digits_first, led_first, parts_words, quote_after};

use crate::parts::{Led, after, number_32};

/// Where a byte stands in a text of terms.
#[derive(Clone, Copy)]
pub enum Quote {
    /// In no quotes.
    Outside,
    /// Between quotes.
    Inside,
    /// There, directly behind a backslash.
    Escaped,
    /// There, in an escape by hexadecimal digits.
    Hexadecimal,
}

/// Where the byte behind this one stands.
pub fn quote_after(quote: Quote, byte: u8) -> Quote
    ensures { result ≡ quote_after quote byte }
{
    match (quote, byte) {
        (Quote::Outside, b'\'') => Quote::Inside,
        (Quote::Outside, _) => Quote::Outside,
        (Quote::Inside, b'\'') => Quote::Outside,
        (Quote::Inside, b'\\') => Quote::Escaped,
        (Quote::Escaped, b'x') => Quote::Hexadecimal,
        (Quote::Hexadecimal, b'\\') => Quote::Inside,
        (Quote::Hexadecimal, _) => Quote::Hexadecimal,
        (Quote::Inside | Quote::Escaped, _) => Quote::Inside,
    }
}

/// How many decimal digits stand first.
fn digits_first(text: &[u8]) -> usize
    ensures count { result ≡ digits_first text.now }
    ensures few { result ≤ length text.now }
{
    let mut count = 0;
    'digits: while count < text.len() {
        if !text[count].is_ascii_digit() {
            return count;
        }
        count += 1;
    }
    count
}

/// The number of 32 bits that stands first, and what stands behind it and these bytes.
fn led_first<'a>(bytes: &[u8], text: &'a [u8]) -> Option<Led<'a>>
    ensures { MatchOption result (led_first bytes.now text.now ≡ None)
        (λ a. led_first bytes.now text.now
        ≡ Some (record { number = a.number; rest = a.rest.now })) }
{
    let count = digits_first(text);
    let rest = after(bytes, &text[count..])?;
    let number = number_32(&text[..count])?;
    Some(Led { number, rest })
}

/// The box of a call and its caller behind it, where the words between two calls stand first.
pub fn box_first(text: &[u8]) -> Option<Led<'_>>
    ensures { MatchOption result (box_first text.now ≡ None)
        (λ a. box_first text.now ≡ Some (record { number = a.number; rest = a.rest.now })) }
{
    let rest = after(b" (box ", text)?;
    led_first(b") called by ", rest)
}

/// What [`box_first`] finds, where the text begins outside quotes; none inside.
pub fn box_outside(quote: Quote, text: &[u8]) -> Option<Led<'_>>
    ensures { MatchOption result (box_outside quote text.now ≡ None)
        (λ a. box_outside quote text.now
        ≡ Some (record { number = a.number; rest = a.rest.now })) }
{
    match quote {
        Quote::Outside => box_first(text),
        Quote::Inside | Quote::Escaped | Quote::Hexadecimal => None,
    }
}

/// A call, its box and its caller.
#[derive(Clone, Copy)]
pub struct Boxed<'a> {
    pub front: &'a [u8],
    pub led: Led<'a>,
}

/// The parts of a text, where the words between two calls first stand outside quotes.
pub fn boxed_in(text: &[u8]) -> Option<Boxed<'_>>
    ensures { MatchOption result (boxed_in Quote.Outside text.now ≡ None)
        (λ p. boxed_in Quote.Outside text.now ≡ Some (record {
          front = p.front.now;
          led = record { number = p.led.number; rest = p.led.rest.now };
        })) }
{
    let mut quote = Quote::Outside;
    'places: for i in 0..text.len() {
        if let Some(led) = box_outside(quote, &text[i..]) {
            return Some(Boxed {
                front: &text[..i],
                led,
            });
        }
        quote = quote_after(quote, text[i]);
    }
    None
}

/// Whether the text's last word begins anew behind this byte.
fn parts_words(quote: Quote, byte: u8) -> bool
    ensures { result ≡ parts_words quote byte }
{
    match quote {
        Quote::Outside => byte == b' '
            || byte == b'('
            || byte == b','
            || byte == b'['
            || byte == b'{'
            || byte == b'|',
        Quote::Inside | Quote::Escaped | Quote::Hexadecimal => false,
    }
}

/// Where the last word begins of a text with one byte more, which stands at this place.
pub fn word_begins(quote: Quote, byte: u8, begun: usize, place: usize) -> usize
    requires { place + 1 < 2 ^ 64 }
    ensures { result ≡ (if parts_words quote byte then place + 1 else begun) }
{
    if parts_words(quote, byte) {
        return place + 1;
    }
    begun
}
