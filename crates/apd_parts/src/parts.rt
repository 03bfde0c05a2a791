//! The parts of a line.

ghost use Rattle.std.specs.Prelude.{◌≡◌, ◌+◌, ◌*◌, ◌^◌, ◌<◌, ◌≤◌, true, IfSome, MatchOption, None, Some, length};
ghost use Rattle.std.specs.Char.{digit_value, is_ascii_digit};
ghost use Rattle.apd_parts.specs.Parts.{after, before, counted, cut, cut_last, led_by, number_32, number_64};

/// What stands on both sides of some bytes.
#[derive(Clone, Copy)]
pub struct FrontAndRest<'a> {
    pub front: &'a [u8],
    pub rest: &'a [u8],
}

/// What stands behind these bytes, where the text begins with them.
pub fn after<'a>(beginning: &[u8], text: &'a [u8]) -> Option<&'a [u8]>
    ensures { MatchOption result (after beginning.now text.now ≡ None)
        (λ x. after beginning.now text.now ≡ Some x.now) }
{
    text.strip_prefix(beginning)
}

/// What stands before these bytes and behind them, where they first stand in the text.
pub fn cut<'a>(bytes: &[u8], text: &'a [u8]) -> Option<FrontAndRest<'a>>
    ensures { MatchOption result (cut bytes.now text.now ≡ None)
        (λ p. cut bytes.now text.now ≡ Some (p.front.now, p.rest.now)) }
{
    'places: for i in 0..text.len() {
        if let Some(rest) = after(bytes, &text[i..]) {
            return Some(FrontAndRest {
                front: &text[..i],
                rest,
            });
        }
    }
    None
}

/// What stands before these bytes where they last stand in the text, and what stands behind them.
pub fn cut_last<'a>(bytes: &[u8], text: &'a [u8]) -> Option<FrontAndRest<'a>>
    ensures { MatchOption result (cut_last bytes.now text.now ≡ None)
        (λ p. cut_last bytes.now text.now ≡ Some (p.front.now, p.rest.now)) }
{
    let mut i = text.len();
    'places: while i > 0 {
        i -= 1;
        if let Some(rest) = after(bytes, &text[i..]) {
            return Some(FrontAndRest {
                front: &text[..i],
                rest,
            });
        }
    }
    None
}

/// What stands before these bytes, where the text ends with them.
pub fn before<'a>(bytes: &[u8], text: &'a [u8]) -> Option<&'a [u8]>
    ensures { MatchOption result (before bytes.now text.now ≡ None)
        (λ x. before bytes.now text.now ≡ Some x.now) }
{
    let parts = cut_last(bytes, text)?;
    if parts.rest.is_empty() {
        return Some(parts.front);
    }
    None
}

/// The number with one more digit; none where it has no 64 bits.
fn with_digit(number: u64, digit: u8) -> Option<u64>
    requires { is_ascii_digit digit ≡ true }
    ensures number { MatchOption result (2 ^ 64 ≤ number * 10 + digit_value digit)
        (λ n. n ≡ number * 10 + digit_value digit) }
    ensures short { IfSome result (λ n. n < 2 ^ 64) }
{
    number.checked_mul(10)?.checked_add((digit - b'0') as u64)
}

/// The number of 64 bits that decimal digits write.
pub fn number_64(text: &[u8]) -> Option<u64>
    ensures { result ≡ number_64 text.now }
{
    if text.is_empty() {
        return None;
    }
    let mut number: u64 = 0;
    'digits: for i in 0..text.len() {
        if !text[i].is_ascii_digit() {
            return None;
        }
        number = with_digit(number, text[i])?;
    }
    Some(number)
}

/// The number of 32 bits that decimal digits write.
pub fn number_32(text: &[u8]) -> Option<u32>
    ensures { result ≡ number_32 text.now }
{
    let number = number_64(text)?;
    if number > u32::MAX as u64 {
        return None;
    }
    Some(number as u32)
}

/// A number, and what stands behind it.
#[derive(Clone, Copy)]
pub struct Led<'a> {
    pub number: u32,
    pub rest: &'a [u8],
}

/// The number before some bytes, and what stands behind them.
pub fn led_by<'a>(bytes: &[u8], text: &'a [u8]) -> Option<Led<'a>>
    ensures { MatchOption result (led_by bytes.now text.now ≡ None)
        (λ a. led_by bytes.now text.now ≡ Some (record { number = a.number; rest = a.rest.now })) }
{
    let parts = cut(bytes, text)?;
    let number = number_32(parts.front)?;
    Some(Led {
        number,
        rest: parts.rest,
    })
}

/// A text, and the number that stands behind it, where one does.
#[derive(Clone, Copy)]
pub struct Tagged<'a> {
    pub text: &'a [u8],
    pub number: Option<u32>,
}

/// The number in brackets behind a text, with the text before it.
fn counted_at<'a>(bytes: &[u8], text: &'a [u8]) -> Option<Tagged<'a>>
    ensures { MatchOption result
        (counted bytes.now text.now ≡ record { text = text.now; number = None })
        (λ c. counted bytes.now text.now ≡ record { text = c.text.now; number = c.number }) }
{
    let parts = cut_last(b" [", text)?;
    let led = led_by(bytes, parts.rest)?;
    if !led.rest.is_empty() {
        return None;
    }
    Some(Tagged {
        text: parts.front,
        number: Some(led.number),
    })
}

/// A text with ` [N` and these bytes behind it, where it ends so.
pub fn counted<'a>(bytes: &[u8], text: &'a [u8]) -> Tagged<'a>
    ensures { counted bytes.now text.now
        ≡ record { text = result.text.now; number = result.number } }
{
    match counted_at(bytes, text) {
        Some(counted) => counted,
        None => Tagged { text, number: None },
    }
}
