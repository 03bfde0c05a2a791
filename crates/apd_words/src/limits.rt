//! Limits and other numbers, as words write them.

ghost use Rattle.std.specs.Prelude.{◌≡◌, ◌<◌, ◌≤◌, IfSome, option_map};
ghost use Rattle.std.specs.Char.{is_ascii_digit};
ghost use Rattle.std.specs.List.{list_all};
ghost use Rattle.apd_words.specs.Words.{is_number, limit_or, number_of, within};
ghost use Rattle.apd_base.specs.declared.limits.TheConstants.{MOST_SHOWN};

use apd_base::MOST_SHOWN;

const MOST_DIGITS: usize = 7;

fn are_digits(word: &[u8]) -> bool
    ensures { result ≡ list_all is_ascii_digit word.now }
{
    word.iter().all(|b| b.is_ascii_digit())
}

/// Whether the word is 1 to 7 decimal digits.
fn is_number(word: &[u8]) -> bool
    ensures { result ≡ is_number word.now }
{
    1 <= word.len() && (word.len() <= MOST_DIGITS && are_digits(word))
}

/// The number, where it is from 1 to the most.
fn within(most: u32, number: u32) -> Option<u32>
    ensures number { result ≡ within most number }
    ensures within { IfSome result (λ n. (0 < n) × (n ≤ most)) }
{
    if 1 <= number && number <= most {
        return Some(number);
    }
    None
}

/// The number from 1 to the most that a word of 1 to 7 decimal digits writes.
pub(crate) fn number_of(most: u32, word: &str) -> Option<u32>
    ensures number { result ≡ number_of most word.now }
    ensures within { IfSome result (λ n. (0 < n) × (n ≤ most)) }
{
    if !is_number(word.as_bytes()) {
        return None;
    }
    match word.parse::<u32>() {
        Ok(number) => within(most, number),
        Err(_) => None,
    }
}

/// The limit that a value gives, or the usual one where there is no value.
pub(crate) fn limit_or(usual: u32, value: Option<&str>) -> Option<u32>
    requires { (0 < usual) × (usual ≤ MOST_SHOWN) }
    ensures limit { result ≡ limit_or usual (option_map (λ s. s.now) value.entry) }
    ensures within { IfSome result (λ n. (0 < n) × (n ≤ MOST_SHOWN)) }
{
    match value {
        None => Some(usual),
        Some(word) => number_of(MOST_SHOWN, word),
    }
}
