//! Runs of bytes.

ghost use Rattle.std.specs.Prelude.{◌≡◌, ◌^◌, ◌<◌, ◌≤◌, length, drop, slice_range, IfSome, IfNone};
ghost use Rattle.apd_token.specs.Quotes.{AllIn, numeral};
ghost use Rattle.apd_token.specs.Scan.{StopsRun, NoCloseBelow, IsFirstClose};

use crate::bytes::{Set, digit_value, in_set};

/// The end of the run of bytes of the set that begins at `at`.
pub(crate) fn run_end(text: &[u8], at: usize, set: Set) -> usize
    requires { at ≤ length text.now }
    ensures from { at ≤ result }
    ensures within { result ≤ length text.now }
    ensures each { AllIn set (slice_range text.now at result) }
    ensures stops { StopsRun set (drop result text.now) }
{
    let mut end = at;
    'run: while end < text.len() && in_set(set, text[end]) {
        end += 1;
    }
    end
}

/// The first `*/` from `from` on.
pub(crate) fn close_at(text: &[u8], from: usize) -> Option<usize>
    requires { from ≤ length text.now }
    ensures found { IfSome result (IsFirstClose text.now from) }
    ensures none { IfNone result (NoCloseBelow text.now from (length text.now)) }
{
    let mut k = from;
    'close: while k < text.len() && text.len() - k >= 2 {
        if text[k] == b'*' && text[k + 1] == b'/' {
            return Some(k);
        }
        k += 1;
    }
    None
}

/// The number that digits of a radix stand for, if it is at most 2 ^ 63.
pub(crate) fn numeral_of(digits: &[u8], radix: u64) -> Option<u64>
    requires low { 1 ≤ radix }
    requires high { radix ≤ 16 }
    ensures some { IfSome result (λ n. (n ≡ numeral radix digits.now) × (n ≤ 2 ^ 63)) }
    ensures none { IfNone result (2 ^ 63 < numeral radix digits.now) }
{
    let mut value: u64 = 0;
    let mut wide = false;
    'digits: for d in digits {
        let next = u128::from(value) * u128::from(radix) + u128::from(digit_value(*d));
        if wide || next > 1 << 63 {
            wide = true;
        } else {
            value = next as u64;
        }
    }
    if wide { None } else { Some(value) }
}
