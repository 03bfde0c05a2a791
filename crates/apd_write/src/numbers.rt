//! Numbers in decimal digits.

ghost use Rattle.std.specs.Prelude.{◌≡◌, ◌++◌, OnOk};
ghost use Rattle.std.specs.Fmt.{decimal, signed_decimal};

use crate::sheet::Sheet;
use itoa::Buffer;
use std::alloc::AllocError;

/// Writes a number of however many digits. It isn't inlined: most numbers of programs have one digit.
#[inline(never)]
fn write_long(number: u64, out: &mut Sheet) -> Result<(), AllocError>
    ensures { OnOk result (out.new ≡ out.old ++ decimal number) }
{
    let mut digits = Buffer::new();
    out.extend(digits.format(number).as_bytes())
}

/// Writes a number in decimal digits.
#[inline(always)]
#[tactic(auto, using(std::proofs::lemmas::Fmt::decimal_digit))]
pub(crate) fn write_number(number: u64, out: &mut Sheet) -> Result<(), AllocError>
    ensures { OnOk result (out.new ≡ out.old ++ decimal number) }
{
    if number < 10 {
        return out.push(b'0' + number as u8);
    }
    write_long(number, out)
}

/// Writes an integer in decimal digits, with `-` before it where it is negative.
#[inline(always)]
pub(crate) fn write_integer(integer: i64, out: &mut Sheet) -> Result<(), AllocError>
    ensures { OnOk result (out.new ≡ out.old ++ signed_decimal integer) }
{
    let amount = integer.unsigned_abs();
    if integer >= 0 {
        return write_number(amount, out);
    }
    out.push(b'-')?;
    write_number(amount, out)
}
