//! Numbers in a text, in decimal digits.

ghost use Rattle.std.specs.Prelude.{◌≡◌, ◌++◌, OnOk, IfOk};
ghost use Rattle.std.specs.Fmt.{decimal, signed_decimal};

use apd_base::Text;
use std::alloc::{AllocError, Global};

/// Adds a number in decimal digits.
pub fn add_number(alloc: Global, number: u64, out: &mut Text) -> Result<(), AllocError>
    ensures { OnOk result (out.new ≡ out.old ++ decimal number) }
{
    let digits = number.to_string(alloc)?;
    out.extend(digits.as_bytes())?;
    Ok(())
}

/// Adds a number in decimal digits with these words around it.
pub fn add_numbered(
    alloc: Global,
    before: &[u8],
    number: u64,
    after: &[u8],
    out: &mut Text,
) -> Result<(), AllocError>
    ensures { OnOk result (out.new ≡ out.old ++ before.now ++ decimal number ++ after.now) }
{
    out.extend(before)?;
    add_number(alloc, number, out)?;
    out.extend(after)
}

/// A number in decimal digits with these words around it.
pub fn numbered(alloc: Global, before: &[u8], number: u64, after: &[u8]) -> Result<Text, AllocError>
    ensures { IfOk result (λ t. t ≡ before.now ++ decimal number ++ after.now) }
{
    let mut text = Text::copy_of(alloc, before)?;
    add_number(alloc, number, &mut text)?;
    text.extend(after)?;
    Ok(text)
}

/// Adds a number in decimal digits, with `-` before it where it is negative.
pub fn add_signed(alloc: Global, number: i64, out: &mut Text) -> Result<(), AllocError>
    ensures { OnOk result (out.new ≡ out.old ++ signed_decimal number) }
{
    let digits = number.to_string(alloc)?;
    out.extend(digits.as_bytes())?;
    Ok(())
}
