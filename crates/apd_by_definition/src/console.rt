//! The lines of a text, byte by byte from its end.

ghost use Rattle.std.specs.Prelude.{◌≡◌, [], ◌∷◌, nat_eq, if◌then◌else◌, IfOk, OnOk};
ghost use Rattle.apd_console.specs.Lines.{lines_of, onto_first};

use apd_base::Text;
use std::alloc::{AllocError, Global};

/// The lines of a text, of which the last may lack its newline.
///
/// It goes over the text from its end, and moves all lines at each newline.
pub fn lines_of(alloc: Global, bytes: &[u8]) -> Result<Vec<Text>, AllocError>
    ensures { IfOk result (λ lines. lines.items ≡ lines_of bytes.now) }
{
    let mut lines = Vec::new(alloc);
    let mut at = bytes.len();
    'bytes: while at > 0 {
        at -= 1;
        put_first(alloc, &mut lines, bytes[at])?;
    }
    Ok(lines)
}

// Puts a byte before some lines.
fn put_first(alloc: Global, lines: &mut Vec<Text>, byte: u8) -> Result<(), AllocError>
    ensures { OnOk result
        (lines.new.items ≡ (if nat_eq byte 10 then [] ∷ lines.old.items else onto_first byte lines.old.items)) }
{
    let mut line = Text::new(alloc);
    if byte == b'\n' {
        lines.insert(0, line)?;
        return Ok(());
    }
    line.push(byte)?;
    if lines.is_empty() {
        lines.push(line)?;
        return Ok(());
    }
    line.extend(lines[0].bytes())?;
    lines[0] = line;
    Ok(())
}
