//! A line of the input, and why there is none.

use apd_base::Text;

/// A line of the input.
#[derive(Drop)]
pub enum Line {
    /// Its bytes, at most [`MAX_LINE`](crate::MAX_LINE), without the newline.
    Text(Text),
    /// It has more bytes than that. It was taken to its end.
    TooLong,
}

/// Why there is no line.
#[derive(Clone, Copy, Debug)]
pub enum LineEnd {
    /// The input's end was met, and no byte of a line is left.
    Ended,
    /// A read failed: the source's count of faults rose.
    ReadFault,
    /// Another byte is needed, and [`MAX_INPUT`](crate::MAX_INPUT) bytes were taken.
    InputLimit,
    /// Memory ran out.
    Memory,
}
