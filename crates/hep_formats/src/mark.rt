//! Marks that a terminal reads.
ghost use Rattle.std.specs.Prelude.{◌≡◌};
ghost use Rattle.hep_formats.specs.Colors as words;

/// What the words from a mark on look like, in colors of the terminal's own palette; or that they look as all others do again.
#[derive(Clone, Copy)]
pub enum Mark {
    Absent,
    Plain,
    Bold,
    Dim,
    Red,
    BoldRed,
    BoldGreen,
    Yellow,
    Blue,
    BoldBlue,
    Magenta,
}

/// The bytes of a mark (ECMA-48, 8.3.117: SELECT GRAPHIC RENDITION).
pub fn mark_bytes(mark: Mark) -> &'static [u8]
    ensures { result.now ≡ words.mark_text mark }
{
    match mark {
        Mark::Absent => b"",
        Mark::Plain => b"\x1b[0m",
        Mark::Bold => b"\x1b[1m",
        Mark::Dim => b"\x1b[2m",
        Mark::Red => b"\x1b[31m",
        Mark::BoldRed => b"\x1b[1;31m",
        Mark::BoldGreen => b"\x1b[1;32m",
        Mark::Yellow => b"\x1b[33m",
        Mark::Blue => b"\x1b[34m",
        Mark::BoldBlue => b"\x1b[1;34m",
        Mark::Magenta => b"\x1b[35m",
    }
}
