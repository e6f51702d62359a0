//! The rules in a few words.
ghost use Rattle.std.specs.Prelude.{◌≡◌};
ghost use Rattle.hep_text.specs.Reasons as reasons;

/// The rule that a refusal with this number reports, in a few words.
pub fn reason(number: u16) -> &'static [u8]
    ensures { result.now ≡ reasons.reason number }
{
    match number {
        101 => b"a tab; write blanks",
        102 => b"no printable ASCII character",
        103 => b"columns 1 to 5 are for a label; statements begin in column 7",
        104 => b"the twentieth continuation line of its statement",
        105 => b"a mark in column 6 goes on with a statement, and there is none before it",
        106 => b"a character constant isn't closed, or has no characters",
        107 => b"more than 65535 lines or 4194304 bytes",
        201 => b"no statement of the language; see hepf explain 201",
        202 => b"left out of the language",
        203 => b"an integer constant above 9223372036854775807",
        204 => b"there is no main program",
        205 => b"not in this place: declarations come first, one main program, END last",
        301 => b"has no type; declare it, or take a name that begins with I to N",
        302 => b"a value of the wrong type, or an array in the place of a scalar",
        303 => b"another number of arguments than are wanted",
        304 => b"an argument doesn't fit: its type, array or scalar, $ or plain",
        305 => b"the common block is declared otherwise in a unit before",
        306 => b"a label that isn't there, or is there twice",
        307 => b"a DO or an IF isn't closed or nested as it must be",
        308 => b"a jump into a DO or into a block of an IF",
        309 => b"a name stands for two things, or is given something twice",
        310 => b"no subroutine, array or function",
        311 => b"DATA gives too few or too many values, or wrong ones",
        312 => b"RESUME stands in subroutines only",
        401 => b"the program is too large",
        402 => b"more than 256 operands at once; assign a part to a variable first",
        _ => b"",
    }
}
