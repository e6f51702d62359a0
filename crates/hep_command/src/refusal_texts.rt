//! Explanations of refusals, by their numbers.
ghost use Rattle.std.specs.Prelude.{◌≡◌, is_some, map, nat_eq};
ghost use Rattle.std.specs.List.{list_any};
ghost use Rattle.hep_command.specs.Explanations.{is_refusal};

// The explanation of a statement without a reading, with the habits of later FORTRAN.
const NO_READING: &str = "The statement has no reading: it is no statement of the language.
Look at its spelling, its parentheses and commas, and that names have at most
six characters. A decimal point makes a constant real; there are integers only.

Write .EQ., .NE., .LT., .LE., .GT. and .GE. for ==, /=, <, <=, > and >=. Small
letters are fine. A mark in column 6 continues a statement, and & doesn't; no ;
and no ! is in one. On the left are such habits, on the right what to write.

Wrong: REFUSED 201                 Right:

      IMPLICIT NONE                C     LEAVE IT OUT
      INTEGER*8 :: LIST(2)               INTEGER LIST(2)
      NUMBERS = 9                        NUMBER = 9
      I = 2*-3                           I = 2*(-3)
      IF (I == 1) LAST = NUMBER          IF (I .EQ. 1) LAST = NUMBER
      PRINT *, \"LAST\"                    PRINT *, 'LAST'
      PRINT '(I5)', I                    PRINT *, I
      PRINT *, (I, K = 1, 2)             PRINT *, I, I
      DO WHILE (I .LT. 9)             10 IF (I .LT. 9) THEN
                                            I = I+1
                                            GO TO 10
                                         END IF
      DO I = 1, 9                        DO 20 I = 1, 9
                                      20 CONTINUE
";

// The numbers of refusals, each with its meaning and advice.
const REFUSALS: [(u16, &str); 36] = [
    (
        101,
        "A tab stands in columns 1 to 72 of the line.
Write blanks in its place; many editors can do that for a whole file.
",
    ),
    (
        102,
        "A byte in columns 1 to 72 of the line is no printable ASCII character.
Write plain letters and apostrophes, and end lines with a line feed.
",
    ),
    (
        103,
        "Columns 1 to 5 hold something else than digits and blanks, or zeros only, or
there is a label on a line with a mark in column 6.
Begin statements in column 7, and comments with C or * in column 1.

Wrong: REFUSED 103 LINE 1

I = 1
      END

Right:

      I = 1
      END
",
    ),
    (
        104,
        "The line is the twentieth continuation line of its statement.
Make the statement shorter, or make several of it.
",
    ),
    (
        105,
        "The line has a mark in column 6, but no statement stands before it.
Leave column 6 blank.

Wrong: REFUSED 105 LINE 1

     +I = 1
      END

Right:

      I = 1
      END
",
    ),
    (
        106,
        "A character constant of the statement isn't closed, or has no characters.
Close it by an apostrophe in columns 7 to 72; one within it is written twice.

Wrong: REFUSED 106 LINE 1

      PRINT *, 'DON'T'
      END

Right:

      PRINT *, 'DON''T'
      END
",
    ),
    (
        107,
        "The source has more than 65,535 lines or 4,194,304 bytes. The line is 0.
Make it shorter; bytes after column 72 and comments count too.
",
    ),
    (201, NO_READING),
    (
        202,
        "The statement begins with a word that the language leaves out; the line has the
word. There are integers and logicals only, no files, and no input.
Leave it out.

Wrong: REFUSED 202 LINE 1 NAME READ

      READ *, I
      PRINT *, I
      END

Right:

      I = 5
      PRINT *, I
      END
",
    ),
    (
        203,
        "An integer constant is above 9223372036854775807, also behind a minus sign.
Write a smaller one; the least integer is (-9223372036854775807-1).

Wrong: REFUSED 203 LINE 1

      I = -9223372036854775808
      END

Right:

      I = -9223372036854775807-1
      END
",
    ),
    (
        204,
        "There is no main program. The line is 0.
Write one: statements and END, with a PROGRAM statement before them or without.

Wrong: REFUSED 204 LINE 0

      SUBROUTINE S
      PRINT *, 1
      END

Right:

      CALL S
      END
      SUBROUTINE S
      PRINT *, 1
      END
",
    ),
    (
        205,
        "The statement stands where none of its kind may stand: a declaration after an
executable statement, a second main program; or the last statement of the source
isn't END. Move it, or end the unit with END.

Wrong: REFUSED 205 LINE 2

      I = 1
      INTEGER X
      X = I
      END

Right:

      INTEGER X
      I = 1
      X = I
      END
",
    ),
    (
        301,
        "A name has no type: it begins with no letter from I to N, and no INTEGER,
LOGICAL or IMPLICIT gives it one; the line has the name.
Declare it, or take a name that begins with I to N.

Wrong: REFUSED 301 LINE 1 NAME X

      X = 1
      END

Right:

      INTEGER X
      X = 1
      END
",
    ),
    (
        302,
        "The statement has a value of the wrong type, or an array where a scalar must
stand; or its bounds, subscripts or PARAMETER value aren't as they must be.
Write an integer or a logical value, as the statement wants it.

Wrong: REFUSED 302 LINE 2

      J = 1
      IF (J) PRINT *, 'ONE'
      END

Right:

      J = 1
      IF (J .EQ. 1) PRINT *, 'ONE'
      END
",
    ),
    (
        303,
        "A subroutine or function gets another number of arguments than it has.
Write as many as its SUBROUTINE or FUNCTION statement or its definition has.

Wrong: REFUSED 303 LINE 1

      CALL S(1)
      END
      SUBROUTINE S(I, J)
      PRINT *, I+J
      END

Right:

      CALL S(1, 2)
      END
      SUBROUTINE S(I, J)
      PRINT *, I+J
      END
",
    ),
    (
        304,
        "An argument doesn't fit what it is given to: by its type, array or scalar, $ or
plain. FULL, EMPTY, VALUE, SETE, WAITF and PURGE want names that begin with $.
Give what the subroutine or function declares: its type, an array for an array,
and a name with $ for one with $.

Wrong: REFUSED 304 LINE 2

      INTEGER $X
      CREATE S($X)
      END
      SUBROUTINE S(N)
      N = 1
      END

Right:

      INTEGER $X
      CREATE S($X)
      END
      SUBROUTINE S($N)
      INTEGER $N
      $N = 1
      END
",
    ),
    (
        305,
        "The unit has a common block with other types than a unit before it, or with a
name with $ where that one is plain; or it has a named block of another length.
Give the block the same types and $ in each unit, and a named one the same
length.

Wrong: REFUSED 305 LINE 5

      COMMON /C/ I
      CALL S
      END
      SUBROUTINE S
      COMMON /C/ I, J
      END

Right:

      COMMON /C/ I, J
      CALL S
      END
      SUBROUTINE S
      COMMON /C/ I, J
      END
",
    ),
    (
        306,
        "A label that the statement uses is on no executable statement of the unit, or
the statement has a label that another one has too.
Put each label on one executable statement.

Wrong: REFUSED 306 LINE 1

      GO TO 20
   10 CONTINUE
      END

Right:

      GO TO 10
   10 CONTINUE
      END
",
    ),
    (
        307,
        "A DO or a block IF isn't closed, or isn't nested as it must be; a DO variable is
no plain integer scalar, or is a function or that of a DO around it; or a
statement ends a DO, or stands in a logical IF, that may not. Close each DO and
each IF within the one around it, give each DO a variable of its own, and end a
DO with CONTINUE.

Wrong: REFUSED 307 LINE 2

      DO 10 I = 1, 3
      DO 20 J = 1, 3
   10 CONTINUE
   20 CONTINUE
      END

Right:

      DO 10 I = 1, 3
      DO 20 J = 1, 3
   20 CONTINUE
   10 CONTINUE
      END
",
    ),
    (
        308,
        "The statement jumps into a DO or into a block of an IF, or to an ELSE or ELSE
IF. Jump to its DO or its IF, or to a statement around it.

Wrong: REFUSED 308 LINE 1

      GO TO 10
      DO 10 I = 1, 3
   10 CONTINUE
      END

Right:

      GO TO 5
    5 DO 10 I = 1, 3
   10 CONTINUE
      END
",
    ),
    (
        309,
        "A name stands for two things, as for a variable and a function, or is given its
type, bounds, value or place in COMMON twice; or IMPLICIT names a letter twice.
The line is the later one of the two.
Take another name, or take one of the two out.

Wrong: REFUSED 309 LINE 2

      PARAMETER (N=3)
      N = N+1
      END

Right:

      PARAMETER (N=3)
      M = N+1
      END
",
    ),
    (
        310,
        "A name is no subroutine, array or function, but is used so; the line has the
name. A function isn't called, and a subroutine has no value.
Write the subroutine or function, or declare the array.

Wrong: REFUSED 310 LINE 1 NAME L

      L(1) = 5
      END

Right:

      INTEGER L(3)
      L(1) = 5
      END
",
    ),
    (
        311,
        "DATA stands where there may be none, or has too few or too many values, a wrong
value or repeat count, or one for what has a value already or isn't there.
Give each element of the main program's own variables one value of its type.

Wrong: REFUSED 311 LINE 2

      INTEGER L(3)
      DATA L/1, 2/
      END

Right:

      INTEGER L(3)
      DATA L/1, 2, 3/
      END
",
    ),
    (
        312,
        "RESUME stands in the main program or in a function. It lets the caller of a
subroutine go on. A main program has no caller, and that of a function waits for
its value. Write it in a subroutine, or leave it out.

Wrong: REFUSED 312 LINE 2

      I = 1
      RESUME
      PRINT *, I
      END

Right:

      CALL S(1)
      PRINT *, 2
      END
      SUBROUTINE S(I)
      RESUME
      PRINT *, I
      END
",
    ),
    (
        401,
        "The program is too large: COMMON or the variables of a unit take more than
16,777,216 cells, or its code has more than 1,048,576 instructions.
Declare shorter arrays, or write a shorter program.

Wrong: REFUSED 401 LINE 0

      PARAMETER (N=1048576)
      INTEGER A(N), B(N), C(N), D(N), E(N), F(N), G(N), H(N)
      INTEGER I(N), J(N), K(N), L(N), O(N), P(N), Q(N), R(N)
      END

Right:

      PARAMETER (N=65)
      INTEGER A(N), B(N), C(N), D(N), E(N), F(N), G(N), H(N)
      INTEGER I(N), J(N), K(N), L(N), O(N), P(N), Q(N), R(N)
      END
",
    ),
    (
        402,
        "The statement needs more than 256 operands at once, each a name, a constant or
the value of an expression that waits for another one.
Assign a part of it to a variable first.
",
    ),
    (
        501,
        "This line of the file of choices names no living process. With `--follow` it is
the number of the choice: each step of the history is one, and so is each entry
without steps.
Take it and the lines after it out: a run goes on by itself after its choices.

Wrong, by run a.f --choices c, where c has 7: REFUSED 501 LINE 1

      PRINT *, 1
      END

Right, by run a.f --choices c, where c has 1:

      PRINT *, 1
      END
",
    ),
    (
        601,
        "This line of the history isn't a process, one blank and a number of steps up to
1024. Numbers have no zero in front and each line ends with a line feed alone,
with no carriage return before it, the last one too. At line 0 the file has more
than 150,000,000 bytes.
Take what `run --history` wrote.

Wrong, by replay a.f h, where h has 01 1: REFUSED 601 LINE 1

      END

Right, by replay a.f h, where h has 1 1:

      END
",
    ),
    (
        602,
        "This line of the file of choices isn't a process: a number from 1 without a zero
in front. Each line ends with a line feed alone, the last one too. At line 0 the
file has more than 150,000,000 bytes.
Write one number a line, as 1 or 12. A history goes behind `--follow`.

Wrong, by run a.f --choices c, where c has x: REFUSED 602 LINE 1

      PRINT *, 1
      END

Right, by run a.f --choices c, where c has 1:

      PRINT *, 1
      END
",
    ),
    (
        603,
        "This entry of the history isn't possible after those before it.
The history is of another source, or was changed. Take the one that
`run --history` wrote.

Wrong, by replay a.f h, where h has 2 1: REFUSED 603 LINE 1

      END

Right, by replay a.f h, where h has 1 1:

      END
",
    ),
    (
        506,
        "The workers have used up all tickets of the run.
Take fewer steps.
",
    ),
    (
        701,
        "The receipts of the workers aren't the entries of the history, each once.
Report it: this is a mistake in hepf, or of the machine below.
",
    ),
    (
        702,
        "The receipts of a worker aren't in the order of the history.
Report it: this is a mistake in hepf, or of the machine below.
",
    ),
    (
        703,
        "The workers ran something else than they were given.
Report it: this is a mistake in hepf, or of the machine below.
",
    ),
    (
        704,
        "A thread couldn't be started, which may be for want of memory.
Take fewer workers, or end other programs.
",
    ),
    (
        705,
        "The workers ended before the run was over.
Report it: this is a mistake in hepf, or of the machine below.
",
    ),
];

// The explanation with this number, if it is among these.
pub(crate) fn explanation_among(
    explanations: &[(u16, &'static str)],
    number: u16,
) -> Option<&'static str>
    ensures { is_some result ≡ list_any (nat_eq number) (map (λ explanation. explanation.0) explanations.now) }
{
    match explanations {
        [] => None,
        [(known, text), others @ ..] => {
            if number == *known {
                Some(*text)
            } else {
                explanation_among(others, number)
            }
        }
    }
}

/// The explanation of the refusal with this number: its meaning, and then advice.
pub fn explanation(number: u16) -> Option<&'static str>
    ensures { is_some result ≡ is_refusal number }
{
    explanation_among(&REFUSALS, number)
}
