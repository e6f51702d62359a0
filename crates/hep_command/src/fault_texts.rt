//! What faults, other ends of a run, statuses and other words mean, by their names. docs/FAULTS.md has the same
//! texts.
ghost use Rattle.std.specs.Prelude.{◌≡◌, is_some, map};
ghost use Rattle.hep_command.specs.Explanations.{has_meaning, is_among, is_status};

use crate::refusal_texts::explanation_among;

const OVERFLOW: &str = "FAULT process unit LINE n OVERFLOW: a value is below -9223372036854775808 or
above 9223372036854775807. It may be that of an operator, a sign or a function,
the number of a DO's iterations, or its variable at the end of one.
Keep numbers smaller, as by MOD after each operation.

Wrong: FAULT 1 MAIN LINE 2 OVERFLOW

      N = 2**62
      PRINT *, N+N
      END

Right:

      N = 2**62-1
      PRINT *, N+N
      END
";

const DIVIDE: &str =
    "FAULT process unit LINE n DIVIDE: a division by zero. MOD(I,J) divides by J, and
a power of zero with an exponent below zero divides too.
Test the divisor in an IF around it. An .AND. before it is no help, since both
of its sides are always evaluated.

Wrong: FAULT 1 MAIN LINE 2 DIVIDE

      J = 0
      IF (J .NE. 0 .AND. 6/J .GT. 1) PRINT *, 'LESS'
      END

Right:

      J = 0
      IF (J .NE. 0) THEN
         IF (6/J .GT. 1) PRINT *, 'LESS'
      END IF
      END
";

const RANGE: &str = "FAULT process unit LINE n RANGE: an array has no such element. A subscript is
outside its bounds, or what an array of a subroutine stands for ends before it.
Mend the subscript or the bounds. After a DO its variable is past the limit, and
a process made by CREATE S(I) in it may find it so: write CREATE S((I)).

Wrong: FAULT 1 MAIN LINE 4 RANGE

      INTEGER L(3)
      DO 10 I = 1, 3
   10 L(I) = I
      PRINT *, L(I)
      END

Right:

      INTEGER L(3)
      DO 10 I = 1, 3
   10 L(I) = I
      PRINT *, L(3)
      END
";

const UNDEFINED: &str =
    "FAULT process unit LINE n UNDEFINED: a variable or an element is used that has
no value yet, since nothing was assigned to it and DATA gives it none.
Assign to it first. In a subroutine or function this holds at each call, since
its variables are new ones then. A function ends with a value for its own name,
or with this fault in the line of its RETURN or END.

Wrong: FAULT 1 MAIN LINE 2 UNDEFINED

      DO 10 I = 1, 3
   10 ISUM = ISUM+I
      PRINT *, ISUM
      END

Right:

      ISUM = 0
      DO 10 I = 1, 3
   10 ISUM = ISUM+I
      PRINT *, ISUM
      END
";

const SHAPE: &str = "FAULT process unit LINE n SHAPE: at this CALL, CREATE or reference to a
function an array of the called unit has more elements than what it is given, or
its bounds have no value or are none: the upper one below the lower one, or too
many elements.
Give it an array that is long enough, and the right bounds.

Wrong: FAULT 1 MAIN LINE 2 SHAPE

      INTEGER L(3)
      CALL CLEAR(L, 4)
      END
      SUBROUTINE CLEAR(M, N)
      INTEGER M(N)
      END

Right:

      INTEGER L(3)
      CALL CLEAR(L, 3)
      END
      SUBROUTINE CLEAR(M, N)
      INTEGER M(N)
      END
";

const STEP: &str = "FAULT process unit LINE n STEP: the increment of a DO is zero.
Give it another one.

Wrong: FAULT 1 MAIN LINE 2 STEP

      K = 0
      DO 10 I = 1, 3, K
   10 PRINT *, I
      END

Right:

      K = 1
      DO 10 I = 1, 3, K
   10 PRINT *, I
      END
";

const FAULT: &str = "FAULT process unit LINE n name: the process ended at this statement by a fault,
and the others went on. The name is OVERFLOW, DIVIDE, RANGE, UNDEFINED, SHAPE or
STEP. Status 3, also where others wait in the end; where the run was stopped,
that of the stop. `hepf explain NAME` says what to do about each.

Wrong: FAULT 1 MAIN LINE 1 UNDEFINED

      PRINT *, N
      END

Right:

      N = 1
      PRINT *, N
      END
";

const WAITING: &str = "WAITING process unit LINE n FOR FULL name OF a: all processes that live wait,
each with a line. This one waits until the variable is full, or FOR EMPTY until
it is empty. OF a says that it is of activation a; name#k is an element of it,
and /block/#k a place in COMMON. Status 4, or 3 where a process had a fault.
Fill or empty it in a process that goes on: each read needs a value of its own.
`hepf why FILE` says who changed it last, and where.

Wrong: WAITING 1 MAIN LINE 4 FOR FULL $X OF 1

      INTEGER $X
      $X = 1
      I = $X
      J = $X
      END

Right:

      INTEGER $X
      $X = 1
      I = $X
      J = I
      END
";

const STOPPED_ARENA_FULL: &str =
    "STOPPED ARENA FULL: storage has no room for COMMON and the main program, or at a
CALL, CREATE or reference to a function for its variables. Status 5.
End the recursion, let fewer processes live at once, or give more cells by
--arena N, 65536 where it isn't given and 16777216 at most. `hepf list FILE`
says how many each unit takes.

Wrong: STOPPED ARENA FULL

      CALL DOWN(9)
      END
      SUBROUTINE DOWN(N)
      CALL DOWN(N-1)
      END

Right:

      CALL DOWN(9)
      END
      SUBROUTINE DOWN(N)
      IF (N .GT. 0) CALL DOWN(N-1)
      END
";

const STOPPED_STEP_LIMIT: &str =
    "STOPPED STEP LIMIT: the history has as many entries as it may have. Status 6.
Look for a loop that doesn't end, as one that asks for FULL($X) again and again
where a read would wait. A long run gets more by --steps N, 10000000 where it
isn't given and 4294967296 at most; a long history takes memory.

Wrong: STOPPED STEP LIMIT

      I = 0
   10 I = I+2
      IF (I .NE. 9) GO TO 10
      END

Right:

      I = 0
   10 I = I+2
      IF (I .LT. 9) GO TO 10
      END
";

const NO_MEMORY: &str =
    "NO MEMORY: memory was refused. Standard output gets nothing, unless it was the
text of --history that had no room. Status 7, which WORKERS REFUSED has too.
Give fewer --steps or a smaller --arena, or end other programs. A long history
takes most: an entry that isn't that of the one before it takes memory, so
processes that take turns in loops that don't end come to this.

Wrong, after ulimit -v 20000: NO MEMORY

      CREATE S
      CALL S
      END
      SUBROUTINE S
   10 GO TO 10
      END

Right, after ulimit -v 20000:

      CREATE S
      CALL S
      END
      SUBROUTINE S
      DO 10 I=1,9
   10 CONTINUE
      END
";

const WORKERS_REFUSED: &str =
    "WORKERS REFUSED number: the threads that --workers asked for gave up, or left no
report. Standard output gets nothing. Status 7.
`hepf explain NUMBER` says what to do about each number, 506 and 701 to 705. The
usual one is 704, that a thread couldn't be started: take fewer workers or none.

Wrong, by run a.f --workers 16, after ulimit -v 20000: WORKERS REFUSED 704

      PRINT *, 1
      END

Right, by run a.f --workers 2:

      PRINT *, 1
      END
";

const READ_FAULT: &str =
    "READ FAULT: a file can't be opened, or a read of it or of standard input failed,
or 5000000 reads didn't reach its end. Status 8, which WRITE FAULT has too.
Look at the names of the source, the choices and the history: whether they are
there, are no folders, and may be read by you.

Wrong, by run a.f --choices nosuch: READ FAULT

      PRINT *, 1
      END

Right, by run a.f:

      PRINT *, 1
      END
";

const WRITE_FAULT: &str =
    "WRITE FAULT AFTER n: a write failed or took nothing. The stream, or the file of
--history, has the first n bytes; n is 0 where that file can't be opened. The
status is 8. Of a pipe that nobody reads any more nothing is said.
See that the folder is there, that you may write to it, and that the device has
room.

Wrong, by run a.f --history nosuch/h: WRITE FAULT AFTER 0

      PRINT *, 1
      END

Right, by run a.f --history h:

      PRINT *, 1
      END
";

const REFUSED: &str =
    "REFUSED number LINE n: the source isn't accepted because of what stands in line
n, so nothing of it ran. Behind 202, 301 and 310 comes NAME and what it is
about. Status 1, or 2 where it is of choices or of a history.
`hepf explain NUMBER` says what the number means and what to do about it. There
may be more: mend the first one and check again.

Wrong: REFUSED 301 LINE 1 NAME X

      X = 1
      END

Right:

      K = 1
      END
";

const WARNING: &str =
    "WARNING LINE n what: check --warn found what may well be a mistake, though the
program runs. Behind column 72 nothing has an effect. Nothing goes to a label
UNUSED, and nothing calls such a unit. CREATE s PASSES x OF A DO: the DO may
change x before the process reads it; (x) passes its value. A name USED ONCE may
be misspelled. A read of a name with $ NEVER FILLED waits for ever, and what is
stored in one NEVER READ is lost. Status 0, as without warnings.

Wrong, by check --warn a.f: WARNING LINE 2 NAME NUMBRE USED ONCE

      NUMBER = 1
      NUMBRE = NUMBER+1
      PRINT *, NUMBER
      END

Right, by check --warn a.f:

      NUMBER = 1
      NUMBER = NUMBER+1
      PRINT *, NUMBER
      END
";

const DONE: &str = "The run or replay is done and nothing went wrong, or check or list finds nothing
to refuse, or a text was asked for. STILL RUNNING ends a replay of a history
whose run could go on.
It says nothing of other orders: a race may come out otherwise with other
choices. This program prints 1 in each order, since the read waits.

Right:

      INTEGER $X
      CREATE GIVE($X)
      PRINT *, $X
      END
      SUBROUTINE GIVE($Y)
      INTEGER $Y
      $Y = 1
      END
";

const UNUSABLE: &str =
    "The words of the command line are wrong, or the choices or the history can't be
used. Standard error says why: error and USAGE are of the words, REFUSED 501 and
602 of the choices, 601 and 603 of the history.
`hepf --help` and `hepf COMMAND --help` have the words.

Wrong, by run a.f --workers 2 --choices c: USAGE: --choices excludes --workers

      PRINT *, 1
      END

Right, by run a.f --workers 2:

      PRINT *, 1
      END
";

const UNBUILT: &str =
    "The program couldn't be built, or `hepf-unproved` got no answer from it. This is
a status of the launchers alone, and no source gets it.
Read the lines above it on standard error: they name the crate and say why.
";

const RACE: &str = "RACE on v: access and access, n times: two processes access one plain variable,
one of them stores there, and neither access comes before the other. races
writes it of one run, with status 9; other runs may have others.
Hand the value over by a $ variable, or read it after WAITF of one: FULL waits
for nobody. Put a variable that the loop changes in parentheses where CREATE
passes it.

Wrong, by races a.f: RACE on I OF 1

      DO 10 I = 1, 2
   10 CREATE S(I)
      END
      SUBROUTINE S(J)
      PRINT *, J
      END

Right, by races a.f:

      DO 10 I = 1, 2
   10 CREATE S((I))
      END
      SUBROUTINE S(J)
      PRINT *, J
      END
";

const EXPECTED: &str =
    "EXPECTED ONE OUTCOME: explore --expect-one found several outcomes, or that none
is possible. EXPECTED STATUS n: explore --expect-status n found an outcome with
another status, or that none is possible. Status 10.
Give --keep PREFIX too: why, trace and diff show how each outcome comes about.

Wrong, by explore a.f --expect-one: EXPECTED ONE OUTCOME

      CREATE S(1)
      PRINT *, 2
      END
      SUBROUTINE S(N)
      PRINT *, N
      END

Right, by explore a.f --expect-one:

      INTEGER $X
      CREATE GIVE($X)
      PRINT *, $X
      END
      SUBROUTINE GIVE($Y)
      INTEGER $Y
      $Y = 1
      END
";

const STATUS: &str = "The exit status of hepf says how the run, or what was asked for, has ended.
0   Done, or a text was shown. A replay could go on: STILL RUNNING.
1   The source is refused: REFUSED number LINE n.
2   The words, the choices or the history can't be used.
3   A process ended by a fault: FAULT process unit LINE n fault.
4   All processes that live wait: WAITING, a line for each.
5   STOPPED ARENA FULL: a frame doesn't fit.
6   STOPPED STEP LIMIT: the history is full.
7   NO MEMORY, or WORKERS REFUSED number.
8   READ FAULT or WRITE FAULT AFTER n: a file or a stream failed.
9   RACE on v: races found a race.
10  EXPECTED ONE OUTCOME, EXPECTED STATUS n: explore found other outcomes.
70  The program couldn't be built, or hepf-unproved got no answer from it.
`hepf explain status 4` says more of one.
";

const DEADLOCK: &str =
    "DEADLOCK: all processes that live wait, each with a line WAITING, and the run is
over. `hepf why FILE` says who was the last to change what each waits for.
CIRCLE p WAITS FOR WHAT WAS CHANGED BY q, p: p waits for a variable that q was
the last to change, and q for one that p was. Without a CIRCLE a process waits
for a variable that nobody changed, or it or an ended process changed last.
Let all take variables in one order, and store anew for each further read.

Wrong: WAITING 1 MAIN LINE 3 FOR EMPTY $A OF 1

      INTEGER $A
      $A = 1
      $A = 2
      I = $A
      END

Right:

      INTEGER $A
      $A = 1
      I = $A
      $A = 2
      END
";

const SEED: &str = "SEED: the number that decides who comes next in a run by lots, 1 to 4294967296.
`hepf run FILE --seed N` makes the same run each time. `hepf sample FILE` makes
one by each seed from 1 to 100 and counts what comes; FIRST BY SEED n names the
first run that ended so. What no seed shows isn't shown never to happen. This
program has a race: by one seed it prints 1, by another it ends in a fault.

Wrong, by run a.f --seed 2: FAULT 1 MAIN LINE 2 UNDEFINED

      CREATE S(N)
      PRINT *, N
      END
      SUBROUTINE S(M)
      M = 1
      END

Right, by run a.f --seed 1:

      CREATE S(N)
      PRINT *, N
      END
      SUBROUTINE S(M)
      M = 1
      END
";

const WORDS: &str = "`hepf explain WORD..` says what each of these means, in small letters too.
Refusals    101 to 107, 201 to 205, 301 to 312, 401, 402, 501, 506, 601 to 603,
            701 to 705
Faults      FAULT, OVERFLOW, DIVIDE, RANGE, UNDEFINED, SHAPE, STEP
Other ends  WAITING, STOPPED ARENA FULL, STOPPED STEP LIMIT, NO MEMORY,
            WORKERS REFUSED, READ FAULT, WRITE FAULT, REFUSED, STILL RUNNING
Statuses    STATUS, STATUS 0 to STATUS 10, STATUS 70; or the number alone
Other words WARNING, RACE, EXPECTED, DEADLOCK, CIRCLE, SEED, WORDS
STOPPED may be left out. Without a word WORDS is explained.
";

// The names of faults, each with its meaning and advice.
const FAULTS: [(&str, &str); 6] = [
    ("OVERFLOW", OVERFLOW),
    ("DIVIDE", DIVIDE),
    ("RANGE", RANGE),
    ("UNDEFINED", UNDEFINED),
    ("SHAPE", SHAPE),
    ("STEP", STEP),
];

// The other ends of a run.
const ENDS: [(&str, &str); 15] = [
    ("FAULT", FAULT),
    ("WAITING", WAITING),
    ("STOPPED ARENA FULL", STOPPED_ARENA_FULL),
    ("ARENA FULL", STOPPED_ARENA_FULL),
    ("STOPPED STEP LIMIT", STOPPED_STEP_LIMIT),
    ("STEP LIMIT", STOPPED_STEP_LIMIT),
    ("NO MEMORY", NO_MEMORY),
    ("WORKERS REFUSED", WORKERS_REFUSED),
    ("READ FAULT", READ_FAULT),
    ("WRITE FAULT", WRITE_FAULT),
    ("REFUSED", REFUSED),
    ("STILL RUNNING", DONE),
    ("WARNING", WARNING),
    ("RACE", RACE),
    ("EXPECTED", EXPECTED),
];

const STATUSES: [(&str, &str); 13] = [
    ("STATUS", STATUS),
    ("STATUS 0", DONE),
    ("STATUS 1", REFUSED),
    ("STATUS 2", UNUSABLE),
    ("STATUS 3", FAULT),
    ("STATUS 4", WAITING),
    ("STATUS 5", STOPPED_ARENA_FULL),
    ("STATUS 6", STOPPED_STEP_LIMIT),
    ("STATUS 7", NO_MEMORY),
    ("STATUS 8", READ_FAULT),
    ("STATUS 9", RACE),
    ("STATUS 10", EXPECTED),
    ("STATUS 70", UNBUILT),
];

// The statuses by their numbers.
const STATUS_NUMBERS: [(u16, &str); 12] = [
    (0, DONE),
    (1, REFUSED),
    (2, UNUSABLE),
    (3, FAULT),
    (4, WAITING),
    (5, STOPPED_ARENA_FULL),
    (6, STOPPED_STEP_LIMIT),
    (7, NO_MEMORY),
    (8, READ_FAULT),
    (9, RACE),
    (10, EXPECTED),
    (70, UNBUILT),
];

// Other words for what a run shows, and the list of all words.
const TERMS: [(&str, &str); 4] = [
    ("DEADLOCK", DEADLOCK),
    ("CIRCLE", DEADLOCK),
    ("SEED", SEED),
    ("WORDS", WORDS),
];

// The meaning of a name, if it is among these.
fn meaning_among(meanings: &[(&'static str, &'static str)], name: &str) -> Option<&'static str>
    ensures { is_some result ≡ is_among (map (λ meaning. meaning.0.now) meanings.now) name.now }
{
    match meanings {
        [] => None,
        [(known, text), others @ ..] => {
            if name == *known {
                Some(*text)
            } else {
                meaning_among(others, name)
            }
        }
    }
}

/// The meaning of a fault, another end of a run, an exit status or a term with this name, and advice.
pub fn meaning(name: &str) -> Option<&'static str>
    ensures { is_some result ≡ has_meaning name.now }
{
    if let Some(text) = meaning_among(&FAULTS, name) {
        return Some(text);
    }
    if let Some(text) = meaning_among(&ENDS, name) {
        return Some(text);
    }
    if let Some(text) = meaning_among(&STATUSES, name) {
        return Some(text);
    }
    meaning_among(&TERMS, name)
}

/// The meaning of the exit status with this number, and advice.
pub(crate) fn status_meaning(number: u16) -> Option<&'static str>
    ensures { is_some result ≡ is_status number }
{
    explanation_among(&STATUS_NUMBERS, number)
}
