//! Sources that come in parts, fail or don't end, and streams that take few bytes or fail.

use hep_run::{Options, run_source};
use std::alloc::Global;
use std::io;
use std::io::{Error, ErrorKind, Read, Write};
use std::process::Abort;

const FIRST: &[u8] = b"      PRINT *,'A=',1+2*3,.TRUE.\n      END\n";

const RECORD: &[u8] = b" A=7 T\n";

const FOR_EVER: usize = 1 << 62;

const MOST_READS: usize = 5_000_000;

// The status of a run by the defaults, without what its contract says of it.
fn status_of<R: Read, W: Write>(
    alloc: Global,
    source: &mut R,
    output: &mut W,
    messages: &mut W,
) -> u8 {
    run_source(alloc, source, &Options::defaults(alloc), output, messages).status
}

// ---- sources

// Gives so many bytes of a text a call, from the beginning again at its end where it is endless. After so many calls some fail.
#[derive(Drop)]
struct Fickle {
    text: &'static [u8],
    place: usize,
    step: usize,
    is_endless: bool,
    before: usize,
    failing: usize,
    kind: ErrorKind,
}

impl Read for Fickle {
    fn read(&mut self, buf: &mut [u8]) -> io::Result<usize> {
        if self.before == 0 && self.failing != 0 {
            self.failing -= 1;
            return Err(Error::from(self.kind));
        }
        self.before = self.before.saturating_sub(1);
        if self.is_endless && self.text.len() <= self.place {
            self.place = 0;
        }
        let left = self.text.get(self.place..).unwrap_or(b"");
        let count = left.len().min(self.step).min(buf.len());
        buf[..count].copy_from_slice(&left[..count]);
        self.place = self.place.saturating_add(count);
        Ok(count)
    }
}

// What comes of a run of such a source: both outputs and the status.
type Ends = (&'static [u8], &'static [u8], u8);

const DONE: Ends = (RECORD, b"", 0);

const TOO_LONG: Ends = (b"", b"REFUSED 107 LINE 0\n", 1);

const READ_FAULT: Ends = (b"", b"READ FAULT\n", 8);

fn read_from(rt: &impl Abort, alloc: Global, reader: &mut Fickle, ends: Ends) {
    let mut output = Vec::new(alloc);
    let mut messages = Vec::new(alloc);
    let status = status_of(alloc, reader, &mut output, &mut messages);
    assert!(rt; output.as_slice() == ends.0);
    assert!(rt; messages.as_slice() == ends.1);
    assert!(rt; status == ends.2);
}

// Bytes a call, whether it is endless, calls before the first that fails, calls that fail, and what comes of it.
const SOURCES: [(usize, bool, usize, usize, ErrorKind, Ends); 7] = [
    (1, false, 0, 0, ErrorKind::Other, DONE),
    (1, false, 0, 1, ErrorKind::Interrupted, DONE),
    (1, false, 9, 1, ErrorKind::Interrupted, DONE),
    (7, false, 3, 40, ErrorKind::Interrupted, DONE),
    (1, true, 0, 0, ErrorKind::Other, TOO_LONG),
    (1_000, true, 0, 0, ErrorKind::Other, TOO_LONG),
    (1, false, 9, FOR_EVER, ErrorKind::Interrupted, READ_FAULT),
];

/// Sources that come in parts, are interrupted, fail or have no end.
pub fn sources(rt: &impl Abort, alloc: Global) {
    for (step, is_endless, before, failing, kind, ends) in SOURCES {
        let mut reader = Fickle {
            text: FIRST,
            place: 0,
            step,
            is_endless,
            before,
            failing,
            kind,
        };
        read_from(rt, alloc, &mut reader, ends);
        // Where it didn't fail for ever, the calls that fail were made.
        let is_given_up = failing == FOR_EVER;
        assert!(rt; is_given_up || reader.failing == 0);
        assert!(rt; !is_given_up || failing.saturating_sub(reader.failing) < MOST_READS);
    }
}

/// One call fails, whichever it is: nothing of the run is written.
pub fn failed_reads(rt: &impl Abort, alloc: Global) {
    for before in 0..FIRST.len() + 1 {
        let mut reader = Fickle {
            text: FIRST,
            place: 0,
            step: 1,
            is_endless: false,
            before,
            failing: 1,
            kind: ErrorKind::Other,
        };
        read_from(rt, alloc, &mut reader, READ_FAULT);
    }
}

// ---- outputs

// Takes so many bytes a call. Once it has taken so many, some calls fail, and behind those it takes on.
#[derive(Drop)]
struct Slow {
    taken: Vec<u8>,
    step: usize,
    most: usize,
    failing: usize,
}

impl Slow {
    fn new(alloc: Global, (step, most, failing): (usize, usize, usize)) -> Self {
        Slow {
            taken: Vec::new(alloc),
            step,
            most,
            failing,
        }
    }
}

impl Write for Slow {
    fn write(&mut self, buf: &[u8]) -> io::Result<usize> {
        let room = self.most.saturating_sub(self.taken.len());
        if room == 0 && self.failing != 0 {
            self.failing -= 1;
            return Err(Error::from(ErrorKind::Other));
        }
        let room = if room == 0 { self.step } else { room };
        let count = buf.len().min(self.step).min(room);
        self.taken.extend_from_slice(&buf[..count])?;
        Ok(count)
    }

    fn flush(&mut self) -> io::Result<()> {
        Ok(())
    }
}

const ALL: (usize, usize, usize) = (100, 100, 0);

// Bytes a call, bytes before it fails and calls that fail, of standard output and of standard error; the source; and what comes of it.
// Once a line can't be written, no more than the line of that fault is tried.
const OUTPUTS: [((usize, usize, usize), (usize, usize, usize), &[u8], Ends); 7] = [
    ((2, 100, 0), ALL, FIRST, DONE),
    (
        (2, 3, FOR_EVER),
        ALL,
        FIRST,
        (b" A=", b"WRITE FAULT AFTER 3\n", 8),
    ),
    ((2, 3, 1), ALL, FIRST, (b" A=", b"WRITE FAULT AFTER 3\n", 8)),
    ((0, 100, 0), ALL, FIRST, (b"", b"WRITE FAULT AFTER 0\n", 8)),
    ((2, 3, FOR_EVER), (2, 0, FOR_EVER), FIRST, (b" A=", b"", 8)),
    (ALL, (2, 5, FOR_EVER), b"", (b"", b"REFUS", 8)),
    (ALL, (2, 5, 1), b"", (b"", b"REFUSWRITE FAULT AFTER 5\n", 8)),
];

/// Outputs that take few bytes a call, fail, or take nothing.
pub fn outputs(rt: &impl Abort, alloc: Global) {
    for (of_output, of_messages, source, ends) in OUTPUTS {
        let mut reader = source;
        let mut output = Slow::new(alloc, of_output);
        let mut messages = Slow::new(alloc, of_messages);
        let status = status_of(alloc, &mut reader, &mut output, &mut messages);
        assert!(rt; output.taken.as_slice() == ends.0);
        assert!(rt; messages.taken.as_slice() == ends.1);
        assert!(rt; status == ends.2);
    }
}
