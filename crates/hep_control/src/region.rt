//! DO ranges (X3.9-1978, 11.10.1), regions into which no jump may lead, and jumps (11.6.3, 11.7.2, 11.8.2 and 11.10.8).
ghost use Rattle.std.below.core.specs.declared.int.usize.TheConstants.{MAX};
ghost use Rattle.std.specs.Prelude.{◌≡◌, ◌<◌, ◌≤◌};

use hep_source::Name;

/// The range of a DO: the index of the DO, that of its terminal statement, and its variable.
#[derive(Clone, Copy)]
pub(crate) struct DoRange {
    pub start: usize,
    pub terminal: usize,
    pub variable: Name,
    ghost forward: { start < terminal },
    ghost counted: { terminal < MAX },
}

// A DO range or an IF block: the statements after one statement and before another.
#[derive(Clone, Copy)]
pub(crate) struct Region {
    pub after: usize,
    pub before: usize,
    ghost counted: { before ≤ MAX },
}

impl Region {
    pub(crate) fn new(after: usize, before: usize) -> Region
        ensures after { result.after ≡ after }
        ensures before { result.before ≡ before }
    {
        Region { after, before }
    }
}

// A jump: a statement that may jump to another one.
#[derive(Clone, Copy)]
pub(crate) struct Jump {
    pub from: usize,
    pub to: usize,
    pub line: u32,
    ghost from_counted: { from < MAX },
    ghost to_counted: { to < MAX },
}
