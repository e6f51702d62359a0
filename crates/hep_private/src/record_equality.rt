//! Comparison of two records.
ghost use Rattle.std.specs.Prelude.{◌≡◌, ◌↔◌, IsTrue};

use crate::record::Record;

// The index of a DO's operation, and the cells of its variable and of the DO.
#[derive(Clone, Copy, Debug, PartialEq, Eq)]
struct LoopPlace {
    at: usize,
    variable: u32,
    cells: u32,
}

// The value that its variable gets, its count and its increment.
#[derive(Clone, Copy, Debug, PartialEq, Eq)]
struct LoopNumbers {
    value: i64,
    count: i64,
    increment: i64,
}

// Which of a DO's three values were read before any step had stored them.
#[derive(Clone, Copy, Debug, PartialEq, Eq)]
struct LoopReads {
    variable: bool,
    count: bool,
    increment: bool,
}

// The record of a step of a DO, in three parts.
#[derive(Clone, Copy)]
struct LoopRecord {
    place: LoopPlace,
    numbers: LoopNumbers,
    reads: LoopReads,
}

// The entry of a DO reads none of them.
const NOTHING: LoopReads = LoopReads {
    variable: false,
    count: false,
    increment: false,
};

fn same_place(a: LoopPlace, b: LoopPlace) -> bool
    ensures { IsTrue result ↔ (a ≡ b) }
{
    a == b
}

fn same_numbers(a: LoopNumbers, b: LoopNumbers) -> bool
    ensures { IsTrue result ↔ (a ≡ b) }
{
    a == b
}

fn same_reads(a: LoopReads, b: LoopReads) -> bool
    ensures { IsTrue result ↔ (a ≡ b) }
{
    a == b
}

fn same_loop(a: LoopRecord, b: LoopRecord) -> bool
    ensures { IsTrue result ↔ (a ≡ b) }
{
    same_place(a.place, b.place)
        && same_numbers(a.numbers, b.numbers)
        && same_reads(a.reads, b.reads)
}

/// Whether two records are equal.
pub(crate) fn same_record(a: Record, b: Record) -> bool
    ensures { IsTrue result ↔ (a ≡ b) }
{
    match (a, b) {
        (Record::Goes { at: i }, Record::Goes { at: j }) => i == j,
        (Record::Gives { at: i, value: v }, Record::Gives { at: j, value: w }) => i == j && v == w,
        (
            Record::Reads {
                first: f,
                cell: c,
                at: i,
                value: v,
            },
            Record::Reads {
                first: g,
                cell: d,
                at: j,
                value: w,
            },
        ) => f == g && c == d && i == j && v == w,
        (
            Record::Stores {
                cell: c,
                at: i,
                value: v,
            },
            Record::Stores {
                cell: d,
                at: j,
                value: w,
            },
        ) => c == d && i == j && v == w,
        (
            Record::Enters {
                variable: x,
                cells: c,
                at: i,
                initial: v,
                count: m,
                increment: p,
            },
            Record::Enters {
                variable: y,
                cells: d,
                at: j,
                initial: w,
                count: n,
                increment: q,
            },
        ) => {
            same_loop(
                LoopRecord {
                    place: LoopPlace {
                        at: i,
                        variable: x,
                        cells: c,
                    },
                    numbers: LoopNumbers {
                        value: v,
                        count: m,
                        increment: p,
                    },
                    reads: NOTHING,
                },
                LoopRecord {
                    place: LoopPlace {
                        at: j,
                        variable: y,
                        cells: d,
                    },
                    numbers: LoopNumbers {
                        value: w,
                        count: n,
                        increment: q,
                    },
                    reads: NOTHING,
                },
            )
        }
        (
            Record::Ends {
                first_variable: f,
                first_count: k,
                first_increment: s,
                variable: x,
                cells: c,
                at: i,
                raised: v,
                count: m,
                increment: p,
            },
            Record::Ends {
                first_variable: g,
                first_count: l,
                first_increment: t,
                variable: y,
                cells: d,
                at: j,
                raised: w,
                count: n,
                increment: q,
            },
        ) => {
            same_loop(
                LoopRecord {
                    place: LoopPlace {
                        at: i,
                        variable: x,
                        cells: c,
                    },
                    numbers: LoopNumbers {
                        value: v,
                        count: m,
                        increment: p,
                    },
                    reads: LoopReads {
                        variable: f,
                        count: k,
                        increment: s,
                    },
                },
                LoopRecord {
                    place: LoopPlace {
                        at: j,
                        variable: y,
                        cells: d,
                    },
                    numbers: LoopNumbers {
                        value: w,
                        count: n,
                        increment: q,
                    },
                    reads: LoopReads {
                        variable: g,
                        count: l,
                        increment: t,
                    },
                },
            )
        }
        _ => false,
    }
}
