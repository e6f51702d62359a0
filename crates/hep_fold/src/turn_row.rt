//! Turns of one process in a row.
ghost use Rattle.std.specs.Prelude.{◌≡◌, ◌+◌, ◌^◌, ◌<◌, ◌≤◌, true};
ghost use Rattle.hep_fold.specs.Observers.{later_row};

/// A number of turns of one process, and the number of the first one's entry, counted from 1. Where they are apart,
/// each is an entry of its own; else all are part of one entry.
#[derive(Clone, Copy)]
pub struct TurnRow {
    pub entry: u64,
    pub process: u64,
    pub count: u64,
    pub apart: bool,
}

impl TurnRow {
    /// The turns after the first `made` ones.
    pub(crate) fn after(self, made: u64) -> TurnRow
        requires within { made ≤ self.count }
        requires few { self.apart ≡ true → self.entry + self.count < 2 ^ 64 }
        ensures { result ≡ later_row self made }
    {
        if self.apart {
            return TurnRow {
                entry: self.entry + made,
                process: self.process,
                count: self.count - made,
                apart: true,
            };
        }
        TurnRow {
            entry: self.entry,
            process: self.process,
            count: self.count - made,
            apart: false,
        }
    }
}
