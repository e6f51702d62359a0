//! The options of `explore`, and who is told of its states.
ghost use Rattle.std.specs.Prelude.{◌≤◌};

/// The options of a search.
#[derive(Clone, Copy)]
pub struct ExploreOptions {
    /// The arena's size in cells, 1 to 16,777,216.
    pub arena: u32,
    /// The search is cut short where there are more states.
    pub states: u32,
    /// Whether just one outcome is expected.
    pub expect_one: bool,
    /// The status that each outcome is expected to have.
    pub expect_status: Option<u8>,
    ghost some: { 1 ≤ arena },
    ghost few: { arena ≤ 16777216 },
}

/// The options of a search, whether notes are written besides the lines of the standard form, and who is told of its states.
#[derive(Drop)]
pub struct ExploreRequest<'a, O> {
    pub options: &'a ExploreOptions,
    pub long: bool,
    pub observer: &'a O,
}
