//! How a picture is laid out.
ghost use Rattle.std.specs.Prelude.{◌≤◌};

/// How a picture is laid out.
#[derive(Clone, Copy)]
pub struct PictureScale {
    /// How many turns a column has.
    pub turns: u64,
    /// The width of a column.
    pub step: u64,
    /// After how many columns there is a number.
    pub tick: u64,
    /// How many turns these have.
    pub tick_turns: u64,
    /// How many columns a row has.
    pub row: u64,
    /// The width of a row.
    pub wide: u64,
    /// Whether a column may have several turns.
    pub folded: bool,
    ghost some: { 1 ≤ turns },
    ghost ticks: { 1 ≤ tick },
    ghost rows: { 1 ≤ row },
}
