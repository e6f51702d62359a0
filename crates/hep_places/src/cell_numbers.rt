//! Numbers of cells in 32 bits. Each arena is small enough for them.
ghost use Rattle.std.specs.Prelude.{◌≡◌, ◌+◌, ◌*◌};
ghost use Rattle.hep_storage.specs.Starts.{narrowed};

// A number in 32 bits.
pub(crate) fn in_32_bits(number: usize) -> u32
    ensures { result ≡ narrowed number }
{
    u32::try_from(number).unwrap_or(u32::MAX)
}

// The cell `cells` cells after one.
pub(crate) fn further(first: u32, cells: u32) -> u32
    ensures { result ≡ narrowed (first + cells) }
{
    first.saturating_add(cells)
}

// The cell `pairs` pairs of cells after one.
pub(crate) fn behind_pairs(first: u32, pairs: usize) -> u32
    ensures { result ≡ narrowed (first + 2 * pairs) }
{
    let pairs = in_32_bits(pairs);
    further(further(first, pairs), pairs)
}
