//! Rising numbers and their places, counted from 1.
ghost use Rattle.std.specs.Prelude.{◌≡◌, ◌+◌, ◌++◌, ◌<◌, ◌≤◌, ◌∷◌, [], ℕ, length, vec_capacity, vec_len};
ghost use Rattle.hep_blocked.specs.Numbers.{AreRising};
ghost use Rattle.hep_blocked.specs.Rosters.{number_at, place_of, places_to};

/// The number of elements that aren't above p.
///
/// This costs a constant time where p is 0 or each number up to p is among them, and otherwise the logarithm of their
/// count.
#[inline(always)]
pub(crate) fn places_to(numbers: &[u64], p: u64) -> u64
    requires rising { (greatest : ℕ) × AreRising 1 greatest numbers.now }
    ensures { result ≡ places_to numbers.now p }
{
    if p == 0 {
        return 0;
    }
    if p <= numbers.len() as u64 && numbers[p as usize - 1] == p {
        return p;
    }
    places_sought(numbers, p)
}

// The same by binary search. It is a function of its own, so that the fast case needs no stack space for it.
#[inline(never)]
fn places_sought(numbers: &[u64], p: u64) -> u64
    requires rising { (greatest : ℕ) × AreRising 1 greatest numbers.now }
    ensures { result ≡ places_to numbers.now p }
{
    match numbers.binary_search(&p) {
        Ok(at) => at as u64 + 1,
        Err(at) => at as u64,
    }
}

/// Appends a number, for which there is room.
pub(crate) fn append(numbers: &mut Vec<u64>, number: u64)
    requires { vec_len numbers.old < vec_capacity numbers.old }
    ensures added { numbers.new.items ≡ numbers.old.items ++ number ∷ [] }
    ensures len { vec_len numbers.new ≡ vec_len numbers.old + 1 }
    ensures capacity { vec_capacity numbers.old ≤ vec_capacity numbers.new }
{
    let _ = numbers.push(number);
}

/// The number at a place.
pub(crate) fn number_at(numbers: &[u64], place: u64) -> u64
    requires some { 1 ≤ place }
    requires inside { place ≤ length numbers.now }
    ensures { result ≡ number_at numbers.now place }
{
    numbers[place as usize - 1]
}

/// The place of a number; 0 where it isn't among them.
///
/// This costs as much as `places_to`.
pub(crate) fn place_of(numbers: &[u64], p: u64) -> u64
    requires rising { (greatest : ℕ) × AreRising 1 greatest numbers.now }
    ensures place { result ≡ place_of numbers.now p }
    ensures inside { result ≤ length numbers.now }
{
    let place = places_to(numbers, p);
    if place > 0 && number_at(numbers, place) == p {
        place
    } else {
        0
    }
}
