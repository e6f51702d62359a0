//! Laws of strings of JSON.
ghost use Rattle.std.specs.Prelude.{◌≡◌, ◌++◌, ℕ, List, Some};
ghost use Rattle.std.specs.List.{All};
ghost use Rattle.hep_formats.specs.Strings.{IsPrintable, after_string, json_string};

/// A string is printable ASCII alone, so it is on one line. No quote in it is bare: who reads it from its first quote on finds
/// its end, just before what comes after it.
pub fn strings_are_read_to_their_ends()
    ensures printable { (text : List ℕ) → All IsPrintable (json_string text) }
    ensures ended { (text rest : List ℕ) → after_string (json_string text ++ rest) ≡ Some rest }
{}
