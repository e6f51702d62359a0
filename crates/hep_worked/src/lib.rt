//! Worked sources: small sources, with what the definitions compute for them.
//!
//! There is no code here, and one law, of the lines of programs that are read. `proofs/` reads the sources with the
//! reading functions of the grammars. Its theorems say which violation of each is reported, or how it runs: its
//! records, its faults, which processes wait for which cells, its history and its cells.
#![tactic(auto)]

pub mod laws;
