//! Tests of what no case of the folder `tests` can show: calls of the crates with memory and without, with readers and
//! writers that behave badly, and with workers that are held. They are a crate of their own, so that they are checked
//! beside `hepf` and not with it, and one crate, since what they stand on is read and compiled once more for each.
#![tactic(auto)]

#[cfg(test)]
mod tests;
