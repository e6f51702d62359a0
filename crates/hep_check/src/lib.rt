//! The checker: it accepts a program that violates none of the conditions 301 to 312 (docs/LANGUAGE.md, 10).
//!
//! Begin with [`check`], which answers with a [`Checked`] program or with the first violation. [`judge_further`] also gives all violations
//! after the first one, with the part of the statement at fault, for the notes of `--long`; [`told`] finds them in one walk over the
//! statements, and [`culprit_of`] finds the part at fault. [`list_text`] writes the lines of `list`: the numbers of cells of the frames and
//! common blocks of a checked program. The condition 312 is part of this crate.
#![tactic(auto)]

pub mod all_violations;
mod argument_culprits;
pub mod checked;
mod count_culprits;
pub mod culprit;
pub mod culprit_place;
pub mod diagnostics;
pub mod diagnostics_laws;
mod expression_culprits;
mod form_culprits;
pub mod frame_sizes;
mod label_culprits;
mod listing;
mod name_clashes;
pub mod program_violations;
pub mod refusal_laws;
mod resume;
mod sole_names;
mod statement_conditions;
mod unit_context;
mod unit_violations;
mod unknown_names;
mod untyped_names;
mod violation_lines;

pub use all_violations::told;
pub use argument_culprits::misfit;
pub use checked::{JudgeFault, Rejection, check, fault_of, judge, judge_further};
pub use count_culprits::miscounted;
pub use culprit::{Culprit, culprit_of};
pub use culprit_place::{culprit_text, position_of};
pub use name_clashes::NameClashes;
/// The reason why a program isn't accepted: one of the refusals 301 to 312. Only 301 and 310 are about a name.
pub use diagnostics::{Diagnostic, told_violations};
pub use hep_base::Refusal as CheckFault;
pub use hep_conditions::Checked;
pub use listing::list_text;
