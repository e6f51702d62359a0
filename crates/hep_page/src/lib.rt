//! The text of `state`, and the page and the picture of a run: what the page has, and that what each turn changes leads to what everything
//! holds then.
//!
//! [`survey`] reads what everything holds after the history of a core, in parts; `state_text` makes the text of `state` of it. A page is a
//! definition, `page_text` of `specs/Pages`, and `proofs/Lead` has its laws. [`page_text`](run_page::page_text) makes the entries of a history
//! again, surveys after each turn, and puts the texts between the pieces of the template of `docs/page`.
//!
//! A picture is a definition too, `picture_text` of `specs/Pages`: a function of the lines of `trace`. [`picture_of`](picture::picture_of)
//! reads a mark of each line, and draws lanes of processes by these marks.
#![tactic(auto)]

mod change_log;
pub mod changes;
mod edit;
pub mod html;
mod lane_lines;
mod lane_spot;
mod lines;
pub mod page;
pub mod picture;
mod picture_frame;
mod picture_parts;
mod picture_paths;
mod picture_scale;
mod picture_shape;
mod picture_template;
pub mod run_page;
pub mod run_picture;
mod source_lines;
pub mod state_view;
mod template;

pub use changes::append_change;
pub use edit::append_edit;
pub use html::append_html;
pub use page::{Template, Texts, page_of, page_template};
pub use picture::picture_of;
pub use run_page::{ShownEntries, page_text};
pub use run_picture::picture_text;
pub use state_view::{Parts, SourceNames, append_state, state_text, survey};
