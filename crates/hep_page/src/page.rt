//! The page of a run, by its texts.
ghost use Rattle.std.specs.Prelude.{◌≡◌, ◌++◌, IfOk, OnOk};
ghost use Rattle.hep_page.specs.Html.{html};
ghost use Rattle.hep_page.specs.Templates as words;

use crate::html::append_html;
use crate::template::{BEFORE_CHANGES, BEFORE_OPENING, BEFORE_SOURCE, BEFORE_TRACE, END};
use std::alloc::{AllocError, Global};

/// The pieces of a template, between which the texts of a run stand.
#[derive(Clone, Copy)]
pub struct Template<'a> {
    pub before_source: &'a [u8],
    pub before_opening: &'a [u8],
    pub before_trace: &'a [u8],
    pub before_changes: &'a [u8],
    pub rest: &'a [u8],
}

/// The texts of a run: its source, what everything holds before the first entry, what each turn does, and what it changes.
#[derive(Clone, Copy)]
pub struct Texts<'a> {
    pub source: &'a [u8],
    pub opening: &'a [u8],
    pub trace: &'a [u8],
    pub changes: &'a [u8],
}

/// The template of all pages.
#[tactic(auto, unfolding(crate::specs::Templates::template_pieces))]
pub fn page_template() -> Template<'static>
    ensures { words.pieces_of result ≡ words.template_pieces }
{
    Template {
        before_source: BEFORE_SOURCE.as_bytes(),
        before_opening: BEFORE_OPENING.as_bytes(),
        before_trace: BEFORE_TRACE.as_bytes(),
        before_changes: BEFORE_CHANGES.as_bytes(),
        rest: END.as_bytes(),
    }
}

// Appends a piece of the template, and a text after it.
fn append_text(text: &mut Vec<u8>, piece: &[u8], characters: &[u8]) -> Result<(), AllocError>
    ensures { OnOk result (text.new.items ≡ text.old.items ++ piece.now ++ html characters.now) }
{
    text.extend_from_slice(piece)?;
    append_html(text, characters)
}

/// The page that has these texts.
///
/// # Errors
///
/// Only where memory was refused.
pub fn page_of(
    alloc: Global,
    template: &Template<'_>,
    texts: &Texts<'_>,
) -> Result<Vec<u8>, AllocError>
    ensures { IfOk result (λ page. page.items ≡ words.page_with (words.pieces_of template.now) (words.texts_of texts.now)) }
{
    let mut page = Vec::new(alloc);
    append_text(&mut page, template.before_source, texts.source)?;
    append_text(&mut page, template.before_opening, texts.opening)?;
    append_text(&mut page, template.before_trace, texts.trace)?;
    append_text(&mut page, template.before_changes, texts.changes)?;
    page.extend_from_slice(template.rest)?;
    Ok(page)
}
