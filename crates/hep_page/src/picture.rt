//! The picture of a run, by the lines of `trace`.
ghost use Rattle.std.specs.Prelude.{◌≡◌, ◌++◌, IfOk, OnOk, map};
ghost use Rattle.hep_page.specs.LaneSpots.{fields_of};
ghost use Rattle.hep_page.specs.Pictures as words;

use crate::lane_lines::{LaneLines, append_description, append_ends, append_names, lanes_of};
use crate::lane_spot::{scale_of, spots_of};
use crate::picture_frame::{
    PictureFrame, append_end_place, append_rows, append_ticks, append_title, frame_of, height_of,
    main_unit, width_of,
};
use crate::picture_parts::PictureParts;
use crate::picture_paths::{append_run, append_with, times_and};
use crate::picture_scale::PictureScale;
use crate::picture_template::{
    ALL_NAMES, BEGINS, DEFINED, DESCRIPTION, HEADING, LEGEND, ROLE, STYLE, TITLE,
};
use hep_formats::{lines_of, marks_of, numbers};
use std::alloc::{AllocError, Global};

fn title_of(
    alloc: Global,
    scale: &PictureScale,
    frame: &PictureFrame,
    lines: &[&[u8]],
) -> Result<Vec<u8>, AllocError>
    ensures { IfOk result (λ title. title.items
        ≡ words.title_text (fields_of scale.now) frame.now (words.main_unit (map (λ line. line.now) lines.now))) }
{
    let mut title = Vec::new(alloc);
    append_title(&mut title, scale, frame, main_unit(lines))?;
    Ok(title)
}

// What the picture of a run shows that has these lines.
fn parts_of<'a>(alloc: Global, lines: &[&'a [u8]]) -> Result<PictureParts<'a>, AllocError>
    ensures { IfOk result (λ parts. words.picture_of_parts parts ≡ words.picture_of_lines (map (λ line. line.now) lines.now)) }
{
    let marks = marks_of(alloc, lines)?;
    let scale = scale_of(marks.len() as u64);
    let frame = frame_of(&scale, &marks);
    let numbers = numbers(alloc, 1, frame.lanes)?;
    let spots = spots_of(alloc, &scale, &marks, &numbers)?;
    let lanes = lanes_of(alloc, lines, &numbers)?;
    let title = title_of(alloc, &scale, &frame, lines)?;
    Ok(PictureParts {
        scale,
        frame,
        marks,
        spots,
        lanes,
        title,
    })
}

// Appends what is seen of a picture of this size.
#[tactic(auto, unfolding(crate::specs::Pictures::view_text))]
fn append_view(text: &mut Vec<u8>, width: u128, height: u128) -> Result<(), AllocError>
    ensures { OnOk result (text.new.items ≡ text.old.items ++ words.view_text width height) }
{
    append_with(text, BEGINS.as_bytes(), width)?;
    append_with(text, b" ", height)
}

// Appends the size.
#[tactic(auto, unfolding(crate::specs::Pictures::extent_text))]
fn append_extent(text: &mut Vec<u8>, width: u128, height: u128) -> Result<(), AllocError>
    ensures { OnOk result (text.new.items ≡ text.old.items ++ words.extent_text width height) }
{
    append_with(text, b"\" width=\"", width)?;
    append_with(text, b"\" height=\"", height)?;
    text.extend_from_slice(ROLE.as_bytes())
}

// Appends the title and the description, for those who listen.
#[tactic(auto, unfolding(crate::specs::Pictures::titles_text))]
fn append_titles(text: &mut Vec<u8>, parts: &PictureParts<'_>) -> Result<(), AllocError>
    ensures { OnOk result (text.new.items ≡ text.old.items ++ words.titles_text (words.picture_of_parts parts.now)) }
{
    text.extend_from_slice(TITLE.as_bytes())?;
    text.extend_from_slice(&parts.title)?;
    text.extend_from_slice(DESCRIPTION.as_bytes())?;
    append_description(text, &parts.lanes)?;
    text.extend_from_slice(b"</desc>")
}

// Appends the class of what differs where columns are folded.
fn append_form(text: &mut Vec<u8>, folded: bool) -> Result<(), AllocError>
    ensures { OnOk result (text.new.items ≡ text.old.items ++ words.form_text folded) }
{
    if folded {
        text.extend_from_slice(b"\" class=\"folded\">")
    } else {
        text.extend_from_slice(b"\" class=\"each\">")
    }
}

// Appends the marks and lines of the run, in one row.
#[tactic(auto, unfolding(crate::specs::Pictures::run_group))]
fn append_run_group(
    alloc: Global,
    text: &mut Vec<u8>,
    parts: &PictureParts<'_>,
) -> Result<(), AllocError>
    ensures { OnOk result (text.new.items ≡ text.old.items ++ words.run_group (words.picture_of_parts parts.now)) }
{
    text.extend_from_slice(b"<g id=\"run")?;
    append_form(text, parts.scale.folded)?;
    append_ticks(alloc, text, &parts.scale, &parts.frame)?;
    append_run(
        text,
        &parts.scale,
        parts.frame.lanes,
        &parts.marks,
        &parts.spots,
    )?;
    text.extend_from_slice(b"</g>")
}

#[tactic(auto, unfolding(crate::specs::Pictures::names_group))]
fn append_names_group(text: &mut Vec<u8>, lanes: &[LaneLines<'_>]) -> Result<(), AllocError>
    ensures { OnOk result (text.new.items ≡ text.old.items ++ words.names_group (map words.lane_of lanes.now)) }
{
    text.extend_from_slice(ALL_NAMES.as_bytes())?;
    append_names(text, lanes)?;
    text.extend_from_slice(DEFINED.as_bytes())
}

// Appends the title that is seen.
#[tactic(auto, unfolding(crate::specs::Pictures::heading))]
fn append_heading(text: &mut Vec<u8>, title: &[u8]) -> Result<(), AllocError>
    ensures { OnOk result (text.new.items ≡ text.old.items ++ words.heading title.now) }
{
    text.extend_from_slice(HEADING.as_bytes())?;
    text.extend_from_slice(title)?;
    text.extend_from_slice(b"</text>")
}

// Appends at the ends of lanes what is waited for.
#[tactic(auto, unfolding(crate::specs::Pictures::ends_group))]
fn append_ends_group(text: &mut Vec<u8>, parts: &PictureParts<'_>) -> Result<(), AllocError>
    ensures { OnOk result (text.new.items ≡ text.old.items ++ words.ends_group (words.picture_of_parts parts.now)) }
{
    append_end_place(text, &parts.scale, &parts.frame)?;
    append_ends(text, &parts.lanes)?;
    text.extend_from_slice(b"</svg>")
}

// Appends what the marks mean, and ends the picture.
#[tactic(auto, unfolding(crate::specs::Pictures::legend_group))]
fn append_legend(text: &mut Vec<u8>, parts: &PictureParts<'_>) -> Result<(), AllocError>
    ensures { OnOk result (text.new.items ≡ text.old.items ++ words.legend_group (words.picture_of_parts parts.now)) }
{
    append_with(
        text,
        b"<svg y=\"",
        times_and(parts.frame.high, parts.frame.rows, 48),
    )?;
    append_form(text, parts.scale.folded)?;
    text.extend_from_slice(LEGEND.as_bytes())?;
    text.extend_from_slice(b"</svg></svg>\n")
}

// Appends what isn't seen: the size, the titles, the style sheet, and what the rows show.
#[tactic(auto, unfolding(crate::specs::Pictures::front_text))]
fn append_front(
    alloc: Global,
    text: &mut Vec<u8>,
    parts: &PictureParts<'_>,
) -> Result<(), AllocError>
    ensures { OnOk result (text.new.items ≡ text.old.items ++ words.front_text (words.picture_of_parts parts.now)) }
{
    let width = width_of(&parts.scale, &parts.frame);
    let height = height_of(&parts.frame);
    append_view(text, width, height)?;
    append_extent(text, width, height)?;
    append_titles(text, parts)?;
    text.extend_from_slice(STYLE.as_bytes())?;
    append_run_group(alloc, text, parts)?;
    append_names_group(text, &parts.lanes)
}

// Appends what is seen.
#[tactic(auto, unfolding(crate::specs::Pictures::shown_text))]
fn append_picture(
    alloc: Global,
    text: &mut Vec<u8>,
    parts: &PictureParts<'_>,
) -> Result<(), AllocError>
    ensures { OnOk result (text.new.items ≡ text.old.items ++ words.shown_text (words.picture_of_parts parts.now)) }
{
    append_heading(text, &parts.title)?;
    append_rows(alloc, text, &parts.scale, &parts.frame)?;
    append_ends_group(text, parts)?;
    append_legend(text, parts)
}

/// The picture of the run that these lines of `trace` are of.
///
/// # Errors
///
/// Only where memory was refused.
pub fn picture_of(alloc: Global, trace: &[u8]) -> Result<Vec<u8>, AllocError>
    ensures { IfOk result (λ picture. picture.items ≡ words.picture_of trace.now) }
{
    let lines = lines_of(alloc, trace)?;
    let parts = parts_of(alloc, &lines)?;
    let mut text = Vec::new(alloc);
    append_front(alloc, &mut text, &parts)?;
    append_picture(alloc, &mut text, &parts)?;
    Ok(text)
}
