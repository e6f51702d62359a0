//! The indexes of the code from which a step may have a line.
ghost use Rattle.std.specs.Prelude.{IfOk};
ghost use Rattle.hep_event.specs.Variables.{AreVariablesOf};
ghost use Rattle.hep_trace.specs.LineFilters.{shown_on};
ghost use Rattle.hep_trace.specs.LineMakers.{AreWatchesFor};

use crate::line_filter::LineFilter;
use hep_event::watches_of;
use hep_image::Image;
use hep_why::{Breakpoints, Variables};
use std::alloc::{AllocError, Global};

/// The indexes of the code of each unit from which a step may access a variable of the sought name; none where each
/// step has a line.
pub(crate) fn watches_for(
    alloc: Global,
    image: &Image,
    variables: &Variables,
    page: &LineFilter<'_>,
) -> Result<Vec<Breakpoints>, AllocError>
    requires { AreVariablesOf image.now variables.now }
    ensures { IfOk result (λ watches. AreWatchesFor image.now (shown_on page.now).cell watches.items) }
{
    match page.cell {
        Some(name) => watches_of(alloc, image, variables, name),
        None => Ok(Vec::new(alloc)),
    }
}
