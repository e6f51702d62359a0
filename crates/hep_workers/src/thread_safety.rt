//! Types that workers share may be sent to another thread or read by several. The functions here do nothing: their
//! contracts say it of each type, so that a caller's proof uses the contract alone.
ghost use Rattle.std.specs.Thread.{IsSend, IsSync};
ghost use Rattle.hep_image.specs.contracts.image.Image as image;
ghost use Rattle.hep_source.specs.contracts.expression.Expr as expression;
ghost use Rattle.hep_source.specs.contracts.program.Program as program;
ghost use Rattle.hep_core.specs.contracts.run_core.Core as core;
ghost use Rattle.hep_private.specs.contracts.table.PrivateTable as tables;
ghost use Rattle.hep_workers.specs.contracts.spans.EntrySpan as spans;

use crate::spans::EntrySpan;
use hep_blocked::Roster;
use hep_core::{CoreState, OwnCells, UndoLog};
use hep_fast::DecodedCode;
use hep_history::History;
use hep_image::{BlockStart, DataRow, UnitCode};
use hep_private::PrivateTable;
use hep_source::{Expr, Sequence, Text};

fn cross<T: Send + Sync>()
    ensures send { IsSend T.row }
    ensures sync { IsSync T.row }
{}

fn pass<T: Send>()
    ensures send { IsSend T.row }
{}

fn expressions_cross()
    ensures send { IsSend expression.the_row }
    ensures sync { IsSync expression.the_row }
{
    cross::<Expr>();
}

fn programs_cross()
    ensures send { IsSend program.the_row }
    ensures sync { IsSync program.the_row }
{
    expressions_cross();
}

/// An image may be sent to another thread, and be read by several.
pub(crate) fn images_cross()
    ensures send { IsSend image.the_row }
    ensures sync { IsSync image.the_row }
{
    programs_cross();
    cross::<Sequence<UnitCode>>();
    cross::<Sequence<DataRow>>();
    cross::<Sequence<Text>>();
    cross::<Sequence<u32>>();
    cross::<Sequence<BlockStart>>();
}

/// The private code of units may be read by several threads.
pub(crate) fn tables_cross()
    ensures send { IsSend tables.the_row }
    ensures sync { IsSync tables.the_row }
{
    cross::<PrivateTable>();
}

/// The spans of entries may be sent to another thread, and be read by several.
pub(crate) fn spans_cross()
    ensures send { IsSend spans.the_row }
    ensures sync { IsSync spans.the_row }
{
    cross::<EntrySpan>();
}

/// A core may be sent to another thread.
pub(crate) fn cores_cross()
    ensures send { IsSend core.the_row }
{
    images_cross();
    pass::<DecodedCode>();
    pass::<OwnCells>();
    pass::<History>();
    pass::<CoreState>();
    pass::<Roster>();
    pass::<UndoLog>();
}
