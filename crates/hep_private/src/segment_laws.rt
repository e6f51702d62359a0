//! Laws of segments.
ghost use Rattle.hep_machine.specs.Words.{Units};
ghost use Rattle.hep_private.specs.OwnState.{Values};
ghost use Rattle.hep_private.specs.Segments.{IsKept, IsMadeFrom, IsMadeOf, SegmentValue};
ghost use Rattle.hep_private.specs.BoundedSteps.{Start};

/// A segment depends on its place, its operands, and the values that its steps read before they stored them: any
/// start that has these makes the same segment. And each start that makes a segment has these.
pub fn segments_depend_on_reads()
    ensures kept { (program : Units) (start : Start) (s : SegmentValue) → IsMadeFrom program start s → IsKept start s }
    ensures made { (program : Units) (values : Values) (start : Start) (s : SegmentValue) → IsMadeOf program values s → IsKept start s
        → IsMadeFrom program start s }
{
    crate::step_laws::private_steps_depend_on_reads();
}
