//! What is proved of the definitions themselves. The functions have no effect: their contracts are the laws.

ghost use Rattle.gc_filters.specs.Laws.{OneSchedule, OneScene, OneVerdict};
ghost use Rattle.gc_filters.specs.Verdicts.{IsLineVerdict};
ghost use Rattle.gc_filters.specs.declared.verdict.Verdict.{Verdict};

use crate::verdict::line_verdict;

/// A text is the schedule of one list of events at most.
pub fn schedule_has_one_reading()
    ensures { OneSchedule }
{}

/// A text sets up one instrument at most, and none where it has more targets than an instrument can have.
pub fn scene_has_one_reading()
    ensures { OneScene }
{}

/// A frame has one verdict at most, and a stream one list of verdicts' lines.
pub fn one_verdict()
    ensures { OneVerdict }
{}

/// Every line has a verdict, whatever its bytes are.
pub fn every_line_has_a_verdict(line: &[u8])
    ensures { (v : Verdict) × IsLineVerdict line.now v }
{
    let _verdict = line_verdict(line);
}
