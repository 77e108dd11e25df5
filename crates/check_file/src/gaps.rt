//! Checks the gaps of a file.

ghost use Rattle.std.specs.Prelude.{◌<◌, ◌^◌, length, map, MatchOption};
ghost use Rattle.check_file.specs.Files.{HoldAll, IsFirstOff};
ghost use Rattle.cert_context.specs.CheckContexts.{IsCheckContext, program};
ghost use Rattle.cert_types.specs.AnswerViews.{gap_of};

use cert_context::CheckContext;
use cert_types::{Gap, GapFault};
use gap_checks::gap_fault;

/// A gap that doesn't hold.
#[derive(Clone, Copy, PartialEq, Eq)]
pub(crate) struct RefusedGap {
    /// The gap's number, from 1.
    pub gap: u32,
    /// The gap's first fault.
    pub fault: GapFault,
}

/// The first gap that doesn't hold, if there is one.
pub(crate) fn first_refused_gap(context: &CheckContext, gaps: &[Gap]) -> Option<RefusedGap>
    requires context { IsCheckContext context.now }
    requires few { length gaps.now < 2 ^ 32 }
    ensures { MatchOption result
        (HoldAll (program context.now) (map gap_of gaps.now))
        (λ off. IsFirstOff (program context.now) (map gap_of gaps.now) off) }
{
    for i in 0..gaps.len() {
        if let Some(fault) = gap_fault(context.program, &context.prepared_rules, &gaps[i]) {
            return Some(RefusedGap {
                gap: i as u32 + 1,
                fault,
            });
        }
    }
    None
}
