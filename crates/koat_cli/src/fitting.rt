//! The numbers of an outcome fit the types that hold them. No function here returns anything or has an effect: each
//! reads numbers, whose types say that they fit, and its contract says so of all of them.

ghost use Rattle.std.specs.Prelude.{map};
ghost use Rattle.std.specs.List.{AllByRecursion};
ghost use Rattle.std.specs.Option.{option_map};
ghost use Rattle.bound_expr.specs.Views.{bound_of, bounds_of, parts_of};
ghost use Rattle.bound_text.specs.Texts.{HasShortBases, HaveShortBases};
ghost use Rattle.cert_types.specs.AnswerViews.{scaled_of, shut_of, gap_of};
ghost use Rattle.cert_types.specs.Views.{result_variable_of};
ghost use Rattle.outcome.specs.Views.{report_of, time_of, cost_of, size_of, unbounded_of};
ghost use Rattle.report_text.specs.Printable.{IsShort, IsShortSigned, IsPrintablePoint, IsPrintableQuestion};
ghost use Rattle.report_text.specs.Printable.{IsPrintableCause, IsPrintableLimitHit, IsPrintableResultVariable, IsPrintableNoSize};
ghost use Rattle.koat_cli.specs.FittingReports.{HasShortNumbers, TimeFits, CostFits, SizeFits};
ghost use Rattle.koat_cli.specs.FittingReports.{TotalFits, ReportFits};

use bound_expr::Bound;
use cert_types::{Gap, LimitCause, LimitHit, Question, ResultVariable};
use farkas_cert::Scaled;
use outcome::{CostEntry, Outcome, SizeEntry, TimeEntry, UnboundedSide};

/// The numbers of an outcome's report fit.
pub(crate) fn numbers_fit(outcome: &Outcome)
    ensures { ReportFits (report_of outcome.now) }
{
    gaps_fit(&outcome.gaps);
    times_fit(&outcome.gaps, &outcome.times);
    costs_fit(&outcome.costs);
    total_fits(&outcome.total);
    rows_fit(&outcome.sizes);
}

// The numbers of times.
fn times_fit(gaps: &[Gap], times: &[TimeEntry])
    requires { AllByRecursion HasShortNumbers (map gap_of gaps.now) }
    ensures { AllByRecursion TimeFits (map (time_of gaps.now) times.now) }
{
    for entry in times {
        time_fits(gaps, entry);
    }
}

// The numbers of a time.
fn time_fits(gaps: &[Gap], entry: &TimeEntry)
    requires { AllByRecursion HasShortNumbers (map gap_of gaps.now) }
    ensures { TimeFits (time_of gaps.now entry.now) }
{
    match entry {
        TimeEntry::Known(stored) => bases_fit(&stored.bound),
        TimeEntry::Gap { .. } => {}
        TimeEntry::OutOfLimits(limit_hit) => limit_hit_fits(*limit_hit),
        TimeEntry::Large { nodes } => {
            let _nodes = *nodes;
        }
    }
}

// The numbers of costs.
fn costs_fit(costs: &[Option<CostEntry>])
    ensures { AllByRecursion CostFits (map (option_map cost_of) costs.now) }
{
    for entry in costs {
        cost_fits(entry);
    }
}

// The numbers of a cost.
fn cost_fits(entry: &Option<CostEntry>)
    ensures { CostFits (option_map cost_of entry.now) }
{
    match entry {
        None => {}
        Some(CostEntry::Known(stored)) => bases_fit(&stored.bound),
        Some(CostEntry::UnboundedSide(side)) => side_fits(side),
        Some(CostEntry::OutOfLimits(limit_hit)) => limit_hit_fits(*limit_hit),
        Some(CostEntry::Missing(missing)) => result_variable_fits(*missing),
        Some(CostEntry::Untimed { rule }) => {
            let _rule = *rule;
        }
        Some(CostEntry::Large { nodes }) => {
            let _nodes = *nodes;
        }
    }
}

// The numbers of the total.
fn total_fits(total: &Option<Bound>)
    ensures { TotalFits (option_map bound_of total.now) }
{
    match total {
        None => {}
        Some(bound) => bases_fit(bound),
    }
}

// The numbers of the sizes after all rules.
fn rows_fit(rows: &[Vec<SizeEntry>])
    ensures { AllByRecursion (AllByRecursion SizeFits) (map (λ row. map size_of row.items) rows.now) }
{
    for row in rows {
        sizes_fit(row);
    }
}

// The numbers of the sizes after a rule.
fn sizes_fit(sizes: &[SizeEntry])
    ensures { AllByRecursion SizeFits (map size_of sizes.now) }
{
    for entry in sizes {
        size_fits(entry);
    }
}

// The numbers of a size.
fn size_fits(entry: &SizeEntry)
    ensures { SizeFits (size_of entry.now) }
{
    match entry {
        SizeEntry::Known(stored) => bases_fit(&stored.bound),
        SizeEntry::UnboundedSide(side) => side_fits(side),
        SizeEntry::OutOfLimits(limit_hit) => limit_hit_fits(*limit_hit),
        SizeEntry::Missing(missing) => result_variable_fits(*missing),
        SizeEntry::Nonlinear(member) => result_variable_fits(*member),
        SizeEntry::Untimed { rule } => {
            let _rule = *rule;
        }
        SizeEntry::Large { nodes } => {
            let _nodes = *nodes;
        }
    }
}

// The bases of a bound.
#[cycle(bases)]
fn bases_fit(bound: &Bound)
    ensures { HasShortBases (bound_of bound.now) }
{
    match bound {
        Bound::Const(_) | Bound::Var(_) => {}
        Bound::Sum(parts) | Bound::Prod(parts) | Bound::Max(parts) => all_bases_fit(parts),
        Bound::Power(base, exponent) => {
            let _base = *base;
            bases_fit(exponent)
        }
    }
}

// The bases of bounds.
#[cycle(bases)]
fn all_bases_fit(parts: &[Bound])
    ensures { HaveShortBases (parts_of (bounds_of parts.now)) }
{
    for part in parts {
        bases_fit(part);
    }
}

// The numbers of gaps.
fn gaps_fit(gaps: &[Gap])
    ensures { AllByRecursion HasShortNumbers (map gap_of gaps.now) }
{
    for gap in gaps {
        gap_fits(gap);
    }
}

// The numbers of a gap.
fn gap_fits(gap: &Gap)
    ensures { HasShortNumbers (gap_of gap.now) }
{
    let _rule = gap.rule;
    rules_fit(&gap.set);
    shut_fit(&gap.shut);
    points_fit(&gap.moves);
    point_fits(&gap.floor);
    points_fit(&gap.kept);
}

// The numbers of rules, which need not be read: the type of a slice says that its unsigned numbers fit.
fn rules_fit(rules: &[u32])
    ensures { AllByRecursion IsShort rules.now }
{}

// The places that are shut.
fn shut_fit(shut: &[(u32, u32)])
    ensures { AllByRecursion (λ s. IsShort s.place) (map shut_of shut.now) }
{
    for (_, place) in shut {
        let _place = *place;
    }
}

// The numbers of points.
fn points_fit(points: &[Scaled])
    ensures { AllByRecursion IsPrintablePoint (map scaled_of points.now) }
{
    for point in points {
        point_fits(point);
    }
}

// The numbers of a point.
fn point_fits(point: &Scaled)
    ensures { IsPrintablePoint (scaled_of point.now) }
{
    parts_fit(&point.parts);
    let _den = point.den;
}

// The parts of a point or of a ray.
fn parts_fit(parts: &[i64])
    ensures { AllByRecursion IsShortSigned parts.now }
{
    for part in parts {
        let _part = *part;
    }
}

// The numbers of an unbounded side.
fn side_fits(side: &UnboundedSide)
    ensures { IsPrintableNoSize (unbounded_of side.now) }
{
    parts_fit(&side.ray);
    point_fits(&side.kept);
}

// The numbers of a rule and a place.
fn result_variable_fits(variable: ResultVariable)
    ensures { IsPrintableResultVariable (result_variable_of variable) }
{
    let _rule = variable.rule;
    let _place = variable.place;
}

// The numbers of a limit that was exceeded.
fn limit_hit_fits(limit_hit: LimitHit)
    ensures { IsPrintableLimitHit limit_hit }
{
    question_fits(limit_hit.question);
    cause_fits(limit_hit.cause);
}

// The numbers of a question.
fn question_fits(question: Question)
    ensures { IsPrintableQuestion question }
{
    match question {
        Question::Empty { rule } => {
            let _rule = rule;
        }
        Question::Rank { rule } => {
            let _rule = rule;
        }
        Question::Local { rule, place } => {
            let _rule = rule;
            let _place = place;
        }
        Question::Cost { rule } => {
            let _rule = rule;
        }
    }
}

// The number of a limit.
fn cause_fits(cause: LimitCause)
    ensures { IsPrintableCause cause }
{
    match cause {
        LimitCause::Range { pivot } => {
            let _pivot = pivot;
        }
        LimitCause::Budget { pivots } => {
            let _pivots = pivots;
        }
        LimitCause::Wide { entries } => {
            let _entries = entries;
        }
        LimitCause::Scale => {}
    }
}
