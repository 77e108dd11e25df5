//! Laws of the linear program of a kind of form: what it proves of the forms of this kind.

ghost use Rattle.rule_forms.specs.Worked.{LocalFormsAreWorkedOut};
ghost use Rattle.rule_forms.specs.Laws.{SolutionsAreBounds, LeastAreLeast, DualsExclude, DualsAreRays};

/// A solution of the linear program gives a form of this kind, with multipliers of the rule's rows that certify that
/// the form is at least the new value on every rational point of the rows.
pub fn solutions_are_bounds()
    ensures { SolutionsAreBounds }
{}

/// A solution of least cost gives a form of least weight among those of this kind that are at least the new value.
/// Weights compare the absolute coefficients and, if these are equal, the positive part of the constant.
pub fn least_are_least()
    ensures { LeastAreLeast }
{}

/// A dual of the linear program shows that no form of this kind is at least the new value, provided that the rule has a
/// rational point.
pub fn duals_exclude()
    ensures { DualsExclude }
{}

/// A dual of the linear program of any affine form is a ray of the rows along which the new value increases and no left
/// argument changes. If there is such a ray, and a point, no affine form in the left arguments is at least the new
/// value.
pub fn duals_are_rays()
    ensures { DualsAreRays }
{}

/// Worked values of kinds, bounds, weights, the first bound and rays of small rules, on both sides.
pub fn local_forms_are_as_worked_out()
    ensures { LocalFormsAreWorkedOut }
{}
