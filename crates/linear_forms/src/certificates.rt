//! What certificates prove.

ghost use Rattle.linear_forms.specs.CertificateLaws.{CertificatesHold, FormsHaveTheirValues, PointsAreWorkedOut};
ghost use Rattle.linear_forms.specs.CertificateLaws.{CertificatesAreWorkedOut};

/// A form that is a nonnegative combination of rows plus a nonnegative number is at least 0 wherever all rows are: on
/// each of their rational points and along each of their rays. If -1 is such a form, the rows have no point.
pub fn certificates_hold()
    ensures { CertificatesHold }
{}

/// Worked values of forms, points, rays and certificates, on both sides.
pub fn certificates_are_as_worked_out()
    ensures values { FormsHaveTheirValues }
    ensures points { PointsAreWorkedOut }
    ensures certificates { CertificatesAreWorkedOut }
{}
