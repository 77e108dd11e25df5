//! The numbers of one line of a group.

ghost use Rattle.std.specs.Prelude.{◌≡◌, ℕ, ◌+◌, ◌*◌, ◌<◌, ◌^◌, ◌++◌, [], ◌∷◌, pos, negsuc, neg_ℤ, unsigned_abs, map};
ghost use Rattle.std.specs.Prelude.{length, replicate, IfOk};
ghost use Rattle.std.specs.List.{All};
ghost use Rattle.simplex_core.specs.linear_forms.Forms.{at};
ghost use Rattle.simplex_core.specs.linear_forms.Questions.{number, slack, signed};
ghost use Rattle.poly_terms.specs.Views.{form_of};
ghost use Rattle.lp_builder.specs.Descriptions.{goal_forms, AreParameters, IsWritable};
ghost use Rattle.lp_builder.specs.Entries.{Writes};

use crate::description::Goal;
use crate::writer::EntryWriter;
use model::Memory;
use poly_terms::Row;

/// A line of a group with this many unknowns: that of the unknown with this number, or, past the unknowns, that of the
/// constant.
#[derive(Clone, Copy, Debug)]
pub(crate) struct Line {
    pub(crate) unknowns: u32,
    pub(crate) number: u32,
}

impl Line {
    /// The number of a form in the line.
    fn of(self, form: &Row) -> i128
        ensures { result ≡ number self.unknowns self.number (form_of form.now) }
    {
        if self.number < self.unknowns {
            coefficient(&form.coefs, self.number as usize)
        } else {
            form.constant
        }
    }

    /// The negated number of a form in the line.
    pub(crate) fn less(self, form: &Row) -> i128
        requires { IsWritable self.unknowns (form_of form.now) }
        ensures { result ≡ neg_ℤ (number self.unknowns self.number (form_of form.now)) }
    {
        -self.of(form)
    }

    /// The number of the slack in the line.
    fn slack(self) -> i128
        ensures { result ≡ slack self.unknowns self.number }
    {
        if self.number < self.unknowns { 0 } else { -1 }
    }
}

/// The coefficient of an unknown, or 0 if it isn't listed.
fn coefficient(coefs: &[i128], unknown: usize) -> i128
    ensures { result ≡ at coefs.now unknown }
{
    match coefs.get(unknown) {
        Some(coef) => *coef,
        None => 0,
    }
}

/// Writes a number and then its negation.
fn put_pair(writer: &mut EntryWriter, value: i128) -> Result<(), Memory>
    requires room { writer.old.col + 2 < 2 ^ 32 }
    requires narrow { unsigned_abs value < 2 ^ 127 }
    ensures { IfOk result (λ _. Writes writer.old writer.new (value ∷ neg_ℤ value ∷ [])) }
{
    writer.put(value)?;
    writer.put(-value)
}

/// Writes the pairs of the parameters.
pub(crate) fn put_goals(
    writer: &mut EntryWriter,
    line: Line,
    parameters: u32,
    goals: &[Goal],
) -> Result<(), Memory>
    requires room { writer.old.col + 2 * parameters < 2 ^ 32 }
    requires listed { AreParameters parameters goals.now }
    requires writable { All (λ g. IsWritable line.unknowns (form_of g.form)) goals.now }
    ensures { IfOk result (λ _. Writes writer.old writer.new
        (signed (map (number line.unknowns line.number) (goal_forms 0 parameters goals.now)))
        × (writer.new.col ≡ writer.old.col + 2 * parameters)) }
{
    let mut next = 0;
    for goal in goals {
        writer.skip(2 * (goal.parameter - next));
        put_pair(writer, line.of(&goal.form))?;
        next = goal.parameter + 1;
    }
    writer.skip(2 * (parameters - next));
    Ok(())
}

/// Writes the negations of the rows' numbers, one for each multiplier.
pub(crate) fn put_rows(writer: &mut EntryWriter, line: Line, rows: &[Row]) -> Result<(), Memory>
    requires room { writer.old.col + length rows.now < 2 ^ 32 }
    requires writable { All (λ r. IsWritable line.unknowns (form_of r)) rows.now }
    ensures { IfOk result (λ _. Writes writer.old writer.new (map (λ r. neg_ℤ (number line.unknowns line.number r))
        (map form_of rows.now))
        × (writer.new.col ≡ writer.old.col + length rows.now)) }
{
    for row in rows {
        writer.put(line.less(row))?;
    }
    Ok(())
}

/// Writes a line of a group: the pairs of the parameters, zeros for the columns of the earlier groups, the rows and the
/// slack.
pub(crate) fn put_line(
    writer: &mut EntryWriter,
    line: Line,
    parameters: u32,
    before: u32,
    goals: &[Goal],
    rows: &[Row],
) -> Result<(), Memory>
    requires room { writer.old.col + 2 * parameters + before + length rows.now + 1 < 2 ^ 32 }
    requires listed { AreParameters parameters goals.now }
    requires goals_writable { All (λ g. IsWritable line.unknowns (form_of g.form)) goals.now }
    requires rows_writable { All (λ r. IsWritable line.unknowns (form_of r)) rows.now }
    ensures { IfOk result (λ _. Writes writer.old writer.new
        (signed (map (number line.unknowns line.number) (goal_forms 0 parameters goals.now))
        ++ (replicate before (pos 0)
        ++ (map (λ r. neg_ℤ (number line.unknowns line.number r)) (map form_of rows.now)
        ++ (slack line.unknowns line.number ∷ []))))) }
{
    put_goals(writer, line, parameters, goals)?;
    writer.skip(before);
    put_rows(writer, line, rows)?;
    writer.put(line.slack())
}
