//! The check of values against a program's rows.
ghost use Rattle.std.specs.Prelude.{◌≡◌, length, IsTrue, IfSome, All};
ghost use Rattle.teco_simplex.specs.Satisfaction.{Satisfies, Holds, HaveSigns, Stands, total_of};

use crate::program::{Assignment, Condition, LinearProgram, Relation, Sign, Summand};

impl LinearProgram {
    /// Whether the values are one for each variable, with the signs that the program wants, and
    /// satisfy all rows. Values whose sums leave 128 bits are not taken.
    pub fn is_satisfied_by(&self, values: &Assignment) -> bool
        ensures { IsTrue result → Satisfies self.now values.now }
    {
        values.denominator > 0
            && values.numerators.len() == self.signs.len()
            && have_signs(&values.numerators, &self.signs)
            && all_hold(&self.rows, values)
    }
}

fn have_signs(numerators: &[i128], signs: &[Sign]) -> bool
    requires { length numerators.now ≡ length signs.now }
    ensures { IsTrue result → HaveSigns signs.now numerators.now }
{
    for (place, sign) in signs.iter().enumerate() {
        if *sign == Sign::NonNegative && numerators[place] < 0 {
            return false;
        }
    }
    true
}

fn all_hold(rows: &[Condition], values: &Assignment) -> bool
    ensures { IsTrue result → All (λ row. Holds row values.now) rows.now }
{
    rows.iter().all(|row| holds(row, values))
}

fn holds(row: &Condition, values: &Assignment) -> bool
    ensures { IsTrue result → Holds row.now values.now }
{
    let Some(sum) = total(&row.terms, &values.numerators) else {
        return false;
    };
    let Some(bound) = row.bound.checked_mul(values.denominator) else {
        return false;
    };
    stands(row.relation, sum, bound)
}

fn stands(relation: Relation, sum: i128, bound: i128) -> bool
    ensures { IsTrue result → Stands relation sum bound }
{
    match relation {
        Relation::Equal => sum == bound,
        Relation::AtLeast => sum >= bound,
        Relation::AtMost => sum <= bound,
    }
}

// The sum of the terms at the numerators.
fn total(terms: &[Summand], numerators: &[i128]) -> Option<i128>
    ensures { IfSome result (λ sum. sum ≡ total_of terms.now numerators.now) }
{
    let mut sum = 0i128;
    for term in terms {
        if term.variable >= numerators.len() {
            return None;
        }
        let value = term.coefficient.checked_mul(numerators[term.variable])?;
        sum = sum.checked_add(value)?;
    }
    Some(sum)
}
