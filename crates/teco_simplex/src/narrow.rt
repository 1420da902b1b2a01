//! Sums of terms whose numbers fit 64 bits: most do, and they take less time.
use crate::counts::{count_less, count_more};
use crate::fault::SimplexFault;
use crate::outline::Outline;
use crate::program::Summand;

// Terms times a factor, where no product takes more than 62 bits.
#[derive(Clone, Copy)]
pub struct Narrow<'a> {
    pub terms: &'a [Summand],
    pub factor: i64,
}

impl Narrow<'_> {
    fn times(&self, term: &Summand) -> i64 {
        i64::try_from(term.coefficient)
            .unwrap_or(0)
            .wrapping_mul(self.factor)
    }

    // Appends the sum with other terms, in order, without the terms that cancel. Gives its outline.
    pub fn add_to(
        &self,
        sum_terms: &mut Vec<Summand>,
        other: &Narrow<'_>,
        counts: &mut [usize],
    ) -> Result<Outline, SimplexFault> {
        let mut outline = Outline::new();
        let mut rest = other.terms;
        for term in self.terms {
            while let [first, behind @ ..] = rest
                && first.variable < term.variable
            {
                push(sum_terms, &mut outline, first.variable, other.times(first))?;
                count_more(counts, first.variable);
                rest = behind;
            }
            let mut coefficient = self.times(term);
            if let [first, behind @ ..] = rest
                && first.variable == term.variable
            {
                coefficient = coefficient.wrapping_add(other.times(first));
                rest = behind;
            }
            if coefficient == 0 {
                count_less(counts, term.variable);
            } else {
                push(sum_terms, &mut outline, term.variable, coefficient)?;
            }
        }
        let tail = Narrow {
            terms: rest,
            factor: other.factor,
        };
        tail.append_to(sum_terms, &mut outline, counts)?;
        Ok(outline)
    }

    // Appends the terms, which no term of the sum is like.
    fn append_to(
        &self,
        sum_terms: &mut Vec<Summand>,
        outline: &mut Outline,
        counts: &mut [usize],
    ) -> Result<(), SimplexFault> {
        for term in self.terms {
            push(sum_terms, outline, term.variable, self.times(term))?;
            count_more(counts, term.variable);
        }
        Ok(())
    }
}

// Appends a term to the sum, whose outline is kept up.
fn push(
    sum_terms: &mut Vec<Summand>,
    outline: &mut Outline,
    variable: usize,
    coefficient: i64,
) -> Result<(), SimplexFault> {
    outline.add(variable, coefficient);
    sum_terms.push(Summand {
        variable,
        coefficient: i128::from(coefficient),
    })?;
    Ok(())
}
