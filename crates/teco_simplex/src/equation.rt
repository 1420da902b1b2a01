//! Equations in whole numbers: a sum of terms equals a constant.
use crate::counts::{count_less, count_more};
use crate::exact::{common_divisor, difference, product, quotient, sum};
use crate::fault::SimplexFault;
use crate::narrow::Narrow;
use crate::outline::Outline;
use crate::program::Summand;

// The terms are in the order of their variables, each variable in one term at most. The basic
// variable is the one that the equation gives the value of, the other variables at 0. Its coefficient
// is above 0. An equation of the tableau with no basic variable yet is an artificial one.
#[derive(Drop)]
pub struct Equation {
    pub basic: Option<usize>,
    pub terms: Vec<Summand>,
    pub constant: i128,
    // The outline of its terms, and maybe of others that were among them.
    pub outline: Outline,
}

impl Equation {
    pub fn new(terms: Vec<Summand>, constant: i128) -> Equation {
        let outline = Outline::of(&terms);
        Equation {
            basic: None,
            terms,
            constant,
            outline,
        }
    }

    pub fn coefficient(&self, variable: usize) -> i128 {
        if !self.outline.may_have(variable) {
            return 0;
        }
        let found = self
            .terms
            .binary_search_by_key(&variable, |term| term.variable);
        match found {
            Ok(place) => self.terms.get(place).map_or(0, |term| term.coefficient),
            Err(_) => 0,
        }
    }

    // Whether its terms add up to 0 and all have the same sign.
    pub fn is_sum_of_zeros(&self) -> bool {
        self.constant == 0
            && (self.terms.iter().all(|term| term.coefficient > 0)
                || self.terms.iter().all(|term| term.coefficient < 0))
    }

    pub fn negate(&mut self) -> Result<(), SimplexFault> {
        for term in self.terms.iter_mut() {
            term.coefficient = difference(0, term.coefficient)?;
        }
        self.constant = difference(0, self.constant)?;
        Ok(())
    }

    // Makes the variable's coefficient positive, by the equation's negation where need be.
    pub fn orient(&mut self, variable: usize) -> Result<(), SimplexFault> {
        if self.coefficient(variable) < 0 {
            self.negate()?;
        }
        Ok(())
    }

    // Takes the pivot's variable out by a multiple of it. The terms are made in spare memory, which is
    // exchanged for that of the old ones; in how many equations variables are is kept up.
    pub fn eliminate(
        &mut self,
        pivot: &Pivot<'_>,
        spare: &mut Vec<Summand>,
        counts: &mut [usize],
    ) -> Result<(), SimplexFault> {
        let own = self.coefficient(pivot.variable);
        if own == 0 {
            return Ok(());
        }
        let shared = common_divisor(own, pivot.leading)?;
        let kept = self.scaled(quotient(pivot.leading, shared)?);
        let taken = pivot
            .equation
            .scaled(difference(0, quotient(own, shared)?)?);
        let constant = sum(
            product(kept.factor, self.constant)?,
            product(taken.factor, pivot.equation.constant)?,
        )?;
        spare.clear();
        spare.reserve(self.terms.len().saturating_add(pivot.equation.terms.len()))?;
        let outline = kept.add_to(spare, &taken, counts)?;
        std::mem::swap(&mut self.terms, spare);
        self.constant = constant;
        self.outline = outline;
        if outline.has_unit {
            return Ok(());
        }
        self.reduce()
    }

    fn scaled(&self, factor: i128) -> Scaled<'_> {
        Scaled {
            terms: &self.terms,
            outline: self.outline,
            factor,
        }
    }

    // Divides the equation by the greatest number that divides all of it.
    pub fn reduce(&mut self) -> Result<(), SimplexFault> {
        let mut divisor = self.constant;
        for term in &self.terms {
            if divisor == 1 {
                return Ok(());
            }
            divisor = common_divisor(term.coefficient, divisor)?;
        }
        if divisor > 1 {
            for term in self.terms.iter_mut() {
                term.coefficient = quotient(term.coefficient, divisor)?;
            }
            self.constant = quotient(self.constant, divisor)?;
            self.outline = Outline::of(&self.terms);
        }
        Ok(())
    }
}

// An equation by which a variable is taken out of others, and the variable's coefficient in it, which
// is above 0.
#[derive(Clone, Copy)]
pub struct Pivot<'a> {
    pub equation: &'a Equation,
    pub variable: usize,
    pub leading: i128,
}

impl Pivot<'_> {
    pub fn of(equation: &Equation, variable: usize) -> Pivot<'_> {
        Pivot {
            equation,
            variable,
            leading: equation.coefficient(variable),
        }
    }
}

// Terms times a factor.
#[derive(Clone, Copy)]
struct Scaled<'a> {
    terms: &'a [Summand],
    outline: Outline,
    factor: i128,
}

impl<'a> Scaled<'a> {
    // Appends the sum with other terms, in order, without the terms that cancel. Gives its outline.
    fn add_to(
        &self,
        sum_terms: &mut Vec<Summand>,
        other: &Scaled<'_>,
        counts: &mut [usize],
    ) -> Result<Outline, SimplexFault> {
        if let (Some(one), Some(other)) = (self.narrow(), other.narrow()) {
            return one.add_to(sum_terms, &other, counts);
        }
        self.add_wide_to(sum_terms, other, counts)?;
        Ok(Outline::of(sum_terms))
    }

    // The terms with a factor of 64 bits, where no product takes more than 62 bits.
    fn narrow(&self) -> Option<Narrow<'a>> {
        let factor = i64::try_from(self.factor).ok()?;
        let greatest = self.outline.digits.checked_mul(factor.unsigned_abs())?;
        if greatest >= 1 << 62 {
            return None;
        }
        Some(Narrow {
            terms: self.terms,
            factor,
        })
    }

    fn times(&self, term: &Summand) -> Result<Summand, SimplexFault> {
        Ok(Summand {
            variable: term.variable,
            coefficient: product(self.factor, term.coefficient)?,
        })
    }

    // Appends the sum by numbers of 128 bits.
    fn add_wide_to(
        &self,
        sum_terms: &mut Vec<Summand>,
        other: &Scaled<'_>,
        counts: &mut [usize],
    ) -> Result<(), SimplexFault> {
        let mut rest = other.terms;
        for term in self.terms {
            while let [first, behind @ ..] = rest
                && first.variable < term.variable
            {
                sum_terms.push(other.times(first)?)?;
                count_more(counts, first.variable);
                rest = behind;
            }
            let mut scaled = self.times(term)?;
            if let [first, behind @ ..] = rest
                && first.variable == term.variable
            {
                scaled.coefficient = sum(scaled.coefficient, other.times(first)?.coefficient)?;
                rest = behind;
            }
            if scaled.coefficient == 0 {
                count_less(counts, term.variable);
            } else {
                sum_terms.push(scaled)?;
            }
        }
        let tail = Scaled {
            terms: rest,
            ..*other
        };
        tail.append_to(sum_terms, counts)
    }

    // Appends the terms, which no term of the sum is like.
    fn append_to(
        &self,
        sum_terms: &mut Vec<Summand>,
        counts: &mut [usize],
    ) -> Result<(), SimplexFault> {
        for term in self.terms {
            sum_terms.push(self.times(term)?)?;
            count_more(counts, term.variable);
        }
        Ok(())
    }
}
