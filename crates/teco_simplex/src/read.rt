//! The values of a tableau's variables.
use crate::equation::Equation;
use crate::exact::{common_divisor, difference, product, quotient};
use crate::fault::SimplexFault;
use crate::program::Assignment;
use crate::tableau::Tableau;

impl Tableau {
    // The basic variables have the values that their equations give, the others are 0; then the free
    // variables, the last defined first. Only the first `variables` are told.
    pub fn values(&self, variables: usize) -> Result<Assignment, SimplexFault> {
        let mut values = Assignment {
            denominator: 1,
            numerators: Vec::from_elem(self.alloc, 0i128, self.columns.len())?,
        };
        for equation in &self.equations {
            if let Some(variable) = equation.basic {
                values.set(variable, equation.constant, equation.coefficient(variable))?;
            }
        }
        for definition in self.definitions.iter().rev() {
            values.define(definition)?;
        }
        values.numerators.truncate(variables);
        Ok(values)
    }
}

impl Assignment {
    // Sets the variable to a fraction, and brings all to a common denominator.
    fn set(
        &mut self,
        variable: usize,
        numerator: i128,
        denominator: i128,
    ) -> Result<(), SimplexFault> {
        let shared = common_divisor(numerator, denominator)?;
        let own = quotient(denominator, shared)?;
        let factor = quotient(own, common_divisor(own, self.denominator)?)?;
        if factor != 1 {
            self.denominator = product(self.denominator, factor)?;
            for numerator in self.numerators.iter_mut() {
                *numerator = product(*numerator, factor)?;
            }
        }
        let value = product(
            quotient(numerator, shared)?,
            quotient(self.denominator, own)?,
        )?;
        if let Some(numerator) = self.numerators.get_mut(variable) {
            *numerator = value;
        }
        Ok(())
    }

    // Sets the variable that the equation defines, from the values of its others.
    fn define(&mut self, definition: &Equation) -> Result<(), SimplexFault> {
        let Some(variable) = definition.basic else {
            return Ok(());
        };
        let mut left = product(definition.constant, self.denominator)?;
        for term in &definition.terms {
            if term.variable != variable {
                let value = self.numerators.get(term.variable).copied().unwrap_or(0);
                left = difference(left, product(term.coefficient, value)?)?;
            }
        }
        let denominator = product(definition.coefficient(variable), self.denominator)?;
        self.set(variable, left, denominator)
    }
}
