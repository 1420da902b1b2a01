//! Laws of polynomials and their values.
ghost use Rattle.teco_poly.specs.Laws.{ValuesOfConstants, ValueOfSum, ValueOfDifference, ValueOfProduct, ValueOfJoin};
ghost use Rattle.teco_poly.specs.Laws.{ValueOfOneLess, ValueAt, AnswersArePolys, ValuesCompare, ValuesGrow};
ghost use Rattle.teco_poly.specs.Laws.{ComparisonOrders, JoinIsLeast, OneText};

/// A number has itself as its value, and N the number that it stands for.
pub fn values_of_constants()
    ensures { ValuesOfConstants }
{}

/// The value of a sum is the sum of the values.
pub fn value_of_sum()
    ensures { ValueOfSum }
{}

/// The value of a difference and that of what was taken away are the value of the whole.
pub fn value_of_difference()
    ensures { ValueOfDifference }
{}

/// The value of a product is the product of the values.
pub fn value_of_product()
    ensures { ValueOfProduct }
{}

/// The value of a join is at least both values.
pub fn value_of_join()
    ensures { ValueOfJoin }
{}

/// What is lowered by one has a value that is lower by one at most.
pub fn value_of_one_less()
    ensures { ValueOfOneLess }
{}

/// A value that 64 bits hold is the value.
pub fn value_at()
    ensures { ValueAt }
{}

/// A polynomial that is at most another has no greater value.
pub fn values_compare()
    ensures { ValuesCompare }
{}

/// Values grow with N.
pub fn values_grow()
    ensures { ValuesGrow }
{}

/// What is answered has nine coefficients, each below 2^64.
pub fn answers_are_polys()
    ensures { AnswersArePolys }
{}

/// The comparison is an order.
pub fn comparison_orders()
    ensures { ComparisonOrders }
{}

/// A join is the least of those that both are at most.
pub fn join_is_least()
    ensures { JoinIsLeast }
{}

/// A text is that of one polynomial.
pub fn one_text()
    ensures { OneText }
{}
