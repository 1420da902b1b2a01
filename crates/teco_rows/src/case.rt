//! Cases: what is known of a state, by linear forms over symbols.

use teco_linear::Form;
use teco_model::Operator;

/// What a state has of what may be absent: the operator that waits at each argument level, the
/// outermost first; how many iterations are open; how many pairs were pushed.
#[derive(Drop)]
pub struct Shape {
    pub operators: Vec<Option<Operator>>,
    pub iterations: usize,
    pub pushes: usize,
}

/// What is known of a state: a form for each measure that it has, in the measures' places;
/// inequalities between the forms' symbols, which are those below a number; and its shape.
#[derive(Drop)]
pub struct Case {
    pub symbols: u32,
    pub forms: Vec<Option<Form>>,
    pub constraints: Vec<Form>,
    pub shape: Shape,
}
