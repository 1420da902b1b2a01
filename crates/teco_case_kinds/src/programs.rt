//! Cases of linear programs: their least values, or why there are none.
use crate::case_file::{CaseKeys, NamedCase};
use crate::fault::CaseFault;
use crate::findings::Findings;
use crate::phrase::Phrase;
use crate::sums::terms_of;
use std::alloc::Global;
use teco_simplex::{
    Assignment, Condition, LinearProgram, Relation, Sign, SimplexFault, SolverAnswer, Summand,
};

const KEYS: &[&str] = &[
    "variables",
    "program",
    "pivots",
    "denominator",
    "numerators",
    "answer",
];

/// How many pivots are made at most where a case does not say it.
const PIVOTS: u64 = 100;

/// More divisions than it takes to find what two numbers of 128 bits share.
const MOST_DIVISIONS: usize = 200;

/// How rows are spelled.
const RELATIONS: &[(&str, Relation)] = &[
    (" <= ", Relation::AtMost),
    (" >= ", Relation::AtLeast),
    (" = ", Relation::Equal),
];

// A sum of variables. A 0 alone is a sum of none.
fn variables_of(alloc: Global, sum: Phrase<'_>) -> Result<Vec<Summand>, CaseFault> {
    let mut terms = Vec::new(alloc);
    if sum.words == "0" {
        return Ok(terms);
    }
    let read = terms_of(alloc, sum)?;
    for term in read.iter() {
        let Some(variable) = term.symbol else {
            return Err(sum.wrong());
        };
        terms.push(Summand {
            variable: variable as usize,
            coefficient: term.coefficient,
        })?;
    }
    Ok(terms)
}

// A condition.
fn row_of(alloc: Global, line: Phrase<'_>) -> Result<Condition, CaseFault> {
    for (sign, relation) in RELATIONS {
        if let Some((sum, bound)) = line.words.split_once(*sign) {
            return Ok(Condition {
                terms: variables_of(alloc, line.part(sum))?,
                relation: *relation,
                bound: line.part(bound).number()?,
            });
        }
    }
    Err(line.wrong())
}

// Adds a condition, or an objective behind `min`.
fn add_line(alloc: Global, program: &mut LinearProgram, line: Phrase<'_>) -> Result<(), CaseFault> {
    match line.words.strip_prefix("min ") {
        Some(sum) => program.add_objective(variables_of(alloc, line.part(sum))?)?,
        None => program.add_row(row_of(alloc, line)?)?,
    }
    Ok(())
}

// Which values a variable may take, by its letter.
fn sign_of(letter: u8) -> Sign {
    match letter {
        b'f' => Sign::Free,
        _ => Sign::NonNegative,
    }
}

// Takes the program of a case.
fn read_program(
    alloc: Global,
    case: &NamedCase<'_>,
    program: &mut LinearProgram,
) -> Result<(), CaseFault> {
    for letter in case.text("variables")? {
        let _place = program.add_variable(sign_of(*letter))?;
    }
    let text = case.phrase("program")?;
    for line in text.words.lines() {
        add_line(alloc, program, text.part(line))?;
    }
    Ok(())
}

// The greatest number that divides both.
fn common_divisor(left: u128, right: u128) -> u128 {
    let (mut divisor, mut rest) = (left, right);
    for _ in 0..MOST_DIVISIONS {
        if rest == 0 {
            return divisor;
        }
        (divisor, rest) = (rest, divisor % rest);
    }
    1
}

// A sum at values: what it is over their denominator, if that fits 128 bits.
fn value_of(sum: &[Summand], values: &Assignment) -> Option<i128> {
    let mut value = 0i128;
    for term in sum {
        let numerator = values.numerators.get(term.variable)?;
        value = value.checked_add(term.coefficient.checked_mul(*numerator)?)?;
    }
    Some(value)
}

// Adds a fraction in lowest terms.
fn push_fraction(
    text: &mut String,
    alloc: Global,
    numerator: i128,
    denominator: u128,
) -> Result<(), CaseFault> {
    let top = numerator.unsigned_abs();
    let shared = common_divisor(top, denominator).max(1);
    let sign = if numerator < 0 { "-" } else { "" };
    let (top, bottom) = (top / shared, denominator / shared);
    text.push_str(format!(in alloc; " {sign}{top}")?.as_str())?;
    if bottom != 1 {
        text.push_str(format!(in alloc; "/{bottom}")?.as_str())?;
    }
    Ok(())
}

// The least values of the objectives.
fn least(alloc: Global, program: &LinearProgram, values: &Assignment) -> Result<String, CaseFault> {
    let mut text = String::from_str(alloc, "least")?;
    for objective in program.objectives.iter() {
        match value_of(objective, values) {
            Some(value) => {
                push_fraction(&mut text, alloc, value, values.denominator.unsigned_abs())?;
            }
            None => text.push_str(" ?")?,
        }
    }
    Ok(text)
}

// What is said of a program.
fn answer_of(
    alloc: Global,
    program: &LinearProgram,
    answer: Result<SolverAnswer, SimplexFault>,
) -> Result<String, CaseFault> {
    match answer {
        Ok(SolverAnswer::Found(values)) => least(alloc, program, &values),
        Ok(SolverAnswer::Infeasible) => Ok(String::from_str(alloc, "infeasible")?),
        Ok(SolverAnswer::Unbounded) => Ok(String::from_str(alloc, "unbounded")?),
        Err(fault) => Ok(format!(in alloc; "{fault}")?),
    }
}

// The values of a case, over a denominator.
fn values_of(
    alloc: Global,
    case: &NamedCase<'_>,
    denominator: i128,
) -> Result<Assignment, CaseFault> {
    let mut numerators = Vec::new(alloc);
    let text = case.phrase("numerators")?;
    for word in text.words.split_whitespace() {
        numerators.push(text.part(word).number()?)?;
    }
    Ok(Assignment {
        denominator,
        numerators,
    })
}

// Whether a program is satisfied, in a word.
fn satisfied(program: &LinearProgram, values: &Assignment) -> &'static str {
    if program.is_satisfied_by(values) {
        "satisfied"
    } else {
        "not satisfied"
    }
}

// What is said of the program of a case.
fn said_of(
    alloc: Global,
    case: &NamedCase<'_>,
    program: &mut LinearProgram,
) -> Result<String, CaseFault> {
    read_program(alloc, case, program)?;
    if let Some(text) = case.phrase_if_any("denominator")? {
        let values = values_of(alloc, case, text.number()?)?;
        return Ok(String::from_str(alloc, satisfied(program, &values))?);
    }
    let pivots = case.number_if_any("pivots")?.unwrap_or(PIVOTS);
    let answer = program.solve(alloc, pivots as usize);
    answer_of(alloc, program, answer)
}

/// Solves the program of a case, or sees whether values satisfy it.
pub fn run_program(alloc: Global, case: &NamedCase<'_>) -> Result<Findings, CaseFault> {
    case.check(CaseKeys::of_texts(KEYS))?;
    let said = said_of(alloc, case, &mut LinearProgram::new(alloc))?;
    Findings::of_text(alloc, "answer", case.text("answer")?, said.as_bytes())
}
