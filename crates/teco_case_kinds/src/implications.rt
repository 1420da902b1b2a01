//! Cases of linear forms: sums, and what follows from inequalities between them.
use crate::case_file::{CaseKeys, NamedCase};
use crate::fault::CaseFault;
use crate::findings::Findings;
use crate::phrase::Phrase;
use crate::sums::{form_of, forms_of, sum_text, terms_of};
use std::alloc::{AllocError, Global};
use teco_linear::{Difference, Form, LinearFault, Multiplier, Scale, is_implied};

const KEYS: &[&str] = &[
    "sum",
    "wide",
    "places",
    "difference",
    "constraints",
    "multipliers",
    "divisor",
    "target",
    "answer",
];

/// How many terms a sum has at most that is told.
const MOST_TOLD: usize = 20;

// How a sum is told: if it is long, by the number of its terms.
fn told(alloc: Global, form: &Form) -> Result<String, AllocError> {
    let count = form.terms().len();
    if count > MOST_TOLD {
        return format!(in alloc; "{count} terms");
    }
    sum_text(alloc, form)
}

// A sum of so many symbols.
fn symbols_of(alloc: Global, count: u32) -> Result<Form, LinearFault> {
    let mut symbols = Form::zero(alloc);
    for symbol in 0..count {
        symbols = symbols.add(&Form::symbol(symbol, alloc)?, alloc)?;
    }
    Ok(symbols)
}

// A sum and so many symbols, each at so many powers of N.
fn widened(alloc: Global, sum: Form, count: u32) -> Result<Form, LinearFault> {
    let symbols = symbols_of(alloc, count)?;
    let mut wide = sum;
    for power in 0..count {
        let scale = Scale { factor: 1, power };
        wide = wide.add(&symbols.scaled(&scale, alloc)?, alloc)?;
    }
    Ok(wide)
}

// The sum of a case, with what stands for its symbols.
fn summed(alloc: Global, case: &NamedCase<'_>, sum: Phrase<'_>) -> Result<String, CaseFault> {
    let mut form = form_of(alloc, sum)?;
    if let Some(count) = case.phrase_if_any("wide")? {
        let count = u32::try_from(count.count()?).unwrap_or(0);
        form = widened(alloc, form, count)?;
    }
    if let Some(places) = case.phrase_if_any("places")? {
        form = form.substitute(&forms_of(alloc, places)?, alloc)?;
    }
    Ok(told(alloc, &form)?)
}

// The name of a symbol; 0 where there is none.
fn symbol_text(alloc: Global, symbol: Option<u32>) -> Result<String, AllocError> {
    match symbol {
        Some(symbol) => format!(in alloc; "x{symbol}"),
        None => String::from_str(alloc, "0"),
    }
}

// The difference that a sum bounds, if it does.
fn difference_of(alloc: Global, sum: Phrase<'_>) -> Result<String, CaseFault> {
    let Some(found) = Difference::of(&form_of(alloc, sum)?) else {
        return Ok(String::from_str(alloc, "none")?);
    };
    let left = symbol_text(alloc, found.left)?;
    let right = symbol_text(alloc, found.right)?;
    let most = found.most;
    Ok(format!(in alloc; "{left} - {right} <= {most}")?)
}

// How often a constraint is taken, as `2*N of 0`.
fn multiplier_of(alloc: Global, line: Phrase<'_>) -> Result<Multiplier, CaseFault> {
    let Some((factor, constraint)) = line.words.split_once(" of ") else {
        return Err(line.wrong());
    };
    let terms = terms_of(alloc, line.part(factor))?;
    let Some(term) = terms.first() else {
        return Err(line.wrong());
    };
    let Ok(factor) = u64::try_from(term.coefficient) else {
        return Err(line.wrong());
    };
    Ok(Multiplier {
        constraint: line.part(constraint).count()?,
        factor,
        power: term.power,
    })
}

// The multipliers of a case.
fn multipliers_of(alloc: Global, text: Phrase<'_>) -> Result<Vec<Multiplier>, CaseFault> {
    let mut multipliers = Vec::new(alloc);
    for line in text.words.lines() {
        multipliers.push(multiplier_of(alloc, text.part(line))?)?;
    }
    Ok(multipliers)
}

// An answer in a word.
fn word_of(is_so: bool) -> &'static str {
    if is_so { "yes" } else { "no" }
}

// Whether multipliers show that constraints imply the target of a case.
fn is_target_implied(
    alloc: Global,
    case: &NamedCase<'_>,
    constraints: &[Form],
    multipliers: &[Multiplier],
) -> Result<bool, CaseFault> {
    let target = form_of(alloc, case.phrase("target")?)?;
    let divisor = case.number_if_any("divisor")?.unwrap_or(1);
    Ok(is_implied(constraints, multipliers, divisor, &target, alloc)?)
}

// Whether multipliers show that the constraints of a case imply its target.
fn judged(alloc: Global, case: &NamedCase<'_>, text: Phrase<'_>) -> Result<bool, CaseFault> {
    let multipliers = multipliers_of(alloc, text)?;
    let constraints = forms_of(alloc, case.phrase("constraints")?)?;
    is_target_implied(alloc, case, &constraints, &multipliers)
}

// What is said of a case.
fn said_of(alloc: Global, case: &NamedCase<'_>) -> Result<String, CaseFault> {
    if let Some(sum) = case.phrase_if_any("sum")? {
        return summed(alloc, case, sum);
    }
    if let Some(sum) = case.phrase_if_any("difference")? {
        return difference_of(alloc, sum);
    }
    let is_shown = judged(alloc, case, case.phrase("multipliers")?)?;
    Ok(String::from_str(alloc, word_of(is_shown))?)
}

/// Works out the sum of a case, or what follows from its constraints.
pub fn run_implication(alloc: Global, case: &NamedCase<'_>) -> Result<Findings, CaseFault> {
    case.check(CaseKeys::of_texts(KEYS))?;
    let said = match said_of(alloc, case) {
        Err(CaseFault::Linear(fault)) => format!(in alloc; "{fault}")?,
        said => said?,
    };
    Findings::of_text(alloc, "answer", case.text("answer")?, said.as_bytes())
}
