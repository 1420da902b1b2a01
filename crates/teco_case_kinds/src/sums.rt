//! Sums of whole numbers times powers of N times symbols, spelled as `2*N*x0 - x1 + 3`.
use crate::fault::CaseFault;
use crate::phrase::Phrase;
use std::alloc::{AllocError, Global};
use teco_linear::{Form, Term};

// A term that is 1.
const ONE: Term = Term {
    symbol: None,
    power: 0,
    coefficient: 1,
};

// A term with a factor more: a symbol, a power of N or a number.
fn times(term: Term, factor: &str) -> Option<Term> {
    if let Some(symbol) = factor.strip_prefix("x") {
        let symbol = Some(symbol.parse().ok()?);
        return Some(Term { symbol, ..term });
    }
    if let Some(power) = factor.strip_prefix("N^") {
        let power = power.parse().ok()?;
        return Some(Term { power, ..term });
    }
    if factor == "N" {
        return Some(Term { power: 1, ..term });
    }
    let coefficient = factor.parse().ok()?;
    Some(Term {
        coefficient,
        ..term
    })
}

// The product of the factors of a word.
fn product_of(word: &str) -> Option<Term> {
    let mut term = ONE;
    for factor in word.split('*') {
        term = times(term, factor)?;
    }
    Some(term)
}

// The term that a word spells, which may begin with a minus.
fn term_of(word: &str, is_negative: bool) -> Option<Term> {
    let (is_negative, word) = match word.strip_prefix("-") {
        Some(word) => (true, word),
        None => (is_negative, word),
    };
    let mut term = product_of(word)?;
    if is_negative {
        term.coefficient = term.coefficient.checked_neg()?;
    }
    Some(term)
}

/// The terms of a sum, in the order in which they stand.
pub fn terms_of(alloc: Global, sum: Phrase<'_>) -> Result<Vec<Term>, CaseFault> {
    let mut terms = Vec::new(alloc);
    let mut is_negative = false;
    for word in sum.words.split_whitespace() {
        if word == "+" || word == "-" {
            is_negative = word == "-";
            continue;
        }
        match term_of(word, is_negative) {
            Some(term) => terms.push(term)?,
            None => return Err(sum.wrong()),
        }
    }
    Ok(terms)
}

/// The form that a sum is.
pub fn form_of(alloc: Global, sum: Phrase<'_>) -> Result<Form, CaseFault> {
    let mut form = Form::zero(alloc);
    let terms = terms_of(alloc, sum)?;
    for term in terms.iter() {
        form = form.add(&Form::term(*term, alloc)?, alloc)?;
    }
    Ok(form)
}

/// The forms of sums, one on each line.
pub fn forms_of(alloc: Global, sums: Phrase<'_>) -> Result<Vec<Form>, CaseFault> {
    let mut forms = Vec::new(alloc);
    for sum in sums.words.lines() {
        forms.push(form_of(alloc, sums.part(sum))?)?;
    }
    Ok(forms)
}

// How a power of N is spelled.
fn power_text(alloc: Global, power: u32) -> Result<String, AllocError> {
    match power {
        0 => Ok(String::new(alloc)),
        1 => String::from_str(alloc, "*N"),
        _ => format!(in alloc; "*N^{power}"),
    }
}

// How a symbol is spelled, if there is one.
fn symbol_text(alloc: Global, symbol: Option<u32>) -> Result<String, AllocError> {
    match symbol {
        Some(symbol) => format!(in alloc; "*x{symbol}"),
        None => Ok(String::new(alloc)),
    }
}

// How a term is spelled without its sign. A coefficient of 1 is, if there is nothing else.
fn body_text(alloc: Global, term: &Term) -> Result<String, AllocError> {
    let number = term.coefficient.unsigned_abs();
    let power = power_text(alloc, term.power)?;
    let symbol = symbol_text(alloc, term.symbol)?;
    let text = format!(in alloc; "{number}{power}{symbol}")?;
    match text.as_str().strip_prefix("1*") {
        Some(rest) => String::from_str(alloc, rest),
        None => Ok(text),
    }
}

// The sign of a term, behind others or none.
fn sign_of(is_first: bool, is_negative: bool) -> &'static str {
    if is_first {
        if is_negative { "-" } else { "" }
    } else if is_negative {
        " - "
    } else {
        " + "
    }
}

// Adds the terms that have a symbol, or those that have none.
fn push_terms(
    text: &mut String,
    alloc: Global,
    form: &Form,
    has_symbol: bool,
) -> Result<(), AllocError> {
    for term in form.terms().iter() {
        if term.symbol.is_some() == has_symbol {
            text.push_str(sign_of(text.is_empty(), term.coefficient < 0))?;
            text.push_str(body_text(alloc, term)?.as_str())?;
        }
    }
    Ok(())
}

/// How a form is spelled: what has a symbol first.
pub fn sum_text(alloc: Global, form: &Form) -> Result<String, AllocError> {
    let mut text = String::new(alloc);
    push_terms(&mut text, alloc, form, true)?;
    push_terms(&mut text, alloc, form, false)?;
    if text.is_empty() {
        text.push('0')?;
    }
    Ok(text)
}
