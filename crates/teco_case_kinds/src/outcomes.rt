//! Cases of outcomes: what may come of the last element of a command string, by forms.
use crate::case_file::{CaseKeys, NamedCase, NamedText};
use crate::fault::CaseFault;
use crate::findings::Findings;
use crate::phrase::Phrase;
use crate::sums::sum_text;
use std::alloc::{AllocError, Global};
use std::str;
use teco_base::Reg;
use teco_lex::{Element, Reading, Readings};
use teco_linear::Form;
use teco_model::Kind;
use teco_model::kind::{Flow, Page};
use teco_outcomes::elements::outcomes_of;
use teco_rows::case::{self, Shape};
use teco_rows::fault::RowFault;
use teco_rows::measure::{Family, Measure, Single};
use teco_rows::outcomes::Outcomes;
use teco_search_outcomes::pages::{read_pages, write_pages};
use teco_search_outcomes::searches::search;

const KEYS: CaseKeys = CaseKeys {
    plain: &[
        "commands",
        "conditions",
        "guarded",
        "cases",
        "away",
        "refused",
    ],
    named: &["case", "away"],
    bare: &[],
};

/// How many registers there are.
const REGISTERS: usize = 36;

/// The measures that a state has once, by their letters.
const SINGLES: &[(&str, Single)] = &[
    ("c", Single::Steps),
    ("p", Single::Pointer),
    ("z", Single::Size),
    ("h", Single::Held),
    ("e", Single::LineEnd),
    ("s", Single::LineStart),
    ("m", Single::LastLength),
    ("a", Single::CodeHere),
    ("b", Single::CodeBefore),
    ("o", Single::Typed),
    ("i", Single::EntryHeld),
];

/// The measures that there are of each register, by the letter before its name.
const OF_REGISTERS: &[(&str, Family)] = &[("n", Family::Number), ("t", Family::Length)];

/// Those that there are of each iteration or level, by the letter before its number.
const OF_LEVELS: &[(&str, Family)] = &[
    ("r", Family::Turns),
    ("f", Family::First),
    ("v", Family::Value),
];

// Adds the forms of a register's number and length, and no others of its place.
fn add_register(forms: &mut Vec<Option<Form>>, alloc: Global) -> Result<(), RowFault> {
    forms.push(Some(Form::zero(alloc)))?;
    forms.push(Some(Form::zero(alloc)))?;
    for _ in 0..5 {
        forms.push(None)?;
    }
    Ok(())
}

// The forms of a state at the start of a run: the pointer, the size, what is held, and the line's
// end and start are the symbols 0 to 4, the characters at the pointer and before it 5 and 6, and all
// else is 0.
fn start_forms(alloc: Global) -> Result<Vec<Option<Form>>, RowFault> {
    let mut forms = Vec::new(alloc);
    forms.push(Some(Form::zero(alloc)))?;
    for symbol in 0..5 {
        forms.push(Some(Form::symbol(symbol, alloc)?))?;
    }
    forms.push(Some(Form::zero(alloc)))?;
    for symbol in 5..7 {
        forms.push(Some(Form::symbol(symbol, alloc)?))?;
    }
    for _ in [Single::Typed, Single::EntryHeld] {
        forms.push(Some(Form::zero(alloc)))?;
    }
    for _ in 0..REGISTERS {
        add_register(&mut forms, alloc)?;
    }
    Ok(forms)
}

// A state at the start of a run.
fn start(alloc: Global) -> Result<case::Case, RowFault> {
    let mut operators = Vec::new(alloc);
    operators.push(None)?;
    Ok(case::Case {
        symbols: 7,
        forms: start_forms(alloc)?,
        constraints: Vec::new(alloc),
        shape: Shape {
            operators,
            iterations: 0,
            pushes: 0,
        },
    })
}

// The element that is read next, if there is a whole one.
fn next_of<'a>(readings: &mut Readings<'a>) -> Option<Element<'a>> {
    match readings.next() {
        Some(Reading::Whole(element)) => Some(element),
        _ => None,
    }
}

// Is it `;`, before which a search answers?
fn is_leave(behind: &Option<Element<'_>>) -> bool {
    match behind {
        Some(element) => matches!(element.kind, Kind::Flow(Flow::Leave)),
        None => false,
    }
}

// What may come of pages. With an argument `A` is told as any other element.
fn of_page(
    case: &case::Case,
    element: &Element<'_>,
    page: Page,
    alloc: Global,
) -> Result<Outcomes, RowFault> {
    match outcomes_of(case, element, false, alloc) {
        Err(RowFault::NotTold) => {}
        told => return told,
    }
    match page {
        Page::Next | Page::Write => write_pages(case, page, alloc),
        Page::Append | Page::Yank => read_pages(case, page, alloc),
    }
}

// What may come of an element, with the one behind it.
fn of_element(
    case: &case::Case,
    element: &Element<'_>,
    behind: &Option<Element<'_>>,
    alloc: Global,
) -> Result<Outcomes, RowFault> {
    match element.kind {
        Kind::Search(kind) => {
            let answers = element.colons > 0 || is_leave(behind);
            search(case, kind, element, answers, alloc)
        }
        Kind::Page(page) => of_page(case, element, page, alloc),
        _ => outcomes_of(case, element, false, alloc),
    }
}

// The first case behind an element.
fn first_of(all: Outcomes) -> Result<case::Case, RowFault> {
    let Outcomes {
        conditions: _conditions,
        guarded: _guarded,
        cases,
        away: _away,
    } = all;
    match cases.into_iter().next() {
        Some(case) => Ok(case),
        None => Err(RowFault::NotTold),
    }
}

// The first case of what may come of an element.
fn case_behind(
    case: &case::Case,
    element: &Element<'_>,
    behind: &Option<Element<'_>>,
    alloc: Global,
) -> Result<case::Case, RowFault> {
    first_of(of_element(case, element, behind, alloc)?)
}

// What may come of the last element, behind the first case of each before it.
fn performed(commands: &[u8], alloc: Global) -> Result<Outcomes, RowFault> {
    let mut readings = Readings::from(commands, 0);
    let mut behind = next_of(&mut readings);
    let mut case = start(alloc)?;
    for _ in 0..commands.len() {
        let Some(element) = behind else {
            return Err(RowFault::NotTold);
        };
        behind = next_of(&mut readings);
        if behind.is_none() {
            return of_element(&case, &element, &behind, alloc);
        }
        case = case_behind(&case, &element, &behind, alloc)?;
    }
    Err(RowFault::NotTold)
}

// The measure that a state has once of this name.
fn single_of(name: &str) -> Option<Measure> {
    for (letter, single) in SINGLES {
        if name == *letter {
            return Some(Measure::One(*single));
        }
    }
    None
}

// The number of a register.
fn number_of(name: &str) -> Option<u32> {
    let [name] = name.as_bytes() else {
        return None;
    };
    Some(Reg::of(*name)?.index() as u32)
}

// The measure of a register.
fn of_register(name: &str) -> Option<Measure> {
    for (letter, family) in OF_REGISTERS {
        if let Some(register) = name.strip_prefix(*letter) {
            return Some(Measure::Each(*family, number_of(register)?));
        }
    }
    None
}

// The measure of an iteration or a level.
fn of_level(name: &str) -> Option<Measure> {
    for (letter, family) in OF_LEVELS {
        if let Some(level) = name.strip_prefix(*letter) {
            return Some(Measure::Each(*family, level.parse().ok()?));
        }
    }
    None
}

// The measure of a name.
fn measure_of(name: &str) -> Option<Measure> {
    single_of(name).or(of_register(name)).or(of_level(name))
}

// What a case has of a measure.
fn form_text(alloc: Global, case: &case::Case, measure: Measure) -> Result<String, AllocError> {
    match case.forms.get(measure.place()) {
        Some(Some(form)) => sum_text(alloc, form),
        _ => String::from_str(alloc, "none"),
    }
}

// What a case has of a name: a measure, or a part of its shape.
fn value_text(alloc: Global, case: &case::Case, name: Phrase<'_>) -> Result<String, CaseFault> {
    let count = match name.words {
        "constraints" => case.constraints.len(),
        "iterations" => case.shape.iterations,
        "pushes" => case.shape.pushes,
        _ => {
            let measure = measure_of(name.words).ok_or(name.wrong())?;
            return Ok(form_text(alloc, case, measure)?);
        }
    };
    Ok(format!(in alloc; "{count}")?)
}

// What a case has of all that lines name, as they name it.
fn case_text(alloc: Global, case: &case::Case, lines: Phrase<'_>) -> Result<String, CaseFault> {
    let mut text = String::new(alloc);
    for line in lines.words.lines() {
        let (name, _) = line.split_once(" = ").unwrap_or((line, ""));
        let value = value_text(alloc, case, lines.part(name))?;
        text.push_str(format!(in alloc; "{name} = {value}\n")?.as_str())?;
    }
    Ok(text)
}

// The case of a number, from 1 on.
fn numbered<'a>(cases: &'a [case::Case], number: &[u8]) -> Option<&'a case::Case> {
    let number: usize = str::from_utf8(number).ok()?.parse().ok()?;
    cases.get(number.checked_sub(1)?)
}

// Compares a case of a number with what is said of it.
fn compare_case(
    findings: &mut Findings,
    alloc: Global,
    cases: &[case::Case],
    said: NamedText<'_>,
    line: usize,
) -> Result<(), CaseFault> {
    let lines = Phrase {
        line,
        key: "case",
        words: str::from_utf8(said.text).unwrap_or(""),
    };
    let found = numbered(cases, said.name).ok_or(lines.wrong())?;
    let text = case_text(alloc, found, lines)?;
    findings.compare("case", said.text, text.as_bytes())?;
    Ok(())
}

// Compares the cases of a key that something is said of.
fn compare_cases(
    findings: &mut Findings,
    alloc: Global,
    case: &NamedCase<'_>,
    key: &str,
    cases: &[case::Case],
) -> Result<(), CaseFault> {
    let texts = case.named_texts(alloc, key)?;
    for said in texts.iter() {
        if !said.name.is_empty() {
            compare_case(findings, alloc, cases, *said, case.line())?;
        }
    }
    Ok(())
}

// Compares a number, where it is told.
fn compare_count(
    findings: &mut Findings,
    case: &NamedCase<'_>,
    key: &'static str,
    got: usize,
) -> Result<(), CaseFault> {
    if let Some(wanted) = case.number_if_any(key)? {
        findings.compare_numbers(key, wanted, got as u64)?;
    }
    Ok(())
}

// Compares what may come of the last element with what is said of it.
fn compare(alloc: Global, case: &NamedCase<'_>, all: &Outcomes) -> Result<Findings, CaseFault> {
    let mut findings = Findings::new(alloc);
    compare_count(&mut findings, case, "conditions", all.conditions.len())?;
    compare_count(&mut findings, case, "guarded", all.guarded.len())?;
    compare_count(&mut findings, case, "cases", all.cases.len())?;
    compare_count(&mut findings, case, "away", all.away.len())?;
    if findings.is_empty() {
        compare_cases(&mut findings, alloc, case, "case", &all.cases)?;
        compare_cases(&mut findings, alloc, case, "away", &all.away)?;
    }
    Ok(findings)
}

/// Performs the command string of a case on a state at the start of a run.
pub fn run_outcomes(alloc: Global, case: &NamedCase<'_>) -> Result<Findings, CaseFault> {
    case.check(KEYS)?;
    match performed(case.text("commands")?, alloc) {
        Ok(all) => compare(alloc, case, &all),
        Err(fault) => {
            let said = format!(in alloc; "{fault}")?;
            Findings::of_text(alloc, "refused", case.text("refused")?, said.as_bytes())
        }
    }
}
