//! The objects of JSON that verdicts are printed as.
ghost use Rattle.std.specs.Prelude.{◌≡◌, IfOk, IfSome, option_map};
ghost use Rattle.std.specs.Option.{option_copied};
ghost use Rattle.teco_console.specs.Premise.{IsLast};
ghost use Rattle.teco_verdicts.specs.Json as json;

use std::alloc::{AllocError, Global};
use teco_acceptance::Verdict;
use teco_base::Reg;
use teco_console::{AnswerFault, Premise};
use teco_explain::number_of;
use teco_json::{Member, Value, object};
use teco_model::{ArgumentRange, Needs};
use teco_paths::coefficients::coefficients;
use teco_poly::Poly;
use teco_promise::Promise;
use teco_source::LineAndByte;

/// The bounds of a promise, as coefficients, that of the constant first.
#[derive(Drop)]
pub struct StatedBounds {
    pub commands: Vec<u64>,
    pub size: Vec<u64>,
    pub grows: Option<Vec<u64>>,
    pub types: Option<Vec<u64>>,
}

/// What an object states of a macro that is accepted.
#[derive(Drop)]
pub struct Stated {
    pub entry: Reg,
    /// The least and the greatest.
    pub argument: Option<Vec<u64>>,
    pub needs_input: bool,
    pub needs_output: bool,
    pub bounds: StatedBounds,
    pub greatest: Option<u64>,
}

// The coefficients of a polynomial. Nine are enough, so that memory alone may be wanting.
fn coefficients_of(alloc: Global, polynomial: &Poly) -> Result<Vec<u64>, AnswerFault>
    ensures { IfOk result (λ found. json.AreCoefficients polynomial.now found.items) }
{
    match coefficients(polynomial, alloc) {
        Ok(found) => Ok(found),
        Err(_) => Err(AnswerFault::Memory),
    }
}

// The coefficients of a bound, if there is one.
fn coefficients_if(alloc: Global, bound: Option<Poly>) -> Result<Option<Vec<u64>>, AnswerFault>
    ensures { IfOk result (λ found. json.AreCoefficientsIf bound found) }
{
    match bound {
        None => Ok(None),
        Some(polynomial) => {
            let found = coefficients_of(alloc, &polynomial)?;
            Ok(Some(found))
        }
    }
}

// The bounds of a promise.
fn bounds_of(alloc: Global, promise: &Promise<'_>) -> Result<StatedBounds, AnswerFault>
    ensures { IfOk result (λ bounds. json.StatesBounds promise.now bounds) }
{
    let commands = coefficients_of(alloc, &promise.commands())?;
    let size = coefficients_of(alloc, &promise.size())?;
    let grows = coefficients_if(alloc, promise.grows())?;
    let types = coefficients_if(alloc, promise.types())?;
    Ok(StatedBounds {
        commands,
        size,
        grows,
        types,
    })
}

// The last N at which a promise holds; none where it holds for no text.
fn greatest_of(promise: &Promise<'_>) -> Option<u64>
    ensures { IfSome result (λ n. IsLast promise.now.size promise.now.commands n) }
{
    let premise = Premise::of_promise(promise);
    if premise.is_empty() {
        return None;
    }
    premise.last
}

// The least and the greatest argument, if there is a range.
fn ends_of(alloc: Global, range: Option<ArgumentRange>) -> Result<Option<Vec<u64>>, AllocError>
    ensures { IfOk result (λ ends. option_map json.items ends ≡ option_map json.range_ends range) }
{
    let Some(range) = range else {
        return Ok(None);
    };
    let mut ends = Vec::new(alloc);
    ends.push(u64::from(range.low()))?;
    ends.push(u64::from(range.high()))?;
    Ok(Some(ends))
}

// What is stated of a promise.
fn statement_of(alloc: Global, promise: &Promise<'_>) -> Result<Stated, AnswerFault>
    ensures { IfOk result (λ stated. json.States promise.now stated) }
{
    let bounds = bounds_of(alloc, promise)?;
    let argument = ends_of(alloc, promise.argument())?;
    let Needs { input, output } = promise.needs();
    Ok(Stated {
        entry: promise.entry(),
        argument,
        needs_input: input,
        needs_output: output,
        bounds,
        greatest: greatest_of(promise),
    })
}

// Numbers, if there are some.
fn numbers_in(numbers: &Option<Vec<u64>>) -> Option<&[u64]>
    ensures { option_copied result ≡ option_map json.items numbers.now }
{
    match numbers {
        None => None,
        Some(numbers) => Some(numbers.as_slice()),
    }
}

// The name of a register, if there is one.
fn name_in(register: Option<Reg>) -> Option<u8>
    ensures { result ≡ json.name_in register }
{
    match register {
        None => None,
        Some(register) => Some(register.name()),
    }
}

// The object of what is stated.
fn stated_text(alloc: Global, stated: &Stated) -> Result<Vec<u8>, AllocError>
    ensures { IfOk result (λ text. text.items ≡ json.stated_text stated.now) }
{
    let bounds = &stated.bounds;
    object(
        alloc,
        &[
            Member {
                key: "macro",
                value: Value::MaybeByte(Some(stated.entry.name())),
            },
            Member {
                key: "accepted",
                value: Value::Truth(true),
            },
            Member {
                key: "commands",
                value: Value::MaybeNumbers(Some(&bounds.commands)),
            },
            Member {
                key: "size",
                value: Value::MaybeNumbers(Some(&bounds.size)),
            },
            Member {
                key: "grows",
                value: Value::MaybeNumbers(numbers_in(&bounds.grows)),
            },
            Member {
                key: "types",
                value: Value::MaybeNumbers(numbers_in(&bounds.types)),
            },
            Member {
                key: "needs_input",
                value: Value::Truth(stated.needs_input),
            },
            Member {
                key: "needs_output",
                value: Value::Truth(stated.needs_output),
            },
            Member {
                key: "greatest_n",
                value: Value::MaybeNumber(stated.greatest),
            },
            Member {
                key: "argument",
                value: Value::MaybeNumbers(numbers_in(&stated.argument)),
            },
        ],
    )
}

/// The object of a promise.
pub fn object_of(alloc: Global, promise: &Promise<'_>) -> Result<Vec<u8>, AnswerFault>
    ensures { IfOk result (λ text. json.IsObjectOf promise.now text.items) }
{
    let stated = statement_of(alloc, promise)?;
    let text = stated_text(alloc, &stated)?;
    Ok(text)
}

/// Where a refusal is, in its file, and what is said of it. What can't be told is none.
#[derive(Clone, Copy)]
pub struct Remark<'a> {
    /// The line and the column where the element begins.
    pub begin: Option<LineAndByte>,
    /// The place in the text of the register behind the element.
    pub end: Option<u64>,
    /// The line and the column of that.
    pub end_position: Option<LineAndByte>,
    /// What the reason means.
    pub message: &'a [u8],
    /// How it is mended.
    pub remedy: &'a str,
    /// On what small world the macro fails, in words, if one was found.
    pub witness: Option<&'a [u8]>,
    /// The text of that.
    pub witness_text: Option<&'a [u8]>,
}

// The line of a position, if there is one.
fn line_in(position: Option<LineAndByte>) -> Option<u64>
    ensures { result ≡ json.line_in position }
{
    match position {
        None => None,
        Some(at) => Some(at.line as u64),
    }
}

// Its column.
fn column_in(position: Option<LineAndByte>) -> Option<u64>
    ensures { result ≡ json.column_in position }
{
    match position {
        None => None,
        Some(at) => Some(at.column as u64),
    }
}

// What an object states of a refusal, as its texts have it.
#[derive(Clone, Copy)]
struct StatedRefusal<'a> {
    entry: Option<Reg>,
    verdict: Verdict,
    reason: &'a str,
    begin: Option<LineAndByte>,
    end: Option<u64>,
    end_position: Option<LineAndByte>,
    message: &'a [u8],
    remedy: &'a str,
    witness: Option<&'a [u8]>,
    witness_text: Option<&'a [u8]>,
}

// The object of a refusal whose reason is spelled so.
fn refusal_object(alloc: Global, stated: &StatedRefusal<'_>) -> Result<Vec<u8>, AllocError>
    ensures { IfOk result (λ text. text.items ≡ json.refusal_object stated.now) }
{
    object(
        alloc,
        &[
            Member {
                key: "macro",
                value: Value::MaybeByte(name_in(stated.entry)),
            },
            Member {
                key: "accepted",
                value: Value::Truth(false),
            },
            Member {
                key: "refusal",
                value: Value::Text(stated.reason.as_bytes()),
            },
            Member {
                key: "register",
                value: Value::MaybeByte(name_in(stated.verdict.register)),
            },
            Member {
                key: "place",
                value: Value::Number(stated.verdict.place as u64),
            },
            Member {
                key: "line",
                value: Value::MaybeNumber(line_in(stated.begin)),
            },
            Member {
                key: "column",
                value: Value::MaybeNumber(column_in(stated.begin)),
            },
            Member {
                key: "end",
                value: Value::MaybeNumber(stated.end),
            },
            Member {
                key: "end_line",
                value: Value::MaybeNumber(line_in(stated.end_position)),
            },
            Member {
                key: "end_column",
                value: Value::MaybeNumber(column_in(stated.end_position)),
            },
            Member {
                key: "message",
                value: Value::Text(stated.message),
            },
            Member {
                key: "remedy",
                value: Value::Text(stated.remedy.as_bytes()),
            },
            Member {
                key: "witness",
                value: Value::MaybeText(stated.witness),
            },
            Member {
                key: "witness_text",
                value: Value::MaybeText(stated.witness_text),
            },
        ],
    )
}

/// The object of a refusal of a macro, or of what is no library where none is named.
pub fn refusal_text(
    alloc: Global,
    entry: Option<Reg>,
    verdict: &Verdict,
    remark: &Remark<'_>,
) -> Result<Vec<u8>, AllocError>
    ensures { IfOk result (λ text. text.items ≡ json.refusal_text entry verdict.now remark.now) }
{
    let number = number_of(verdict.why);
    let reason = format!(in alloc; "X{number}")?;
    let stated = StatedRefusal {
        entry,
        verdict: *verdict,
        reason: reason.as_str(),
        begin: remark.begin,
        end: remark.end,
        end_position: remark.end_position,
        message: remark.message,
        remedy: remark.remedy,
        witness: remark.witness,
        witness_text: remark.witness_text,
    };
    refusal_object(alloc, &stated)
}
