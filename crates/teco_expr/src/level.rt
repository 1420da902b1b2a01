//! What is pending at one depth of parentheses.
ghost use Rattle.std.specs.Prelude.{◌≡◌};
ghost use Rattle.teco_model.specs.Arguments as model;

use teco_base::{Code, arithmetic};
use teco_model::{Level, Operator, Taken};

/// Nothing is pending.
pub const EMPTY: Level = Level {
    first: None,
    value: None,
    operator: None,
};

/// The number that a run of digits is: decimal, modulo 2^32.
pub fn run_value(digits: &[u8]) -> i32
    ensures { result ≡ model.run_value digits.now }
{
    let mut value = 0;
    for digit in digits {
        value = arithmetic::add(
            arithmetic::mul(value, 10),
            i32::from(digit.saturating_sub(b'0')),
        );
    }
    value
}

/// The result of an operator on two numbers.
pub fn applied(operator: Operator, x: i32, y: i32) -> Result<i32, Code>
    ensures { result ≡ model.result_of operator x y }
{
    match operator {
        Operator::Plus => Ok(arithmetic::add(x, y)),
        Operator::Minus => Ok(arithmetic::sub(x, y)),
        Operator::Times => Ok(arithmetic::mul(x, y)),
        Operator::Over => arithmetic::div(x, y).ok_or(Code::Div),
        Operator::And => Ok(arithmetic::and(x, y)),
        Operator::Or => Ok(arithmetic::or(x, y)),
    }
}

/// The level with a value given to it.
#[inline(always)]
pub fn give(value: i32, level: Level) -> Result<Level, Code>
    ensures { result ≡ model.level_with value level }
{
    let given = match level.operator {
        None => value,
        Some(operator) => applied(operator, level.value.unwrap_or(0), value)?,
    };
    Ok(Level {
        first: level.first,
        value: Some(given),
        operator: None,
    })
}

/// The level with an operator that waits for a value.
pub fn operate(operator: Operator, level: Level) -> Result<Level, Code>
    ensures { result ≡ model.level_with_operator operator level }
{
    match level.operator {
        None => Ok(Level {
            first: level.first,
            value: level.value,
            operator: Some(operator),
        }),
        Some(_) => Err(Code::Arg),
    }
}

/// The value of a level at its end, where a lone sign stands for one.
pub fn finished(level: Level) -> Result<Option<i32>, Code>
    ensures { result ≡ model.final_value level }
{
    match (level.value, level.operator) {
        (value, None) => Ok(value),
        (None, Some(Operator::Minus)) => Ok(Some(-1)),
        (None, Some(Operator::Plus)) => Ok(Some(1)),
        (_, Some(_)) => Err(Code::Arg),
    }
}

/// The level behind a comma.
pub fn comma(level: Level) -> Result<Level, Code>
    ensures { result ≡ model.level_after_comma level }
{
    if level.first.is_some() {
        return Err(Code::Arg);
    }
    match finished(level)? {
        None => Err(Code::Nac),
        Some(value) if value < 0 => Err(Code::Nca),
        Some(value) => Ok(Level {
            first: Some(value),
            value: None,
            operator: None,
        }),
    }
}

/// The value of a level in parentheses.
pub fn enclosed(level: Level) -> Result<i32, Code>
    ensures { result ≡ model.inner_value level }
{
    if level.first.is_some() {
        return Err(Code::Arg);
    }
    finished(level)?.ok_or(Code::Arg)
}

/// The arguments that a level has for a command.
pub fn taken(level: Level) -> Result<Taken, Code>
    ensures { result ≡ model.arguments_of level }
{
    let value = finished(level)?;
    if level.first.is_some() && value.is_none() {
        return Err(Code::Arg);
    }
    Ok(Taken {
        first: level.first,
        value,
    })
}
