//! Elements that change the pending arguments alone, or give a value of the machine's.
ghost use Rattle.std.specs.Prelude.{◌≡◌, ◌≤◌, pos, neg_ℤ, false, OnErr};
ghost use Rattle.teco_base.specs.declared.TheConstants.{LIMIT};
ghost use Rattle.teco_model.specs.Step as model;
ghost use Rattle.teco_model.specs.Arguments.{with_level, level_with, level_with_pair};
ghost use Rattle.teco_model.specs.Memory.{argument_grows};
ghost use Rattle.teco_model.specs.declared.arguments.Level.{Level};
ghost use Rattle.teco_run.specs.Performs.{Argues, level_given};

use teco_base::arithmetic;
use teco_editor::{Editor, Stuck};
use teco_expr::Args;
use teco_model::kind::{Argument, MachineValue};
use teco_text::TextStore;

/// Changes the arguments as an element of this kind does, or leaves them as they are.
#[inline(always)]
pub fn argue(argument: Argument, text: &[u8], arguments: &mut Args) -> Result<(), Stuck>
    ensures argues { Argues (argument_grows argument) arguments.new
        (model.levels_after argument text.now arguments.old) result }
    ensures err { OnErr result (arguments.new ≡ arguments.old) }
{
    match argument {
        Argument::DropAll => arguments.drop_all(),
        Argument::Digits => arguments.digit_run(text)?,
        Argument::Operate(operator) => arguments.op(operator)?,
        Argument::Open => arguments.open()?,
        Argument::Close => arguments.close()?,
        Argument::Comma => arguments.comma()?,
    }
    Ok(())
}

/// Gives a value.
pub fn give(arguments: &mut Args, value: i32) -> Result<(), Stuck>
    ensures { Argues false arguments.new
        (with_level arguments.old (level_with value arguments.old.level)) result }
{
    arguments.value(value)?;
    Ok(())
}

// Gives two values with a comma between them.
fn give_both(arguments: &mut Args, first: i32, second: i32) -> Result<(), Stuck>
    ensures { Argues false arguments.new
        (with_level arguments.old (level_with_pair first second arguments.old.level)) result }
{
    arguments.value(first)?;
    arguments.comma()?;
    arguments.value(second)?;
    Ok(())
}

/// A place or a length as a value.
fn number(n: usize) -> i32
    requires { n ≤ LIMIT }
    ensures { result ≡ pos n }
{
    n as i32
}

// Minus a length.
fn minus(n: usize) -> i32
    requires { n ≤ LIMIT }
    ensures { result ≡ neg_ℤ (pos n) }
{
    -(n as i32)
}

/// What the machine gives where it is asked for a value.
#[derive(Clone, Copy)]
pub enum Given {
    /// A number.
    One(i32),
    /// Two with a comma between them.
    Two(i32, i32),
}

/// A value that the machine has.
#[inline(always)]
pub fn value_of<T: TextStore>(editor: &Editor<T>, value: MachineValue) -> Given
    ensures { (level : Level) → level_given result level
        ≡ model.level_with_value value editor.now level }
{
    let size = number(editor.size());
    let dot = number(editor.dot());
    let last = minus(editor.last_length());
    match value {
        MachineValue::Begin => Given::One(0),
        MachineValue::Size => Given::One(size),
        MachineValue::Pointer => Given::One(dot),
        MachineValue::Whole => Given::Two(0, size),
        MachineValue::LastLength => Given::One(last),
        MachineValue::LastText => Given::Two(arithmetic::add(dot, last), dot),
    }
}

/// Gives a value that the machine has.
#[inline(always)]
pub fn give_value<T: TextStore>(
    editor: &Editor<T>,
    value: MachineValue,
    arguments: &mut Args,
) -> Result<(), Stuck>
    ensures { Argues false arguments.new
        (with_level arguments.old (model.level_with_value value editor.now arguments.old.level))
        result }
{
    match value_of(editor, value) {
        Given::One(number) => give(arguments, number),
        Given::Two(first, second) => give_both(arguments, first, second),
    }
}
