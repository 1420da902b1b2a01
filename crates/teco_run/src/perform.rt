//! What the elements do that go on behind themselves.
ghost use Rattle.std.specs.Prelude.{◌≡◌};
ghost use Rattle.teco_model.specs.Arguments.{standing_value};
ghost use Rattle.teco_model.specs.Element.{seen};
ghost use Rattle.teco_model.specs.Memory.{command_grows, query_grows};
ghost use Rattle.teco_model.specs.Step as model;
ghost use Rattle.teco_run.specs.Performs.{Performs};

use teco_editor::{Editor, Stuck};
use teco_expr::Args;
use teco_model::Element;
use teco_model::kind::{Command, Query};
use teco_text::TextStore;

// May it take a value that stands? `:Q` takes none.
fn takes(query: &Query, colons: u8) -> bool
    ensures { result ≡ model.takes query.now colons }
{
    !matches!(query, Query::Number(_)) || colons == 0
}

/// Takes the value that stands, or gives one.
#[inline(always)]
pub fn ask<T: TextStore>(
    editor: &mut Editor<T>,
    query: Query,
    element: &Element<'_>,
    arguments: &mut Args,
) -> Result<(), Stuck>
    ensures { Performs (query_grows query (standing_value arguments.old.level))
        editor.old editor.new arguments.new
        (model.after_query query (seen element.now) editor.old arguments.old) result }
{
    let standing = if takes(&query, element.colons) {
        arguments.take_standing()
    } else {
        None
    };
    match standing {
        Some(n) => {
            if let Some(answer) = editor.query_with(query, n)? {
                arguments.value(answer)?;
            }
        }
        None => {
            let reply = editor.query(query, element.colons);
            arguments.value(reply.value)?;
            editor.set_dot(reply.dot);
        }
    }
    Ok(())
}

/// Takes the arguments, executes the command, and gives what it answers.
#[inline(always)]
pub fn perform<T: TextStore>(
    editor: &mut Editor<T>,
    command: Command,
    element: &Element<'_>,
    arguments: &mut Args,
) -> Result<(), Stuck>
    ensures { Performs (command_grows command) editor.old editor.new arguments.new
        (model.after_command command (seen element.now) editor.old arguments.old) result }
{
    let taken = arguments.take()?;
    let answer = match command {
        Command::Motion(motion) => editor.motion(motion, element, taken)?,
        Command::Deletion(unit) => editor.deletion(unit, taken)?,
        Command::Insertion(insertion) => editor.insertion(insertion, element.text, taken)?,
        Command::Typing(typing) => editor.typing(typing, element, taken)?,
        Command::Storage(storage) => editor.storage(storage, element, taken)?,
    };
    if let Some(answer) = answer {
        arguments.value(answer)?;
    }
    Ok(())
}
