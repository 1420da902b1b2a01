//! Runs of macros on the texts of examples.
ghost use Rattle.std.specs.Prelude.{◌≡◌, IfOk};
ghost use Rattle.teco_examples.specs.Examples.{MakesAsIn};

use std::alloc::Global;
use teco_acceptance::verified_by;
use teco_base::Reg;
use teco_console::{Means, Sourced};
use teco_jobs::{Came, TextCall, run_on_text};
use teco_library::Library;
use teco_model::Needs;
use teco_notes::Example;
use teco_options::{LetterCase, PageChoice};
use teco_paths::search::ClaimSearch;
use teco_tools::{Start, ToolFault};

/// How a macro is run on texts.
#[derive(Clone, Copy)]
pub struct TextRun {
    /// What memory for machines and texts comes from.
    pub alloc: Global,
    pub entry: Reg,
    /// How searches treat case as it begins.
    pub case: Option<LetterCase>,
    /// The pages that it is run on: the first, if it turns pages itself, and else all as one.
    pub pages: PageChoice,
}

impl TextRun {
    /// A macro of a library. Where it is refused it is not known whether it turns pages.
    pub fn of<S: ClaimSearch>(
        means: Means,
        sourced: &Sourced,
        entry: Reg,
        case: Option<LetterCase>,
    ) -> TextRun
        ensures entry { result.entry ≡ entry }
        ensures case { result.case ≡ case }
    {
        let pages = pages_of::<S>(means, sourced, entry);
        TextRun {
            alloc: means.alloc,
            entry,
            case,
            pages,
        }
    }

    /// Runs the macro on a text, in the manner of an example.
    pub fn run_on(
        &self,
        library: &Library,
        example: &Example,
        text: &[u8],
    ) -> Result<Came, ToolFault>
        ensures { IfOk result (MakesAsIn library.now self.now example.now text.now) }
    {
        let start = Start {
            settings: &example.settings,
            case: self.case,
        };
        let call = TextCall {
            library,
            entry: self.entry,
            argument: example.argument,
            start,
            pages: self.pages,
        };
        run_on_text(self.alloc, &call, text)
    }
}

// The pages that a macro of a library is run on.
fn pages_of<S: ClaimSearch>(means: Means, sourced: &Sourced, entry: Reg) -> PageChoice {
    match verified_by::<S>(means, &sourced.library, entry, sourced.method) {
        Ok(accepted) => pages_for(accepted.promise().needs()),
        Err(_) => PageChoice::Whole,
    }
}

// The pages that a macro is run on which needs these files.
fn pages_for(needs: Needs) -> PageChoice {
    if needs.input || needs.output {
        PageChoice::First
    } else {
        PageChoice::Whole
    }
}
