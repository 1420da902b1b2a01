//! Editing a file in place by a verified macro.
ghost use Rattle.std.specs.Prelude.{◌≡◌, ◌<◌, ◌↔◌, [], Err, length};
ghost use Rattle.teco_apply.specs.ByPages.{order_by};
ghost use Rattle.teco_apply.specs.InPlace.{IsRewritten};
ghost use Rattle.teco_apply.specs.Sure.{IsTaken};
ghost use Rattle.teco_hosts.specs.HostFiles.{Notes};
ghost use Rattle.teco_session.specs.declared.fault.SessionFault.TheVariants as fault;

use crate::by_pages::{Edit, Edited, edit_file};
use crate::guard::{Asked, Guard, Observer};
use crate::run::takes;
use std::alloc::Global;
use std::io::Write;
use teco_base::Code;
use teco_hosts::Host;
use teco_hosts::laws::notes_fit;
use teco_in_place::laws::files_are_replaced;
use teco_in_place::{Ending, InPlace, new_text_of};
use teco_options::{NAME, PageChoice};
use teco_promise::Promise;
use teco_run::{Machine, Stopped};
use teco_session::{Listener, SessionFault};
use teco_text::TextStore;

/// A file that is edited in place.
#[derive(Drop)]
pub struct Rewrite<'a, G: Guard, E: Ending> {
    /// What the memory of its first command string comes from.
    pub alloc: Global,
    /// What is promised of the macro that edits it.
    pub promise: &'a Promise<'a>,
    /// The name of the file.
    pub name: &'a [u8],
    /// The macro's argument.
    pub given: Option<i32>,
    /// The pages that are edited.
    pub pages: PageChoice,
    /// What is asked before each run.
    pub guard: &'a G,
    /// Does the new text take the place of the file?
    pub ending: E,
}

/// What came of the edit of a file in place, and its host.
#[derive(Drop)]
pub struct Rewritten<H: Host + Drop> {
    pub edited: Result<Edited, SessionFault>,
    pub host: H,
}

// Lets an observer of the host beneath hear the runs of an edit in place.
#[derive(Drop)]
struct Beneath<'a, O> {
    observer: &'a mut O,
}

impl<H: Host + Drop, E: Ending, O: Observer<H>> Listener<InPlace<H, E>> for Beneath<'_, O> {
    fn stopped<T: TextStore>(
        &mut self,
        text: &[u8],
        stopped: &Stopped,
        machine: &Machine<T>,
        host: &InPlace<H, E>,
    ) {
        self.observer.stopped(text, stopped, machine, host.host());
    }

    fn rest(&mut self, code: Option<Code>) {
        self.observer.rest(code);
    }
}

impl<H: Host + Drop, E: Ending, O: Observer<H>> Observer<InPlace<H, E>> for Beneath<'_, O> {
    fn asked(&mut self, asked: Asked, host: &InPlace<H, E>) {
        self.observer.asked(asked, host.host());
    }
}

/// Edits a file in place by a verified macro, over a host that has made no call yet: as `edit_file` does,
/// into a new text that no file has the name of, and which takes the place of the file when it is closed,
/// or is only tried.
pub fn edit_in_place<T: TextStore, H: Host + Drop, W: Write, G: Guard, E: Ending, O: Observer<H>>(
    machine: &mut Machine<T>,
    rewrite: &Rewrite<'_, G, E>,
    host: H,
    writer: &mut W,
    observer: &mut O,
) -> Rewritten<H>
    requires name { length rewrite.now.name.now < NAME }
    requires fresh { H.files host ≡ Notes [] }
    ensures edits { IsRewritten rewrite.now.pages (order_by (G.answers rewrite.now.guard.now)
        (record { promise = rewrite.now.promise.now; given = rewrite.now.given }))
        rewrite.now.name.now E.replaces machine.old machine.new (H.files result.host)
        (H.failures host) (W.contents writer.old) (W.contents writer.new) result.edited }
    ensures argument { (result.edited ≡ Err fault.Argument)
        ↔ (¬ IsTaken rewrite.now.promise.now.argument rewrite.now.given) }
{
    files_are_replaced();
    notes_fit();
    if !takes(rewrite.promise, rewrite.given) {
        return Rewritten {
            edited: Err(SessionFault::Argument),
            host,
        };
    }
    let Ok(target) = new_text_of(rewrite.alloc, rewrite.name) else {
        return Rewritten {
            edited: Err(SessionFault::Memory),
            host,
        };
    };
    let edit = Edit {
        alloc: rewrite.alloc,
        promise: rewrite.promise,
        source: rewrite.name,
        target: target.as_slice(),
        given: rewrite.given,
        pages: rewrite.pages,
        guard: rewrite.guard,
    };
    let mut files = InPlace::<H, E>::new(host);
    let edited = edit_file(
        machine,
        &edit,
        &mut files,
        writer,
        &mut Beneath { observer },
    );
    Rewritten {
        edited,
        host: files.into_host(),
    }
}
