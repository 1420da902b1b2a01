//! What keeps a promise from holding for any text.
ghost use Rattle.std.specs.Prelude.{◌≡◌, IfOk};
ghost use Rattle.teco_console.specs.declared.outcome.Outcome.TheVariants.{Refused};

use crate::acceptance::Accepted;
use crate::changing::changes_in_words;
use std::alloc::{AllocError, Global};
use std::fmt;
use std::io::Write;
use teco_base::Reg;
use teco_console::{
    AnswerFault, Console, Edition, Grouped, Outcome, Premise, Setting, Sourced, Voice,
};
use teco_explain::position_in;
use teco_poly::Poly;
use teco_promise::Promise;
use teco_source::{LineAndByte, Shown, Source};
use teco_verify::{Account, account_of};

/// How large a count is, at the least, that is to blame.
const LARGE: u64 = 1000;

// A count, where it stands and how large it may be with an empty text.
#[derive(Clone, Copy)]
struct BlamedCount {
    number: usize,
    most: u64,
}

// The largest count of the iterations of a macro; none where all are small.
fn largest_count(account: &Account<'_>) -> Option<BlamedCount> {
    let mut largest = None;
    let mut least = LARGE;
    for before in 0..account.len() {
        let number = before.saturating_add(1);
        let most = match account.turns(number) {
            None => 0,
            Some(turns) => turns.at(0).unwrap_or(u64::MAX),
        };
        if most > least {
            least = most;
            largest = Some(BlamedCount { number, most });
        }
    }
    largest
}

// The position of a count in the library file.
fn position_of(source: &Source, account: &Account<'_>, count: BlamedCount) -> Option<LineAndByte> {
    let place = account.begin(count.number)?;
    position_in(source, account.register(count.number), place)
}

// What keeps a promise from holding for any text.
#[derive(Clone, Copy)]
enum Blame {
    // a count at a position
    Count(LineAndByte, u64),
    // what is held, or the number of commands, grows too fast for the texts of the library alone
    Growth(Premise),
}

impl Blame {
    // What is to blame in a macro.
    fn of(source: &Source, account: &Account<'_>, premise: Premise) -> Blame {
        match largest_count(account) {
            None => Blame::Growth(premise),
            Some(count) => match position_of(source, account, count) {
                None => Blame::Growth(premise),
                Some(position) => Blame::Count(position, count.most),
            },
        }
    }
}

impl fmt::Display for Blame {
    fn fmt<W: fmt::Write>(&self, f: &mut fmt::Formatter<W>) -> fmt::Result {
        match self {
            Blame::Count(LineAndByte { line, column }, most) => {
                let most = Grouped(*most);
                write!(f, "the count at {line}:{column} may be up to {most}")
            }
            Blame::Growth(premise) => match premise.last {
                Some(last) if last > 0 => {
                    let (last, taken) = (Grouped(last), Grouped(premise.taken));
                    write!(f, "N is at most {last}, and the macro alone takes {taken}")
                }
                _ => write!(
                    f,
                    "what is held, or the number of commands, is too large from the start"
                ),
            },
        }
    }
}

// What keeps the promise of a macro from holding for any text. By claims no count is told.
fn blame_of(
    alloc: Global,
    source: &Source,
    promise: &Promise<'_>,
    edition: Edition,
) -> Result<Blame, AllocError> {
    let premise = Premise::of_promise(promise);
    match edition {
        Edition::First => {
            let account = account_of(alloc, promise.library(), promise.entry())?;
            Ok(Blame::of(source, &account, premise))
        }
        Edition::Second => Ok(Blame::Growth(premise)),
    }
}

/// Up to which texts the promise of a macro holds, in words; where it holds for none, what count is
/// to blame.
#[derive(Clone, Copy)]
pub struct Held {
    premise: Premise,
    entry: Reg,
    blame: Option<Blame>,
}

impl Held {
    /// Up to which texts the promise of a macro of a source holds. Where it holds for none, that
    /// takes one more search.
    pub fn of(
        alloc: Global,
        source: &Source,
        promise: &Promise<'_>,
        edition: Edition,
    ) -> Result<Held, AllocError> {
        let premise = Premise::of_promise(promise);
        let entry = promise.entry();
        let blame = if premise.is_empty() {
            Some(blame_of(alloc, source, promise, edition)?)
        } else {
            None
        };
        Ok(Held {
            premise,
            entry,
            blame,
        })
    }

    /// Does the promise hold for no text?
    pub fn is_empty(&self) -> bool {
        self.blame.is_some()
    }
}

impl fmt::Display for Held {
    fn fmt<W: fmt::Write>(&self, f: &mut fmt::Formatter<W>) -> fmt::Result {
        match self.blame {
            None => write!(f, "{}", self.premise),
            Some(blame) => {
                let name = char::from(self.entry.name());
                write!(
                    f,
                    "warning: the promise of {name} holds for no text: {blame}"
                )
            }
        }
    }
}

/// Says up to which texts the promise of a macro holds, or warns that it holds for none, and says
/// what count is to blame.
pub fn tell_premise<E: Write + Drop>(
    voice: &mut Voice<E>,
    source: &Source,
    promise: &Promise<'_>,
    edition: Edition,
) -> Result<(), AllocError> {
    let held = Held::of(voice.alloc(), source, promise, edition)?;
    voice.say(held);
    Ok(())
}

// How much longer the text gets, in words behind those on commands; none where that is not known, or
// where pages are written, which are no longer held.
fn growth(alloc: Global, promise: &Promise<'_>) -> Result<String, AllocError> {
    match promise.grows() {
        Some(_) if promise.needs().output => Ok(String::new(alloc)),
        None => Ok(String::new(alloc)),
        Some(most) if most == Poly::number(0) => {
            String::from_str(alloc, "; the text gets no longer")
        }
        Some(most) if most == Poly::number(1) => {
            String::from_str(alloc, "; the text gets at most 1 character longer")
        }
        Some(most) => {
            format!(in alloc;
                "; the text gets at most {} characters longer",
                most.print(alloc)?
            )
        }
    }
}

/// Says what is promised of a macro, in one line, where registers are set first.
pub fn tell_promise<E: Write + Drop>(
    voice: &mut Voice<E>,
    promise: &Promise<'_>,
    settings: &[Setting],
) -> Result<(), AllocError> {
    let alloc = voice.alloc();
    let name = char::from(promise.entry().name());
    let commands = promise.commands().print(alloc)?;
    let changes = changes_in_words(alloc, promise)?;
    let growth = growth(alloc, promise)?;
    let premise = Premise::with_settings(promise, settings);
    voice.say(format_args!(
        "{name} ends within {commands} commands, and {changes}{growth}; that {premise}"
    ));
    Ok(())
}

/// Warns of a macro whose promise holds for no text, and says what count is to blame. Nothing is said
/// of another.
pub fn warn_no_text<O: Write + Drop, E: Write + Drop>(
    console: &mut Console<O, E>,
    sourced: &Sourced,
    accepted: &Accepted<'_>,
) -> Result<(), AnswerFault> {
    let held = Held::of(
        console.alloc,
        &sourced.source,
        &accepted.promise(),
        accepted.edition(),
    )?;
    if held.is_empty() {
        console.say(held);
    }
    Ok(())
}

/// Says that a macro is refused since its promise holds for no text, and what count is to blame.
pub fn tell_no_text<O: Write + Drop, E: Write + Drop>(
    console: &mut Console<O, E>,
    sourced: &Sourced,
    accepted: &Accepted<'_>,
) -> Result<Outcome, AnswerFault>
    ensures { IfOk result (λ outcome. outcome ≡ Refused) }
{
    let file = Shown(sourced.source.name().as_bytes());
    let name = char::from(accepted.entry().name());
    let blame = blame_of(
        console.alloc,
        &sourced.source,
        &accepted.promise(),
        accepted.edition(),
    )?;
    console.complain(format_args!("{file}: the promise of {name} holds for no text: {blame}"));
    Ok(Outcome::Refused)
}
