//! The search for a small world on which a macro fails.
ghost use Rattle.std.specs.Prelude.{IfOk, IfSome};
ghost use Rattle.teco_witness.specs.Witness.{IsWitness};

use crate::pieces::pieces_of;
use crate::sought::{Sought, Use};
use crate::texts::texts_of;
use crate::trial::{end_on, opens_files};
use crate::witness::{Setting, SmallWorld, Subject, Witness};
use std::alloc::{AllocError, Global};
use teco_base::Reg;
use teco_model::ArgumentRange;

/// The numbers that registers are set to which are read before they are set.
const NUMBERS: &[i32] = &[1, -1, i32::MAX, i32::MIN];

/// The names of the registers.
const NAMES: &[u8] = b"ABCDEFGHIJKLMNOPQRSTUVWXYZ0123456789";

/// The text that registers have which are read before they are set.
const TEXT: &[u8] = b"a";

/// How many texts are tried with each setting of registers, and with arguments other than the least.
const FEW: usize = 40;

// What is tried beside a text: what registers are set to that are read before they are set, and an
// argument.
#[derive(Clone, Copy)]
struct Manner {
    number: Option<i32>,
    given: Option<i32>,
}

// Adds what a register is set to, if it is used so. The texts of the library stay.
fn push_setting(
    alloc: Global,
    settings: &mut Vec<Setting>,
    subject: &Subject<'_>,
    (register, used): (Reg, Use),
    number: i32,
) -> Result<(), AllocError> {
    let mut text = Vec::new(alloc);
    if used.reads_text && !subject.library.contains(register) {
        text.extend_from_slice(TEXT)?;
    }
    if used.reads_number || !text.is_empty() {
        settings.push(Setting {
            register,
            number,
            text,
        })?;
    }
    Ok(())
}

// What registers are set to.
fn settings_of(
    alloc: Global,
    subject: &Subject<'_>,
    sought: &Sought,
    manner: Manner,
) -> Result<Vec<Setting>, AllocError> {
    let mut settings = Vec::new(alloc);
    let Some(number) = manner.number else {
        return Ok(settings);
    };
    for name in NAMES {
        if let Some(register) = Reg::of(*name) {
            let used = sought.uses[register.index()];
            push_setting(alloc, &mut settings, subject, (register, used), number)?;
        }
    }
    Ok(settings)
}

// The world of a text.
fn world_of(
    alloc: Global,
    subject: &Subject<'_>,
    sought: &Sought,
    manner: Manner,
    text: &[u8],
) -> Result<SmallWorld, AllocError> {
    Ok(SmallWorld {
        text: text.to_vec(alloc)?,
        is_input: opens_files(subject),
        settings: settings_of(alloc, subject, sought, manner)?,
        given: manner.given,
    })
}

// The arguments that are tried, where some may be given: the two least, and the greatest.
fn arguments_of(
    alloc: Global,
    range: Option<ArgumentRange>,
) -> Result<Vec<Option<i32>>, AllocError> {
    let mut arguments = Vec::new(alloc);
    let Some(range) = range else {
        arguments.push(None)?;
        return Ok(arguments);
    };
    let (low, high) = (range.low(), range.high());
    arguments.push(i32::try_from(low).ok())?;
    for n in [low.saturating_add(1), high] {
        if low < n && n <= high {
            arguments.push(i32::try_from(n).ok())?;
        }
    }
    Ok(arguments)
}

// The trials of a macro: what it looks for, the texts that come of that, and the steps that are left.
#[derive(Drop)]
struct Trials {
    sought: Sought,
    texts: Vec<Vec<u8>>,
    left: u64,
}

impl Trials {
    // Those of a macro, none of them done.
    fn of(alloc: Global, subject: &Subject<'_>, budget: u64) -> Result<Trials, AllocError> {
        let sought = Sought::of(alloc, subject)?;
        let pieces = pieces_of(alloc, &sought)?;
        let texts = texts_of(alloc, &pieces)?;
        Ok(Trials {
            sought,
            texts,
            left: budget,
        })
    }

    // The first of so many texts on which the macro fails.
    fn witness_among(
        &mut self,
        alloc: Global,
        subject: &Subject<'_>,
        manner: Manner,
        most: usize,
    ) -> Result<Option<Witness>, AllocError>
        ensures { IfOk result (λ found. IfSome found (IsWitness subject.now)) }
    {
        for text in self.texts.iter().take(most) {
            let world = world_of(alloc, subject, &self.sought, manner, text)?;
            let end = end_on(alloc, subject, &world, &mut self.left)?;
            if let Some(end) = end {
                return Ok(Some(Witness { world, end }));
            }
        }
        Ok(None)
    }

    // The first world on which the macro fails, where registers are set to a number, with each argument.
    fn witness_at(
        &mut self,
        alloc: Global,
        subject: &Subject<'_>,
        number: Option<i32>,
    ) -> Result<Option<Witness>, AllocError>
        ensures { IfOk result (λ found. IfSome found (IsWitness subject.now)) }
    {
        let mut most = if number.is_none() { usize::MAX } else { FEW };
        for given in arguments_of(alloc, subject.argument)? {
            let manner = Manner { number, given };
            let found = self.witness_among(alloc, subject, manner, most)?;
            if found.is_some() {
                return Ok(found);
            }
            most = FEW;
        }
        Ok(None)
    }

    // The first world on which the macro fails, where registers are set to numbers.
    fn witness_by_registers(
        &mut self,
        alloc: Global,
        subject: &Subject<'_>,
    ) -> Result<Option<Witness>, AllocError>
        ensures { IfOk result (λ found. IfSome found (IsWitness subject.now)) }
    {
        if !self.sought.reads_registers() {
            return Ok(None);
        }
        for number in NUMBERS {
            let found = self.witness_at(alloc, subject, Some(*number))?;
            if found.is_some() {
                return Ok(found);
            }
        }
        Ok(None)
    }
}

/// A small world on which a macro fails: the first that is found by trial of some hundred, in so many
/// steps of the machine. That none is found decides nothing.
///
/// The texts are made of what the macro looks for and tests. Registers that it reads before it sets
/// them are tried with other contents than those of a new machine.
///
/// # Errors
///
/// `AllocError` where memory is refused.
///
/// # Examples
///
/// ```
/// let library = Library::read(alloc, b"@^UA/J<.-Z;2C>/").ok()?;
/// let subject = Subject {
///     library: &library,
///     entry: Reg::of(b'A')?,
///     argument: None,
///     needs: Needs {
///         input: false,
///         output: false,
///     },
/// };
/// let witness = find_witness(alloc, &subject, 1_000_000).ok()??;
/// let text = witness.world.text.as_slice();
/// Some(
///     text == b"a".as_slice()
///         && matches!(
///             witness.end,
///             WitnessEnd::Code {
///                 code: Code::Pop,
///                 ..
///             }
///         ),
/// )
/// ```
pub fn find_witness(
    alloc: Global,
    subject: &Subject<'_>,
    budget: u64,
) -> Result<Option<Witness>, AllocError>
    ensures { IfOk result (λ found. IfSome found (IsWitness subject.now)) }
{
    let mut trials = Trials::of(alloc, subject, budget)?;
    let found = trials.witness_at(alloc, subject, None)?;
    if found.is_some() {
        return Ok(found);
    }
    trials.witness_by_registers(alloc, subject)
}
