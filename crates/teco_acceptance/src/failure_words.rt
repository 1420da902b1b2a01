//! In words: a small world on which a macro fails, and how.
use std::alloc::{AllocError, Global};
use std::fmt;
use teco_base::Reg;
use teco_console::{Grouped, element_at};
use teco_explain::position_in;
use teco_library::Library;
use teco_run::Site;
use teco_source::{Shown, Source};
use teco_witness::{Setting, SmallWorld, Witness, WitnessEnd};

// Adds words to others.
fn push<D: fmt::Display + Drop>(
    alloc: Global,
    words: &mut String,
    more: D,
) -> Result<(), AllocError> {
    words.push_str(format!(in alloc; "{more}")?.as_str())
}

// Says what a register is set to before the call.
fn push_setting(alloc: Global, words: &mut String, setting: &Setting) -> Result<(), AllocError> {
    let name = char::from(setting.register.name());
    if setting.number != 0 {
        push(
            alloc,
            words,
            format_args!(", with {} in Q{name}", setting.number),
        )?;
    }
    if !setting.text.is_empty() {
        let text = Shown(&setting.text);
        push(
            alloc,
            words,
            format_args!(", with the text \"{text}\" in {name}"),
        )?;
    }
    Ok(())
}

// Says what a macro is called on.
fn push_world(alloc: Global, words: &mut String, world: &SmallWorld) -> Result<(), AllocError> {
    let text = Shown(&world.text);
    if world.is_input {
        push(
            alloc,
            words,
            format_args!("a file with the text \"{text}\""),
        )?;
    } else {
        push(alloc, words, format_args!("the text \"{text}\""))?;
    }
    if let Some(given) = world.given {
        push(alloc, words, format_args!(", called with {given}"))?;
    }
    for setting in &world.settings {
        push_setting(alloc, words, setting)?;
    }
    Ok(())
}

// Says at which element a run stops, and where that stands.
fn push_site(
    alloc: Global,
    words: &mut String,
    source: &Source,
    library: &Library,
    site: Site,
) -> Result<(), AllocError> {
    let text = site
        .register
        .and_then(|register| library.text(register))
        .unwrap_or(&[]);
    let element = element_at(text, site.place);
    if !element.is_empty() {
        push(alloc, words, format_args!(" at {}", Shown(element)))?;
    }
    match position_in(source, site.register, site.place) {
        Some(position) if site.register.is_some() => {
            let (line, column) = (position.line, position.column);
            push(alloc, words, format_args!(" ({line}:{column})"))
        }
        _ => Ok(()),
    }
}

/// On what small world a macro fails, and how, in a line of words.
pub fn words_of_witness(
    alloc: Global,
    source: &Source,
    library: &Library,
    witness: &Witness,
) -> Result<String, AllocError> {
    let mut words = String::new(alloc);
    match witness.end {
        WitnessEnd::Code { code, site } => {
            words.push_str("it stops on ")?;
            push_world(alloc, &mut words, &witness.world)?;
            push(alloc, &mut words, format_args!(": ?{}", Shown(code.name())))?;
            push_site(alloc, &mut words, source, library, site)?;
        }
        WitnessEnd::Long { steps, held } => {
            words.push_str("on ")?;
            push_world(alloc, &mut words, &witness.world)?;
            let held = Grouped(u64::try_from(held).unwrap_or(u64::MAX));
            push(
                alloc,
                &mut words,
                format_args!(
                    " it has not ended after {} steps, and holds {held} characters",
                    Grouped(steps)
                ),
            )?;
        }
    }
    Ok(words)
}
