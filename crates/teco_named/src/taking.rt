//! The texts that a macro takes.
use crate::called::CalledMacro;
use crate::fault::NamedFault;
use crate::searches::are_whole;
use crate::spelling::{Spelled, all_declared};
use std::alloc::{AllocError, Global};
use teco_base::Reg;
use teco_console::Setting;
use teco_parameters::{BindingFault, Given, Parameter, TakesFault, parameters_of, texts_for};
use teco_source::{LineAndByte, Shown, Source};

/// The texts that the command line gives a macro: by words of a key and a text, and by options that
/// name registers.
#[derive(Drop)]
pub struct GivenTexts<'a> {
    pub words: Vec<Given<'a>>,
    pub settings: Vec<Setting>,
}

/// The texts that registers have as a macro begins, and the search texts that stand in its library.
#[derive(Drop)]
pub struct BoundTexts {
    pub settings: Vec<Setting>,
    pub searches: Vec<Setting>,
}

// Where a comment stands, as messages have it.
fn site_of(alloc: Global, source: &Source, place: usize) -> Result<String, AllocError> {
    let name = Shown(source.name_at(place).as_bytes());
    let LineAndByte { line, column } = source.position(place);
    format!(in alloc; "{name}:{line}:{column}")
}

// Why the parameters of a macro are not known.
fn unknown(alloc: Global, source: &Source, fault: TakesFault) -> Result<NamedFault, AllocError> {
    Ok(match fault {
        TakesFault::Unread(place) => NamedFault::Unread {
            site: site_of(alloc, source, place)?,
        },
        TakesFault::Again(place) => NamedFault::Again {
            site: site_of(alloc, source, place)?,
        },
        TakesFault::Memory => NamedFault::Memory,
    })
}

/// The parameters of the macro A, by the source of its library.
pub fn parameters_in(alloc: Global, source: &Source) -> Result<Vec<Parameter>, NamedFault> {
    match parameters_of(alloc, source.text(), Reg::default()) {
        Ok(parameters) => Ok(parameters),
        Err(fault) => Err(unknown(alloc, source, fault)?),
    }
}

// Is a register that of a parameter?
fn is_taken(parameters: &[Parameter], register: Reg) -> bool {
    parameters
        .iter()
        .any(|parameter| parameter.register.index() == register.index())
}

// The names of the registers of settings.
fn names_of(alloc: Global, settings: &[Setting]) -> Result<Vec<u8>, AllocError> {
    let mut names = Vec::new(alloc);
    for setting in settings {
        names.push(setting.register().name())?;
    }
    Ok(names)
}

// Words of a key and a text, and behind them those that settings of parameters stand for.
fn all_given<'a>(
    alloc: Global,
    parameters: &[Parameter],
    texts: &'a GivenTexts<'a>,
    names: &'a [u8],
) -> Result<Vec<Given<'a>>, AllocError> {
    let mut given = Vec::new(alloc);
    given.extend_from_slice(&texts.words)?;
    for (key, setting) in names.chunks(1).zip(texts.settings.iter()) {
        if is_taken(parameters, setting.register()) {
            given.push(Given {
                key,
                text: setting.text(),
            })?;
        }
    }
    Ok(given)
}

// The key of a word, as messages have it.
fn key_at<'a>(given: &[Given<'a>], at: usize) -> &'a [u8] {
    match given.get(at) {
        Some(word) => word.key,
        None => &[],
    }
}

// The name of a parameter.
fn name_at(parameters: &[Parameter], at: usize) -> &[u8] {
    match parameters.get(at) {
        Some(parameter) => &parameter.name,
        None => &[],
    }
}

// What is wrong with the texts that are given.
fn complaint(
    alloc: Global,
    parameters: &[Parameter],
    given: &[Given<'_>],
    fault: BindingFault,
) -> Result<String, AllocError> {
    match fault {
        BindingFault::Unknown(at) => {
            let key = Spelled(key_at(given, at));
            if parameters.is_empty() {
                format!(in alloc; "nothing is called {key}")
            } else {
                format!(in alloc; "{key} is none of these")
            }
        }
        BindingFault::Twice(at) => {
            format!(in alloc; "{} is given twice", Spelled(name_at(parameters, at)))
        }
        BindingFault::Missing(at) => {
            format!(in alloc; "{} is missing", Spelled(name_at(parameters, at)))
        }
        BindingFault::Memory => Err(AllocError),
    }
}

// Why a macro has not its texts.
fn unbound(
    alloc: Global,
    called: &CalledMacro,
    parameters: &[Parameter],
    what: String,
) -> Result<NamedFault, AllocError> {
    Ok(NamedFault::Texts {
        name: String::from_str(alloc, called.name())?,
        parameters: all_declared(alloc, parameters)?,
        what,
    })
}

// What is wrong with search texts, each by itself, if something is.
fn wrong_search(
    alloc: Global,
    parameters: &[Parameter],
    searches: &[Setting],
    library: &[u8],
) -> Result<Option<String>, AllocError> {
    for search in searches.chunks(1) {
        let name = Spelled(name_of(parameters, search));
        if search.iter().all(|given| given.text().is_empty()) {
            let told = "is a search text, and an empty one stands for the one before it";
            return Ok(Some(format!(in alloc; "{name} {told}")?));
        }
        if !are_whole(alloc, search, library)? {
            let told =
                "is a search text, and this one ends early: it has what ends a text of the macro";
            return Ok(Some(format!(in alloc; "{name} {told}")?));
        }
    }
    Ok(None)
}

// The name of the parameter of the first of some texts.
fn name_of<'a>(parameters: &'a [Parameter], given: &[Setting]) -> &'a [u8] {
    let named = parameters.iter().find(|parameter| {
        given.iter().any(|given| given.register().index() == parameter.register.index())
    });
    match named {
        Some(parameter) => &parameter.name,
        None => &[],
    }
}

// Refuses search texts that would not stand in the library as such.
fn check_searches(
    alloc: Global,
    called: &CalledMacro,
    parameters: &[Parameter],
    searches: &[Setting],
    source: &Source,
) -> Result<(), NamedFault> {
    match wrong_search(alloc, parameters, searches, source.text())? {
        Some(what) => Err(unbound(alloc, called, parameters, what)?),
        None => Ok(()),
    }
}

// The texts of parameters, each in the place that it has.
fn push_bound(
    alloc: Global,
    called: &CalledMacro,
    parameters: &[Parameter],
    texts: Vec<Vec<u8>>,
    bound: &mut BoundTexts,
) -> Result<(), NamedFault> {
    for (at, text) in texts.into_iter().enumerate() {
        let (register, is_search) = match parameters.get(at) {
            Some(parameter) => (parameter.register, parameter.is_search),
            None => (Reg::default(), false),
        };
        match Setting::of(register, text) {
            Some(setting) if is_search => bound.searches.push(setting)?,
            Some(setting) => bound.settings.push(setting)?,
            None => {
                let name = Spelled(name_at(parameters, at));
                let what = format!(in alloc; "{name} has more than 268,435,456 bytes")?;
                return Err(unbound(alloc, called, parameters, what)?);
            }
        }
    }
    Ok(())
}

// Settings of registers that are no parameters.
fn others(
    alloc: Global,
    parameters: &[Parameter],
    settings: Vec<Setting>,
) -> Result<Vec<Setting>, AllocError> {
    let mut others = Vec::new(alloc);
    for setting in settings {
        if !is_taken(parameters, setting.register()) {
            others.push(setting)?;
        }
    }
    Ok(others)
}

// The text of each parameter.
fn bound(
    alloc: Global,
    called: &CalledMacro,
    parameters: &[Parameter],
    given: &GivenTexts<'_>,
) -> Result<Vec<Vec<u8>>, NamedFault> {
    let names = names_of(alloc, &given.settings)?;
    let words = all_given(alloc, parameters, given, &names)?;
    match texts_for(alloc, parameters, &words) {
        Ok(texts) => Ok(texts),
        Err(BindingFault::Memory) => Err(NamedFault::Memory),
        Err(fault) => {
            let what = complaint(alloc, parameters, &words, fault)?;
            Err(unbound(alloc, called, parameters, what)?)
        }
    }
}

/// The texts of a macro that is called by name: those of its parameters, as they are given or by
/// default, and others that options give registers.
pub fn texts_for_macro(
    alloc: Global,
    called: &CalledMacro,
    source: &Source,
    given: GivenTexts<'_>,
) -> Result<BoundTexts, NamedFault> {
    let parameters = parameters_in(alloc, source)?;
    let texts = bound(alloc, called, &parameters, &given)?;
    let mut bound = BoundTexts {
        settings: others(alloc, &parameters, given.settings)?,
        searches: Vec::new(alloc),
    };
    push_bound(alloc, called, &parameters, texts, &mut bound)?;
    check_searches(alloc, called, &parameters, &bound.searches, source)?;
    Ok(bound)
}
