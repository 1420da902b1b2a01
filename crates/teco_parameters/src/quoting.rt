//! Texts as search texts.
ghost use Rattle.std.specs.Prelude.{◌≡◌, ◌≢◌, ◌++◌, ◌↔◌, [], IsTrue, IfOk, OnOk};
ghost use Rattle.teco_parameters.specs.Quoting.{quotation, begins_control, Says, FindsAlone};

use std::alloc::{AllocError, Global};

/// What quotes the byte behind it in a search text, `^Q`.
const CONTROL_Q: u8 = 17;

// Does a byte stand for more than itself in a search text?
fn begins_control(byte: u8) -> bool
    ensures { result ≡ begins_control byte }
{
    matches!(byte, 5 | 14 | 17 | 19 | 24 | b'^')
}

// Appends a byte, quoted where it stands for more than itself.
fn push_quoted(search: &mut Vec<u8>, byte: u8) -> Result<(), AllocError>
    ensures { OnOk result (search.new.items ≡ search.old.items ++ quotation byte) }
{
    if begins_control(byte) {
        search.push(CONTROL_Q)?;
    }
    search.push(byte)?;
    Ok(())
}

/// The search text that finds a text as it stands, whatever the registers hold: each byte stands for
/// itself, a letter for both its cases unless the search is exact. An empty text is never found.
pub fn quoted(alloc: Global, text: &[u8]) -> Result<Vec<u8>, AllocError>
    ensures says { IfOk result (λ search. Says search.items text.now) }
    ensures found { IfOk result (λ search. text.now ≢ [] → FindsAlone search.items text.now) }
{
    let mut search = Vec::new(alloc);
    for byte in text {
        push_quoted(&mut search, *byte)?;
    }
    Ok(search)
}
