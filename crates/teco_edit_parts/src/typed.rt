//! What a macro types over files, for standard output.
ghost use Rattle.std.specs.Prelude.{◌≡◌, ◌==◌, ◌++◌, ◌∷◌, [], false, not, length, IfOk, OnOk};
ghost use Rattle.teco_base.specs.declared.bytes.TheConstants.{LF};
ghost use Rattle.teco_edit_parts.specs.Typed as lines;

use std::alloc::{AllocError, Global};
use teco_base::bytes::LF;

/// How long the line of a code is: `?`, three letters, CR and LF.
const CODE_LINE: usize = 6;

/// What was typed, without the line of a code at its end if runs ended with one.
pub fn without_code(typed: &[u8], is_coded: bool) -> &[u8]
    ensures { result.now ≡ lines.without_code typed.now is_coded }
{
    if is_coded {
        let end = typed.len().saturating_sub(CODE_LINE);
        &typed[..end]
    } else {
        typed
    }
}

// One byte more of a line, behind the name and a colon where it begins one; whether a line is begun then.
fn push_byte(text: &mut Vec<u8>, name: &[u8], is_begun: bool, byte: u8) -> Result<bool, AllocError>
    ensures begun { IfOk result (λ begun. begun ≡ not (byte == LF)) }
    ensures pushed { OnOk result (text.new.items
        ≡ text.old.items ++ (lines.before_byte is_begun name.now ++ byte ∷ [])) }
{
    if !is_begun {
        text.extend_from_slice(name)?;
        text.push(b':')?;
    }
    text.push(byte)?;
    Ok(byte != LF)
}

/// Lines with a name and a colon before each; the last one is ended.
pub fn named_lines(alloc: Global, name: &[u8], typed: &[u8]) -> Result<Vec<u8>, AllocError>
    ensures { IfOk result (λ text. text.items ≡ lines.named_lines false name.now typed.now) }
{
    let mut text = Vec::new(alloc);
    let mut is_begun = false;
    for byte in typed {
        is_begun = push_byte(&mut text, name, is_begun, *byte)?;
    }
    if is_begun {
        text.push(LF)?;
    }
    Ok(text)
}
