//! The elements that are looked for, where the parts of a search text are read.
ghost use Rattle.std.specs.Prelude.{◌≡◌, ◌++◌, OnOk};
ghost use Rattle.teco_model.specs.Pattern as model;

use std::alloc::AllocError;
use teco_base::bytes::{is_letter, to_upper};
use teco_model::pattern::{Class, Item, Part};
use teco_regs::Regs;

// A literal byte: unless the search is exact, a letter stands for both its cases.
fn literal(exact: bool, b: u8) -> Class
    ensures { result ≡ model.literal exact b }
{
    if is_letter(b) && !exact {
        Class::EitherCase(to_upper(b))
    } else {
        Class::Literal(b)
    }
}

// The class that is looked for, where one is read.
fn class_of(exact: bool, class: Class) -> Class
    ensures { result ≡ model.class_of exact class }
{
    match class {
        Class::Literal(b) => literal(exact, b),
        other => other,
    }
}

fn item_of(exact: bool, item: Item) -> Item
    ensures { result ≡ model.item_of exact item }
{
    match item {
        Item::Is(class) => Item::Is(class_of(exact, class)),
        Item::IsNot(class) => Item::IsNot(class_of(exact, class)),
        Item::Blanks => Item::Blanks,
    }
}

// Appends what a part stands for.
pub(crate) fn put_part(
    items: &mut Vec<Item>,
    part: Part,
    regs: &Regs,
    exact: bool,
) -> Result<(), AllocError>
    ensures { OnOk result (items.new.items
        ≡ items.old.items ++ model.items_of regs.now exact part) }
{
    match part {
        Part::Item(item) => items.push(item_of(exact, item))?,
        Part::Register(reg) => put_literals(items, regs.text(reg), exact)?,
    }
    Ok(())
}

// Appends the bytes of a text, each a literal.
fn put_literals(items: &mut Vec<Item>, text: &[u8], exact: bool) -> Result<(), AllocError>
    ensures { OnOk result (items.new.items ≡ items.old.items ++ model.literals exact text.now) }
{
    items.reserve(text.len())?;
    for b in text {
        items.push(Item::Is(literal(exact, *b)))?;
    }
    Ok(())
}
