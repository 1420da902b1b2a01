//! Which texts a certificate is of: their checksum. It is no secret, and keeps nobody from writing
//! another text that has it.
ghost use Rattle.std.specs.Prelude.{◌≡◌, ◌+◌, ◌<◌, ◌∷◌, [], fold, if◌then◌else◌, unwrap_or};
ghost use Rattle.std.specs.Option.{option_copied};
ghost use Rattle.teco_base.specs.declared.TheConstants.{REGISTERS};
ghost use Rattle.teco_claimed.specs.Checksum.{checksum_of as sum_of, is_run as runs, with_symbol as with};

use teco_base::REGISTERS;
use teco_expansion::Nodes;
use teco_library::Library;

// A prime of 32 bits, by which sums are taken.
const MODULUS: u64 = 4_294_967_291;

// A sum, with a symbol behind it.
#[tactic(auto, unfolding(crate::specs::Checksum::with_symbol))]
fn with_symbol(sum: u32, symbol: u32) -> u32
    ensures { result ≡ with sum symbol }
{
    ((u64::from(sum) * 293 + u64::from(symbol) + 1) % MODULUS) as u32
}

// A sum, with the symbol of a register and the bytes of its text behind it.
fn with_text(sum: u32, place: usize, text: &[u8]) -> u32
    requires { place < REGISTERS }
    ensures { result ≡ fold with sum ((256 + place) ∷ text.now) }
{
    let mut with_bytes = with_symbol(sum, 256 + place as u32);
    for byte in text {
        with_bytes = with_symbol(with_bytes, u32::from(*byte));
    }
    with_bytes
}

// Does a node stand in the text of the register at a place?
fn is_run(nodes: &Nodes<'_>, place: usize) -> bool
    ensures { result ≡ runs nodes.now place }
{
    for before in 0..nodes.len() {
        if nodes.register(before + 1) == place {
            return true;
        }
    }
    false
}

// A sum, with the text of the register at a place behind it where a node stands in that.
fn with_register(sum: u32, nodes: &Nodes<'_>, place: usize, text: Option<&[u8]>) -> u32
    requires { place < REGISTERS }
    ensures { result ≡ (if runs nodes.now place
        then fold with sum ((256 + place) ∷ unwrap_or (option_copied text.entry) []) else sum) }
{
    if is_run(nodes, place) {
        with_text(sum, place, text.unwrap_or(&[]))
    } else {
        sum
    }
}

/// The checksum of the texts in which the nodes of a macro stand.
pub(crate) fn checksum_of(library: &Library, nodes: &Nodes<'_>) -> u32
    ensures { result ≡ sum_of library.now.texts nodes.now }
{
    let texts = library.texts();
    let mut sum = 0;
    for place in 0..REGISTERS {
        sum = with_register(sum, nodes, place, texts[place]);
    }
    sum
}
