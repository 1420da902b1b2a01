//! The letters of a command: which kind of element they name.
ghost use Rattle.std.specs.Prelude.{◌≡◌, ◌+◌, ◌<◌, ◌≤◌, [], ◌∷◌, length, IfOk};
ghost use Rattle.std.specs.List.{prefix_len};
ghost use Rattle.teco_base.specs.Bytes as byte;
ghost use Rattle.teco_model.specs.Letters as table;
ghost use Rattle.teco_lex.specs.Reading.{SecondByte};

use teco_base::Code;
use teco_base::bytes::{ESC, QUOTE, TAB, control, is_digit, to_upper};
use teco_model::kind::{
    Argument, Command, File, Flow, Goal, Insertion, Kind, MachineValue, Motion, Page, Query, Radix,
    Search, Test, Typing, Unit,
};
use teco_model::{Head, OnRegister, Operator};

/// What a sign for arguments names.
fn argument_sign(b: u8) -> Option<Kind>
    ensures { result ≡ table.argument_sign b }
{
    let argument = match b {
        b'+' => Argument::Operate(Operator::Plus),
        b'-' => Argument::Operate(Operator::Minus),
        b'*' => Argument::Operate(Operator::Times),
        b'/' => Argument::Operate(Operator::Over),
        b'&' => Argument::Operate(Operator::And),
        b'#' => Argument::Operate(Operator::Or),
        b'(' => Argument::Open,
        b')' => Argument::Close,
        b',' => Argument::Comma,
        b'.' => return Some(Kind::Value(MachineValue::Pointer)),
        _ => return None,
    };
    Some(Kind::Argument(argument))
}

/// What any other sign names.
fn command_sign(b: u8) -> Option<Head>
    ensures { result ≡ table.command_sign b }
{
    let head = match b {
        b'!' => Head::Kind(Kind::Flow(Flow::Comment)),
        b'%' => Head::OnRegister(OnRegister::Add),
        b'\'' => Head::Kind(Kind::Flow(Flow::EndTest)),
        b';' => Head::Kind(Kind::Flow(Flow::Leave)),
        b'<' => Head::Kind(Kind::Flow(Flow::Iterate)),
        b'>' => Head::Kind(Kind::Flow(Flow::EndTurn)),
        b'[' => Head::OnRegister(OnRegister::Push),
        b'\\' => Head::Kind(Kind::Query(Query::Conversion)),
        b']' => Head::OnRegister(OnRegister::Pop),
        b'|' => Head::Kind(Kind::Flow(Flow::Otherwise)),
        _ => return None,
    };
    Some(head)
}

/// What a letter from `A` to `M` names.
fn letter_to_m(letter: u8) -> Option<Head>
    ensures { result ≡ table.letter_to_m letter }
{
    let head = match letter {
        b'A' => Head::Kind(Kind::Page(Page::Append)),
        b'B' => Head::Kind(Kind::Value(MachineValue::Begin)),
        b'C' => Head::Kind(Kind::Command(Command::Motion(Motion::Forward))),
        b'D' => Head::Kind(Kind::Command(Command::Deletion(Unit::Characters))),
        b'G' => Head::OnRegister(OnRegister::Get),
        b'H' => Head::Kind(Kind::Value(MachineValue::Whole)),
        b'I' => Head::Kind(Kind::Command(Command::Insertion(Insertion::Text))),
        b'J' => Head::Kind(Kind::Command(Command::Motion(Motion::To))),
        b'K' => Head::Kind(Kind::Command(Command::Deletion(Unit::Lines))),
        b'L' => Head::Kind(Kind::Command(Command::Motion(Motion::Lines))),
        b'M' => Head::OnRegister(OnRegister::Call),
        _ => return None,
    };
    Some(head)
}

/// What a letter from `N` to `Z` names.
fn letter_from_n(letter: u8) -> Option<Head>
    ensures { result ≡ table.letter_from_n letter }
{
    let head = match letter {
        b'N' => Head::Kind(Kind::Search(Search::FindInPages)),
        b'O' => Head::Kind(Kind::Flow(Flow::GoTo)),
        b'Q' => Head::OnRegister(OnRegister::Number),
        b'R' => Head::Kind(Kind::Command(Command::Motion(Motion::Backward))),
        b'S' => Head::Kind(Kind::Search(Search::Find)),
        b'T' => Head::Kind(Kind::Command(Command::Typing(Typing::Part))),
        b'U' => Head::OnRegister(OnRegister::SetNumber),
        b'V' => Head::Kind(Kind::Command(Command::Typing(Typing::View))),
        b'X' => Head::OnRegister(OnRegister::Copy),
        b'Y' => Head::Kind(Kind::Page(Page::Yank)),
        b'Z' => Head::Kind(Kind::Value(MachineValue::Size)),
        _ => return None,
    };
    Some(head)
}

/// What a control byte names.
fn control_command(b: u8) -> Option<Head>
    ensures { result ≡ table.control_command b }
{
    let head = match b {
        0x01 => Head::Kind(Kind::Command(Command::Typing(Typing::Message))),
        TAB => Head::Kind(Kind::Command(Command::Insertion(Insertion::Tab))),
        0x13 => Head::Kind(Kind::Value(MachineValue::LastLength)),
        0x14 => Head::Kind(Kind::Command(Command::Typing(Typing::Byte))),
        0x15 => Head::OnRegister(OnRegister::SetText),
        0x18 => Head::Kind(Kind::Query(Query::Mode)),
        0x19 => Head::Kind(Kind::Value(MachineValue::LastText)),
        ESC => Head::Kind(Kind::Argument(Argument::DropAll)),
        _ => return None,
    };
    Some(head)
}

/// What the letter after `E` names.
fn file_letter(letter: u8) -> Option<Head>
    ensures { result ≡ table.file_letter letter }
{
    let file = match letter {
        b'C' => File::Copy,
        b'F' => File::Close,
        b'K' => File::Abandon,
        b'R' => File::Read,
        b'W' => File::Write,
        b'X' => File::Exit,
        _ => return None,
    };
    Some(Head::Kind(Kind::File(file)))
}

/// What the letter or bracket after `F` names.
fn replace_or_flow(b: u8) -> Option<Head>
    ensures { result ≡ table.replace_or_flow b }
{
    let kind = match b {
        b'N' => Kind::Search(Search::ReplaceInPages),
        b'S' => Kind::Search(Search::Replace),
        b'\'' => Kind::Flow(Flow::GoAhead(Goal::EndTest)),
        b'>' => Kind::Flow(Flow::GoAhead(Goal::EndTurn)),
        b'|' => Kind::Flow(Flow::GoAhead(Goal::Otherwise)),
        _ => return None,
    };
    Some(Head::Kind(kind))
}

/// What the letter after `"` asks.
fn test_letter(letter: u8) -> Option<Head>
    ensures { result ≡ table.test_letter letter }
{
    let test = match letter {
        b'E' | b'F' | b'U' | b'=' => Test::Zero,
        b'N' => Test::NotZero,
        b'L' | b'S' | b'T' | b'<' => Test::Negative,
        b'G' | b'>' => Test::Positive,
        b'A' => Test::Letter,
        b'C' => Test::Symbol,
        b'D' => Test::Digit,
        b'R' => Test::LetterOrDigit,
        b'V' => Test::Lower,
        b'W' => Test::Upper,
        _ => return None,
    };
    Some(Head::Kind(Kind::Flow(Flow::Test(test))))
}

/// What a byte names that stands alone.
fn one_byte(b: u8) -> Option<Head>
    ensures { result ≡ table.one_byte b }
{
    if let Some(kind) = argument_sign(b) {
        return Some(Head::Kind(kind));
    }
    let letter = to_upper(b);
    let named = command_sign(b);
    if named.is_some() {
        return named;
    }
    let named = letter_to_m(letter);
    if named.is_some() {
        return named;
    }
    let named = letter_from_n(letter);
    if named.is_some() {
        return named;
    }
    control_command(b)
}

/// What some bytes name, or ILL.
fn head_of(named: Option<Head>, bytes: usize) -> Result<(Head, usize), Code>
    ensures value { result ≡ table.head_of named bytes }
    ensures len { IfOk result (λ x. x.1 ≡ bytes) }
{
    Ok((named.ok_or(Code::Ill)?, bytes))
}

/// What the second of two bytes names.
fn second_byte<F: Fn(u8) -> Option<Head>>(names: F, rest: &[u8]) -> Result<(Head, usize), Code>
    requires { F.IsAlwaysCallable names }
    ensures value { SecondByte (F.post names) rest.now result }
    ensures within { IfOk result (λ x. (0 < x.1) × (x.1 ≤ length rest.now + 1)) }
{
    let letter = rest.first().ok_or(Code::Utc)?;
    head_of(names(to_upper(*letter)), 2)
}

/// What a caret and the byte behind it name.
fn caret(rest: &[u8]) -> Result<(Head, usize), Code>
    ensures value { result ≡ table.caret rest.now }
    ensures within { IfOk result (λ x. (0 < x.1) × (x.1 ≤ length rest.now + 1)) }
{
    let c = rest.first().ok_or(Code::Utc)?;
    head_of(control(*c).and_then(control_command), 2)
}

/// `P`, or `PW`.
fn page_letters(rest: &[u8]) -> (Head, usize)
    ensures value { result ≡ table.page_letters rest.now }
    ensures within { (0 < result.1) × (result.1 ≤ length rest.now + 1) }
{
    match rest {
        [b'W' | b'w', ..] => (Head::Kind(Kind::Page(Page::Write)), 2),
        _ => (Head::Kind(Kind::Page(Page::Next)), 1),
    }
}

/// How many digits stand at the front.
fn digit_len(text: &[u8]) -> usize
    ensures value { result ≡ prefix_len byte.is_digit text.now }
    ensures within { result ≤ length text.now }
{
    text.iter().take_while(|b| is_digit(**b)).count()
}

/// `=` and the signs of its kind behind it.
fn equal_signs(rest: &[u8]) -> (Head, usize)
    ensures value { result ≡ table.equal_signs (61 ∷ rest.now) }
    ensures within { (0 < result.1) × (result.1 ≤ length rest.now + 1) }
{
    let (radix, len) = match rest {
        [b'=', b'=', ..] => (Radix::Hexadecimal, 3),
        [b'=', ..] => (Radix::Octal, 2),
        _ => (Radix::Decimal, 1),
    };
    (
        Head::Kind(Kind::Command(Command::Typing(Typing::Number(radix)))),
        len,
    )
}

/// What the bytes at the front name, and how many bytes that takes.
#[tactic(auto, unfolding(teco_model::specs::Letters::letters))]
pub fn letters(text: &[u8]) -> Result<(Head, usize), Code>
    ensures value { result ≡ table.letters text.now }
    ensures within { IfOk result (λ x. (0 < x.1) × (x.1 ≤ length text.now)) }
{
    let (b, rest) = text.split_first().ok_or(Code::Utc)?;
    if is_digit(*b) {
        return Ok((
            Head::Kind(Kind::Argument(Argument::Digits)),
            digit_len(text),
        ));
    }
    match *b {
        b'=' => Ok(equal_signs(rest)),
        QUOTE => second_byte(test_letter, rest),
        b'^' => caret(rest),
        b => match to_upper(b) {
            b'E' => second_byte(file_letter, rest),
            b'F' => second_byte(replace_or_flow, rest),
            b'P' => Ok(page_letters(rest)),
            _ => head_of(one_byte(b), 1),
        },
    }
}
