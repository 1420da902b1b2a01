//! The kinds of elements, grouped by what they do with the pending arguments.
use crate::arguments::Operator;
use teco_base::Reg;

/// What an element is.
#[derive(Clone, Copy)]
pub enum Kind {
    /// Changes the pending arguments, and nothing else.
    Argument(Argument),
    /// Gives a value of the machine's.
    Value(MachineValue),
    /// Gives a value; where one stands, takes that instead.
    Query(Query),
    /// `[` and `]`: it leaves the arguments.
    Stack(Stack),
    /// `M` executes the text of a register, and leaves the arguments.
    Call(Call),
    /// Decides where execution goes on.
    Flow(Flow),
    /// Takes its arguments, and may answer a value.
    Command(Command),
    /// Takes its arguments, and looks for a text.
    Search(Search),
    /// Takes its arguments, and reads or writes pages.
    Page(Page),
    /// Opens, closes or names files.
    File(File),
}

/// What asks for a value.
#[derive(Clone, Copy)]
pub enum Query {
    /// `Q`: the number of a register; `nQ` a character of its text, `:Q` the text's length.
    Number(Reg),
    /// `^X`: the search mode.
    Mode,
    /// `\`: the number at the pointer; `n\` inserts one.
    Conversion,
}

/// What is done with the push-down list.
#[derive(Clone, Copy)]
pub enum Stack {
    /// `[` pushes number and text of a register.
    Push(Reg),
    /// `]` pops number and text into a register.
    Pop(Reg),
}

/// What `M` executes.
#[derive(Clone, Copy)]
pub struct Call {
    /// The register whose text it is.
    pub register: Reg,
}

/// A command on what the editor keeps, which takes its arguments.
#[derive(Clone, Copy)]
pub enum Command {
    /// `C`, `R`, `J` and `L` move the pointer.
    Motion(Motion),
    /// `D` and `K` delete.
    Deletion(Unit),
    /// `I` and TAB insert a text.
    Insertion(Insertion),
    /// Types.
    Typing(Typing),
    /// Works on a register.
    Storage(Storage),
}

/// What is done with a register.
#[derive(Clone, Copy)]
pub enum Storage {
    /// `U` sets the number.
    SetNumber(Reg),
    /// `%` adds to the number.
    Add(Reg),
    /// `X` copies a part of the buffer into the text.
    Copy(Reg),
    /// `^U` sets the text.
    SetText(Reg),
    /// `G` inserts the text, or with `:` types it.
    Get(Reg),
}

/// An element that changes the pending arguments alone.
#[derive(Clone, Copy)]
pub enum Argument {
    /// ESC drops all of them.
    DropAll,
    /// A run of digits.
    Digits,
    /// `+ - * / & #`
    Operate(Operator),
    /// `(`
    Open,
    /// `)`
    Close,
    /// `,`
    Comma,
}

/// A value that the machine has.
#[derive(Clone, Copy)]
pub enum MachineValue {
    /// `B`, the place before the first character.
    Begin,
    /// `Z`, the length of the buffer.
    Size,
    /// `.`, the pointer.
    Pointer,
    /// `H`, both ends of the buffer.
    Whole,
    /// `^S`, minus the length of the last text found or inserted.
    LastLength,
    /// `^Y`, both ends of that text.
    LastText,
}

/// Where the pointer goes.
#[derive(Clone, Copy)]
pub enum Motion {
    /// `C`
    Forward,
    /// `R`
    Backward,
    /// `J`
    To,
    /// `L`
    Lines,
}

/// What a count counts.
#[derive(Clone, Copy)]
pub enum Unit {
    /// Characters, as for `D`.
    Characters,
    /// Lines, as for `K`.
    Lines,
}

/// What is inserted.
#[derive(Clone, Copy)]
pub enum Insertion {
    /// `I`: the text.
    Text,
    /// TAB: itself and the text.
    Tab,
}

/// What is typed.
#[derive(Clone, Copy)]
pub enum Typing {
    /// `T`: a part of the buffer.
    Part,
    /// `V`: the lines round the pointer.
    View,
    /// `^A`: its own text.
    Message,
    /// `^T`: one byte.
    Byte,
    /// `=`, `==` and `===`: a number.
    Number(Radix),
}

/// How a number is typed.
#[derive(Clone, Copy)]
pub enum Radix {
    /// `=`
    Decimal,
    /// `==`
    Octal,
    /// `===`
    Hexadecimal,
}

/// How far a search goes, and whether it replaces.
#[derive(Clone, Copy)]
pub enum Search {
    /// `S`
    Find,
    /// `FS`
    Replace,
    /// `N`
    FindInPages,
    /// `FN`
    ReplaceInPages,
}

/// What decides where execution goes on.
#[derive(Clone, Copy)]
pub enum Flow {
    /// `<` begins an iteration.
    Iterate,
    /// `>` ends a turn of it.
    EndTurn,
    /// `;` leaves it.
    Leave,
    /// `"` and a letter begin a conditional.
    Test(Test),
    /// The pipe parts a conditional.
    Otherwise,
    /// `'` ends it.
    EndTest,
    /// `O` goes to a tag.
    GoTo,
    /// `!` begins a tag or comment.
    Comment,
    /// `F>`, `F'` and `F|` go ahead in the pair that they stand in.
    GoAhead(Goal),
}

/// Where `F` and a bracket go.
#[derive(Clone, Copy)]
pub enum Goal {
    /// `F>`: to the `>` of the iteration, which is executed next.
    EndTurn,
    /// `F'`: past the `'` of the conditional.
    EndTest,
    /// `F|`: past the pipe of the conditional, or past its `'`.
    Otherwise,
}

/// What a conditional asks of its argument.
#[derive(Clone, Copy)]
pub enum Test {
    /// `E`, `F`, `U` and `=`: is it zero?
    Zero,
    /// `N`: is it another number than zero?
    NotZero,
    /// `L`, `S`, `T` and `<`: is it negative?
    Negative,
    /// `G` and `>`: is it positive?
    Positive,
    /// `A`: is it a letter?
    Letter,
    /// `C`: is it a symbol constituent?
    Symbol,
    /// `D`: is it a digit?
    Digit,
    /// `R`: is it a letter or a digit?
    LetterOrDigit,
    /// `V`: is it a lower case letter?
    Lower,
    /// `W`: is it an upper case letter?
    Upper,
}

/// What is done with pages.
#[derive(Clone, Copy)]
pub enum Page {
    /// `Y` replaces the buffer by the next page.
    Yank,
    /// `A` appends the next page; `nA` is the code of a character.
    Append,
    /// `P` writes the buffer and goes on to the next page.
    Next,
    /// `PW` writes the buffer.
    Write,
}

/// What is done with files.
#[derive(Clone, Copy)]
pub enum File {
    /// `ER` opens the input.
    Read,
    /// `EW` opens the output.
    Write,
    /// `EF` closes the output.
    Close,
    /// `EK` abandons the output.
    Abandon,
    /// `EC` writes all that is left and closes both.
    Copy,
    /// `EX` does so and ends the session.
    Exit,
}
