//! Laws of what elements do to what is known: where the transfer gives facts that fit, the machine
//! comes to a state that they describe, without a code.
ghost use Rattle.teco_law_facts.specs.SoundElements.{ArgumentsAreSound, ValuesAreSound, CommandsAreSound};
ghost use Rattle.teco_law_facts.specs.SoundElements.{QueriesAreSound, StacksAreSound};
ghost use Rattle.teco_law_facts.specs.SoundFlow.{TestsAreSound, LeavesAreSound, IterationsAreSound, TurnsAreSound};
ghost use Rattle.teco_law_facts.specs.SoundFlow.{TurnEndsAreSound, TagsAreSound, OthersAreSound};
ghost use Rattle.teco_law_facts.specs.SoundPages.{AppendsAreSound, PageTurnsAreSound, PageWritesAreSound};
ghost use Rattle.teco_law_facts.specs.SoundPages.{PageStepsAreBounded};
ghost use Rattle.teco_law_facts.specs.SoundSearches.{SearchesAreSound};
ghost use Rattle.teco_law_facts.specs.SoundSeeking.{PageSearchesAreSound, SearchStepsAreBounded};
ghost use Rattle.teco_law_facts.specs.SoundSteps.{ElementsAreNamed, StepsAreSound, LaterStepsAreSound};
ghost use Rattle.teco_law_facts.specs.SoundSteps.{ElementsAreSound, ReturnsGoBack};

/// Digits, operators, parentheses, comma and ESC.
pub fn arguments_are_sound()
    ensures { ArgumentsAreSound }
{}

/// B, Z, the pointer, H and ^S.
pub fn values_are_sound()
    ensures { ValuesAreSound }
{}

/// What moves the pointer, deletes, inserts and types, and U, %, X, ^U and G.
pub fn commands_are_sound()
    ensures { CommandsAreSound }
{}

/// Q, ^X and \.
pub fn queries_are_sound()
    ensures { QueriesAreSound }
{}

/// The push-down list.
pub fn stacks_are_sound()
    ensures { StacksAreSound }
{}

/// A conditional goes on where its test holds, and else away.
pub fn tests_are_sound()
    ensures { TestsAreSound }
{}

/// Semicolons go on, or leave their iteration.
pub fn leaves_are_sound()
    ensures { LeavesAreSound }
{}

/// An iteration is entered, or skipped where its count begins no turn.
pub fn iterations_are_sound()
    ensures { IterationsAreSound }
{}

/// An iteration takes no more turns than are known; without a count what is ahead is less.
pub fn turns_are_sound()
    ensures { TurnsAreSound }
{}

/// A turn that ends goes back, or on behind its iteration.
pub fn turn_ends_are_sound()
    ensures { TurnEndsAreSound }
{}

/// O goes to its tag.
pub fn tags_are_sound()
    ensures { TagsAreSound }
{}

/// The other elements of flow, calls and returns change nothing.
pub fn others_are_sound()
    ensures { OthersAreSound }
{}

/// What is known of a search in the buffer is true where it found, and where it failed.
pub fn searches_are_sound()
    ensures { SearchesAreSound }
{}

/// N and FN turn pages, and what is known of them is true where they found, and where no page was
/// left.
pub fn page_searches_are_sound()
    ensures { PageSearchesAreSound }
{}

/// A search takes at most as many steps as are known.
pub fn search_steps_are_bounded()
    ensures { SearchStepsAreBounded }
{}

/// A adds a page behind the buffer, or answers.
pub fn appends_are_sound()
    ensures { AppendsAreSound }
{}

/// P turns its pages, or writes a part.
pub fn page_turns_are_sound()
    ensures { PageTurnsAreSound }
{}

/// PW writes, and leaves what is kept.
pub fn page_writes_are_sound()
    ensures { PageWritesAreSound }
{}

/// P and PW take at most as many steps as are known.
pub fn page_steps_are_bounded()
    ensures { PageStepsAreBounded }
{}

/// The register that an element names is one of the 36.
pub fn elements_are_named()
    ensures { ElementsAreNamed }
{}

/// The first step of any element comes to no code, and to the edge that it goes along, or leaves
/// work to do.
pub fn steps_are_sound()
    ensures { StepsAreSound }
{}

/// Each later step of an element comes to no code either.
pub fn later_steps_are_sound()
    ensures { LaterStepsAreSound }
{}

/// An element takes at most as many steps as are known, and then its edge's facts describe where it
/// leads.
pub fn elements_are_sound()
    ensures { ElementsAreSound }
{}

/// The end of a called text goes back, and what is known stays true.
pub fn returns_go_back()
    ensures { ReturnsGoBack }
{}
