//! Laws that hold over every list of commands, from a new office or any sound state. Each function does nothing; its
//! contract is the law.

ghost use Rattle.std.specs.Prelude.{◌≡◌, ℤ, List};
ghost use Rattle.std.specs.List.{AllByRecursion};
ghost use Rattle.office_core.specs.declared.command.Command.{Command};
ghost use Rattle.office_core.specs.State.{State, Settings, start};
ghost use Rattle.office_core.specs.Rules.{step, state_after};
ghost use Rattle.office_core.specs.SoundDesk.{IsSoundDesk};
ghost use Rattle.isad_core.specs.Days.{IsDayNumber};
ghost use Rattle.office_core.specs.Soundness.{AreGoodDays, AreGoodSettings, IsSound, NamesDays};
ghost use Rattle.office_core.specs.ImportLaws.{ImportsBringTheNew, ImportsKeepTheCatalogue};
ghost use Rattle.office_core.specs.Secrecy.{DividesQuestions, SamePublic, AnswersAlike, published_part};
ghost use Rattle.office_core.specs.Secrecy.{ShowsOnlyPublished, ShowsAllPublished};
ghost use Rattle.office_core.specs.Laws.{OutApart, OrdersGoOn, IssuesTheFirst, OpenToHolders};
ghost use Rattle.office_core.specs.Laws.{ImportsAgain};
ghost use Rattle.office_core.specs.GivenNumbers.{StaysNamed, Kind, GivenInOrder, StartsAtOne, NamesWhatCame};
ghost use Rattle.office_core.specs.GivenNumbers.{ComesNew, EachIsUnits, NumbersRows};

/// The reading room of a new office is sound, whatever its settings and its day are, and a sound one stays sound.
pub fn desk_stays_sound()
    ensures start { (settings : Settings) (day : ℤ) → IsSoundDesk (start settings day) }
    ensures on { (s : State) (commands : List Command) → IsSoundDesk s → IsSoundDesk (state_after s commands) }
{}

/// Two orders that are out have different containers.
pub fn out_apart()
    ensures { (s : State) (commands : List Command) → IsSoundDesk s → OutApart (state_after s commands) }
{}

/// An order starts as waiting, and goes from waiting to out or cancelled and from out to done. No other change happens.
/// That it is in exactly one of these states is part of a sound reading room.
pub fn orders_go_on()
    ensures { (s : State) (commands : List Command) (asked : Command) → IsSoundDesk s →
        OrdersGoOn (state_after s commands) (step (state_after s commands) asked).0 }
{}

/// Each accepted `Issue` serves the waiting order of its container with the lowest number. That is the ticket's order,
/// and is out afterwards.
pub fn issues_the_first()
    ensures { (s : State) (commands : List Command) → IsSoundDesk s → IssuesTheFirst (state_after s commands) }
{}

/// Each container that is out is open, on the day of the state, to the reader who has it. That reader has a seat, and
/// no more containers than the settings allow.
pub fn open_to_holders()
    ensures { (s : State) (commands : List Command) → IsSoundDesk s → OpenToHolders (state_after s commands) }
{}

/// Numbers keep their meaning: the number of a container, an order, a run or a reader always names the same one, and
/// the number of a unit does as long as the unit exists.
pub fn numbers_stay()
    ensures { (s : State) (commands : List Command) → IsSoundDesk s → StaysNamed s (state_after s commands) }
{}

/// The numbers of tickets, orders, runs, containers and units are given in order, each once, in a new office from 1 on.
pub fn given_in_order()
    ensures first { (kind : Kind) → StartsAtOne kind }
    ensures on { (kind : Kind) (s : State) (commands : List Command) → IsSoundDesk s → GivenInOrder kind s commands }
{}

/// The number in the reply to an accepted `Register`, `Order` or `Run` is that of the new reader, order or run.
pub fn told_by_number()
    ensures { (s : State) (asked : Command) → NamesWhatCame s (step s asked).0 asked (step s asked).1 }
{}

/// Two offices whose public parts are equal give equal answers to the public's questions. The public asks for the list
/// of fonds, a finding aid and a page; all other questions are the desk's.
pub fn nothing_leaks()
    ensures alike { (s t : State) → SamePublic s t → AnswersAlike s t }
    ensures questions { DividesQuestions }
{}

/// An answer to one of the public's questions is printed from published units only: heads, lines and containers.
pub fn only_the_published_is_shown()
    ensures { (s : State) → ShowsOnlyPublished s }
{}

/// Each unit that the public may know has a finding aid and a page. No other number has either.
pub fn all_that_is_published_is_shown()
    ensures { (s : State) → ShowsAllPublished s }
{}

/// The public gets the same answers as from an office that has only the published part of this one: what is published
/// of its units, its containers, its day, and its country and repository codes.
pub fn answered_from_the_published()
    ensures { (s : State) → AnswersAlike s (published_part s) }
{}

/// An accepted import that is repeated at once is accepted and changes nothing. Its reply counts every row as
/// unchanged, with the same remarks and translations.
pub fn imports_again()
    ensures { (s : State) → ImportsAgain s }
{}

/// A unit that a command adds has one of the unit numbers that the command gives. In a sound state each of these is a
/// unit's, and an accepted import gives them to its new rows in the order of the file.
pub fn units_come_new()
    ensures new { (s : State) (asked : Command) → ComesNew s (step s asked).0 }
    ensures each { (s : State) (asked : Command) → IsSound s → EachIsUnits s (step s asked).0 }
    ensures rows { (s : State) → IsSound s → NumbersRows s }
{}

/// Every stored day stays a day of the calendar, if the commands name days of the calendar.
pub fn days_stay_days()
    ensures { (s : State) (commands : List Command) → AllByRecursion NamesDays commands →
        AreGoodDays s → AreGoodDays (state_after s commands) }
{}

/// No command changes the settings of an office whose reading room is sound.
pub fn settings_stay()
    ensures { (s : State) (asked : Command) → IsSoundDesk s → (step s asked).0.settings ≡ s.settings }
{}

/// A new office is sound as a whole, if its settings and its day are good.
pub fn starts_sound()
    ensures { (settings : Settings) (day : ℤ) → AreGoodSettings settings → IsDayNumber day →
        IsSound (start settings day) }
{}

/// An import, accepted or refused, leaves the units, the containers and the permits of a sound state sound, whatever
/// the file contains.
pub fn imports_keep_the_catalogue()
    ensures { (s : State) → IsSound s → ImportsKeepTheCatalogue s }
{}

/// In a sound state an accepted import removes no unit, and adds as many units and gives as many unit numbers as its
/// reply counts as new.
pub fn imports_bring_the_new()
    ensures { (s : State) → IsSound s → ImportsBringTheNew s }
{}

/// A sound office stays sound as a whole, over every list of commands that name days of the calendar.
pub fn stays_sound()
    ensures { (s : State) (commands : List Command) → AllByRecursion NamesDays commands → IsSound s →
        IsSound (state_after s commands) }
{}
