//! Laws of the texts that an office stores. Each function does nothing; its contract is the law.

ghost use Rattle.std.specs.Prelude.{ℤ, List};
ghost use Rattle.std.specs.List.{AllByRecursion};
ghost use Rattle.isad_core.specs.Days.{IsDayNumber};
ghost use Rattle.catalogue_core.specs.Bounds.{IsKept};
ghost use Rattle.catalogue_core.specs.Descriptions.{HasAllPlaces, KnowsItsContainers};
ghost use Rattle.office_core.specs.declared.command.Command.{Command};
ghost use Rattle.office_core.specs.State.{State, Settings, start};
ghost use Rattle.office_core.specs.Rules.{state_after};
ghost use Rattle.office_core.specs.Soundness.{AreGoodSettings, NamesDays};
ghost use Rattle.office_core.specs.SoundOffice.{AreTexts, HasLegibleSettings, IsSoundOffice, NamesTexts};

/// Every text that an office stores stays UTF-8, if the readers' names in the commands are UTF-8. A source is ASCII,
/// and a file that is not UTF-8 is not taken.
pub fn texts_stay_texts()
    ensures { (s : State) (commands : List Command) → AllByRecursion NamesTexts commands →
        AreTexts s → AreTexts (state_after s commands) }
{}

/// A new office is sound with its texts, if its settings and its day are good.
pub fn new_offices_are_sound()
    ensures { (settings : Settings) (day : ℤ) → AreGoodSettings settings → IsDayNumber day →
        IsSoundOffice (start settings day) }
{}

/// An office that is sound with its texts stays so over every list of commands, if their days are days of the calendar
/// and the readers' names in them are UTF-8.
pub fn offices_stay_sound()
    ensures { (s : State) (commands : List Command) → AllByRecursion NamesDays commands →
        AllByRecursion NamesTexts commands → IsSoundOffice s → IsSoundOffice (state_after s commands) }
{}

/// A sound office meets what a store requires of the office that it keeps: its catalogue is within the limits and knows
/// its containers, every description has its places, and the office's own row can be read back.
pub fn sound_offices_are_kept()
    ensures catalogue { (s : State) → IsSoundOffice s → IsKept s.catalogue }
    ensures containers { (s : State) → IsSoundOffice s → KnowsItsContainers s.catalogue }
    ensures places { (s : State) → IsSoundOffice s → HasAllPlaces s.catalogue }
    ensures settings { (s : State) → IsSoundOffice s → HasLegibleSettings s }
{}
