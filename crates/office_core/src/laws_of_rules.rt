//! What individual rules mean: when a change is refused because a reader has a container, which rows get remarks, what
//! the limits are, and what the public is shown. Each function does nothing; its contract is the law.

ghost use Rattle.std.specs.Prelude.{◌≡◌, true, false};
ghost use Rattle.office_core.specs.declared.command.Command.{Command};
ghost use Rattle.office_core.specs.State.{State};
ghost use Rattle.office_core.specs.SoundDesk.{IsSoundDesk};
ghost use Rattle.office_core.specs.AccessRestrictions.{may_withhold, AsksForReaders, AsksForNone};
ghost use Rattle.office_core.specs.AccessRestrictions.{MayBeDone, AsksForReadersAlone};
ghost use Rattle.office_core.specs.Remarks.{RemarksOnRows};
ghost use Rattle.office_core.specs.Fullness.{HasItsLimits, HasItsSettings, IsFullExactly, RefusesWhereFull};
ghost use Rattle.office_core.specs.PublicDisclosure.{ShowsThePublic};

/// A command that changes the catalogue or takes a permit away, and that passes its other checks, is refused because a
/// reader has a container (21) exactly if it would withhold one that is out from its reader. The refusal names the
/// lowest such container. If the command would withhold nothing, it is carried out. Other commands are never refused
/// for this reason.
pub fn readers_keep_what_they_have()
    ensures gated { (s : State) (asked : Command) → IsSoundDesk s → may_withhold asked ≡ true → AsksForReaders s asked }
    ensures alone { (s : State) (asked : Command) → IsSoundDesk s → MayBeDone s asked → AsksForReadersAlone s asked }
    ensures others { (s : State) (asked : Command) → may_withhold asked ≡ false → AsksForNone s asked }
{}

/// In an accepted import, a row gets a remark exactly if the sentence of that remark is true of its unit among the
/// units after the import, and never more than one. The remarks are in the order of the rows.
pub fn remarks_say_what_holds()
    ensures { (s : State) → RemarksOnRows s }
{}

/// The limits and the ranges of the settings are these numbers. A catalogue counts as too large exactly if it has too
/// many units, unit numbers or containers. A command at the desk that passes its earlier checks is refused as full (23)
/// exactly if it would exceed a limit: of tickets, orders, runs, or permits of a ticket.
pub fn limits_are_these()
    ensures numbers { HasItsLimits }
    ensures settings { HasItsSettings }
    ensures imports { IsFullExactly }
    ensures desk { (s : State) → RefusesWhereFull s }
{}

/// Each unit that the public is shown is part of what the public may know, and that is exactly what is published.
pub fn the_public_is_shown()
    ensures { (s : State) → ShowsThePublic s }
{}
