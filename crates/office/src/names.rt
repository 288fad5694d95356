//! What can be seen of a command by itself or with the office's day: what is wrong with it, and which days it names.

ghost use Rattle.std.specs.Prelude.{◌≡◌};
ghost use Rattle.isad_core.specs.Days.{IsDayNumber};
ghost use Rattle.office_core.specs.SoundOffice.{NamesTexts};
ghost use Rattle.office_core.specs.Soundness.{NamesDays};
ghost use Rattle.office.specs.Sight.{day_check, name_check};

use catalogue_core::is_source;
use desk_core::is_name;
use isad_core::Day;
use office_core::{Command, Refusal};

/// `BadName` if the command names the source of an import or a new reader, and that name is not well-formed; otherwise
/// none. It is the first check of these commands, and depends on the command alone.
pub(crate) fn refused_by_name(command: &Command) -> Option<Refusal>
    ensures { result ≡ name_check command.now }
{
    match command {
        Command::Import { source, .. } if !is_source(source.as_str()) => Some(Refusal::BadName),
        Command::Register { name, .. } if !is_name(name.as_str()) => Some(Refusal::BadName),
        _ => None,
    }
}

/// `DayNotLater` if the command opens a day that is not later than `today`, the office's day; otherwise none. It is the
/// first check of this command.
pub(crate) fn refused_by_day(today: Day, command: &Command) -> Option<Refusal>
    ensures { result ≡ day_check today command.now }
{
    match command {
        Command::OpenDay { day } if *day <= today => Some(Refusal::DayNotLater),
        _ => None,
    }
}

/// Every `Day` is a day of the calendar.
fn is_of_calendar(day: Day)
    ensures { IsDayNumber day }
{
    let _ = day.number();
}

/// Changes nothing. Its contract is a law: the days that a command names are days of the calendar, and the reader's
/// name in it is UTF-8.
pub fn names_days_and_texts(command: &Command)
    ensures days { NamesDays command.now }
    ensures texts { NamesTexts command.now }
{
    match command {
        Command::OpenDay { day } => is_of_calendar(*day),
        Command::SetClosure {
            until: Some(day),
            ..
        } => is_of_calendar(*day),
        Command::Register { name, until } => {
            let _ = name.as_str();
            is_of_calendar(*until);
        }
        Command::Renew { until, .. } => is_of_calendar(*until),
        Command::Permit { until, .. } => is_of_calendar(*until),
        _ => {}
    }
}
