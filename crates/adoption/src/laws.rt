//! Laws of the checks of an office's tables. Each function does nothing; its contract is the law.

ghost use Rattle.sqlite.specs.Tree.{Trees};
ghost use Rattle.office_tables.specs.Versions.{Version};
ghost use Rattle.adoption.specs.Causes.{CatalogueChecksTellTheCause};
ghost use Rattle.std.specs.Prelude.{ℤ};
ghost use Rattle.desk_core.specs.declared.reader.Limits.{Limits};
ghost use Rattle.adoption.specs.DeskCheck.{DeskChecksTellTheCause};

/// For tables with any cells whose office row is in order, the catalogue's check returns the first of the causes 1 to 5
/// that holds.
#[tactic(auto, using(crate::proofs::CauseLemmas::catalogue_told))]
pub fn catalogue_checks_tell_the_cause()
    ensures { (version : Version) (db : Trees) → CatalogueChecksTellTheCause version db }
{}

/// For tables with any cells that have none of the causes 1 to 5, the desk's check, with the limits and the day of the
/// office's row, returns the first cause of the tables if that is one of 6 to 9, and none otherwise.
pub fn desk_checks_tell_the_cause()
    ensures { (version : Version) (db : Trees) (limits : Limits) (today : ℤ)
        → DeskChecksTellTheCause version db limits today }
{}
