//! The settings of an office.

ghost use Rattle.std.specs.Prelude.{◌≡◌};
ghost use Rattle.std.specs.List.{list_all};
ghost use Rattle.catalogue_core.specs.Sources.{is_between as lies_between};
ghost use Rattle.office_core.specs.Soundness.{is_country as is_country_code, is_repository as is_repository_code};
ghost use Rattle.office.specs.InitialSettings.{AreTaken, IsGood, founded};
ghost use Rattle.refinement.specs.Representation.{office_of};

use catalogue_statements::OfficeRow;
use isad_core::{Day, Number, Text, limits};
use std::alloc::{AllocError, Global};
use std::marker::Model;

/// The settings of an office within their limits, and the day on which it opens.
#[derive(Debug, Drop)]
pub struct Settings {
    country: Text,
    repo: Text,
    seats: u32,
    daily: u32,
    hands: u32,
    run: u32,
    day: Day,
}

impl Model for Settings {
    ghost use Rattle.office.specs.InitialSettings.{Founding, IsGood};

    ghost Value = { Founding };

    ghost view = { λ s. record {
      settings = record {
        country = s.country;
        repo = s.repo;
        seats = s.seats;
        daily = s.daily;
        hands = s.hands;
        run_size = s.run;
      };
      day = s.day;
    } };

    ghost invariant = { λ s. IsGood (record {
      settings = record {
        country = s.country;
        repo = s.repo;
        seats = s.seats;
        daily = s.daily;
        hands = s.hands;
        run_size = s.run;
      };
      day = s.day;
    }) };
}

/// Why settings were not accepted.
#[derive(Clone, Copy, Debug, PartialEq, Eq)]
pub enum SettingsFault {
    /// There is not enough memory.
    Memory,
    /// The country is not two capital letters.
    Country,
    /// The repository's code is not 1 to 32 visible ASCII bytes.
    Repo,
    /// The number of seats is not between 1 and `MOST_SEATS`.
    Seats,
    /// The number of orders that a ticket may place on a day is not between 1 and `MOST_DAILY`.
    Daily,
    /// The number of containers that a ticket may have out is not between 1 and `MOST_HANDS`.
    Hands,
    /// The number of containers that a run takes is not between 1 and `MOST_RUN_SIZE`.
    Run,
}

impl From<AllocError> for SettingsFault {
    ghost use Rattle.std.specs.Prelude.{◌≡◌};
    ghost use Rattle.office.specs.declared.settings.SettingsFault.TheVariants as fault;

    ghost from_gives = { λ _ f. f ≡ fault.Memory };

    fn from(_: AllocError) -> SettingsFault {
        SettingsFault::Memory
    }
}

/// Whether the code is two capital letters.
pub fn is_country(code: &str) -> bool
    ensures { result ≡ is_country_code code.now }
{
    code.len() == 2 && code.bytes().all(|b| b >= b'A' && b <= b'Z')
}

/// Whether all bytes are visible ASCII: neither spaces nor control characters.
fn are_seen(code: &str) -> bool
    ensures { result ≡ list_all (lies_between 33 126) code.now }
{
    code.bytes().all(|b| b >= b'!' && b <= b'~')
}

/// Whether the code is 1 to 32 visible ASCII bytes.
pub fn is_repository(code: &str) -> bool
    ensures { result ≡ is_repository_code code.now }
{
    is_up_to(32, code.len()) && are_seen(code)
}

/// Whether a number is between 1 and `most`.
fn is_up_to(most: usize, number: usize) -> bool
    ensures { result ≡ lies_between 1 most number }
{
    number >= 1 && number <= most
}

impl Settings {
    /// Makes settings, if all are within their limits. Otherwise the fault names the first that is not, in the order of
    /// the parameters. `Memory` is returned only if all are within their limits.
    pub fn new(
        alloc: Global,
        country: &str,
        repo: &str,
        seats: u32,
        daily: u32,
        hands: u32,
        run: u32,
        day: Day,
    ) -> Result<Settings, SettingsFault>
        ensures { AreTaken (record {
          settings = record {
            country = country.now;
            repo = repo.now;
            seats = seats;
            daily = daily;
            hands = hands;
            run_size = run;
          };
          day = day;
        }) result }
    {
        if !is_country(country) {
            return Err(SettingsFault::Country);
        }
        if !is_repository(repo) {
            return Err(SettingsFault::Repo);
        }
        if !is_up_to(limits::MOST_SEATS as usize, seats as usize) {
            return Err(SettingsFault::Seats);
        }
        if !is_up_to(limits::MOST_DAILY as usize, daily as usize) {
            return Err(SettingsFault::Daily);
        }
        if !is_up_to(limits::MOST_HANDS as usize, hands as usize) {
            return Err(SettingsFault::Hands);
        }
        if !is_up_to(limits::MOST_RUN_SIZE as usize, run as usize) {
            return Err(SettingsFault::Run);
        }
        Ok(Settings {
            country: Text::new(alloc, country)?,
            repo: Text::new(alloc, repo)?,
            seats,
            daily,
            hands,
            run,
            day,
        })
    }

    /// The row of a new office with these settings. Its first unit will have number 1.
    pub(crate) fn into_row(self) -> OfficeRow
        ensures row { result ≡ office_of (founded self) }
        ensures good { IsGood self }
    {
        OfficeRow {
            country: self.country,
            repo: self.repo,
            seats: self.seats,
            daily: self.daily,
            hands: self.hands,
            run_size: self.run,
            day: self.day,
            next_unit: Number::from(1),
        }
    }
}
