//! Laws of sequences of commands and queries, of imports row by row, and of settings. Each function does nothing; its
//! contract is the law.

ghost use Rattle.std.specs.Prelude.{◌≡◌, ◌++◌, ◌∷◌, [], List, None, Some, codes};
ghost use Rattle.office_core.specs.ImportByRow.{FaultsRowByRow, TakesRowByRow};
ghost use Rattle.office_core.specs.MixedRuns.{Answered, Asked, ToTell};
ghost use Rattle.office_core.specs.MixedRuns.{all_told, commands_of, replies_of, state_after_all};
ghost use Rattle.office_core.specs.Queries.{answer};
ghost use Rattle.office_core.specs.Rules.{replies, state_after};
ghost use Rattle.office_core.specs.SettingsFaults.{Country, Hands, wrong_setting};
ghost use Rattle.office_core.specs.Soundness.{AreGoodSettings, IsSound};
ghost use Rattle.office_core.specs.State.{Settings, State};
ghost use Rattle.office_core.specs.declared.query.Query.{Query};

/// Queries change nothing: the state after commands and queries, and the replies, are those of the commands alone.
pub fn queries_change_nothing()
    ensures state { (s : State) (asked : List Asked) →
        state_after_all s asked ≡ state_after s (commands_of asked) }
    ensures replies { (s : State) (asked : List Asked) →
        replies_of (all_told s asked) ≡ replies s (commands_of asked) }
{}

/// Each answer describes the state that the commands before it made.
pub fn answers_are_of_their_time()
    ensures { (s : State) (before later : List Asked) (query : Query) → all_told s (before ++ ToTell query ∷ later)
        ≡ all_told s before ++ Answered (answer (state_after s (commands_of before)) query)
        ∷ all_told (state_after s (commands_of before)) later }
{}

/// In a sound state, an import of a file that can be read may go row by row, starting from the catalogue before it. The
/// result is that of merging all rows, with the same counts and remarks, or the same first fault.
pub fn imports_row_by_row()
    ensures takes { (s : State) → IsSound s → TakesRowByRow s }
    ensures faults { (s : State) → IsSound s → FaultsRowByRow s }
{}

/// No setting is named as wrong exactly if all are good. In these two examples with several wrong ones, the first is
/// named.
pub fn settings_without_a_fault()
    ensures good { (settings : Settings) → wrong_setting settings ≡ None → AreGoodSettings settings }
    ensures none { (settings : Settings) → AreGoodSettings settings → wrong_setting settings ≡ None }
    ensures first { wrong_setting
        (record { country = codes "gb"; repo = []; seats = 0; daily = 3; hands = 1; run_size = 2 }) ≡ Some Country }
    ensures later { wrong_setting
        (record { country = codes "GB"; repo = codes "0999"; seats = 2; daily = 3; hands = 11; run_size = 0 })
        ≡ Some Hands }
{}
