//! Laws of offices over nested sets, in memory and in files. Each function does nothing: its contract is the law.

ghost use Rattle.sqlite.specs.Effect.{Database};
ghost use Rattle.sqlite.specs.Recovery.{Image};
ghost use Rattle.sqlite.specs.WalFiles.{image_at};
ghost use Rattle.office_core.specs.State.{State};
ghost use Rattle.program.specs.ClosedFiles.{ACheckChangesNothing};
ghost use Rattle.program.specs.Headline.{TheHeadlineInAFile, TheHeadlineInMemory, TheHeadlineOfATrial};
ghost use Rattle.program.specs.NextRuns.{BeginsAsBroughtOver, BeginsAsFound, BeginsAsMade, RunGoesOn, RunMakesVisits};
ghost use Rattle.program.specs.OpenedFiles.{IsInTheStateThatWasLeft};
ghost use Rattle.program.specs.Stores.{WhatWasBroughtOverIsHeld, WhatWasMadeIsHeld, WhatWasNotMadeIsLeft};
ghost use Rattle.program.specs.Stores.{WhatWasSaidIsHeld, WhatWasServedIsHeld, WhatWasTakenInIsHeld};

use memory_disk::MemoryDisk;
use sqlite::{FileFrom, Start};
use sqlite_disk::Disk;

/// If a file and its log hold an office of version 2 in a state, and the tables found there are judged to be a sound
/// office's, these tables represent that state.
pub fn a_file_opens_in_the_state_that_was_left()
    ensures { (image : Image) (s : State) (found : Database) → IsInTheStateThatWasLeft image s found }
{}

/// After any sessions, and any calls whose commands name days of the calendar, a new office in the engine's store in
/// memory is in the machine's state after the commands among them, and the rules are kept at each point. Its tables
/// always represent that state: such a store is never shut.
#[tactic(auto, using(crate::proofs::HeadlineLemmas::in_memory))]
pub fn the_headline_in_memory()
    ensures { TheHeadlineInMemory }
{}

/// After any sessions, and any calls whose commands name days of the calendar, the new office of a trial is in the
/// machine's state after the commands among them, and the rules are kept at each point. Its tables represent that
/// state, unless a failed write has shut it. They do so in any case if the last message or call was a command that was
/// accepted, or if there was none and the office was open at first.
pub fn the_headline_of_a_trial()
    ensures { TheHeadlineOfATrial ⟦<MemoryDisk as Disk>⟧ }
{}

/// Any sessions, and any calls whose commands name days of the calendar, with a sound office that a file held bring the
/// machine from the office's state to another by the commands among them, and the rules are kept at each point. When
/// the office is closed, the file and its log hold it in that state, if the last message or call was a command that was
/// accepted, or if no failure of the disk had shut it. The premise is that the disk has returned what was written.
pub fn the_headline_in_a_file<S: Start>()
    ensures { TheHeadlineInAFile ⟦<FileFrom<S> as Disk>⟧ (image_at S.Start) }
{}

/// A check changes nothing: the file and its log hold the tables that they held, if the disk has returned what was
/// written.
pub fn a_check_changes_nothing<S: Start>()
    ensures { ACheckChangesNothing ⟦<FileFrom<S> as Disk>⟧ (image_at S.Start) }
{}

/// After `init`, an accepted import or a migration, the file and its log hold the office in the state that this led to,
/// if the disk has returned what was written, and if an office that was opened was sound. So they do after a session or
/// connections, if the last message was an accepted command, or if no failure of the disk had shut the office. If one
/// had, a crash leaves only that state, or the state after one command that was answered 503. If one had shut a store
/// in which no office was made, a crash leaves only what it could leave before, or the new office.
pub fn what_was_done_is_in_the_file<S: Start>()
    ensures made { WhatWasMadeIsHeld ⟦<FileFrom<S> as Disk>⟧ (image_at S.Start) }
    ensures not_made { WhatWasNotMadeIsLeft ⟦<FileFrom<S> as Disk>⟧ (image_at S.Start) }
    ensures taken_in { WhatWasTakenInIsHeld ⟦<FileFrom<S> as Disk>⟧ (image_at S.Start) }
    ensures said { WhatWasSaidIsHeld ⟦<FileFrom<S> as Disk>⟧ (image_at S.Start) }
    ensures served { WhatWasServedIsHeld ⟦<FileFrom<S> as Disk>⟧ (image_at S.Start) }
    ensures brought_over { WhatWasBroughtOverIsHeld ⟦<FileFrom<S> as Disk>⟧ (image_at S.Start) }
{}

/// Runs on one store are one list of commands to one machine: each finds the office as the runs before it left it, also
/// after a crash between them, and adds its commands to theirs. The list begins with a sound office that was found,
/// made or migrated. What a run finds is not said if the run before it could not copy its log into the file as it
/// closed it.
pub fn runs_are_one_machine<S: Start>()
    ensures found { (image : Image) (s : State) → BeginsAsFound image s }
    ensures made { BeginsAsMade ⟦<FileFrom<S> as Disk>⟧ (image_at S.Start) }
    ensures brought_over { BeginsAsBroughtOver ⟦<FileFrom<S> as Disk>⟧ (image_at S.Start) }
    ensures goes_on { RunGoesOn ⟦<FileFrom<S> as Disk>⟧ (image_at S.Start) }
{}

/// What a run of the program does with the office that its file held is a list of visits, as the headline has them: an
/// import is a call, and what it talks with and each connection that it serves is a session. Each is answered as by the
/// machine, and together they are one run of it, which keeps the rules. The premises are that the disk has returned what
/// was written, and that the office was sound.
pub fn runs_make_visits<S: Start>()
    ensures { RunMakesVisits ⟦<FileFrom<S> as Disk>⟧ (image_at S.Start) }
{}
