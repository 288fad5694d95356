//! Examples of the rules in small offices, worked out by hand. Each is a row: commands, with the replies or the answers
//! that they must lead to.

ghost use Rattle.office_core.specs.WorkedReplies as row;
ghost use Rattle.office_core.specs.WorkedAnswers as answers;
ghost use Rattle.office_core.specs.WorkedDesk as desk;
ghost use Rattle.office_core.specs.WorkedCatalogue as catalogue;
ghost use Rattle.office_core.specs.WorkedShown as shown;
ghost use Rattle.office_core.specs.WorkedChecks as turn;
ghost use Rattle.office_core.specs.WorkedSettings as settings;
ghost use Rattle.office_core.specs.WorkedImports as imports;
ghost use Rattle.office_core.specs.WorkedTexts as texts;
ghost use Rattle.office_core.specs.Soundness.{IsSound};
ghost use Rattle.office_core.specs.WorkedExamples.{one_number_left};

/// The commands of each row get the replies of the row.
pub fn worked_rows()
    ensures queue_of_two { row.QueueOfTwo }
    ensures gate_and_day { row.GateAndDay }
    ensures run_of_two_and_one { row.RunOfTwoAndOne }
    ensures orders_of_a_day { row.OrdersOfADay }
    ensures seats { row.Seats }
    ensures expiry_and_renewal { row.ExpiryAndRenewal }
    ensures hands_and_reshelving { row.HandsAndReshelving }
    ensures least_orders { row.LeastOrders }
    ensures lock_gates { row.LockGates }
    ensures permits { row.Permits }
    ensures permits_and_drafts { row.PermitsAndDrafts }
    ensures import_again { row.ImportAgain }
    ensures faulty_files { row.FaultyFiles }
    ensures remarks { row.Remarks }
    ensures moves { row.Moves }
    ensures unknown { row.Unknown }
    ensures expired_at_the_desk { row.ExpiredAtTheDesk }
    ensures closure_ends { row.ClosureEnds }
    ensures seats_overnight { row.SeatsOvernight }
    ensures lowest_container { row.LowestContainer }
    ensures head_cancelled { row.HeadCancelled }
    ensures two_at_once { row.TwoAtOnce }
    ensures with_reader_again { row.WithReaderAgain }
    ensures permits_above { row.PermitsAbove }
    ensures names_of_readers { row.NamesOfReaders }
    ensures at_the_counter { row.AtTheCounter }
    ensures depths { row.Depths }
    ensures placed { row.Placed }
{}

/// In a sound office a ticket has permits for the maximum number of units. It gets no other one until one is revoked,
/// but a later day for one that it has.
pub fn worked_permits()
    ensures { row.MostPermits }
{}

/// The answers are those of the rows, byte for byte.
pub fn worked_answers()
    ensures aids { answers.Aids }
    ensures pages { answers.Pages }
    ensures statuses { answers.Statuses }
    ensures at_the_desk { answers.AtTheDesk }
    ensures replies { answers.ReplyTexts }
{}

/// The replies at the desk are those of the rows, in cases where two rules are easily confused.
pub fn worked_desk_rows()
    ensures renewed_alone { desk.RenewedAlone }
    ensures registered_too_late { desk.RegisteredTooLate }
    ensures run_for_an_expired_ticket { desk.RunForAnExpiredTicket }
    ensures reshelved_in_order { desk.ReshelvedInOrder }
    ensures not_first_and_expired { desk.NotFirstAndExpired }
    ensures hands_full_and_closed { desk.HandsFullAndClosed }
    ensures ordered_and_closed { desk.OrderedAndClosed }
    ensures unknown_ticket_and_unit { desk.UnknownTicketAndUnit }
    ensures run_for_full_hands { desk.RunForFullHands }
    ensures expired_holder { desk.ExpiredHolder }
    ensures permits_of_the_expired { desk.PermitsOfTheExpired }
    ensures permit_of_an_earlier_day { desk.PermitOfAnEarlierDay }
{}

/// The replies to imports, moves and statuses, and what is then shown, are those of the rows.
pub fn worked_catalogue_rows()
    ensures sources_apart { catalogue.SourcesApart }
    ensures known_rows_stay { catalogue.KnownRowsStay }
    ensures boxes_turned { catalogue.BoxesTurned }
    ensures levels_of_parents { catalogue.LevelsOfParents }
    ensures too_much_before_the_gate { catalogue.TooMuchBeforeTheGate }
    ensures branch_counted { catalogue.BranchCounted }
    ensures last_places { catalogue.LastPlaces }
    ensures boxes_in_order { catalogue.BoxesInOrder }
{}

/// Lists, and what is closed, expired or of an earlier day, are shown as in the rows.
pub fn worked_shown_rows()
    ensures closed_shown { shown.ClosedShown }
    ensures old_slips { shown.OldSlips }
    ensures lists { shown.Lists }
    ensures permit_kept { shown.PermitKept }
    ensures nearest_above { shown.NearestAbove }
    ensures lines_in_order { shown.LinesInOrder }
    ensures told_apart { shown.ToldApart }
{}

/// In these rows several refusals apply at once, and the reply is the first in the command's list.
pub fn worked_checks()
    ensures order_in_turn { turn.OrderInTurn }
    ensures issue_in_turn { turn.IssueInTurn }
    ensures seats_in_turn { turn.SeatsInTurn }
    ensures permit_in_turn { turn.PermitInTurn }
    ensures name_before_file { turn.NameBeforeFile }
{}

/// The replies of offices with the lowest settings, some in between, and the highest are those of the rows.
pub fn worked_settings()
    ensures one_of_each { settings.OneOfEach }
    ensures some_of_each { settings.SomeOfEach }
    ensures most_of_each { settings.MostOfEach }
{}

/// The replies and the effects of imports and moves are those of the rows: remarks, what counts as a change, new units
/// below drafts and closed ones, closures that are past, a branch that is too deep.
pub fn worked_imports()
    ensures levels_without_rank { imports.LevelsWithoutRank }
    ensures one_missing { imports.OneMissing }
    ensures changed_alone { imports.ChangedAlone }
    ensures new_below { imports.NewBelow }
    ensures closures_kept { imports.ClosuresKept }
    ensures too_deep_before_the_gate { imports.TooDeepBeforeTheGate }
{}

/// Each reply and each refusal has the text of the rows, byte for byte.
pub fn worked_texts()
    ensures each_reply { texts.EachReply }
    ensures each_refusal { texts.EachRefusal }
{}

/// The office with one unit number left, which a row of the catalogue uses, is sound.
pub fn worked_office()
    ensures { IsSound one_number_left }
{}
