//! Small cases of the definitions of the crates that have no tables, computed.

ghost use Rattle.model_tests.specs.WorkedDays.{Dated};
ghost use Rattle.model_tests.specs.WorkedDescriptions.{Printed};
ghost use Rattle.model_tests.specs.WorkedFiles.{Boxed, Columned, Recorded};
ghost use Rattle.model_tests.specs.WorkedEndings.{Ended};
ghost use Rattle.model_tests.specs.WorkedForests.{Withheld};
ghost use Rattle.model_tests.specs.WorkedPreviews.{PlacedRows, Previewed};
ghost use Rattle.model_tests.specs.WorkedRequests.{Judged, Scanned, Stated};
ghost use Rattle.model_tests.specs.WorkedRoutes.{Given, Routed};
ghost use Rattle.model_tests.specs.WorkedSlips.{Slipped};

/// Dates are read and written as in the rows.
pub fn worked_days()
    ensures { Dated }
{}

/// Elements, aids and pages are printed as in the rows.
pub fn worked_descriptions()
    ensures { Printed }
{}

/// Columns, their entries and their headers are read as in the rows.
pub fn worked_columns()
    ensures { Columned }
{}

/// Containers are read as in the row.
pub fn worked_boxes()
    ensures { Boxed }
{}

/// Records and whole files are read as in the rows.
pub fn worked_records()
    ensures { Recorded }
{}

/// What a run brings, what goes back to the shelf, and the order and the columns of a slip are those of the rows.
pub fn worked_slips()
    ensures { Slipped }
{}

/// What is withheld and what is shown are as in the rows.
pub fn worked_forests()
    ensures { Withheld }
{}

/// Paths lead where the rows say.
pub fn worked_routes()
    ensures { Routed }
{}

/// Bodies give the commands of the rows.
pub fn worked_bodies()
    ensures { Given }
{}

/// Heads end where the rows say.
pub fn worked_scans()
    ensures { Scanned }
{}

/// Heads are refused or accepted as in the rows.
pub fn worked_heads()
    ensures { Judged }
{}

/// Answers are those of the rows.
pub fn worked_answers()
    ensures { Stated }
{}

/// Heads and sessions are as long as in the rows, and end so.
pub fn worked_endings()
    ensures { Ended }
{}

/// Files show what the rows say.
pub fn worked_previews()
    ensures { Previewed }
{}

/// The rows of a file are placed below one another as in these examples.
pub fn worked_places()
    ensures { PlacedRows }
{}
