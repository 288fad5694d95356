//! What a file would show if it were published.
ghost use Rattle.std.specs.Prelude.{◌≡◌, [], IfErr, IfOk, Ok, Err};
ghost use Rattle.atom_csv.specs.ReadProgress.{IfBad};
ghost use Rattle.catalogue_core.specs.CatalogueMerge.{empty_catalogue, merge};
ghost use Rattle.finding_aids.specs.Preview.{after_merging, preview_of};

mod aid_printer;
mod numbers;
mod places;
mod trees;

use crate::previews::aid_printer::Printer;
use crate::previews::numbers::number_boxes;
use crate::previews::places::place_rows;
use crate::previews::trees::plant;
use atom_csv::{FileFault, Row, read_file};
use std::alloc::Global;

/// The finding aids that a file would give in an office that has nothing yet: those of all its published top units in
/// file order, in one text. Beyond the limits of a file, only the limit on depth is checked. The form of the two codes
/// is not checked. If the file is refused, the error has the first row with a cause and its lowest cause or, if there
/// is none, the first row that cannot be placed.
pub fn preview(alloc: Global, file: &[u8], country: &str, repo: &str) -> Result<Vec<u8>, FileFault>
    ensures text { IfOk result (λ text.
        preview_of (record { country = country.now; repo = repo.now }) file.now ≡ Ok text.items) }

    // The first row with a cause, and its lowest cause: of the file or, if it has none, of its merge.
    ensures bad { IfErr result (λ e. IfBad e (λ row cause.
        preview_of (record { country = country.now; repo = repo.now }) file.now ≡ Err (row, cause))) }
{
    let file = read_file(alloc, file)?;
    preview_rows(alloc, file.rows.as_slice(), country, repo)
}

/// The finding aids of a file's rows.
fn preview_rows(
    alloc: Global,
    rows: &[Row],
    country: &str,
    repo: &str,
) -> Result<Vec<u8>, FileFault>
    ensures text { IfOk result (λ text.
        after_merging (record { country = country.now; repo = repo.now }) (merge empty_catalogue [] rows.now)
        ≡ Ok text.items) }
    ensures bad { IfErr result (λ e. IfBad e (λ row cause.
        after_merging (record { country = country.now; repo = repo.now }) (merge empty_catalogue [] rows.now)
        ≡ Err (row, cause))) }
{
    let places = place_rows(alloc, rows)?;
    let trees = plant(alloc, rows, places.as_slice())?;
    let printer = Printer {
        alloc,
        country,
        repo,
        numbers: number_boxes(alloc, rows)?,
    };
    let mut out = Vec::new(alloc);
    let mut ids = Vec::new(alloc);
    printer.print_trees(&mut out, &mut ids, 0, trees.as_slice())?;
    Ok(out)
}
