//! Laws about a file's rows that are entered one by one. Each function does nothing: its contract is the law.

ghost use Rattle.std.specs.Prelude.{◌≡◌, List, Ok};
ghost use Rattle.std.specs.Str.{bytes_eq};
ghost use Rattle.isad_core.specs.Boxes.{distinct};
ghost use Rattle.isad_core.specs.Texts.{Bytes};
ghost use Rattle.atom_csv.specs.FileContents.{file_of};
ghost use Rattle.atom_csv.specs.FileProperties.{AllDiffer};
ghost use Rattle.atom_csv.specs.declared.file.File.{File};
ghost use Rattle.atom_csv.specs.declared.file.Row.{Row};
ghost use Rattle.catalogue_core.specs.GoodCatalogues.{AreGoodUnits};
ghost use Rattle.catalogue_core.specs.Intake.{is_changed, is_new, is_same, take, with_file};
ghost use Rattle.catalogue_core.specs.CatalogueMerge.{Catalogue, merge};
ghost use Rattle.catalogue_core.specs.EntryByRow.{CountsAlike, with_rows};

/// Entering the rows one by one, each into the catalogue that the rows before it made, has the same result as merging
/// all rows at once: the same catalogue, or the same first fault. The catalogue's units must be good, no container may
/// occur twice in it, and no two rows may have the same legacyId.
pub fn rows_one_by_one()
    ensures { (c : Catalogue) (source : Bytes) (rows : List Row) → AreGoodUnits c →
        distinct c.containers ≡ c.containers → AllDiffer (λ (a b : Row). bytes_eq a.legacy b.legacy) rows →
        with_rows source rows c ≡ merge c source rows }
{}

/// The same holds for every file that can be read, with the rows that it has, whose legacyIds always differ.
pub fn files_row_by_row()
    ensures { (c : Catalogue) (source file : Bytes) (read : File) → file_of file ≡ Ok read → AreGoodUnits c →
        distinct c.containers ≡ c.containers → take c source file ≡ with_file read (with_rows source read.rows c) }
{}

/// If all rows can be placed, the counts of rows that change a unit, make one, or leave one as it was are the same,
/// whether each row is judged when its turn comes or all rows are judged on the catalogue before them. The premises are
/// those of `rows_one_by_one`.
pub fn rows_count_alike()
    ensures changed { (c : Catalogue) (source : Bytes) (rows : List Row) → AreGoodUnits c →
        distinct c.containers ≡ c.containers → AllDiffer (λ (a b : Row). bytes_eq a.legacy b.legacy) rows →
        CountsAlike c source rows is_changed }
    ensures new { (c : Catalogue) (source : Bytes) (rows : List Row) → AreGoodUnits c →
        distinct c.containers ≡ c.containers → AllDiffer (λ (a b : Row). bytes_eq a.legacy b.legacy) rows →
        CountsAlike c source rows is_new }
    ensures same { (c : Catalogue) (source : Bytes) (rows : List Row) → AreGoodUnits c →
        distinct c.containers ≡ c.containers → AllDiffer (λ (a b : Row). bytes_eq a.legacy b.legacy) rows →
        CountsAlike c source rows is_same }
{}
