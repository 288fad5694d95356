//! The rules, computed for small files, and what follows from them for all files.
ghost use Rattle.std.specs.Prelude.{◌≡◌, ◌∷◌, ◌++◌, [], codes, replicate, true};
ghost use Rattle.std.specs.Prelude.{Err, Ok, None, Some};
ghost use Rattle.isad_core.specs.Texts.{Bytes};
ghost use Rattle.atom_csv.specs.Entries.{entries, nonblank_entries, entries_joined};
ghost use Rattle.atom_csv.specs.FileContents.{file_of};
ghost use Rattle.atom_csv.specs.KnownContainers.{box_with};
ghost use Rattle.atom_csv.specs.FileProperties.{HasProperRows, HasLegibleRows};
ghost use Rattle.atom_csv.specs.Values.{boxes_of};
ghost use Rattle.atom_csv.specs.declared.file.File.{File};

/// A file that is one line feed has no header: it is refused at row 1 with cause 2.
pub fn an_empty_file_has_no_header()
    ensures { file_of (codes "\n") ≡ Err (1, 2) }
{}

/// For instance, this file with only a header has no rows and no translations.
pub fn a_header_alone_tells_nothing()
    ensures { file_of (codes "legacyId,title\n") ≡ Ok (record { rows = []; translations = 0 }) }
{}

/// One byte order mark is skipped. A second one belongs to the first name, so that this file has no column `legacyId`:
/// it is refused at row 1 with cause 3.
pub fn one_mark_is_skipped()
    ensures one { file_of (0xEF ∷ 0xBB ∷ 0xBF ∷ codes "legacyId")
        ≡ Ok (record { rows = []; translations = 0 }) }
    ensures two { file_of (0xEF ∷ 0xBB ∷ 0xBF ∷ 0xEF ∷ 0xBB ∷ 0xBF ∷ codes "legacyId") ≡ Err (1, 3) }
{}

/// For instance, a file with a byte that is not UTF-8 after a header without `legacyId` is refused as a whole, at row 0
/// with cause 1, and not for its header.
pub fn no_text_is_no_file()
    ensures { file_of (codes "title\n" ++ 0xFF ∷ []) ≡ Err (0, 1) }
{}

/// In these three files a legacyId occurs again, and that row is refused with cause 7: there is no culture, the row's
/// culture is blank, or it is the same as that of the first row with this legacyId.
pub fn a_legacy_id_stands_once()
    ensures without { file_of (codes "legacyId\n1\n1\n") ≡ Err (3, 7) }
    ensures blank { file_of (codes "legacyId,culture\n1,en\n1,\n") ≡ Err (3, 7) }
    ensures first { file_of (codes "legacyId,culture\n1,en\n1,fr\n1,en\n") ≡ Err (4, 7) }
{}

/// For instance, a row that names its parent only by a slug is refused with cause 8.
pub fn a_slug_alone_names_no_parent()
    ensures { file_of (codes "legacyId,parentId,qubitParentSlug\n1,,x\n") ≡ Err (2, 8) }
{}

/// For instance, a row of blank fields is skipped, but has the row number 2, and an empty line has no number: the fault
/// after both is in row 3.
pub fn a_blank_row_counts()
    ensures { file_of (codes "legacyId,title\n,\n\n,x\n") ≡ Err (3, 6) }
{}

/// For instance, `NULL` and a blank entry are left out when these entries are joined.
pub fn entries_are_joined()
    ensures { entries_joined (nonblank_entries (entries (codes "Smith|NULL| |Jones"))) ≡ codes "Smith; Jones" }
{}

/// For instance, these names, locations and kinds are matched by their places. A blank name makes no container and does
/// not shift the others, and a location or kind that is missing is empty.
pub fn containers_go_by_their_places()
    ensures { boxes_of (codes "Box 1||Box 3|Box 1") (codes "X|Y|Z|X") (codes "Box|NULL")
        ≡ box_with (codes "Box 1") (codes "X") (codes "Box") ∷ box_with (codes "Box 3") (codes "Z") []
        ∷ box_with (codes "Box 1") (codes "X") [] ∷ [] }
{}

/// The rows of a fonds and its series.
pub fn a_fonds_and_a_series()
    ensures { file_of (codes "legacyId,parentId,identifier,title,levelOfDescription,publicationStatus\n"
        ++ codes "1,,HUL,Hull Dock Company,Fonds,Published\n2,1,1,Minutes,Series,Published\n")
        ≡ Ok (record {
          rows = record {
            row = 2;
            legacy = codes "1";
            parent = None;
            published = true;
            values = record {
              level = codes "Fonds";
              boxes = [];
              texts = Some (codes "HUL") ∷ Some (codes "Hull Dock Company") ∷ replicate 23 None;
            };
          } ∷ record {
            row = 3;
            legacy = codes "2";
            parent = Some (codes "1");
            published = true;
            values = record {
              level = codes "Series";
              boxes = [];
              texts = Some (codes "1") ∷ Some (codes "Minutes") ∷ replicate 23 None;
            };
          } ∷ [];
          translations = 0;
        }) }
{}

/// In a file that is read, no legacyId is blank or occurs twice, no text and no name of a container is blank, and no
/// container occurs twice in a row.
pub fn a_file_is_sound()
    ensures { (bytes : Bytes) (file : File) → file_of bytes ≡ Ok file → HasProperRows file }
{}

/// Every text of a file's rows is UTF-8: no field is cut inside a character.
pub fn a_file_is_legible()
    ensures { (bytes : Bytes) (file : File) → file_of bytes ≡ Ok file → HasLegibleRows file }
{}
