//! The definitions applied to days, codes, aids and elements worked by hand, each in the contract of a function that
//! does nothing.
ghost use Rattle.std.specs.Prelude.{◌≡◌, ◌∷◌, [], None, Some, codes, drop, false, filter_map, pos};
ghost use Rattle.std.specs.List.{list_any, range_with_len};
ghost use Rattle.isad_core.specs.Codes.{code_of};
ghost use Rattle.isad_core.specs.Days.{day_of, day_text};
ghost use Rattle.isad_core.specs.Elements.{elements};
ghost use Rattle.isad_core.specs.Levels.{rank_of};
ghost use Rattle.isad_core.specs.PrintedDescriptions.{aid};
ghost use Rattle.isad_core.specs.Texts.{Bytes, is_line_break, one_line};
ghost use Rattle.isad_core.specs.Values.{line_elements, text_place};
ghost use Rattle.isad_core.specs.WorkedExamples.{closed_series, fonds, series};
ghost use Rattle.isad_core.specs.declared.element.Element.TheVariants.{Dates, Level, ReferenceCode, Title};

/// For instance, the leap day 2024-02-29 has the number 19782, the day 2023-02-29 has none, and a date of nine bytes
/// has none.
pub fn worked_days()
    ensures leap_day { day_of (codes "2024-02-29") ≡ Some (pos 19782) }
    ensures written { day_text (pos 19782) ≡ codes "2024-02-29" }
    ensures common_year { day_of (codes "2023-02-29") ≡ None }
    ensures ten_bytes { day_of (codes "2024-2-29") ≡ None }
{}

/// For instance, hyphens and case do not matter in these levels, but a space does.
pub fn worked_ranks()
    ensures hyphen { rank_of (codes "Sub-series") ≡ Some 4 }
    ensures hyphens { rank_of (codes "-F-ile") ≡ Some 5 }
    ensures space { rank_of (codes "Sub series") ≡ None }
{}

/// For instance, these codes contain the identifiers that are not blank.
pub fn worked_codes()
    ensures two { code_of (codes "GB") (codes "0999") (codes "HUL" ∷ codes "1" ∷ []) ≡ codes "GB 0999 HUL/1" }
    ensures none { code_of (codes "GB") (codes "0999") (codes " " ∷ []) ≡ codes "GB 0999" }
{}

/// The aid of a fonds with its series, and that of the series alone while it is closed.
pub fn worked_aids()
    ensures open { aid (fonds ∷ series ∷ [])
        ≡ codes "GB 0999 HUL [Fonds] Hull Dock Company\n  GB 0999 HUL/1 [Series] Minutes\n" }
    ensures closed { aid (closed_series ∷ []) ≡ codes "  GB 0999 HUL/1 [Series] closed until 2024-03-02\n" }
{}

/// Each element other than the level has its own place among the texts, in the standard's order. Each element outside
/// the head line has a line.
pub fn all_elements()
    ensures places { filter_map text_place elements ≡ range_with_len 0 25 }
    ensures lines { elements ≡ ReferenceCode ∷ Title ∷ Dates ∷ Level ∷ drop 1 line_elements }
    ensures dates { line_elements ≡ Dates ∷ drop 4 elements }
{}

/// A text that is printed on one line contains no line break.
pub fn a_printed_text_is_one_line()
    ensures { (text : Bytes) → list_any is_line_break (one_line text) ≡ false }
{}
