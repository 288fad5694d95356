//! Values that are known from the standard and the calendar.

use isad_core::{BoxKey, Day, Element, List, Text, Values, is_blank, join_code, one_line, rank};
use std::alloc::{AllocError, Global};
use std::array;
use std::test::Fail;

#[test]
fn days_are_read_and_written(rt: HostRuntime) {
    let cases: [(&str, Option<i32>); 13] = [
        ("2024-02-29", Some(19_782)),
        ("1970-01-01", Some(0)),
        ("2000-02-29", Some(11_016)),
        ("1900-01-01", Some(-25_567)),
        ("9999-12-31", Some(2_932_896)),
        ("2023-02-29", None),
        ("1900-02-29", None),
        ("2024-2-29", None),
        ("1899-12-31", None),
        ("2024-13-01", None),
        ("2024/02/29", None),
        ("2024-02-29 ", None),
        ("", None),
    ];
    for (text, number) in cases {
        assert_eq!(rt; Day::parse(text).map(Day::number), number);
        if let Some(day) = Day::parse(text) {
            assert_eq!(rt; day.text().as_slice(), text.as_bytes());
            assert!(rt; Day::from_number(day.number()) == Some(day));
        }
    }
    for number in [-25_568, 2_932_897] {
        assert!(rt; Day::from_number(number).is_none());
    }
}

#[test]
fn levels_have_ranks(rt: HostRuntime) {
    let cases: [(&str, Option<u8>); 14] = [
        ("Fonds", Some(1)),
        ("Collection", Some(1)),
        ("Subfonds", Some(2)),
        ("Sub-fonds", Some(2)),
        ("SERIES", Some(3)),
        ("Subseries", Some(4)),
        ("Sub-series", Some(4)),
        ("File", Some(5)),
        ("-F-ile", Some(5)),
        ("item-", Some(6)),
        ("Sub series", None),
        (" Series", None),
        ("Part", None),
        ("-", None),
    ];
    for (level, wanted) in cases {
        assert_eq!(rt; rank(level), wanted);
    }
}

/// The elements with their numbers and names, and whether a unit without one takes it from above.
const ELEMENTS: [(Element, &str, &str, bool); 26] = [
    (Element::ReferenceCode, "3.1.1", "Reference code(s)", false),
    (Element::Title, "3.1.2", "Title", false),
    (Element::Dates, "3.1.3", "Date(s)", false),
    (Element::Level, "3.1.4", "Level of description", false),
    (
        Element::Extent,
        "3.1.5",
        "Extent and medium of the unit of description",
        false,
    ),
    (Element::Creator, "3.2.1", "Name of creator(s)", true),
    (
        Element::CreatorHistory,
        "3.2.2",
        "Administrative / Biographical history",
        true,
    ),
    (Element::ArchivalHistory, "3.2.3", "Archival history", true),
    (
        Element::Acquisition,
        "3.2.4",
        "Immediate source of acquisition or transfer",
        true,
    ),
    (Element::Scope, "3.3.1", "Scope and content", false),
    (
        Element::Appraisal,
        "3.3.2",
        "Appraisal, destruction and scheduling information",
        false,
    ),
    (Element::Accruals, "3.3.3", "Accruals", false),
    (
        Element::Arrangement,
        "3.3.4",
        "System of arrangement",
        false,
    ),
    (
        Element::Access,
        "3.4.1",
        "Conditions governing access",
        true,
    ),
    (
        Element::Reproduction,
        "3.4.2",
        "Conditions governing reproduction",
        true,
    ),
    (
        Element::Language,
        "3.4.3",
        "Language/scripts of material",
        true,
    ),
    (
        Element::Physical,
        "3.4.4",
        "Physical characteristics and technical requirements",
        false,
    ),
    (Element::FindingAids, "3.4.5", "Finding aids", false),
    (
        Element::Originals,
        "3.5.1",
        "Existence and location of originals",
        false,
    ),
    (
        Element::Copies,
        "3.5.2",
        "Existence and location of copies",
        false,
    ),
    (
        Element::RelatedUnits,
        "3.5.3",
        "Related units of description",
        false,
    ),
    (Element::PublicationNote, "3.5.4", "Publication note", false),
    (Element::Note, "3.6.1", "Note", false),
    (Element::ArchivistsNote, "3.7.1", "Archivist's Note", false),
    (Element::Rules, "3.7.2", "Rules or Conventions", true),
    (
        Element::DescriptionDates,
        "3.7.3",
        "Date(s) of descriptions",
        false,
    ),
];

#[test]
fn elements_are_the_standards(rt: HostRuntime) {
    for (element, number, name, above) in ELEMENTS {
        assert_eq!(rt; element.number(), number);
        assert_eq!(rt; element.name(), name);
        assert_eq!(rt; element.found_above(), above);
    }
}

/// The code of the units that have these identifiers, from the top down.
fn code(alloc: Global, ids: &[&str]) -> Result<Text, AllocError> {
    let mut path = Vec::new(alloc);
    for id in ids {
        path.push(Text::new(alloc, id)?)?;
    }
    join_code(alloc, "GB", "0999", path.as_slice())
}

#[test]
fn codes_are_joined(rt: HostRuntime) -> Result<(), Fail> {
    let cases: [(&[&str], &str); 5] = [
        (&["HUL", "1"], "GB 0999 HUL/1"),
        (&["HUL"], "GB 0999 HUL"),
        (&[], "GB 0999"),
        (&["", " \t"], "GB 0999"),
        (&["", "HUL", "\r\n", "A/7"], "GB 0999 HUL/A/7"),
    ];
    for (ids, wanted) in cases {
        assert_eq!(rt; code(rt.alloc(), ids)?.as_str(), wanted);
    }
    Ok(())
}

#[test]
fn line_breaks_print_as_spaces(rt: HostRuntime) -> Result<(), Fail> {
    let cases: [(&str, &str); 7] = [
        ("Line one\r\nline \"two\"", "Line one line \"two\""),
        ("a\rb\nc", "a b c"),
        ("a\n\rb", "a  b"),
        ("a\r\r\nb\r\n\n", "a  b  "),
        ("\r", " "),
        ("a\tb\u{c}", "a\tb\u{c}"),
        ("", ""),
    ];
    for (text, wanted) in cases {
        assert_eq!(rt; one_line(rt.alloc(), text)?.as_slice(), wanted.as_bytes());
    }
    Ok(())
}

#[test]
fn white_space_is_blank(rt: HostRuntime) {
    let cases = [
        (" \t\r\n", true),
        ("", true),
        ("\u{c}", false),
        ("\u{a0}", false),
    ];
    for (text, blank) in cases {
        assert_eq!(rt; is_blank(text), blank);
    }
}

/// The texts of a fonds by their places: a title, dates, an extent, and when it was described.
fn texts(alloc: Global) -> Result<[Option<Text>; 25], AllocError> {
    let mut texts = array::from_fn(|_| None);
    for (place, text) in [(1, "Docks"), (2, "1901"), (3, "2 m"), (24, "2024")] {
        texts[place] = Some(Text::new(alloc, text)?);
    }
    Ok(texts)
}

/// The values of that fonds.
fn fonds(alloc: Global) -> Result<Values, AllocError> {
    Ok(Values {
        level: Text::new(alloc, "Fonds")?,
        texts: texts(alloc)?,
        boxes: List::new(alloc),
    })
}

#[test]
fn elements_have_texts(rt: HostRuntime) -> Result<(), Fail> {
    let values = fonds(rt.alloc())?;
    let cases = [
        (Element::Title, Some("Docks")),
        (Element::Extent, Some("2 m")),
        (Element::ReferenceCode, None),
        (Element::Level, None),
    ];
    for (element, wanted) in cases {
        assert_eq!(rt; values.text(element).map(Text::as_str), wanted);
    }
    Ok(())
}

/// Title and level have no line of their own.
#[test]
fn values_have_lines(rt: HostRuntime) -> Result<(), Fail> {
    let wanted = [
        (Element::Dates, "1901"),
        (Element::Extent, "2 m"),
        (Element::DescriptionDates, "2024"),
    ];
    let lines = lines_of(rt.alloc())?;
    assert_eq!(rt; lines.len(), wanted.len());
    for ((element, text), line) in lines.as_slice().iter().zip(wanted) {
        assert_eq!(rt; (*element, text.as_str()), line);
    }
    Ok(())
}

fn lines_of(alloc: Global) -> Result<List<(Element, Text)>, AllocError> {
    let values = fonds(alloc)?;
    values.lines(alloc)
}

fn names(alloc: Global, texts: &[&str]) -> Result<List<Text>, AllocError> {
    let mut names = List::new(alloc);
    for text in texts {
        names.push(Text::new(alloc, text)?)?;
    }
    Ok(names)
}

#[test]
fn lists_compare_by_content(rt: HostRuntime) -> Result<(), Fail> {
    let alloc = rt.alloc();
    let two = names(alloc, &["Box 10", "Box 2"])?;
    assert_eq!(rt; two.len(), 2);
    let mut copy = two.clone()?;
    assert!(rt; copy == two);
    copy.push(Text::new(alloc, "box 2")?)?;
    assert!(rt; copy != two);
    assert_eq!(rt; copy.len(), 3);
    Ok(())
}

#[test]
fn a_new_list_is_empty(rt: HostRuntime) -> Result<(), Fail> {
    assert_eq!(rt; names(rt.alloc(), &[])?.len(), 0);
    Ok(())
}

#[test]
fn texts_compare_by_bytes(rt: HostRuntime) -> Result<(), Fail> {
    for (lesser, greater) in [("Box 10", "Box 2"), ("Box 2", "box 2")] {
        let lesser = Text::new(rt.alloc(), lesser)?;
        let greater = Text::new(rt.alloc(), greater)?;
        assert!(rt; lesser < greater);
        assert!(rt; lesser != greater);
        assert!(rt; lesser == lesser.clone()?);
    }
    Ok(())
}

/// A container of the first strongroom.
fn container(alloc: Global, name: &str) -> Result<BoxKey, AllocError> {
    Ok(BoxKey {
        name: Text::new(alloc, name)?,
        location: Text::new(alloc, "Strongroom 1")?,
        kind: Text::new(alloc, "")?,
    })
}

#[test]
fn containers_compare_by_content(rt: HostRuntime) -> Result<(), Fail> {
    let alloc = rt.alloc();
    let two = container(alloc, "Box 2")?;
    assert!(rt; container(alloc, "Box 10")? < two);
    assert!(rt; container(alloc, "Box 2")? == two);
    Ok(())
}
