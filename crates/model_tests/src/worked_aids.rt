//! Finding aids and pages that were worked out by hand.

use isad_core::{Body, Day, Element, List, Page, Shown, Text, aid_text, page_text};
use std::alloc::{AllocError, Global};
use std::test::Fail;

/// What is below a head line.
#[derive(Clone, Copy)]
enum Below {
    Open(&'static [(Element, &'static str)], &'static [(u64, &'static str)]),
    Closed(&'static str),
}

/// A unit by its depth, its code, level and title, and what is below.
type Unit = (u32, [&'static str; 3], Below);

const EMPTY: Below = Below::Open(&[], &[]);

fn lines(alloc: Global, rows: &[(Element, &str)]) -> Result<List<(Element, Text)>, AllocError> {
    let mut lines = List::new(alloc);
    for &(element, text) in rows {
        lines.push((element, Text::new(alloc, text)?))?;
    }
    Ok(lines)
}

fn boxes(alloc: Global, rows: &[(u64, &str)]) -> Result<List<(u64, Text)>, AllocError> {
    let mut boxes = List::new(alloc);
    for &(number, name) in rows {
        boxes.push((number, Text::new(alloc, name)?))?;
    }
    Ok(boxes)
}

fn body(alloc: Global, below: Below) -> Result<Body, Fail> {
    match below {
        Below::Open(texts, containers) => Ok(Body::Full {
            lines: lines(alloc, texts)?,
            boxes: boxes(alloc, containers)?,
        }),
        Below::Closed(date) => Ok(Body::Closed(Day::parse(date).ok_or("no day")?)),
    }
}

fn show(alloc: Global, unit: Unit) -> Result<Shown, Fail> {
    let (depth, [code, level, title], below) = unit;
    Ok(Shown {
        depth,
        code: Text::new(alloc, code)?,
        level: Text::new(alloc, level)?,
        title: Text::new(alloc, title)?,
        body: body(alloc, below)?,
    })
}

/// The finding aid of these units.
fn aid_of(alloc: Global, units: &[Unit]) -> Result<Vec<u8>, Fail> {
    let mut all = Vec::new(alloc);
    for unit in units {
        all.push(show(alloc, *unit)?)?;
    }
    Ok(aid_text(alloc, &all)?)
}

#[test]
fn aids_are_printed(rt: HostRuntime) -> Result<(), Fail> {
    let cases: [(&[Unit], &str); 3] = [
        (&[], ""),
        (
            &[
                (0, ["GB 0999 HUL", "Fonds", "Hull Dock Company"], EMPTY),
                (1, ["GB 0999 HUL/1", "Series", "Minutes"], EMPTY),
            ],
            "GB 0999 HUL [Fonds] Hull Dock Company\n  GB 0999 HUL/1 [Series] Minutes\n",
        ),
        (
            &[
                (
                    1,
                    ["GB 0999 HUL/1", "Series", "Minutes"],
                    Below::Closed("2024-03-02"),
                ),
                (
                    2,
                    ["GB 0999\rHUL/2", " ", "\n"],
                    Below::Open(
                        &[
                            (Element::Creator, "Smith; Jones"),
                            (Element::Scope, "Line one\r\nline two"),
                        ],
                        &[(18_446_744_073_709_551_615, "Box\n1")],
                    ),
                ),
            ],
            "  GB 0999 HUL/1 [Series] closed until 2024-03-02\n    \
             GB 0999 HUL/2 [-] -\n      \
             3.2.1 Name of creator(s): Smith; Jones\n      \
             3.3.1 Scope and content: Line one line two\n      \
             Container 18446744073709551615: Box 1\n",
        ),
    ];
    for (units, wanted) in cases {
        let aid = aid_of(rt.alloc(), units)?;
        assert_eq!(rt; aid.as_slice(), wanted.as_bytes());
    }
    Ok(())
}

/// The code of the unit above that has a value, if the unit itself has none.
fn code_above(alloc: Global, above: bool) -> Result<Option<Text>, AllocError> {
    if above {
        Ok(Some(Text::new(alloc, "GB 0999 HUL")?))
    } else {
        Ok(None)
    }
}

/// Elements of a page, and whether each was found above.
fn add_lines(
    page: &mut Page,
    alloc: Global,
    rows: &[(Element, &str, bool)],
) -> Result<(), AllocError> {
    for &(element, text, above) in rows {
        let text = Text::new(alloc, text)?;
        page.lines.push((element, text, code_above(alloc, above)?))?;
    }
    Ok(())
}

/// Containers of a page, and whether each was found above.
fn add_boxes(page: &mut Page, alloc: Global, rows: &[(u64, &str, bool)]) -> Result<(), AllocError> {
    for &(number, name, above) in rows {
        let name = Text::new(alloc, name)?;
        page.boxes.push((number, name, code_above(alloc, above)?))?;
    }
    Ok(())
}

/// The page of a series with a file below it.
fn series(alloc: Global) -> Result<Page, Fail> {
    let mut below = List::new(alloc);
    below.push((4, show(alloc, FILE)?))?;
    Ok(Page {
        head: show(alloc, SERIES)?,
        lines: List::new(alloc),
        boxes: List::new(alloc),
        below,
    })
}

const FILE: Unit = (0, ["GB 0999 HUL/1/A/7", "File", "1901"], EMPTY);

const SERIES: Unit = (0, ["GB 0999 HUL/1/A", "Sub-series", "Board"], EMPTY);

/// The text of that page with these elements and containers.
fn page_of(
    alloc: Global,
    texts: &[(Element, &str, bool)],
    containers: &[(u64, &str, bool)],
) -> Result<Vec<u8>, Fail> {
    let mut page = series(alloc)?;
    add_lines(&mut page, alloc, texts)?;
    add_boxes(&mut page, alloc, containers)?;
    Ok(page_text(alloc, &page)?)
}

#[test]
fn pages_are_printed(rt: HostRuntime) -> Result<(), Fail> {
    let creator = (Element::Creator, "Smith", true);
    let cases = [
        (
            &[creator][..],
            &[][..],
            "GB 0999 HUL/1/A [Sub-series] Board\n  \
             3.2.1 Name of creator(s): Smith (from GB 0999 HUL)\n  \
             Unit 4: GB 0999 HUL/1/A/7 [File] 1901\n",
        ),
        (
            &[creator, (Element::Extent, "2 m", false)][..],
            &[(1, "Box 1", true), (2, "Box 2", false)][..],
            "GB 0999 HUL/1/A [Sub-series] Board\n  \
             3.2.1 Name of creator(s): Smith (from GB 0999 HUL)\n  \
             3.1.5 Extent and medium of the unit of description: 2 m\n  \
             Container 1: Box 1 (from GB 0999 HUL)\n  \
             Container 2: Box 2\n  \
             Unit 4: GB 0999 HUL/1/A/7 [File] 1901\n",
        ),
    ];
    for (texts, containers, wanted) in cases {
        let page = page_of(rt.alloc(), texts, containers)?;
        assert_eq!(rt; page.as_slice(), wanted.as_bytes());
    }
    Ok(())
}
