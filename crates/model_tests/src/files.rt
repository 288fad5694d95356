//! Files whose answers are known from the rules of the format.

use atom_csv::{File, FileFault, Row, read_file};
use std::alloc::{AllocError, Global};
use std::test::Fail;

const FONDS: &str = "legacyId,parentId,identifier,title,levelOfDescription,publicationStatus\n\
    1,,HUL,Hull Dock Company,Fonds,Published\n\
    2,1,1,Minutes,Series,Published\n";

fn bad(row: u32, cause: u8) -> Option<FileFault> {
    Some(FileFault::Bad { row, cause })
}

fn fault(alloc: Global, bytes: &[u8]) -> Option<FileFault> {
    read_file(alloc, bytes).err()
}

/// The number of the element whose text stands at a place: the level has none.
fn element(place: usize) -> usize {
    if place < 3 {
        place.saturating_add(1)
    } else {
        place.saturating_add(2)
    }
}

fn show_row(line: &mut String, row: &Row) -> Result<(), AllocError> {
    let parent = row.parent.as_ref().map_or("-", |p| p.as_str());
    let status = if row.published { "published" } else { "draft" };
    let (number, legacy) = (row.row, row.legacy.as_str());
    let level = row.values.level.as_str();
    write!(line, "{number} {legacy} {parent} {status} [{level}]")?;
    for (i, text) in row.values.texts.iter().enumerate() {
        if let Some(text) = text {
            let (k, text) = (element(i), text.as_str());
            write!(line, " {k}={text}")?;
        }
    }
    for key in row.values.boxes.as_slice() {
        let (name, location, kind) = (key.name.as_str(), key.location.as_str(), key.kind.as_str());
        write!(line, " ({name}/{location}/{kind})")?;
    }
    line.push_str("\n")
}

/// A file as text: a line for each row, and the number of translations.
fn listing(alloc: Global, file: &File) -> Result<String, AllocError> {
    let mut text = String::new(alloc);
    for row in file.rows.as_slice() {
        show_row(&mut text, row)?;
    }
    let translations = file.translations;
    write!(text, "translations {translations}")?;
    Ok(text)
}

fn reading(alloc: Global, bytes: &[u8]) -> Result<String, AllocError> {
    match read_file(alloc, bytes) {
        Ok(file) => listing(alloc, &file),
        Err(FileFault::Memory) => Err(AllocError),
        Err(FileFault::Bad { row, cause }) => format!(in alloc; "row {row} cause {cause}"),
    }
}

#[test]
fn the_first_fault_is_told(rt: HostRuntime) -> Result<(), Fail> {
    let alloc = rt.alloc();
    let cases: [(&[u8], u32, u8); 29] = [
        (b"legacyId\n\xff\n", 0, 1),
        (b"title\n1,2\n\xff", 0, 1),
        (b"", 1, 2),
        (b"\r\n\n", 1, 2),
        (b"\xef\xbb\xbf", 1, 2),
        (b"\"\"\n", 1, 3),
        (b"title\n1\n", 1, 3),
        (b"LegacyId\n1\n", 1, 3),
        (b"title,title\n", 1, 3),
        (b"\xef\xbb\xbf\xef\xbb\xbflegacyId\n", 1, 3),
        (b"legacyId,title,title\n", 1, 4),
        (b"legacyId,script,\tscript \n", 1, 4),
        (b"legacyId,physicalObjectType,physicalObjectType\n", 1, 4),
        (b"legacyId,title\n1\n", 2, 5),
        (b"legacyId\n1,2\n", 2, 5),
        (b"legacyId,title\n\n\"\"\n1\n", 3, 5),
        (b"legacyId,title\n,Maps\n", 2, 6),
        (b"legacyId,other\n \t,x\n", 2, 6),
        (b"legacyId,culture\n1,en\n1,fr\n,\n,de\n", 5, 6),
        (b"legacyId,title\n1,a\n 1 ,b\n", 3, 7),
        (b"legacyId,culture\n1,en\n1,\n", 3, 7),
        (b"legacyId,culture\n1,\n1,en\n", 3, 7),
        (b"legacyId,culture\n1,en\n1, en\n", 3, 7),
        (b"legacyId,culture\n1,en\n1,fr\n1,en\n", 4, 7),
        (b"legacyId,parentId,qubitParentSlug\n1,,x\n", 2, 8),
        (b"legacyId,parentId,qubitParentSlug\n,,x\n", 2, 6),
        (b"legacyId,parentId,qubitParentSlug\n1,,x,\n", 2, 5),
        (b"legacyId,culture,title\n1,en,a\n1,fr\n", 3, 5),
        (b"legacyId,title\n1,a\r2,b\n2,c\n", 4, 7),
    ];
    for (bytes, row, cause) in cases {
        assert_eq!(rt; fault(alloc, bytes), bad(row, cause));
    }
    Ok(())
}

#[test]
fn files_are_told(rt: HostRuntime) -> Result<(), Fail> {
    let alloc = rt.alloc();
    let cases: [(&[u8], &str); 14] = [
        (
            b"legacyId,parentId,title,publicationStatus\n",
            "translations 0",
        ),
        (
            FONDS.as_bytes(),
            "2 1 - published [Fonds] 1=HUL 2=Hull Dock Company\n\
             3 2 1 published [Series] 1=1 2=Minutes\ntranslations 0",
        ),
        // The first row with a legacyId sets its language; the others are translations.
        (
            b"legacyId,culture,title\n1,en,Minutes\n1,fr,Registres\n1,fr,Actes\n2,,Maps\n",
            "2 1 - draft [] 2=Minutes\n5 2 - draft [] 2=Maps\ntranslations 2",
        ),
        // A translation may have only a slug.
        (
            b"legacyId,culture,parentId,qubitParentSlug\n1,en,,\n1,fr,,hull\n2,en,1,hull\n",
            "2 1 - draft []\n4 2 1 draft []\ntranslations 1",
        ),
        (
            b"legacyId,parentId,identifier,title,publicationStatus,eventActors\n\
              1,,HUL,Dock,published,Smith|NULL|Jones\n2,1,,Maps,Published,\n",
            "2 1 - published [] 1=HUL 2=Dock 6=Smith; Jones\n3 2 1 published [] 2=Maps\ntranslations 0",
        ),
        // Languages come before scripts, wherever their columns are.
        (
            b"script,legacyId,language,title\nLatin| NULL |Greek,1,en|| fr ,NULL|a\n",
            "2 1 - draft [] 2=NULL|a 16=en; fr; Latin; Greek\ntranslations 0",
        ),
        (
            b"script,legacyId\nLatin,1\n",
            "2 1 - draft [] 16=Latin\ntranslations 0",
        ),
        // A byte order mark, CRLF, and a quoted field over two lines.
        (
            b"\xef\xbb\xbflegacyId,parentId,qubitParentSlug,accessionNumber,identifier,title,\
              levelOfDescription,scopeAndContent,publicationStatus,culture\r\n\
              7,,,,MB,Mill Board,Fonds,\"Line one\r\nline \"\"two\"\"\",Published,en\r\n",
            "2 7 - published [Fonds] 1=MB 2=Mill Board 10=Line one\r\nline \"two\"\ntranslations 0",
        ),
        // The byte order mark is skipped before quotes are read.
        (b"\xef\xbb\xbf\"legacyId\",,\n", "translations 0"),
        // Containers are matched by position: a blank name makes no container and shifts none.
        (
            b"legacyId,physicalObjectName,physicalObjectLocation,physicalObjectType\n\
              1,Box 1||Box 3|Box 1,X|Y|Z|X,Box|NULL\n2,Box 1|Box 1|Box 1,X|Y|X,NULL|NULL\n3,NULL, |A,B\n",
            "2 1 - draft [] (Box 1/X/Box) (Box 3/Z/) (Box 1/X/)\n\
             3 2 - draft [] (Box 1/X/) (Box 1/Y/)\n4 3 - draft []\ntranslations 0",
        ),
        // Blank rows are skipped, but counted; an empty line is not a row.
        (
            b"\n legacyId\t,title\n\n , \n\r\n1,a\n\"\"\n\" 2 \",\"b\"c\n",
            "3 1 - draft [] 2=a\n5 2 - draft [] 2=bc\ntranslations 0",
        ),
        (
            b"legacyId,title\n1,\"open\n2,b\n",
            "2 1 - draft [] 2=open\n2,b\ntranslations 0",
        ),
        // Only spaces, tabs, CR and LF are white space: a no-break space is a text.
        (
            b"legacyId,other,other\n\xc2\xa0,x,y\n",
            "2 \u{a0} - draft []\ntranslations 0",
        ),
        (
            b"legacyId,publicationStatus\n1,PUBLISHED\n2,Publ\n3,\n",
            "2 1 - published []\n3 2 - draft []\n4 3 - draft []\ntranslations 0",
        ),
    ];
    for (bytes, expected) in cases {
        assert_eq!(rt; reading(alloc, bytes)?.as_str(), expected);
    }
    Ok(())
}

/// The result of reading the first n bytes of the file of a fonds and a series.
fn prefix_says(n: usize) -> &'static str {
    match n {
        0 => "row 1 cause 2",
        1..=7 => "row 1 cause 3",
        8..=72 => "translations 0",
        73..=102 => "row 2 cause 5",
        103..=111 => "2 1 - draft [Fonds] 1=HUL 2=Hull Dock Company\ntranslations 0",
        112 | 113 => "2 1 - published [Fonds] 1=HUL 2=Hull Dock Company\ntranslations 0",
        114..=133 => "row 3 cause 5",
        134..=142 => {
            "2 1 - published [Fonds] 1=HUL 2=Hull Dock Company\n\
             3 2 1 draft [Series] 1=1 2=Minutes\ntranslations 0"
        }
        _ => {
            "2 1 - published [Fonds] 1=HUL 2=Hull Dock Company\n\
             3 2 1 published [Series] 1=1 2=Minutes\ntranslations 0"
        }
    }
}

#[test]
fn every_prefix_is_told(rt: HostRuntime) -> Result<(), Fail> {
    let alloc = rt.alloc();
    let bytes = FONDS.as_bytes();
    assert_eq!(rt; bytes.len(), 144);
    for n in 0..=144usize {
        let text = reading(alloc, bytes.get(..n).ok_or("too short")?)?;
        assert_eq!(rt; text.as_str(), prefix_says(n));
    }
    Ok(())
}

/// Rows whose last field is a text of `length` bytes between spaces.
fn with_last(alloc: Global, rows: &str, length: usize) -> Result<String, AllocError> {
    let mut text = String::from_str(alloc, rows)?;
    text.push(' ')?;
    for _ in 0..length {
        text.push('a')?;
    }
    text.push_str(" \n")?;
    Ok(text)
}

fn with_rows(alloc: Global, rows: u32) -> Result<String, AllocError> {
    let mut text = String::from_str(alloc, "legacyId,title\n")?;
    for i in 0..rows {
        write!(text, "{i},Title\n")?;
    }
    Ok(text)
}

/// The title may have 65,535 bytes. Neither a column that is not read nor a translation can be too long.
#[test]
fn texts_have_a_limit(rt: HostRuntime) -> Result<(), Fail> {
    let alloc = rt.alloc();
    let cases = [
        ("legacyId,title\n1,", 65_535, None),
        ("legacyId,title\n1,", 65_536, bad(2, 10)),
        ("legacyId,other\n1,", 65_536, None),
        ("legacyId,culture,title\n1,en,a\n1,fr,", 65_536, None),
    ];
    for (rows, length, wanted) in cases {
        let text = with_last(alloc, rows, length)?;
        assert_eq!(rt; fault(alloc, text.as_bytes()), wanted);
    }
    Ok(())
}

#[test]
fn rows_have_a_limit(rt: HostRuntime) -> Result<(), Fail> {
    let alloc = rt.alloc();
    for (rows, wanted) in [(20_000, Ok(20_000)), (20_001, Err(bad(20_002, 9)))] {
        let text = with_rows(alloc, rows)?;
        let told = read_file(alloc, text.as_bytes());
        assert_eq!(rt; told.map(|file| file.rows.len()).map_err(Some), wanted);
    }
    Ok(())
}
