//! Files whose finding aids are known from the rules.

use atom_csv::FileFault;
use finding_aids::preview;
use std::alloc::{AllocError, Global};
use std::test::Fail;

/// The finding aids of a file in the record office 0999 of GB, or its fault.
fn preview_text(alloc: Global, file: &[u8]) -> Result<Vec<u8>, AllocError> {
    match preview(alloc, file, "GB", "0999") {
        Ok(text) => Ok(text),
        Err(FileFault::Memory) => Err(AllocError),
        Err(FileFault::Bad { row, cause }) => {
            let text = format!(in alloc; "row {row} cause {cause}")?;
            Ok(text.into_bytes())
        }
    }
}

#[test]
fn finding_aids_are_told(rt: HostRuntime) -> Result<(), Fail> {
    let alloc = rt.alloc();
    let cases: [(&str, &str); 12] = [
        (
            "legacyId,parentId,identifier,title,levelOfDescription,publicationStatus\n\
             1,,HUL,Hull Dock Company,Fonds,Published\n\
             2,1,1,Minutes,Series,Published\n",
            "GB 0999 HUL [Fonds] Hull Dock Company\n\
             \u{20} GB 0999 HUL/1 [Series] Minutes\n",
        ),
        // A header alone.
        (
            "legacyId,parentId,identifier,title,levelOfDescription,publicationStatus\n",
            "",
        ),
        (
            "legacyId,identifier,title,publicationStatus,physicalObjectName,physicalObjectLocation\n\
             1,A,Plans,Published,Box 1,Strongroom 2\n\
             2,B,Minutes,Published,Box 2,Strongroom 1\n\
             3,C,Maps,Published,Box 3,Strongroom 1\n\
             4,D,Deeds,Published,Box 4,Strongroom 1\n",
            "GB 0999 A [-] Plans\n\
             \u{20} Container 1: Box 1\n\
             GB 0999 B [-] Minutes\n\
             \u{20} Container 2: Box 2\n\
             GB 0999 C [-] Maps\n\
             \u{20} Container 3: Box 3\n\
             GB 0999 D [-] Deeds\n\
             \u{20} Container 4: Box 4\n",
        ),
        // A column with several entries, where the entry NULL is blank.
        (
            "legacyId,parentId,identifier,title,publicationStatus,eventActors\n\
             1,,HUL,Dock,published,Smith|NULL|Jones\n\
             2,1,,Maps,Published,\n",
            "GB 0999 HUL [-] Dock\n\
             \u{20} 3.2.1 Name of creator(s): Smith; Jones\n\
             \u{20} GB 0999 HUL [-] Maps\n",
        ),
        // A creator is shown once, at the fonds.
        (
            "legacyId,parentId,identifier,title,levelOfDescription,publicationStatus,eventActors\n\
             1,,HUL,Docks,Fonds,Published,Smith\n\
             2,1,1,Minutes,Series,Published,\n\
             3,2,A,Board,Sub-series,Published,\n\
             4,3,7,1901,File,Published,\n",
            "GB 0999 HUL [Fonds] Docks\n\
             \u{20} 3.2.1 Name of creator(s): Smith\n\
             \u{20} GB 0999 HUL/1 [Series] Minutes\n\
             \u{20}   GB 0999 HUL/1/A [Sub-series] Board\n\
             \u{20}     GB 0999 HUL/1/A/7 [File] 1901\n",
        ),
        // A byte order mark, CRLF, columns that are not read, and a quoted text over two lines.
        (
            "\u{feff}legacyId,parentId,qubitParentSlug,accessionNumber,identifier,title,\
             levelOfDescription,scopeAndContent,publicationStatus,culture\r\n\
             7,,,,MB,Mill Board,Fonds,\"Line one\r\nline \"\"two\"\"\",Published,en\r\n",
            "GB 0999 MB [Fonds] Mill Board\n\
             \u{20} 3.3.1 Scope and content: Line one line \"two\"\n",
        ),
        // The first row with a legacyId has the title, and a translation adds nothing.
        (
            "legacyId,culture,title,publicationStatus\n\
             1,en,Minutes,Published\n\
             1,fr,Registres,Published\n",
            "GB 0999 [-] Minutes\n",
        ),
        // Without a status every unit is a draft.
        ("legacyId,culture,title\n1,en,Minutes\n1,fr,Registres\n", ""),
        // A draft and what is below it are not shown, but their containers have numbers.
        (
            "legacyId,parentId,identifier,title,publicationStatus,physicalObjectName\n\
             1,,P,Plans,Published,Box 1\n\
             2,1,1,Lock gates,Draft,Box 2\n\
             3,2,a,Hinges,Published,Box 3\n\
             4,1,2,Quays,Published,Box 4|Box 1\n\
             5,,Q,Quarries,Draft,Box 5\n\
             6,5,1,Slate,Published,Box 6\n",
            "GB 0999 P [-] Plans\n\
             \u{20} Container 1: Box 1\n\
             \u{20} GB 0999 P/2 [-] Quays\n\
             \u{20}   Container 4: Box 4\n\
             \u{20}   Container 1: Box 1\n",
        ),
        // Children stand together below their parent, in the order of their rows.
        (
            "legacyId,parentId,identifier,title,publicationStatus\n\
             1,,A,First,Published\n\
             2,,B,Second,Published\n\
             3,1,1,One,Published\n\
             4,2,1,Three,Published\n\
             5,1,2,Two,Published\n",
            "GB 0999 A [-] First\n\
             \u{20} GB 0999 A/1 [-] One\n\
             \u{20} GB 0999 A/2 [-] Two\n\
             GB 0999 B [-] Second\n\
             \u{20} GB 0999 B/1 [-] Three\n",
        ),
        // One name in two places is two containers.
        (
            "legacyId,title,publicationStatus,physicalObjectName,physicalObjectLocation,physicalObjectType\n\
             1,Plans,Published,Box 1|Box 1,North|South,Box|Box\n\
             2,Maps,Published,Box 1|Box 1,South|North,Box|Folder\n",
            "GB 0999 [-] Plans\n\
             \u{20} Container 1: Box 1\n\
             \u{20} Container 2: Box 1\n\
             GB 0999 [-] Maps\n\
             \u{20} Container 2: Box 1\n\
             \u{20} Container 3: Box 1\n",
        ),
        // A unit without a title, a level and an identifier.
        (
            "legacyId,publicationStatus\n1,PUBLISHED\n",
            "GB 0999 [-] -\n",
        ),
    ];
    for (file, expected) in cases {
        assert_eq!(rt;
            preview_text(alloc, file.as_bytes())?.as_slice(),
            expected.as_bytes()
        );
    }
    Ok(())
}

#[test]
fn the_first_fault_is_told(rt: HostRuntime) -> Result<(), Fail> {
    let alloc = rt.alloc();
    let cases: [(&[u8], &str); 13] = [
        (b"legacyId,title\n1,\xff\n", "row 0 cause 1"),
        (b"", "row 1 cause 2"),
        (b"title\n", "row 1 cause 3"),
        (b"legacyId,title,title\n", "row 1 cause 4"),
        (b"legacyId,title\n1\n", "row 2 cause 5"),
        (b"legacyId,title\n,Maps\n", "row 2 cause 6"),
        (b"legacyId,title\n1,Minutes\n1,Registres\n", "row 3 cause 7"),
        (
            b"legacyId,parentId,qubitParentSlug\n1,,dock\n",
            "row 2 cause 8",
        ),
        // The parent comes later.
        (
            b"legacyId,parentId,title\n1,,Top\n3,2,Low\n2,1,Mid\n",
            "row 3 cause 11",
        ),
        (b"legacyId,parentId\n1,1\n", "row 2 cause 11"),
        // Blank rows and translations count in the number of a row.
        (
            b"legacyId,parentId,culture\n1,,en\n,,\n1,,fr\n2,3,en\n",
            "row 5 cause 11",
        ),
        // A missing parent is reported after every fault of the file itself.
        (b"legacyId,parentId\n1,9\n,1\n", "row 3 cause 6"),
        // A draft's parent must exist too.
        (
            b"legacyId,parentId,publicationStatus\n1,9,Draft\n",
            "row 2 cause 11",
        ),
    ];
    for (file, expected) in cases {
        assert_eq!(rt; preview_text(alloc, file)?.as_slice(), expected.as_bytes());
    }
    Ok(())
}

/// A file of `units` units, each below the one before.
fn chain(alloc: Global, units: u32) -> Result<String, AllocError> {
    let mut text = String::from_str(alloc, "legacyId,parentId,publicationStatus\n1,,Published\n")?;
    for unit in 1..units {
        let below = unit.saturating_add(1);
        write!(text, "{below},{unit},Published\n")?;
    }
    Ok(text)
}

/// The finding aid of such a chain: each unit is indented by two spaces more than the one above.
fn ladder(alloc: Global, units: u32) -> Result<String, AllocError> {
    let mut text = String::new(alloc);
    let mut indent = String::new(alloc);
    for _ in 0..units {
        text.push_str(indent.as_str())?;
        text.push_str("GB 0999 [-] -\n")?;
        indent.push_str("  ")?;
    }
    Ok(text)
}

/// The preview of such a chain.
fn told_of_chain(alloc: Global, units: u32) -> Result<Vec<u8>, AllocError> {
    let file = chain(alloc, units)?;
    preview_text(alloc, file.as_bytes())
}

#[test]
fn units_lie_at_most_64_deep(rt: HostRuntime) -> Result<(), Fail> {
    let alloc = rt.alloc();
    let deepest = told_of_chain(alloc, 64)?;
    let wanted = ladder(alloc, 64)?;
    assert_eq!(rt; deepest.as_slice(), wanted.as_bytes());
    Ok(())
}

#[test]
fn no_unit_lies_deeper(rt: HostRuntime) -> Result<(), Fail> {
    let too_deep = told_of_chain(rt.alloc(), 65)?;
    assert_eq!(rt; too_deep.as_slice(), b"row 66 cause 12".as_slice());
    Ok(())
}
