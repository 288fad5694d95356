//! Previews whose streams break off, and what the other tests share.

use crate::fakes::{Page, Pieces, Queue};
use http_desk::streams::{Sink, Source};
use program::files::Openings;
use program::perform::perform;
use sqlite::Wary;
use std::alloc::Global;
use std::process::Abort;
use std::test::Fail;

/// The first worked file, and what its preview prints.
pub const FONDS: &str =
    "legacyId,parentId,identifier,title,levelOfDescription,publicationStatus\n1,,HUL,Hull Dock Company,Fonds,Published\n2,1,1,Minutes,Series,Published\n";

const HEADER: &str = "legacyId,parentId,identifier,title,levelOfDescription,publicationStatus\n";

const AIDS: &str = "GB 0999 HUL [Fonds] Hull Dock Company\n  GB 0999 HUL/1 [Series] Minutes\n";

const PREVIEW: &str = "preview --country GB --repo 0999";

pub const TRIAL: &str =
    "trial --country GB --repo 0999 --seats 2 --daily 3 --hands 1 --run 2 --day 2024-03-01";

/// The runtime of a test.
pub trait Host {
    fn host(&self) -> &HostRuntime;
}

impl Host for HostRuntime {
    fn host(&self) -> &HostRuntime {
        self
    }
}

/// The words of a text.
fn words_of(alloc: Global, text: &str) -> Result<Vec<String>, Fail> {
    let mut words = Vec::new(alloc);
    for word in text.split_whitespace() {
        words.push(String::from_str(alloc, word)?)?;
    }
    Ok(words)
}

/// Performs the words over streams, and expects this exit status, this output and this text on standard error.
pub fn expect<R: Abort + Host>(
    rt: &R,
    alloc: Global,
    words: &str,
    reader: Pieces<'_>,
    out: Page,
    wanted: (u8, &[u8], &str),
) -> Result<(), Fail> {
    let mut port = Queue::empty(rt.host())?;
    expect_over(rt, alloc, words, reader, out, &mut port, wanted)
}

/// The same over a port.
pub fn expect_over<R: Abort + Host>(
    rt: &R,
    alloc: Global,
    words: &str,
    mut reader: Pieces<'_>,
    mut out: Page,
    port: &mut Queue<'_>,
    wanted: (u8, &[u8], &str),
) -> Result<(), Fail> {
    let mut err = Page::new(Vec::new(alloc));
    let said = words_of(alloc, words)?;
    let (status, _outcome) = perform(
        Openings::new(rt.host(), Wary),
        alloc,
        said.as_slice(),
        &mut Source::new(&mut reader),
        &mut Sink::new(&mut out),
        &mut Sink::new(&mut err),
        port,
    );
    let (wanted_status, wanted_out, wanted_err) = wanted;
    assert_eq!(rt; status, wanted_status, "status of {words}");
    assert_eq!(rt; out.held.as_slice(), wanted_out, "output of {words}");
    assert_eq!(rt;
        err.held.as_slice(),
        wanted_err.as_bytes(),
        "told of {words}"
    );
    Ok(())
}

#[test]
fn a_preview_is_printed(rt: HostRuntime) -> Result<(), Fail> {
    let alloc = rt.alloc();
    for piece in 1..9usize {
        let reader = Pieces::interrupted(FONDS.as_bytes(), piece);
        let out = Page::interrupted(Vec::new(alloc), piece);
        expect(&rt, alloc, PREVIEW, reader, out, (0, AIDS.as_bytes(), ""))?;
    }
    Ok(())
}

#[test]
fn streams_fail(rt: HostRuntime) -> Result<(), Fail> {
    let alloc = rt.alloc();
    let file = FONDS.as_bytes();
    for n in 0..file.len() {
        let out = Page::new(Vec::new(alloc));
        let reader = Pieces::failing(&file[..n]);
        expect(&rt, alloc, PREVIEW, reader, out, (3, b"", "file fault\n"))?;
    }
    let aids = AIDS.as_bytes();
    for n in 0..aids.len() {
        let out = Page::narrow(Vec::new(alloc), n);
        let broken = (3, &aids[..n], "file fault\n");
        expect(&rt, alloc, PREVIEW, Pieces::of(file), out, broken)?;
    }
    let out = Page::unflushed(Vec::new(alloc));
    let unflushed = (3, aids, "file fault\n");
    expect(&rt, alloc, PREVIEW, Pieces::of(file), out, unflushed)?;
    // If nothing is printed, standard output need not take anything.
    let out = Page::narrow(Vec::new(alloc), 0);
    let reader = Pieces::of(HEADER.as_bytes());
    expect(&rt, alloc, PREVIEW, reader, out, (0, b"", ""))
}

#[test]
fn a_status_stands_without_its_text(rt: HostRuntime) -> Result<(), Fail> {
    let alloc = rt.alloc();
    let told = b"refused 22 BadFile row 1 cause 2\n";
    let words = words_of(alloc, PREVIEW)?;
    let mut port = Queue::empty(&rt)?;
    for n in 0..told.len() {
        let mut out = Page::new(Vec::new(alloc));
        let mut err = Page::narrow(Vec::new(alloc), n);
        let mut reader = Pieces::of(b"");
        let (status, _outcome) = perform(
            Openings::new(&rt, Wary),
            alloc,
            words.as_slice(),
            &mut Source::new(&mut reader),
            &mut Sink::new(&mut out),
            &mut Sink::new(&mut err),
            &mut port,
        );
        assert_eq!(rt; status, 1);
        assert_eq!(rt; err.held.as_slice(), &told[..n]);
    }
    Ok(())
}
