//! How many reads and writes a stream may take.

use crate::fakes::{Page, Pieces};
use http_desk::streams::{Sink, Source};
use program::streams::{
    line_within, most_calls, read_to_end, read_within, write_line, write_whole, write_within,
};
use std::test::Fail;

/// Three bytes and the end take eight reads, four of them interrupted. Three bytes take six writes, and so do two bytes
/// and a line feed.
#[test]
fn calls_are_counted(rt: HostRuntime) -> Result<(), Fail> {
    for reads in 0..10u32 {
        let mut pieces = Pieces::interrupted(b"abc", 1);
        let mut reader = Source::new(&mut pieces);
        let read = read_within(rt.alloc(), &mut reader, reads);
        assert_eq!(rt; read.is_ok(), reads >= 8, "{reads} reads");
        assert_eq!(rt; reader.calls(), reads.min(8) as u64);
    }
    for writes in 0..10u32 {
        let mut page = Page::interrupted(Vec::new(rt.alloc()), 1);
        let written = write_within(&mut Sink::new(&mut page), b"abc", writes);
        assert_eq!(rt; written.is_ok(), writes >= 6, "{writes} writes");
        let mut page = Page::interrupted(Vec::new(rt.alloc()), 1);
        let written = line_within(&mut Sink::new(&mut page), b"ab", writes);
        assert_eq!(rt; written.is_ok(), writes >= 6, "{writes} writes of a line");
    }
    let mut full = Page::interrupted(Vec::new(rt.alloc()), 0);
    assert!(rt; write_within(&mut Sink::new(&mut full), b"abc", 10).is_err());
    Ok(())
}

/// A stream that is interrupted a hundred thousand times is read and written all the same.
#[test]
fn interruptions_are_endured(rt: HostRuntime) -> Result<(), Fail> {
    assert_eq!(rt; most_calls(), 4_294_967_295);
    let bytes = [b'a'; 100_000];
    let mut pieces = Pieces::interrupted(&bytes, 1);
    let read = read_to_end(rt.alloc(), &mut Source::new(&mut pieces));
    assert!(rt; read.is_ok());
    let mut page = Page::interrupted(Vec::new(rt.alloc()), 1);
    let mut writer = Sink::new(&mut page);
    assert!(rt; write_whole(&mut writer, &bytes).is_ok());
    assert!(rt; write_line(&mut writer, &bytes).is_ok());
    assert!(rt; writer.is_flushed());
    assert_eq!(rt; page.held.len(), 200_001);
    Ok(())
}
