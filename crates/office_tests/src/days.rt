//! Whole days over links, as sessions, to the byte, in one piece and byte by byte. The program plays the same days over
//! nested sets (`acceptance/days.py`), and opens no office over links.

use crate::day_texts::DAYS;
use crate::offices::in_memory;
use catalogue_store::LinkPlaces;
use http_desk::session::talk;
use http_desk::session_end::Ended;
use http_desk::streams::{Sink, Source};
use std::alloc::Global;
use std::io::{self, Read};
use std::process::Abort;
use std::test::Fail;

/// A reader that gives its bytes one by one.
#[derive(Drop)]
struct SingleBytes<'a> {
    rest: &'a [u8],
}

impl Read for SingleBytes<'_> {
    fn read(&mut self, buf: &mut [u8]) -> io::Result<usize> {
        match (self.rest.split_first(), buf.first_mut()) {
            (Some((byte, rest)), Some(place)) => {
                *place = *byte;
                self.rest = rest;
                Ok(1)
            }
            _ => Ok(0),
        }
    }
}

/// A day: its name, the requests, the answers, and what the program says at its end.
#[derive(Clone, Copy)]
struct Day<'a> {
    name: &'a str,
    said: &'a str,
    answered: &'a str,
    told: &'a str,
}

/// The day that a text describes.
fn day_of(text: &str) -> Option<Day<'_>> {
    let (name, text) = text.split_once('\x1f')?;
    let (said, text) = text.split_once('\x1f')?;
    let (answered, told) = text.split_once('\x1f')?;
    Some(Day {
        name,
        said,
        answered,
        told,
    })
}

/// Plays a day with a new office, and checks all bytes of its answers, and whether the input ends inside a message.
fn plays<R: Read>(
    rt: &impl Abort,
    alloc: Global,
    reader: &mut R,
    day: &Day<'_>,
) -> Result<(), Fail> {
    let mut office = in_memory::<LinkPlaces>(alloc)?;
    let mut output = Vec::new(alloc);
    let mut source = Source::new(reader);
    let mut sink = Sink::new(&mut output);
    let ended = talk(alloc, &mut source, &mut sink, &mut office);
    let _ = office.into_connection();
    let name = day.name;
    assert!(rt; output.as_slice() == day.answered.as_bytes(), "{name}");
    assert_eq!(rt; ended == Ended::Cut, day.told == "cut", "{name}");
    Ok(())
}

#[test]
fn days_over_links(rt: HostRuntime) -> Result<(), Fail> {
    for text in DAYS.split('\x1e') {
        let Some(day) = day_of(text) else {
            return Err(Fail::new("no day"));
        };
        let mut whole = day.said.as_bytes();
        plays(&rt, rt.alloc(), &mut whole, &day)?;
        let mut bytes = SingleBytes {
            rest: day.said.as_bytes(),
        };
        plays(&rt, rt.alloc(), &mut bytes, &day)?;
    }
    Ok(())
}
