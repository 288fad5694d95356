//! Sessions of the program whose input or output breaks off.

use crate::fakes::{Page, Pieces};
use crate::tests::{FONDS, TRIAL, expect};
use std::test::Fail;

/// The list of fonds of an office that has none, as an answer after which the connection is closed.
const NO_FONDS: &str =
    "HTTP/1.1 200 OK\r\nContent-Type: text/plain; charset=utf-8\r\nContent-Length: 0\r\nConnection: close\r\n\r\n";

/// The head of an import of the first worked file, a question for the fonds twice, and the answers.
const IMPORT: &str = "POST /desk/import/a HTTP/1.1\r\nHost: x\r\nContent-Length: 144\r\n\r\n";

const TWICE: &str =
    "GET /public/fonds HTTP/1.1\r\nHost: x\r\n\r\nGET /public/fonds HTTP/1.1\r\nHost: x\r\n\r\n";

const IMPORTED: &str =
    "HTTP/1.1 200 OK\r\nContent-Type: application/json\r\nContent-Length: 78\r\n\r\n{\"changed\":0,\"new\":2,\"remarks\":[{\"kind\":2,\"row\":2}],\"same\":0,\"translations\":0}";

const FONDS_TWICE: &str =
    "HTTP/1.1 200 OK\r\nContent-Type: text/plain; charset=utf-8\r\nContent-Length: 40\r\n\r\n1 GB 0999 HUL [Fonds] Hull Dock Company\nHTTP/1.1 200 OK\r\nContent-Type: text/plain; charset=utf-8\r\nContent-Length: 40\r\n\r\n1 GB 0999 HUL [Fonds] Hull Dock Company\n";

/// The input ends or fails within two questions of 39 bytes each. Each answer has 120 bytes.
#[test]
fn inputs_end_and_fail(rt: HostRuntime) -> Result<(), Fail> {
    let alloc = rt.alloc();
    let said = format!(in alloc; "{IMPORT}{FONDS}{TWICE}")?;
    let answered = format!(in alloc; "{IMPORTED}{FONDS_TWICE}")?;
    let before = IMPORT.len() + FONDS.len();
    for n in [0usize, 1, 38, 39, 40, 77, 78] {
        let input = said.as_bytes().get(..before + n).ok_or("short")?;
        let whole = IMPORTED.len() + n / 39 * 120;
        let wanted = answered.as_bytes().get(..whole).ok_or("short")?;
        let failing = (3, wanted, "read fault\n");
        let out = Page::new(Vec::new(alloc));
        expect(&rt, alloc, TRIAL, Pieces::failing(input), out, failing)?;
        let ending = if n % 39 == 0 {
            (0, wanted, "")
        } else {
            (3, wanted, "cut\n")
        };
        let reader = Pieces::interrupted(input, 7);
        let out = Page::in_pieces(Vec::new(alloc), 7);
        expect(&rt, alloc, TRIAL, reader, out, ending)?;
    }
    Ok(())
}

/// The output takes only the first `n` bytes of three answers of 149, 120 and 120 bytes; or it fails to flush.
#[test]
fn outputs_fail(rt: HostRuntime) -> Result<(), Fail> {
    let alloc = rt.alloc();
    let said = format!(in alloc; "{IMPORT}{FONDS}{TWICE}")?;
    let answered = format!(in alloc; "{IMPORTED}{FONDS_TWICE}")?;
    for n in [0usize, 1, 148, 149, 150, 268, 269, 270, 388] {
        let front = answered.as_bytes().get(..n).ok_or("short")?;
        let wanted = (3, front, "write fault\n");
        let out = Page::narrow(Vec::new(alloc), n);
        expect(&rt, alloc, TRIAL, Pieces::of(said.as_bytes()), out, wanted)?;
    }
    let out = Page::unflushed(Vec::new(alloc));
    let wanted = (3, IMPORTED.as_bytes(), "write fault\n");
    expect(&rt, alloc, TRIAL, Pieces::of(said.as_bytes()), out, wanted)
}

/// An answer of 98 bytes may take 114 writes. If every other write is interrupted and the rest take one byte each, that
/// is 57 bytes.
#[test]
fn outputs_are_bounded(rt: HostRuntime) -> Result<(), Fail> {
    let alloc = rt.alloc();
    let said = b"GET /public/fonds HTTP/1.0\r\n\r\n";
    let wanted = (3, &NO_FONDS.as_bytes()[..57], "bound\n");
    let out = Page::interrupted(Vec::new(alloc), 1);
    expect(&rt, alloc, TRIAL, Pieces::of(said), out, wanted)
}
