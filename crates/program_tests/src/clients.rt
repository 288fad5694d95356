//! Servers at whose port as many clients come as a test says.

use crate::fakes::{Page, Pieces, Queue};
use crate::tests::{Host, expect, expect_over};
use std::alloc::Global;
use std::io::Read;
use std::process::Abort;
use std::test::Fail;
use std::{env, fs, io};

const SETTINGS: &str =
    "--country GB --repo 0999 --seats 2 --daily 3 --hands 1 --run 2 --day 2024-03-01";

const ASKED: &str = "GET /public/fonds HTTP/1.1\r\nHost: x\r\n\r\n";

const NONE_ANSWERED: &str =
    "HTTP/1.1 200 OK\r\nContent-Type: text/plain; charset=utf-8\r\nContent-Length: 0\r\n\r\n";

const REGISTERED: &str =
    "POST /desk/register HTTP/1.1\r\nHost: x\r\nContent-Length: 35\r\n\r\n{\"name\":\"Ann\",\"until\":\"2024-12-31\"}";

const TICKET_1: &str =
    "HTTP/1.1 200 OK\r\nContent-Type: application/json\r\nContent-Length: 12\r\n\r\n{\"ticket\":1}";

const TICKET_2: &str =
    "HTTP/1.1 200 OK\r\nContent-Type: application/json\r\nContent-Length: 12\r\n\r\n{\"ticket\":2}";

/// The path of a file for a test, which does not exist yet.
fn new_path(rt: &HostRuntime, alloc: Global, name: &str) -> Result<String, Fail> {
    let folder = env::temp_dir(rt)?;
    let path = folder.join(alloc, name)?;
    let path = String::from_str(alloc, path.as_str())?;
    forget(rt, alloc, path.as_str())?;
    Ok(path)
}

/// Removes a test's file and its log, if they exist.
fn forget(rt: &HostRuntime, alloc: Global, path: &str) -> Result<(), Fail> {
    let _ = fs::remove_file(rt, path);
    let log = format!(in alloc; "{path}-wal")?;
    let _ = fs::remove_file(rt, log.as_str());
    Ok(())
}

/// Makes an office in this file.
fn make_office<R: Abort + Host>(rt: &R, alloc: Global, store: &str) -> Result<(), Fail> {
    let words = format!(in alloc; "init --store {store} {SETTINGS}")?;
    let out = Page::new(Vec::new(alloc));
    let reader = Pieces::failing(b"");
    expect(rt, alloc, words.as_str(), reader, out, (0, b"", ""))
}

/// Performs the words over this port and output, with nothing to read, and expects this exit status, this output and
/// this text on standard error.
fn serves<R: Abort + Host>(
    rt: &R,
    alloc: Global,
    words: &str,
    port: &mut Queue<'_>,
    out: Page,
    wanted: (u8, &str, &str),
) -> Result<(), Fail> {
    let (status, printed, told) = wanted;
    let reader = Pieces::failing(b"");
    let wanted = (status, printed.as_bytes(), told);
    expect_over(rt, alloc, words, reader, out, port, wanted)
}

/// `serve` takes as many clients as it was asked for, or as many as come, in turn, and leaves each of them. A client sees
/// what those before it changed.
#[test]
fn clients_are_taken_and_left(rt: HostRuntime) -> Result<(), Fail> {
    let alloc = rt.alloc();
    let store = new_path(&rt, alloc, "record_office_served.db")?;
    let store = store.as_str();
    make_office(&rt, alloc, store)?;
    let clients = [ASKED, "", REGISTERED];
    let first = format!(in alloc; "{NONE_ANSWERED}|")?;
    let all = format!(in alloc; "{NONE_ANSWERED}||{TICKET_1}|")?;
    let again = format!(in alloc; "{NONE_ANSWERED}||{TICKET_2}|")?;
    for (connections, taken, status, told, answers) in [
        (1, 1, 0, "", first.as_str()),
        (3, 3, 0, "", all.as_str()),
        (5, 3, 3, "net fault\n", again.as_str()),
    ] {
        let (mut line, end) = io::pipe(&rt)?;
        let mut port = Queue::of(&clients, end);
        let words = format!(in alloc;
            "serve --store {store} --port 8080 --connections {connections}"
        )?;
        let out = Page::new(Vec::new(alloc));
        let wanted = (status, "listening 8080\n", told);
        serves(&rt, alloc, words.as_str(), &mut port, out, wanted)?;
        assert_eq!(rt; port.number, Some(8080));
        assert_eq!(rt; (port.taken, port.left), (taken, taken));
        assert_eq!(rt; port.is_shut, status == 0);
        drop(port);
        let mut sent = String::new(alloc);
        let _length = line.read_to_string(&mut sent)?;
        assert_eq!(rt; sent.as_str(), answers);
    }
    forget(&rt, alloc, store)
}

/// No client is taken by a server that has no office, cannot bind its port or cannot print that it listens, nor by
/// another command.
#[test]
fn no_client_is_taken(rt: HostRuntime) -> Result<(), Fail> {
    let alloc = rt.alloc();
    let store = new_path(&rt, alloc, "record_office_unserved.db")?;
    let store = store.as_str();
    make_office(&rt, alloc, store)?;
    let absent = "serve --store /none/none --port 8080 --connections 2";
    let serve = format!(in alloc; "serve --store {store} --port 8080 --connections 2")?;
    let check = format!(in alloc; "check --store {store}")?;
    for (words, binds, room, wanted, number) in [
        (absent, true, 99, (3, "", "file fault\n"), None),
        (serve.as_str(), false, 99, (3, "", "net fault\n"), None),
        (
            serve.as_str(),
            true,
            9,
            (3, "listening", "file fault\n"),
            Some(8080),
        ),
        (check.as_str(), true, 99, (0, "sound\n", ""), None),
    ] {
        let (_line, end) = io::pipe(&rt)?;
        let clients = [ASKED, ASKED];
        let mut port = if binds {
            Queue::of(&clients, end)
        } else {
            Queue::unbound(&clients, end)
        };
        let out = Page::narrow(Vec::new(alloc), room);
        serves(&rt, alloc, words, &mut port, out, wanted)?;
        assert_eq!(rt; port.number, number);
        assert_eq!(rt; (port.taken, port.left), (0, 0));
    }
    forget(&rt, alloc, store)
}
