//! The program `record_office`.
#![tactic(auto)]

use http_desk::streams::{Sink, Source};
use program::files::Openings;
use program::loopback::Loopback;
use program::ports::LocalPort;
use program::{perform, words};
use sqlite::Wary;
use std::process::ExitCode;

fn main(rt: HostRuntime) -> ExitCode {
    let mut stderr = rt.stderr();
    let mut err = Sink::new(&mut stderr);
    let status = match words::arguments(&rt, rt.alloc()) {
        Ok(words) => {
            let (status, _outcome) = perform::perform(
                Openings::new(&rt, Wary),
                rt.alloc(),
                words.as_slice(),
                &mut Source::new(&mut rt.stdin()),
                &mut Sink::new(&mut rt.stdout()),
                &mut err,
                &mut LocalPort::new(Loopback::new(&rt)),
            );
            status
        }
        Err(fault) => perform::tell(&fault.into(), &mut err),
    };
    ExitCode::from(status)
}
