//! `column`: relays a column document from standard input to standard output.
#![tactic(auto)]

use column_tool::{Outcome, StdSink, StdSource, run};
use std::io::ErrorKind;
use std::process::ExitCode;
use std::{env, io};

fn main(rt: HostRuntime) -> ExitCode {
    let outcome = match words(&rt) {
        Ok(words) => {
            let mut source = StdSource::new(rt.stdin());
            let mut sink = StdSink::new(rt.stdout());
            run(rt.alloc(), &words, &mut source, &mut sink)
        }
        Err(error) if error.kind() == ErrorKind::OutOfMemory => Outcome::NoMemory,
        Err(_) => Outcome::Usage,
    };
    ExitCode::from(outcome.code())
}

/// The words of the command line, without the program's name. A word that is not UTF-8 is an error.
fn words(rt: &HostRuntime) -> io::Result<Vec<String>> {
    let mut words = Vec::new(rt.alloc());
    for word in env::args(rt)?.skip(1) {
        words.push(word)?;
    }
    Ok(words)
}
