//! `filehost`: makes the real disk, streams and clock, calls the top call of the command, prints its status line on
//! standard error and ends with its code.
#![tactic(auto)]

use fh_world::{FileDisk, RealClock, StdSink, StdSource};
use host_top::{Plan, Status, WordsFault, exit_code, read_words, run_pipe, status_line};
use std::env;
use std::io::ErrorKind;
use std::process::ExitCode;

/// The words after the program's name. A word that isn't UTF-8 is no word of a command.
fn words_of(rt: &HostRuntime) -> Result<Vec<String>, WordsFault> {
    let given = match env::args(rt) {
        Ok(given) => given,
        Err(fault) => match fault.kind() {
            ErrorKind::OutOfMemory => return Err(WordsFault::NoMemory),
            _ => return Err(WordsFault::Usage),
        },
    };
    let mut words = Vec::new(rt.alloc());
    for word in given.skip(1) {
        if words.push(word).is_err() {
            return Err(WordsFault::NoMemory);
        }
    }
    Ok(words)
}

/// Runs the command over the folder that its words name, standard input and standard output.
fn run(rt: &HostRuntime) -> Result<Status, WordsFault> {
    let alloc = rt.alloc();
    let words = words_of(rt)?;
    let Plan::Pipe { store, .. } = read_words(alloc, &words)?;
    let mut disk = FileDisk::open(rt, store.as_str());
    let mut input = StdSource::new(rt.stdin());
    let mut output = StdSink::new(rt.stdout());
    let mut clock = RealClock::new(rt);
    Ok(run_pipe(
        alloc,
        &words,
        &mut disk,
        &mut input,
        &mut output,
        &mut clock,
    ))
}

fn main(rt: HostRuntime) -> ExitCode {
    let status = match run(&rt) {
        Ok(status) => status,
        Err(WordsFault::Usage) => Status::Usage,
        Err(WordsFault::NoMemory) => Status::NoMemory,
    };
    if status != Status::Done {
        if let Ok(line) = status_line(rt.alloc(), &status) {
            let _ = eprintln!(rt; "{}", line.as_str());
        }
    }
    ExitCode::from(exit_code(status))
}
