//! The program `bfv`: the words of its command line, the real files and the standard output go to
//! the one call that does all the rest.
#![tactic(auto)]

use bfv_commands::command;
use command_words::Status;
use outer_io::{FileStore, StdSink};
use std::process::ExitCode;
use std::{env, io};

fn main(rt: HostRuntime) -> ExitCode {
    let status = match words(&rt) {
        Ok(words) => {
            let mut store = FileStore::new(&rt, rt.alloc());
            let mut out = StdSink::new(&rt);
            command(rt.alloc(), &words, &mut store, &mut out)
        }
        Err(error) => match error.kind() {
            io::ErrorKind::OutOfMemory => Status::Memory,
            _ => Status::Usage,
        },
    };
    ExitCode::from(status.code())
}

/// The words behind the program's name.
fn words(rt: &HostRuntime) -> io::Result<Vec<String>> {
    let mut words = Vec::new(rt.alloc());
    for word in env::args(rt)?.skip(1) {
        words.push(word)?;
    }
    Ok(words)
}
