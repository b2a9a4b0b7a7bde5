//! The program `desk`: the words of its command line, files and standard streams for the call that does the work.
#![tactic(auto)]

use std::io::ErrorKind;
use std::process::ExitCode;
use std::{env, io};
use vd_base::{FileShelf, OutSink};
use vd_top::{desk_top, no_memory};

/// The words after the program's name. Words of which one is no text are answered as none are.
fn words_of(rt: &HostRuntime) -> io::Result<Vec<String>> {
    let mut words = Vec::new(rt.alloc());
    match env::args(rt) {
        Ok(args) => {
            for word in args.skip(1) {
                words.push(word)?;
            }
        }
        Err(error) if error.kind() == ErrorKind::OutOfMemory => return Err(error),
        Err(_) => {}
    }
    Ok(words)
}

fn main(rt: HostRuntime) -> ExitCode {
    let mut out = OutSink::new(rt.stdout());
    let mut err = OutSink::new(rt.stderr());
    let mut shelf = FileShelf::new(&rt);
    let status = match words_of(&rt) {
        Ok(words) => desk_top(rt.alloc(), words.as_slice(), &mut shelf, &mut out, &mut err),
        Err(_) => no_memory(&mut err),
    };
    ExitCode::from(status)
}
