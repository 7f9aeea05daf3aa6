//! What a program tells of its words and of its faults, and the status that it ends with.

ghost use Rattle.std.specs.Prelude.{◌≡◌, IfSome, map};
ghost use Rattle.std.specs.String.{string_bytes};
ghost use Rattle.std.specs.Process.{exit_status};
ghost use Rattle.clap.specs.Walk.{texts};
ghost use Rattle.gq_words.specs.Words.{status_of};

use crate::reading::Usage;
use clap::error::ErrorKind;
use std::alloc::Global;
use std::fmt::Display;
use std::process::ExitCode;

/// The status of words that are no request.
pub const USAGE: u8 = 2;
/// The status where memory is wanting.
pub const MEMORY: u8 = 3;

/// What is told where memory is wanting for the words themselves.
pub const NO_MEMORY: &str = "out of memory";

/// The status, with the fault on standard error, where that takes it. What all programs tell begins with the name of the service.
pub fn told(rt: &impl Eprint, fault: &(impl Display + Drop), status: u8) -> ExitCode
    ensures { exit_status result ≡ status }
{
    let _ = eprintln!(rt; "gridfs: {fault}");
    ExitCode::from(status)
}

/// The words, each as a text. None where memory is wanting.
pub fn words_of<'a>(alloc: Global, given: &'a Vec<String>) -> Option<Vec<&'a str>>
    ensures { IfSome result (λ words. texts words.items ≡ map string_bytes given.now.items) }
{
    let mut words = Vec::new(alloc);
    for word in given {
        words.push(word.as_str()).ok()?;
    }
    Some(words)
}

/// The status of words that ask for nothing to be run, with the text that is shown: 0 where it was asked for, 2 where the words are no request, 3 where memory is wanting. Behind the version comes the note on the build.
pub fn shown<R: Print + Eprint>(rt: &R, usage: Usage, note: &str) -> ExitCode
    ensures { exit_status result ≡ status_of usage }
{
    match usage {
        Usage::Shown(error) => {
            let _ = error.print(rt);
            if error.kind() == ErrorKind::DisplayVersion {
                let _ = println!(rt; "{note}");
            }
            ExitCode::from(error.exit_code() as u8)
        }
        Usage::Memory => told(rt, &NO_MEMORY, MEMORY),
    }
}
