//! The words of a command line are read.

ghost use Rattle.std.specs.Prelude.{◌≡◌, [], true, IfOk, IfErr};
ghost use Rattle.clap.specs.Faults.{fault_of, is_simple_and_free};
ghost use Rattle.clap.specs.Simple.{App, HasMatchesOf, app_of};
ghost use Rattle.clap.specs.Walk.{texts};
ghost use Rattle.gq_words.specs.Words.{ShownFor};

use clap::error::ErrorKind;
use clap::{ArgMatches, Command, Error};
use std::alloc::AllocError;

/// Why the words of a command line ask for nothing to be run.
#[derive(Drop)]
pub enum Usage {
    /// Help or the version, which was asked for, for standard output, or what is wrong with the words, for standard error.
    Shown(Error),
    /// Memory is wanting.
    Memory,
}

impl From<AllocError> for Usage {
    fn from(_: AllocError) -> Usage {
        Usage::Memory
    }
}

/// What the words give to a command line that was made, of which clap's rules are exact; the first word is the program's name.
/// Words that ask for help or for the version, or that are no request, give the text to show, whose exit status is its own (0 where
/// it was asked for, else 2); where memory is wanting, that is told before any text.
pub fn matches_of<'a>(
    command: Result<Command<'a>, AllocError>,
    words: &'a [&'a str],
) -> Result<ArgMatches<'a>, Usage>
    ensures right { (app : App) → is_simple_and_free app ≡ true → IfOk command.entry (λ c. app_of c ≡ app) →
        IfOk result (λ m. fault_of app (texts words.entry.now) ≡ []) }
    ensures found { (app : App) → is_simple_and_free app ≡ true → IfOk command.entry (λ c. app_of c ≡ app) →
        IfOk result (HasMatchesOf app (texts words.entry.now)) }
    ensures shown { (app : App) → is_simple_and_free app ≡ true → IfOk command.entry (λ c. app_of c ≡ app) →
        IfErr result (ShownFor app (texts words.entry.now)) }
{
    let Ok(command) = command else {
        return Err(Usage::Memory);
    };
    match command.try_get_matches_from(words) {
        Ok(matches) => Ok(matches),
        Err(error) => {
            if error.kind() == ErrorKind::OutOfMemory {
                Err(Usage::Memory)
            } else {
                Err(Usage::Shown(error))
            }
        }
    }
}
