//! What the words of a command line gave.

ghost use Rattle.std.specs.Prelude.{◌≡◌};
ghost use Rattle.clap.specs.Matches.{found_of};
ghost use Rattle.clap.specs.Walk.{first_of, rows_of};
ghost use Rattle.gq_words.specs.Given.{IsFlagGiven, IsNumberGiven, path_in, text_given};

use clap::ArgMatches;

/// The text given for this id, the empty one where none is.
pub fn text_of<'a>(matches: &ArgMatches<'a>, id: &str) -> &'a str
    ensures { result.now ≡ text_given (rows_of (found_of matches.now)) id.now }
{
    matches.get_str(id).unwrap_or("")
}

/// The path given for this id, if one is.
pub fn path_of<'a>(matches: &ArgMatches<'a>, id: &str) -> Option<&'a str>
    ensures { path_in result ≡ first_of id.now (rows_of (found_of matches.now)) }
{
    matches.get_str(id)
}

/// The number given for this id, the other one where none is.
pub fn number_of(matches: &ArgMatches<'_>, id: &str, otherwise: u32) -> u32
    ensures { IsNumberGiven (rows_of (found_of matches.now)) id.now otherwise result }
{
    matches.get_one::<u32>(id).unwrap_or(otherwise)
}

/// Whether the flag is given for this id.
pub fn flag_of(matches: &ArgMatches<'_>, id: &str) -> bool
    ensures { IsFlagGiven (rows_of (found_of matches.now)) id.now result }
{
    matches.get_flag(id)
}
