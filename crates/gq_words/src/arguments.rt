//! Numbers and subcommands of a command line.

ghost use Rattle.std.specs.Prelude.{◌≡◌, false, IfOk};
ghost use Rattle.clap.specs.Simple.{App, Shape, app_of, new_app, with_subcommand};
ghost use Rattle.clap.specs.Walk.{rule_of};
ghost use Rattle.clap.specs.declared.builder.command.Command.TheViews.{out-Command as fields_of};
ghost use Rattle.gq_words.specs.Words.{number_rule};

use clap::{Arg, ArgAction, Command};
use std::alloc::{AllocError, Global};

/// The version of the programs.
pub const VERSION: &str = "0.1.0";

/// A whole number that has to be given.
pub fn number<'a>(alloc: Global, id: &'a str, help: &'a str) -> Arg<'a>
    ensures rule { rule_of result ≡ number_rule id.entry.now }
    ensures local { result.global ≡ false }
{
    Arg::new(alloc, id)
        .required(true)
        .action(ArgAction::Set)
        .value_parser(clap::value_parser!(u32))
        .help(help)
}

/// A subcommand, without words of its own.
pub fn subcommand<'a>(alloc: Global, name: &'a str, about: &'a str, help: &'a str) -> Command<'a>
    ensures app { app_of result ≡ new_app name.entry.now }
    ensures local { (fields_of result).has_globals ≡ false }
{
    Command::new(alloc, name).about(about).after_help(help)
}

/// The command line with one more subcommand, where there was memory for both. (Both come as results, so that no other function has
/// to let go of a command line on its way out.)
pub fn with<'a>(
    command: Result<Command<'a>, AllocError>,
    subcommand: Result<Command<'a>, AllocError>,
) -> Result<Command<'a>, AllocError>
    requires local { IfOk subcommand (λ c. (fields_of c).has_globals ≡ false) }
    ensures app { (app : App) (shape : Shape) → IfOk command.entry (λ c. app_of c ≡ app) →
        IfOk subcommand.entry (λ c. (app_of c).top ≡ shape) → IfOk result (λ c. app_of c ≡ with_subcommand app shape) }
{
    let subcommand = subcommand?;
    command?.subcommand(subcommand)
}
