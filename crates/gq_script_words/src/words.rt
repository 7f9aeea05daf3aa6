//! From the words of a command line of the reference to what they ask for.

ghost use Rattle.std.specs.Prelude.{◌≡◌, ◌∷◌, [], Some, false, codes, IfOk, IfErr, IsErrAnd};
ghost use Rattle.clap.specs.Matches.{subcommand_name_of};
ghost use Rattle.clap.specs.Simple.{app_of, subcommand_rows_of};
ghost use Rattle.clap.specs.Walk.{Text, rule_of, texts};
ghost use Rattle.clap.specs.declared.builder.command.Command.TheViews.{out-Command as fields_of};
ghost use Rattle.clap.specs.declared.error.kind.ErrorKind.TheVariants.{DisplayHelp, DisplayVersion};
ghost use Rattle.gq_words.specs.Words.{IsAlone, IsMemory, ShownFor, Shows};
ghost use Rattle.gq_words.specs.Given.{given_by, rows_behind};
ghost use Rattle.gq_script_words.specs.Words.{AsksForLive, IsAskedBy, NamesCommand, bare_gridfs, command_name, file_shape, finish_shape, gridfs, jobs_rule, name_rule, run_shape};
ghost use Rattle.gq_script_words.specs.Given.{HasValues};

use clap::{Arg, ArgAction, ArgMatches, Command};
use gq_words::{Usage, VERSION, matches_of, number, number_of, subcommand, text_of, with};
use std::alloc::{AllocError, Global};

/// What is asked for between standard input and standard output.
#[derive(Clone, Copy, PartialEq, Eq)]
pub enum Request<'a> {
    /// Answer the lines of a script, by so many threads; 0 is as many as there are cores.
    Run {
        jobs: u32,
    },
    /// Answer each line of a script as soon as it has ended.
    Step,
    /// The answers, and the order of the operations on a file of the tenant of this name.
    Order {
        name: &'a str,
        volume: u32,
        file: u32,
    },
    /// Write the history of the operations on a file of the tenant of this name.
    History {
        name: &'a str,
        volume: u32,
        file: u32,
    },
    /// Draw the operations on a file of the tenant of this name.
    Picture {
        name: &'a str,
        volume: u32,
        file: u32,
    },
    /// Write the lines that complete the operation of a session of the tenant of this name.
    Finish {
        name: &'a str,
        session: u32,
    },
    /// Run the programs of an input in threads, and write the run as a script.
    Live,
}

const INPUT: &str = "\
The input is a plan, and after its line `go` the lines of tenants and servers:

    grid ROWS COLS                      servers in 1 to 8 rows and 1 to 8 columns, numbered from 0, row by row
    blocks BLOCKS                       blocks of 64 bytes on each server, 1 to 4096
    tenant NAME SHARE SESSIONS STEPS    1 to 64 of these lines: a share of at least 1 of each server's blocks, and in all
                                        no more than BLOCKS; 1 to 16 sessions; 1 to 1000000 lines that the tenant may send
    go
    NAME quorum                         which quorum is chosen now?
    NAME open FILES BLOCKS              open a volume of 1 to 64 files, each of at most BLOCKS blocks, 1 to 16
    NAME volumes                        which volumes are open, and how many blocks of the share are free?
    NAME write S V F HEX                session S begins to write the content HEX to file F of volume V
    NAME read S V F                     session S begins to read file F of volume V
    NAME list S V                       session S begins to list the files of volume V, one after another: no snapshot
    NAME deliver N                      deliver message N of the tenant, to its server or to its session
    NAME lose N                         lose message N
    NAME retry S                        send the message of session S's round again, to each server that it has not heard in the
                                        round of the row, or of the column, that is up now
    NAME abandon S                      give the operation of session S up
    server N down                       server N stops
    server N up                         server N returns
    server N lost                       server N stops, and its disk is lost; operations that count on it are given up
    server N repaired                   server N, which was lost, returns with the copies of another of its column

A plan with `room BLOCKS` in place of `blocks BLOCKS` has up to 4294967295 blocks on each server, and a fifth word in each of its
lines `tenant`: MOST, the most blocks of a file of that tenant, 1 to 16384, in place of 16. A sixth may say how many volumes it may
open, VOLUMES, 1 to 65536, in place of 64.

Words are separated by one space. NAME is 1 to 16 letters a to z, and not `server`. HEX is two hexadecimal digits for each
byte, or `-` for the empty content, or `=` and the bytes themselves (docs/FORMATS.md, Contents in bytes). The other words in
capitals are numbers: 0, or digits of which the first is no 0; at most 4294967295. Sessions are numbered from 1, servers,
volumes, files and messages from 0.

An operation goes on in rounds, numbered from 1. An odd round asks each server of a row for its copy of the file, and ends
when the servers of some full row have answered. An even round sends a copy to each server of a column to be stored, and ends
when the servers of some full column have answered. The row and the column are the least of which all servers are up at that
moment. Where there is none, a request or a retry is answered `noquorum`, and a later round begins and sends nothing (`none`). A
write has the rounds 1 and 2, and so has a read; a listing has the rounds 2K+1 and 2K+2 for file K. A read or a listing leaves an
even round out where a full column told the newest copy already.

A write from its request to its end, on the plan `grid 1 1`, `blocks 1`, `tenant ann 1 1 100`; beside each line its answer:

    ann open 1 1                        ann volume 0
    ann write 1 0 0 6869                ann op 1 sent 0 to 0                  message 0 asks the server for its copy
    ann deliver 0                       ann reply 1                           message 1 is the copy
    ann deliver 1                       ann round 2 tag 1 1 sent 2 to 2       message 2 has the server store `hi`
    ann deliver 2                       ann reply 3                           message 3 says that it is stored
    ann deliver 3                       ann done write 1 1 tag 1 1

Each line after `go` is answered by one line on standard output. A fault of the plan is told by one line on standard error,
with the number of the line, and nothing is written. docs/FORMATS.md has all forms of input and output, the refusals and the
limits.";

const STEP: &str = "\
The input, and what is written for it, are those of `gridfs run`. But each line after `go` is answered as soon as it has ended,
before more is read, so that the next line can be chosen by the answer. A fault of the plan is told as soon as its line has ended.

After a fault the answers that were written before it stand: they are the beginning of what `gridfs run` writes.";

const ORDER: &str = "\
Behind the answers of `gridfs run` come a line for each operation on the file, in an order that keeps precedence and in which
a single register gives the same answers, and the word `legal`: this execution was linearizable.

    write SESSION OP HEX        the session's operation of this number wrote this content
    read SESSION OP HEX         it read this content
    row SESSION OP LENGTH       it was a listing, and told that the file has this many bytes

Writes that did not end stand in it where a read or a listing told of them. A file of which nothing was asked has no such
line. On the script of `gridfs run --help`, `gridfs order ann 0 0` writes behind the answers:

    write 1 1 6869
    legal";

const HISTORY: &str = "\
The answers are not written. In their place comes a line for the beginning and one for the end of each operation on the file, in
the order of the lines of the script, each a map in EDN, as checkers of histories read it. On the script of `gridfs run --help`,
`gridfs history ann 0 0` writes:

    {:index 0, :time 6, :type :invoke, :process 1, :f :write, :value \"6869\"}
    {:index 1, :time 10, :type :ok, :process 1, :f :write, :value \"6869\"}

An operation that did not end has `:info` in place of `:ok`, behind all lines. docs/FORMATS.md has the whole form.";

const PICTURE: &str = "\
The answers are not written. In their place comes a picture (SVG) of the operations on the file, in the order in which a single
register gives the same answers: a lane for each session, a bar for each operation from its beginning to its end, a point in it
where it takes place, and on top what the register holds. Each read's point is below what it gave. Writes that did not end stand
in it where a read or a listing told of them, with a dashed bar. Below are the servers that were down, and when.

    gridfs picture ann 0 0 < script > file.svg";

const LIVE: &str = "\
The input is a plan whose tenants all have 1000000 steps, and after its line `go` lines of these kinds:

    NAME open FILES BLOCKS              open a volume, before the run
    NAME write S V F HEX                session S writes the content HEX to file F of volume V
    NAME read S V F                     session S reads file F of volume V
    NAME list S V                       session S lists the files of volume V
    server N down                       server N stops
    server N up                         server N returns

Each session does its own lines in their order, in a thread of its own, and beside it run two threads for each server and one
for the servers' stops and returns. What was done is recorded and inspected: it is a run of the service. That run is written
as a script: the plan, the opens, and each request, delivery, retry and abandonment and each stop and return of a server, in
the order in which they took place. `gridfs run` reads the script and gives the answers that the sessions were told, and
`gridfs order` the order of a file's operations, if it has at most 16777216 bytes.

A fault of the input is told by one line on standard error, with the number of the line: `livesteps` where a tenant has not
all steps, `live` where the line is of another kind, names a session that its tenant has not or a server that the grid has
not, `open` where the volume can't be opened. Nothing is written then.";

const FINISH: &str = "\
The lines that are written complete the operation that the session has at the end of the script: a retry of the session, and
deliveries of messages to servers and back, in order. The script with these lines behind it is one on which `gridfs run` ends
with the operation's line `done`. Where the script's last line has no newline, one is written first.

On the script of `gridfs run --help` without its last two lines, `gridfs finish ann 1` writes:

    ann retry 1
    ann deliver 3
    ann deliver 4

Where the operation can't be completed, that is told by one line on standard error, and nothing is written: `no operation` where
the session has none, `no row up`, `no column up` or `no row and no column up` where its round needs one, `too few steps` where
the tenant has not so many steps left.";

// The number of threads, which may be left out.
fn jobs<'a>(alloc: Global) -> Arg<'a>
    ensures rule { rule_of result ≡ jobs_rule }
    ensures local { result.global ≡ false }
{
    Arg::new(alloc, "JOBS")
        .short('j')
        .long("jobs")
        .action(ArgAction::Set)
        .value_parser(clap::value_parser!(u32))
        .help("The threads that answer the lines; 0 for as many as there are cores [default: 1]")
}

// The tenant's name, which has to be given.
fn name<'a>(alloc: Global) -> Arg<'a>
    ensures rule { rule_of result ≡ name_rule }
    ensures local { result.global ≡ false }
{
    Arg::new(alloc, "NAME")
        .required(true)
        .action(ArgAction::Set)
        .help("The tenant's name")
}

// The subcommand `run`.
fn run<'a>(alloc: Global) -> Result<Command<'a>, AllocError>
    ensures shape { IfOk result (λ c. (app_of c).top ≡ run_shape) }
    ensures local { IfOk result (λ c. (fields_of c).has_globals ≡ false) }
{
    let run = subcommand(
        alloc,
        "run",
        "Read a script from standard input, and write one line of answer for each of its lines",
        INPUT,
    )
    .arg(jobs(alloc))?;
    Ok(run)
}

// A subcommand about a file of a tenant.
fn of_file<'a>(
    alloc: Global,
    subcommand_name: &'a str,
    about: &'a str,
    help: &'a str,
) -> Result<Command<'a>, AllocError>
    ensures shape { IfOk result (λ c. (app_of c).top ≡ file_shape subcommand_name.entry.now) }
    ensures local { IfOk result (λ c. (fields_of c).has_globals ≡ false) }
{
    let whole = subcommand(alloc, subcommand_name, about, help)
        .arg(name(alloc))?
        .arg(number(alloc, "VOLUME", "The number of the tenant's volume, from 0"))?
        .arg(number(alloc, "FILE", "The number of the volume's file, from 0"))?;
    Ok(whole)
}

// The subcommand `finish`.
fn finish<'a>(alloc: Global) -> Result<Command<'a>, AllocError>
    ensures shape { IfOk result (λ c. (app_of c).top ≡ finish_shape) }
    ensures local { IfOk result (λ c. (fields_of c).has_globals ≡ false) }
{
    let finish = subcommand(
        alloc,
        "finish",
        "Write the lines that complete the operation of a session of the tenant",
        FINISH,
    )
    .arg(name(alloc))?
    .arg(number(
        alloc,
        "SESSION",
        "The number of the tenant's session, from 1",
    ))?;
    Ok(finish)
}

// The command line without its subcommands.
fn bare<'a>(alloc: Global) -> Command<'a>
    ensures app { app_of result ≡ bare_gridfs }
{
    Command::new(alloc, "gridfs")
        .about(
            "A replicated file service for many tenants: each is told what its run alone would tell",
        )
        .version(VERSION)
        .after_help(INPUT)
        .subcommand_required(true)
}

// The whole command line.
fn command<'a>(alloc: Global) -> Result<Command<'a>, AllocError>
    ensures app { IfOk result (λ c. app_of c ≡ gridfs) }
{
    let to_run = with(Ok(bare(alloc)), run(alloc));
    let to_order = with(
        to_run,
        of_file(
            alloc,
            "order",
            "The same, and behind it the order of the operations on a file of the tenant",
            ORDER,
        ),
    );
    let to_finish = with(to_order, finish(alloc));
    let to_live = with(
        to_finish,
        Ok(subcommand(
            alloc,
            "live",
            "Run the programs of an input in threads, and write the run as a script",
            LIVE,
        )),
    );
    let to_step = with(
        to_live,
        Ok(subcommand(
            alloc,
            "step",
            "Answer each line of a script as soon as it has ended",
            STEP,
        )),
    );
    let to_history = with(
        to_step,
        of_file(
            alloc,
            "history",
            "Write the history of the operations on a file of the tenant, as Jepsen has it",
            HISTORY,
        ),
    );
    with(
        to_history,
        of_file(
            alloc,
            "picture",
            "Draw the operations on a file of the tenant",
            PICTURE,
        ),
    )
}

// What a parse of the words found. clap has refused words that leave out what has to be given, or that give a number in
// another form.
fn command_of<'a>(matches: &ArgMatches<'a>) -> Request<'a>
    requires known { NamesCommand (subcommand_name_of matches.now) }
    ensures name { subcommand_name_of matches.now ≡ Some (command_name result) }
    ensures values { HasValues (rows_behind (subcommand_rows_of matches.now)) result }
{
    if matches.subcommand_matches("live").is_some() {
        return Request::Live;
    }
    if matches.subcommand_matches("step").is_some() {
        return Request::Step;
    }
    if let Some(finish) = matches.subcommand_matches("finish") {
        return Request::Finish {
            name: text_of(finish, "NAME"),
            session: number_of(finish, "SESSION", 0),
        };
    }
    if let Some(order) = matches.subcommand_matches("order") {
        return Request::Order {
            name: text_of(order, "NAME"),
            volume: number_of(order, "VOLUME", 0),
            file: number_of(order, "FILE", 0),
        };
    }
    if let Some(history) = matches.subcommand_matches("history") {
        return Request::History {
            name: text_of(history, "NAME"),
            volume: number_of(history, "VOLUME", 0),
            file: number_of(history, "FILE", 0),
        };
    }
    if let Some(picture) = matches.subcommand_matches("picture") {
        return Request::Picture {
            name: text_of(picture, "NAME"),
            volume: number_of(picture, "VOLUME", 0),
            file: number_of(picture, "FILE", 0),
        };
    }
    let jobs = match matches.subcommand_matches("run") {
        Some(run) => number_of(run, "JOBS", 1),
        None => unreachable!(),
    };
    Request::Run { jobs }
}

/// Reads the words of a command line, of which the first is the program's name. Words that ask for help or for the version,
/// or that are no request, give the text to show, whose exit status is its own (0 where it was asked for, else 2); where
/// memory is wanting, that is told before any text. Behind `live` no word may come but `--`, by which clap ends the options.
pub fn read_words<'a>(alloc: Global, words: &'a [&'a str]) -> Result<Request<'a>, Usage>
    ensures request { IfOk result (IsAskedBy (texts words.entry.now)) }
    ensures values { IfOk result (HasValues (given_by gridfs (texts words.entry.now))) }
    ensures run { IsAlone (codes "run") (texts words.entry.now) → IfErr result IsMemory }
    ensures live { AsksForLive (texts words.entry.now) → IfErr result IsMemory }
    ensures shown { IfErr result (ShownFor gridfs (texts words.entry.now)) }
    ensures help { (program : Text) → texts words.entry.now ≡ program ∷ codes "--help" ∷ [] → IsErrAnd result (Shows DisplayHelp) }
    ensures version { (program : Text) → texts words.entry.now ≡ program ∷ codes "--version" ∷ [] → IsErrAnd result (Shows DisplayVersion) }
{
    match matches_of(command(alloc), words) {
        Ok(matches) => Ok(command_of(&matches)),
        Err(usage) => Err(usage),
    }
}
