//! From the words of a node's command line to what they ask for.

ghost use Rattle.std.specs.Prelude.{◌≡◌, ◌∷◌, [], Some, false, codes, IfOk, IfErr, IsErrAnd};
ghost use Rattle.clap.specs.Matches.{subcommand_name_of};
ghost use Rattle.clap.specs.Simple.{app_of, subcommand_rows_of};
ghost use Rattle.clap.specs.Walk.{Text, rule_of, texts};
ghost use Rattle.clap.specs.declared.builder.command.Command.TheViews.{out-Command as fields_of};
ghost use Rattle.clap.specs.declared.error.kind.ErrorKind.TheVariants.{DisplayHelp, DisplayVersion};
ghost use Rattle.gq_words.specs.Words.{ShownFor, Shows};
ghost use Rattle.gq_words.specs.Given.{given_by, rows_behind};
ghost use Rattle.gq_node_words.specs.Words.{IsAskedBy, NamesCommand, anew_rule, bare_gridfs_node, begin_rule, command_name, file_rule, gridfs_node, next_rule, node_shape, path_rule, plan_shape, scrub_rule};
ghost use Rattle.gq_node_words.specs.Given.{HasValues};

use clap::{Arg, ArgAction, ArgMatches, Command};
use gq_words::{
    Usage, VERSION, flag_of, matches_of, number, number_of, path_of, subcommand, text_of, with,
};
use std::alloc::{AllocError, Global};

/// Within so many days all contents on the shelf of a node are read, unless it is told otherwise.
pub const SCRUB_DAYS: u32 = 14;

/// What a command line asks for.
#[derive(Clone, Copy, PartialEq, Eq)]
pub enum NodeCommand<'a> {
    /// To be one server of a grid.
    Node(NodeRequest<'a>),
    /// To tell what a plan says.
    Plan(PlanRequest<'a>),
}

/// Which node of a grid a process is asked to be.
#[derive(Clone, Copy, PartialEq, Eq)]
pub struct NodeRequest<'a> {
    /// The number of the node, from 0.
    pub number: u32,
    /// The path of the plan's file.
    pub plan: &'a str,
    /// The path of the node's journal.
    pub journal: &'a str,
    /// Whether the journal is to be begun: there is none yet.
    pub is_new: bool,
    /// Whether the journal is to be written anew before lines are taken.
    pub is_anew: bool,
    /// Within so many days all contents on the shelf are to be read, again and again; 0: none is.
    pub scrub: u32,
}

/// Which plan a process is asked to tell of.
#[derive(Clone, Copy, PartialEq, Eq)]
pub struct PlanRequest<'a> {
    /// The path of the plan's file.
    pub plan: &'a str,
    /// The path of an older plan's file, where the question is whether the plan may follow that one.
    pub old: Option<&'a str>,
}

const ABOUT: &str = "\
What a tenant is told is as if it were alone, whatever the others do; that is proved of this program. docs/FORMATS.md has all forms
of lines and files.";

const NODE: &str = "\
Lines come in on standard input and go out on standard output, each `TO FROM BODY`, where TO and FROM are a server's number or a
tenant's name. Whatever carries lines may carry them, and may lose them, repeat them and change their order. A tenant's request
goes to the home of its session, under the number that its operation is to have:

    0 ann write 1 1 0 0 6869            ann writes `hi` in session 1, operation 1, to file 0 of volume 0
    ann 0 done write 1 1 tag 1 1        what she is told once a column of servers keeps it on disk

A request may be sent again until it is answered, and takes effect once. `N N tick` has node N ask other servers where an
operation waits. docs/FORMATS.md has all forms.

The plan is that of `gridfs run`. After `go` it has lines `NAME open FILES BLOCKS`, which open the volumes at each start,
`NAME chunks KIB`, which give room for chunks, `replace PLACE`, one for each node that was lost, `gone NAME`, one for each tenant
that left, and no others. What must not be forgotten is in the journal, and on disk, before anything that rests on it is written.
`--new` begins the journal, at the grid's first start or that of a new node. `--anew` has it written anew: what was replaced stands
in it no more. All contents on the shelf are read once in `--scrub` days, 14 where it is left out, and one that is damaged is asked
of the other nodes of the column; 0 reads none. A node whose journal is lost can't come back: a new one, whose number is greater by 64, takes its place, and others
give it the files.

    gridfs-node node 0 --plan plan --journal node0.journal --new < lines

On standard error the node says when it is ready. It ends with status 0 at the end of its input, 1 where the plan, the number, a
file or a stream is at fault, 3 where memory is wanting, 4 where the journal is damaged.";

const PLAN: &str = "\
FILE is a plan as a node takes it: that of `gridfs run`, and after `go` only lines `NAME open FILES BLOCKS`, also with `times N`,
`NAME chunks KIB`, `replace PLACE` and `gone NAME`. What it says is written in lines of words NAME=VALUE. The first word of a line
tells what the line is of:

    rows=       the grid: rows, columns, nodes, room (the blocks of each server), tenants, losses; line, the most bytes of a line
                that nodes take; answer, those of the answer `plan`; memory, the bytes that a node takes as it starts; peak, the most
                that it takes at any time
    place=      a place of the grid, and the node that stands there
    replace=    the place of a node that was lost; the lines are in order
    gone=       the name of a tenant that is gone; the lines are in order
    tenant=     a tenant: its share in blocks, how many of them no volume takes (free), its sessions, steps, the most blocks of a file
                (most), how many volumes it may open (volumes), how many volumes are open, with how many files; and how many KiB of
                chunks it has room for at each server, where it has some (chunks)
    session=    a session, its tenant, and the place of its home
    open=       volumes of this tenant that are alike and follow one another: files, blocks of a file, and how many they are (times)

Later programs may write more lines, and more words in a line: pass over those that you don't know. On the plan of `gridfs run --help`
this is written:

    rows=1 columns=1 nodes=1 room=1 tenants=1 losses=0 line=4095 answer=400 memory=80 peak=134218112
    place=0 node=0
    tenant=ann share=1 free=1 sessions=1 steps=100 most=16 volumes=64 open=0 files=0
    session=1 tenant=ann home=0

With `--next OLD` nothing is written of the plan but `follows=yes`, where a node that has the plan OLD may start with FILE, and a line
for each tenant of OLD that is gone by FILE:

    gone=       its name; its share, which is free again (freed); the KiB of chunks that it had room for at each server (chunks)

Where a node may not, the line and the reason are told on standard error, as a node tells them. The status is 1 then, and where a
plan is at fault or a file can't be read; 3 where memory is wanting.

    gridfs-node plan --next OLD NEW";

// A file that has to be named, by an option.
fn file_option<'a>(alloc: Global, id: &'a str, long: &'a str, help: &'a str) -> Arg<'a>
    ensures rule { rule_of result ≡ file_rule id.entry.now long.entry.now }
    ensures local { result.global ≡ false }
{
    Arg::new(alloc, id)
        .long(long)
        .required(true)
        .action(ArgAction::Set)
        .value_name("FILE")
        .help(help)
}

// A file that has to be given.
fn path<'a>(alloc: Global) -> Arg<'a>
    ensures rule { rule_of result ≡ path_rule }
    ensures local { result.global ≡ false }
{
    Arg::new(alloc, "FILE")
        .required(true)
        .action(ArgAction::Set)
        .help("The plan's file")
}

// The file of an older plan, which may be left out.
fn next<'a>(alloc: Global) -> Arg<'a>
    ensures rule { rule_of result ≡ next_rule }
    ensures local { result.global ≡ false }
{
    Arg::new(alloc, "NEXT")
        .long("next")
        .action(ArgAction::Set)
        .value_name("OLD")
        .help("Say whether the plan may follow this one")
}

// Whether the journal is to be begun.
fn begin<'a>(alloc: Global) -> Arg<'a>
    ensures rule { rule_of result ≡ begin_rule }
    ensures local { result.global ≡ false }
{
    Arg::new(alloc, "NEW")
        .long("new")
        .action(ArgAction::SetTrue)
        .help("Begin the journal: there must be none")
}

// Whether the journal is to be written anew.
fn anew<'a>(alloc: Global) -> Arg<'a>
    ensures rule { rule_of result ≡ anew_rule }
    ensures local { result.global ≡ false }
{
    Arg::new(alloc, "ANEW")
        .long("anew")
        .action(ArgAction::SetTrue)
        .help("Write the journal anew before lines are taken: without what was replaced")
}

// Within how many days all contents on the shelf are read, which may be left out.
fn scrub<'a>(alloc: Global) -> Arg<'a>
    ensures rule { rule_of result ≡ scrub_rule }
    ensures local { result.global ≡ false }
{
    Arg::new(alloc, "SCRUB")
        .long("scrub")
        .action(ArgAction::Set)
        .value_parser(clap::value_parser!(u32))
        .value_name("DAYS")
        .help(
            "Read all contents on the shelf once in so many days, and mend those that are damaged; 0 reads none [default: 14]",
        )
}

// The subcommand `node`.
fn node<'a>(alloc: Global) -> Result<Command<'a>, AllocError>
    ensures shape { IfOk result (λ c. (app_of c).top ≡ node_shape) }
    ensures local { IfOk result (λ c. (fields_of c).has_globals ≡ false) }
{
    let node = subcommand(
        alloc,
        "node",
        "Be one server of a grid: take lines from standard input to its end, over a journal on disk",
        NODE,
    )
    .arg(number(alloc, "NUMBER", "The number of the node, from 0"))?
    .arg(file_option(
        alloc,
        "PLAN",
        "plan",
        "The plan of the grid, with the volumes that are open",
    ))?
    .arg(file_option(alloc, "JOURNAL", "journal", "The node's journal"))?
    .arg(begin(alloc))?
    .arg(anew(alloc))?
    .arg(scrub(alloc))?;
    Ok(node)
}

// The subcommand `plan`.
fn plan<'a>(alloc: Global) -> Result<Command<'a>, AllocError>
    ensures shape { IfOk result (λ c. (app_of c).top ≡ plan_shape) }
    ensures local { IfOk result (λ c. (fields_of c).has_globals ≡ false) }
{
    let plan = subcommand(
        alloc,
        "plan",
        "Tell what a plan says, or whether it may follow another",
        PLAN,
    )
    .arg(path(alloc))?
    .arg(next(alloc))?;
    Ok(plan)
}

// The command line without its subcommands.
fn bare<'a>(alloc: Global) -> Command<'a>
    ensures app { app_of result ≡ bare_gridfs_node }
{
    Command::new(alloc, "gridfs-node")
        .about("A node of a replicated file service for many tenants, and what its plan says")
        .version(VERSION)
        .after_help(ABOUT)
        .subcommand_required(true)
}

// The whole command line.
fn command<'a>(alloc: Global) -> Result<Command<'a>, AllocError>
    ensures app { IfOk result (λ c. app_of c ≡ gridfs_node) }
{
    let to_node = with(Ok(bare(alloc)), node(alloc));
    with(to_node, plan(alloc))
}

// What a parse of the words found. clap has refused words that leave out what has to be given, or that give a number in
// another form.
fn command_of<'a>(matches: &ArgMatches<'a>) -> NodeCommand<'a>
    requires known { NamesCommand (subcommand_name_of matches.now) }
    ensures name { subcommand_name_of matches.now ≡ Some (command_name result) }
    ensures values { HasValues (rows_behind (subcommand_rows_of matches.now)) result }
{
    if let Some(node) = matches.subcommand_matches("node") {
        return NodeCommand::Node(NodeRequest {
            number: number_of(node, "NUMBER", 0),
            plan: text_of(node, "PLAN"),
            journal: text_of(node, "JOURNAL"),
            is_new: flag_of(node, "NEW"),
            is_anew: flag_of(node, "ANEW"),
            scrub: number_of(node, "SCRUB", SCRUB_DAYS),
        });
    }
    let Some(plan) = matches.subcommand_matches("plan") else {
        unreachable!()
    };
    NodeCommand::Plan(PlanRequest {
        plan: text_of(plan, "FILE"),
        old: path_of(plan, "NEXT"),
    })
}

/// Reads the words of a command line, of which the first is the program's name. Words that ask for help or for the version,
/// or that are no request, give the text to show, whose exit status is its own (0 where it was asked for, else 2); where
/// memory is wanting, that is told before any text.
pub fn read_words<'a>(alloc: Global, words: &'a [&'a str]) -> Result<NodeCommand<'a>, Usage>
    ensures request { IfOk result (IsAskedBy (texts words.entry.now)) }
    ensures values { IfOk result (HasValues (given_by gridfs_node (texts words.entry.now))) }
    ensures shown { IfErr result (ShownFor gridfs_node (texts words.entry.now)) }
    ensures help { (program : Text) → texts words.entry.now ≡ program ∷ codes "--help" ∷ [] → IsErrAnd result (Shows DisplayHelp) }
    ensures version { (program : Text) → texts words.entry.now ≡ program ∷ codes "--version" ∷ [] → IsErrAnd result (Shows DisplayVersion) }
{
    match matches_of(command(alloc), words) {
        Ok(matches) => Ok(command_of(&matches)),
        Err(usage) => Err(usage),
    }
}
