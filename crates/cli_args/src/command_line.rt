//! The command lines of the program.
ghost use Rattle.std.specs.Prelude.{ℕ, Bool, ◌≡◌, ◌≢◌, ◌⊎◌, IfOk, IfErr, IfSome, IsNone, Option};
ghost use Rattle.std.specs.Prelude.{codes, false};
ghost use Rattle.clap.specs.Words.{Text, app_of, rows_of, found_of, rule_of, subcommand_of};
ghost use Rattle.clap.specs.Words.{subcommand_rows_of, kind_of};
ghost use Rattle.clap.specs.declared.builder.command.Command.TheViews.{out-Command};
ghost use Rattle.output_lines.specs.declared.format.Format.{Format};
ghost use Rattle.output_lines.specs.declared.format.Show.{Show};
ghost use Rattle.cli_args.specs.Command.{one_command, decode_command, page_command};
ghost use Rattle.cli_args.specs.Command.{capture_command, fault_command, program};
ghost use Rattle.cli_args.specs.Command.{required_word, show_name, format_name, References};
ghost use Rattle.cli_args.specs.Command.{AreShowNames, AreFormatNames, OneTexts, ReplayTexts};
ghost use Rattle.cli_args.specs.Command.{ChangesTexts, FollowTexts, ExplainTexts, PageTexts};
ghost use Rattle.cli_args.specs.Command.{CaptureTexts, texts_of, HasWords, HasJob, IsJob};
ghost use Rattle.cli_args.specs.Command.{IsJobOf, IsMistake, IsProgram, IsReplayCommand};
ghost use Rattle.cli_args.specs.Command.{IsChangesCommand, IsFollowCommand, IsExplainCommand};
ghost use Rattle.cli_args.specs.Command.{IsShowOption, IsFormatOption, HasDecodeWords, HasFlag};
ghost use Rattle.cli_args.specs.Command.{HasReplayWords, HasChangesWords, HasFollowWords};
ghost use Rattle.cli_args.specs.Command.{HasExplainWords, HasPageWords, HasCaptureWords, IsJobFit};
ghost use Rattle.cli_args.specs.Command.{WritesWorkers, workers_option, long_flag, only_option};
ghost use Rattle.cli_args.specs.Command.{due_option, output_option, router_option};
ghost use Rattle.cli_args.specs.Command.{begin_option, all_flag, no_seconds_flag, strict_flag};
ghost use Rattle.cli_args.specs.Command.{progress_flag, command_words, GivesJob, JobTexts, Spells};

use crate::command::{CaptureWords, Job, OneWords, Usage};
use clap::builder::ValueParser;
use clap::error::ErrorKind;
use clap::{Arg, ArgAction, ArgMatches, Command, Error};
use output_lines::{Format, Show};
use std::alloc::{AllocError, Global};

// The version that `--version` prints.
const VERSION: &str = "0.1.0";

// The minimum number of workers.
const FEWEST_WORKERS: usize = 1;

// The maximum number of workers.
const MOST_WORKERS: usize = 16;

// The help of the word FILE.
const FILE_HELP: &str = "The recording, or - for standard input";

// The help of the word FILE of `capture`.
const CAPTURE_HELP: &str = "The capture, a pcap or a pcapng, or - for standard input";

// The help of the word ADDRESS of `explain`.
const ADDRESS_HELP: &str =
    "The address; with --due a network, or the Router ID of an AS boundary router";

// An example of a command line with `one`.
const ONE_EXAMPLE: &str = "Example: abr one 10.0.0.1 0.0.0.0 192.0.2.1 \
    000102010a0000010a00000180000001e986002400000001c0000200ffffff000300000a 192.0.2.77";

// The values of `--show`.
const SHOW_NAMES: &[&str] = &["routes", "due", "lsdb", "journal"];

// The values of `--format`.
const FORMAT_NAMES: &[&str] = &["text", "json"];

/// Returns the command that the words select. The first word is the name of the program.
///
/// # Errors
///
/// Returns the parser's message if the words are not a valid command line, or if they ask for help
/// or the version. Returns 30 Memory if memory runs out.
pub fn job<'a>(alloc: Global, words: &'a [&'a str]) -> Result<Job<'a>, Usage>
    ensures job { IfOk result (IsJob (subcommand_of program (command_words words.entry.now))) }
    ensures fit { IfOk result IsJobFit }
    ensures mistake { IfErr result (IsMistake (command_words words.entry.now)) }
    ensures gives { (t : JobTexts) → Spells (command_words words.entry.now) t → GivesJob result t }
{
    let command = program_command(alloc)?;
    match command.try_get_matches_from(words) {
        Ok(matches) => match job_in(&matches) {
            Some(job) => Ok(job),
            None => Err(Usage::Told(missing_word(alloc)?)),
        },
        Err(error) => Err(usage_of(error)),
    }
}

fn usage_of(error: Error) -> Usage
    ensures { (result ≡ Usage.Memory × kind_of error ≡ ErrorKind.OutOfMemory)
        ⊎ (result ≡ Usage.Told error × kind_of error ≢ ErrorKind.OutOfMemory) }
{
    match error.kind() {
        ErrorKind::OutOfMemory => Usage::Memory,
        _ => Usage::Told(error),
    }
}

// Returns the error of a missing word. It does not occur: a required word always has a value, and
// so has an option with a default. But no clause of the parser says so for a subcommand.
fn missing_word(alloc: Global) -> Result<Error, AllocError>
    ensures { IfOk result (λ e. kind_of e ≡ ErrorKind.MissingRequiredArgument) }
{
    let mut command = program_command(alloc)?;
    command.error(ErrorKind::MissingRequiredArgument, "a word is missing")
}

fn job_in<'a>(matches: &ArgMatches<'a>) -> Option<Job<'a>>
    ensures some { IfSome result (IsJob (subcommand_rows_of matches.now)) }
    ensures none { IsNone result → ¬ HasJob (subcommand_rows_of matches.now) }
{
    let (name, words) = matches.subcommand()?;
    if name == "one" {
        Some(Job::One(one_words(words)?))
    } else if name == "decode" {
        decode_job(words)
    } else if name == "replay" {
        replay_job(words)
    } else if name == "changes" {
        changes_job(words)
    } else if name == "follow" {
        follow_job(words)
    } else if name == "explain" {
        explain_job(words)
    } else if name == "page" {
        page_job(words)
    } else if name == "capture" {
        capture_job(words)
    } else if name == "fault" {
        Some(Job::Fault(words.get_str("NUMBER")?))
    } else {
        None
    }
}

fn decode_job<'a>(words: &ArgMatches<'a>) -> Option<Job<'a>>
    ensures some { IfSome result (IsJobOf (codes "decode") (rows_of (found_of words.now))) }
    ensures none { IsNone result → (hex : Text) (long : Bool)
        → ¬ HasDecodeWords (rows_of (found_of words.now)) hex long }
{
    Some(Job::Decode {
        word: words.get_str("HEX")?,
        long: words.get_str("long")? == "true",
    })
}

fn changes_job<'a>(words: &ArgMatches<'a>) -> Option<Job<'a>>
    ensures some { IfSome result (IsJobOf (codes "changes") (rows_of (found_of words.now))) }
    ensures none { IsNone result → (t : ChangesTexts)
        → ¬ HasChangesWords (rows_of (found_of words.now)) t }
{
    Some(Job::Changes {
        file: words.get_str("FILE")?,
        only: words.get_str("only"),
        format: format_of(words.get_str("format")?)?,
        progress: progress_of(words)?,
    })
}

fn follow_job<'a>(words: &ArgMatches<'a>) -> Option<Job<'a>>
    ensures some { IfSome result (IsJobOf (codes "follow") (rows_of (found_of words.now))) }
    ensures none { IsNone result → (t : FollowTexts)
        → ¬ HasFollowWords (rows_of (found_of words.now)) t }
{
    Some(Job::Follow {
        only: words.get_str("only"),
        strict: words.get_str("strict")? == "true",
        format: format_of(words.get_str("format")?)?,
    })
}

fn explain_job<'a>(words: &ArgMatches<'a>) -> Option<Job<'a>>
    ensures some { IfSome result (IsJobOf (codes "explain") (rows_of (found_of words.now))) }
    ensures none { IsNone result → (t : ExplainTexts)
        → ¬ HasExplainWords (rows_of (found_of words.now)) t }
{
    Some(Job::Explain {
        file: words.get_str("FILE")?,
        address: words.get_str("ADDRESS")?,
        due: words.get_str("due"),
        format: format_of(words.get_str("format")?)?,
        progress: progress_of(words)?,
    })
}

fn page_job<'a>(words: &ArgMatches<'a>) -> Option<Job<'a>>
    ensures some { IfSome result (IsJobOf (codes "page") (rows_of (found_of words.now))) }
    ensures none { IsNone result → (t : PageTexts)
        → ¬ HasPageWords (rows_of (found_of words.now)) t }
{
    Some(Job::Page {
        file: words.get_str("FILE")?,
        output: words.get_str("output"),
        progress: progress_of(words)?,
    })
}

fn capture_job<'a>(words: &ArgMatches<'a>) -> Option<Job<'a>>
    ensures some { IfSome result (IsJobOf (codes "capture") (rows_of (found_of words.now))) }
    ensures none { IsNone result → (t : CaptureTexts)
        → ¬ HasCaptureWords (rows_of (found_of words.now)) t }
{
    Some(Job::Capture(CaptureWords {
        file: words.get_str("FILE")?,
        router: words.get_str("router"),
        begin: words.get_str("begin"),
        keeps_all: words.get_str("all")? == "true",
        without_seconds: words.get_str("no-seconds")? == "true",
    }))
}

fn replay_job<'a>(words: &ArgMatches<'a>) -> Option<Job<'a>>
    ensures some { IfSome result (IsJobOf (codes "replay") (rows_of (found_of words.now))) }
    ensures none { IsNone result → (t : ReplayTexts)
        → ¬ HasReplayWords (rows_of (found_of words.now)) t }
{
    Some(Job::Replay {
        file: words.get_str("FILE")?,
        workers: workers_of(words.get_str("workers")?)?,
        show: show_of(words.get_str("show")?)?,
        format: format_of(words.get_str("format")?)?,
        progress: progress_of(words)?,
    })
}

// Returns true if `--progress` was given.
fn progress_of(words: &ArgMatches<'_>) -> Option<bool>
    ensures some { IfSome result (HasFlag (rows_of (found_of words.now)) (codes "progress")) }
    ensures none { IsNone result → (progress : Bool)
        → ¬ HasFlag (rows_of (found_of words.now)) (codes "progress") progress }
{
    Some(words.get_str("progress")? == "true")
}

fn one_words<'a>(matches: &ArgMatches<'a>) -> Option<OneWords<'a>>
    ensures some { IfSome result (λ w. HasWords (rows_of (found_of matches.now)) (texts_of w)) }
    ensures none { IsNone result → (t : OneTexts) → ¬ HasWords (rows_of (found_of matches.now)) t }
{
    Some(OneWords {
        router: matches.get_str("ROUTER")?,
        area: matches.get_str("AREA")?,
        address: matches.get_str("ADDRESS")?,
        lsa: matches.get_str("HEX")?,
        lookup: matches.get_str("LOOKUP")?,
    })
}

// Returns the number that the word spells, if it is a valid number of workers.
fn workers_of(word: &str) -> Option<usize>
    ensures some { IfSome result (WritesWorkers word.now) }
    ensures none { IsNone result → (n : ℕ) → ¬ WritesWorkers word.now n }
{
    match word.parse() {
        Ok(number) if FEWEST_WORKERS <= number && number <= MOST_WORKERS => Some(number),
        _ => None,
    }
}

fn show_of(name: &str) -> Option<Show>
    ensures some { IfSome result (λ show. show_name show ≡ name.now) }
    ensures none { IsNone result → (show : Show) → show_name show ≢ name.now }
{
    if name == "routes" {
        Some(Show::Routes)
    } else if name == "due" {
        Some(Show::Due)
    } else if name == "lsdb" {
        Some(Show::Lsdb)
    } else if name == "journal" {
        Some(Show::Journal)
    } else {
        None
    }
}

fn format_of(name: &str) -> Option<Format>
    ensures some { IfSome result (λ format. format_name format ≡ name.now) }
    ensures none { IsNone result → (format : Format) → format_name format ≢ name.now }
{
    if name == "text" {
        Some(Format::Text)
    } else if name == "json" {
        Some(Format::Json)
    } else {
        None
    }
}

fn program_command<'a>(alloc: Global) -> Result<Command<'a>, AllocError>
    ensures { IfOk result (λ c. IsProgram (app_of c)) }
{
    Command::new(alloc, "abr")
        .about("An OSPF area border router's databases and routing table (RFC 2328)")
        .version(VERSION)
        .subcommand_required(true)
        .arg_required_else_help(true)
        .subcommand(one(alloc)?)?
        .subcommand(decode(alloc)?)?
        .subcommand(replay(alloc)?)?
        .subcommand(changes(alloc)?)?
        .subcommand(follow(alloc)?)?
        .subcommand(explain(alloc)?)?
        .subcommand(page(alloc)?)?
        .subcommand(capture(alloc)?)?
        .subcommand(fault(alloc)?)
}

fn one<'a>(alloc: Global) -> Result<Command<'a>, AllocError>
    ensures app { IfOk result (λ c. app_of c ≡ one_command) }
    ensures local { IfOk result (λ c. (out-Command c).has_globals ≡ false) }
{
    Command::new(alloc, "one")
        .about("Looks an address up in the table that one router-LSA gives")
        .after_help(ONE_EXAMPLE)
        .arg(word(alloc, "ROUTER", "The Router ID"))?
        .arg(word(alloc, "AREA", "The Area ID"))?
        .arg(word(alloc, "ADDRESS", "The address of interface 1, which is up"))?
        .arg(word(alloc, "HEX", "The LSA, in hexadecimal"))?
        .arg(word(alloc, "LOOKUP", "The address to look up"))
}

fn decode<'a>(alloc: Global) -> Result<Command<'a>, AllocError>
    ensures app { IfOk result (λ c. app_of c ≡ decode_command) }
    ensures local { IfOk result (λ c. (out-Command c).has_globals ≡ false) }
{
    Command::new(alloc, "decode")
        .about("Prints the fields of an LSA")
        .after_help(
            "Example: abr decode 000102030a0100000a00000280000001da61001cffff00000000000a --long",
        )
        .arg(word(alloc, "HEX", "The LSA, in hexadecimal"))?
        .arg(long_flag(alloc))
}

fn replay<'a>(alloc: Global) -> Result<Command<'a>, AllocError>
    ensures app { IfOk result (λ c. IsReplayCommand (app_of c)) }
    ensures local { IfOk result (λ c. (out-Command c).has_globals ≡ false) }
{
    Command::new(alloc, "replay")
        .about("Runs a recording and shows what came of it")
        .after_help("Example: abr replay examples/border_router.rec --show due")
        .arg(word(alloc, "FILE", FILE_HELP))?
        .arg(workers_option(alloc))?
        .arg(show_option(alloc))?
        .arg(format_option(alloc))?
        .arg(progress_flag(alloc))
}

fn changes<'a>(alloc: Global) -> Result<Command<'a>, AllocError>
    ensures app { IfOk result (λ c. IsChangesCommand (app_of c)) }
    ensures local { IfOk result (λ c. (out-Command c).has_globals ≡ false) }
{
    Command::new(alloc, "changes")
        .about("Tells what each event of a recording changed")
        .after_help("Example: abr changes examples/border_router.rec --only 203.0.113.0/25")
        .arg(word(alloc, "FILE", FILE_HELP))?
        .arg(only_option(alloc))?
        .arg(format_option(alloc))?
        .arg(progress_flag(alloc))
}

fn follow<'a>(alloc: Global) -> Result<Command<'a>, AllocError>
    ensures app { IfOk result (λ c. IsFollowCommand (app_of c)) }
    ensures local { IfOk result (λ c. (out-Command c).has_globals ≡ false) }
{
    Command::new(alloc, "follow")
        .about("Tells what each event changed as it comes")
        .after_help("Example: tail -n +1 -f router.rec | abr follow --only 203.0.113.0/25")
        .arg(only_option(alloc))?
        .arg(strict_flag(alloc))?
        .arg(format_option(alloc))
}

fn explain<'a>(alloc: Global) -> Result<Command<'a>, AllocError>
    ensures app { IfOk result (λ c. IsExplainCommand (app_of c)) }
    ensures local { IfOk result (λ c. (out-Command c).has_globals ≡ false) }
{
    Command::new(alloc, "explain")
        .about("Explains why the routing table has what it has for an address")
        .after_help("Example: abr explain examples/border_router.rec 203.0.113.5 --format json")
        .arg(word(alloc, "FILE", FILE_HELP))?
        .arg(word(alloc, "ADDRESS", ADDRESS_HELP))?
        .arg(due_option(alloc))?
        .arg(format_option(alloc))?
        .arg(progress_flag(alloc))
}

fn page<'a>(alloc: Global) -> Result<Command<'a>, AllocError>
    ensures app { IfOk result (λ c. app_of c ≡ page_command) }
    ensures local { IfOk result (λ c. (out-Command c).has_globals ≡ false) }
{
    Command::new(alloc, "page")
        .about("Writes a page that shows the networks, the routing table and the due summaries")
        .after_help("Example: abr page examples/border_router.rec -o network.html")
        .arg(word(alloc, "FILE", FILE_HELP))?
        .arg(output_option(alloc))?
        .arg(progress_flag(alloc))
}

fn capture<'a>(alloc: Global) -> Result<Command<'a>, AllocError>
    ensures app { IfOk result (λ c. app_of c ≡ capture_command) }
    ensures local { IfOk result (λ c. (out-Command c).has_globals ≡ false) }
{
    Command::new(alloc, "capture")
        .about("Turns a capture of a network into a recording")
        .after_help("Example: abr capture network.pcapng --router 10.0.0.1")
        .arg(word(alloc, "FILE", CAPTURE_HELP))?
        .arg(router_option(alloc))?
        .arg(begin_option(alloc))?
        .arg(all_flag(alloc))?
        .arg(no_seconds_flag(alloc))
}

fn fault<'a>(alloc: Global) -> Result<Command<'a>, AllocError>
    ensures app { IfOk result (λ c. app_of c ≡ fault_command) }
    ensures local { IfOk result (λ c. (out-Command c).has_globals ≡ false) }
{
    Command::new(alloc, "fault")
        .about("Says what the number of a fault or a refusal means, and what to do")
        .after_help("Example: abr fault 22")
        .arg(word(alloc, "NUMBER", "The number, as the program prints it"))
}

fn long_flag<'a>(alloc: Global) -> Arg<'a>
    ensures rule { rule_of result ≡ long_flag }
    ensures local { result.global ≡ false }
{
    Arg::new(alloc, "long")
        .long("long")
        .action(ArgAction::SetTrue)
        .help("Prints each field in words, a line each")
}

fn strict_flag<'a>(alloc: Global) -> Arg<'a>
    ensures rule { rule_of result ≡ strict_flag }
    ensures local { result.global ≡ false }
{
    Arg::new(alloc, "strict")
        .long("strict")
        .action(ArgAction::SetTrue)
        .help("Ends at the first line at fault")
}

fn progress_flag<'a>(alloc: Global) -> Arg<'a>
    ensures rule { rule_of result ≡ progress_flag }
    ensures local { result.global ≡ false }
{
    Arg::new(alloc, "progress")
        .long("progress")
        .action(ArgAction::SetTrue)
        .help("Shows on standard error how many lines are done")
}

fn only_option<'a>(alloc: Global) -> Arg<'a>
    ensures rule { rule_of result ≡ only_option }
    ensures local { result.global ≡ false }
{
    Arg::new(alloc, "only")
        .long("only")
        .value_name("PREFIX")
        .help("The only network that is told of, as 203.0.113.0/25")
}

fn due_option<'a>(alloc: Global) -> Arg<'a>
    ensures rule { rule_of result ≡ due_option }
    ensures local { result.global ≡ false }
{
    Arg::new(alloc, "due").long("due").value_name("AREA").help(
        "Explains why a summary for ADDRESS is due in this area, or is not",
    )
}

fn output_option<'a>(alloc: Global) -> Arg<'a>
    ensures rule { rule_of result ≡ output_option }
    ensures local { result.global ≡ false }
{
    Arg::new(alloc, "output")
        .short('o')
        .long("output")
        .value_name("OUT")
        .help("The file that the page is written to; without it, standard output")
}

fn router_option<'a>(alloc: Global) -> Arg<'a>
    ensures rule { rule_of result ≡ router_option }
    ensures local { result.global ≡ false }
{
    Arg::new(alloc, "router")
        .long("router")
        .value_name("ADDRESS")
        .help("The Router ID of the router whose recording it is to become")
}

fn begin_option<'a>(alloc: Global) -> Arg<'a>
    ensures rule { rule_of result ≡ begin_option }
    ensures local { result.global ≡ false }
{
    Arg::new(alloc, "begin")
        .long("begin")
        .value_name("HEAD")
        .help("A file with the beginning of the recording, in place of one made from the capture")
}

fn all_flag<'a>(alloc: Global) -> Arg<'a>
    ensures rule { rule_of result ≡ all_flag }
    ensures local { result.global ≡ false }
{
    Arg::new(alloc, "all")
        .long("all")
        .action(ArgAction::SetTrue)
        .help("Gives an LSA again each time that it was captured")
}

fn no_seconds_flag<'a>(alloc: Global) -> Arg<'a>
    ensures rule { rule_of result ≡ no_seconds_flag }
    ensures local { result.global ≡ false }
{
    Arg::new(alloc, "no-seconds")
        .long("no-seconds")
        .action(ArgAction::SetTrue)
        .help("Leaves out the seconds that pass")
}

fn workers_option<'a>(alloc: Global) -> Arg<'a>
    ensures rule { rule_of result ≡ workers_option }
    ensures local { result.global ≡ false }
{
    Arg::new(alloc, "workers")
        .long("workers")
        .value_name("N")
        .value_parser(ValueParser::unsigned(FEWEST_WORKERS as u64, MOST_WORKERS as u64))
        .default_value("1")
        .help("How many threads take the events, 1 to 16")
}

fn show_option<'a>(alloc: Global) -> Arg<'a>
    ensures rule { IsShowOption (rule_of result) }
    ensures local { result.global ≡ false }
{
    Arg::new(alloc, "show")
        .long("show")
        .value_name("NAME")
        .value_parser(show_parser())
        .default_value("routes")
        .help("What is shown after the run")
}

fn show_parser<'a>() -> ValueParser<'a>
    ensures { (names : References) × AreShowNames names × (result ≡ ValueParser.Names names) }
{
    ValueParser::Names(SHOW_NAMES)
}

fn format_option<'a>(alloc: Global) -> Arg<'a>
    ensures rule { IsFormatOption (rule_of result) }
    ensures local { result.global ≡ false }
{
    Arg::new(alloc, "format")
        .long("format")
        .value_name("NAME")
        .value_parser(format_parser())
        .default_value("text")
        .help("The form of the lines: text, or json, an object a line")
}

fn format_parser<'a>() -> ValueParser<'a>
    ensures { (names : References) × AreFormatNames names × (result ≡ ValueParser.Names names) }
{
    ValueParser::Names(FORMAT_NAMES)
}

// Returns a required word.
fn word<'a>(alloc: Global, id: &'a str, help: &'a str) -> Arg<'a>
    ensures rule { rule_of result ≡ required_word id.entry.now }
    ensures local { result.global ≡ false }
{
    Arg::new(alloc, id).required(true).help(help)
}
