//! The calls of the program, read by `clap`.
ghost use Rattle.std.specs.Prelude.{◌≡◌, ◌⊎◌, IfOk, IfErr, false, map, option_map, option_and_then};
ghost use Rattle.clap.specs.Words.{app_of, rule_of, found_of, rows_of, first_of, subcommand_rows_of};
ghost use Rattle.clap.specs.declared.builder.command.Command.TheViews.{out-Command as fields_of};
ghost use Rattle.clap.specs.declared.error.kind.ErrorKind.TheVariants.{OutOfMemory};
ghost use Rattle.flow_cli.specs.Calls.{flow, answering, over_lines, over_files, over_texts, with_one, with_two, drive, work, serve, settings, leave_unknown, needed, batch, cache, run_in, batch_in, cache_in, safe_in, settle_in, replay_in, drive_in, history_in, is_set, work_in, serve_in, named_call, IsCall};
ghost use Rattle.flow_cli.specs.Calls.{Call as Pure};
ghost use Rattle.flow_cli.specs.Shown.{shown};

use crate::cache::CacheSize;
use crate::work::Work;
use clap::error::ErrorKind;
use clap::{Arg, ArgAction, ArgMatches, Command};
use flow_base::fault::Fault;
use flow_base::memory::NoMemory;
use flow_base::number::RunId;
use flow_lines::batch::BatchSize;
use std::alloc::{AllocError, Global};
use std::convert::AsStr;

/// What the program is asked to do.
#[derive(Debug, Drop)]
pub enum Call<'a> {
    /// Check the text in this file.
    Check(&'a str),
    /// Tell whether the change from the text in the first file to that in the second is safe.
    Safe {
        old: &'a str,
        new: &'a str,
    },
    /// Tell which patches of the text in the first file that in the second settles.
    Settle {
        old: &'a str,
        new: &'a str,
    },
    /// Replay under the text in this file the history in that one, or each in that folder; `-` is standard input.
    Replay {
        file: &'a str,
        history: &'a str,
    },
    /// Do this over this store; `-` is a store in memory, which begins with no run.
    Over(&'a str, Work),
    /// List the open runs of this store; `-` is a store in memory, which has none.
    Open(&'a str),
    /// Replay each run of this store, closed ones too; `-` is a store in memory, which has none.
    Verify(&'a str),
    /// Keep an engine running over this store, by the settings in that file; `-` is a store in memory. Activities that the program
    /// doesn't have fail, or are left alone.
    Work {
        base: &'a str,
        settings: Option<&'a str>,
        leave_unknown: bool,
    },
    /// The same with activities outside: tasks are lines that are printed, and their reports lines that are read.
    Serve {
        base: &'a str,
        settings: Option<&'a str>,
    },
}

/// An argument with one value, which has to be there.
fn needed_arg<'a>(alloc: Global, id: &'a str) -> Arg<'a>
    ensures rule { rule_of result ≡ needed id.entry.now }
    ensures local { result.global ≡ false }
{
    Arg::new(alloc, id).required(true).action(ArgAction::Set)
}

/// A call with one argument, which has to be there.
fn with_one<'a>(alloc: Global, name: &'a str, id: &'a str) -> Result<Command<'a>, AllocError>
    ensures app { IfOk result (λ c. app_of c ≡ with_one name.entry.now id.entry.now) }
    ensures local { IfOk result (λ c. (fields_of c).has_globals ≡ false) }
{
    Ok(Command::new(alloc, name).arg(needed_arg(alloc, id))?)
}

/// A call with two arguments, which have to be there.
fn with_two<'a>(
    alloc: Global,
    name: &'a str,
    first: &'a str,
    second: &'a str,
) -> Result<Command<'a>, AllocError>
    ensures app { IfOk result (λ c. app_of c ≡ with_two name.entry.now first.entry.now second.entry.now) }
    ensures local { IfOk result (λ c. (fields_of c).has_globals ≡ false) }
{
    Ok(
        Command::new(alloc, name)
            .arg(needed_arg(alloc, first))?
            .arg(needed_arg(alloc, second))?,
    )
}

/// How many commands are applied together; one where nothing is said.
fn batch_arg<'a>(alloc: Global) -> Arg<'a>
    ensures rule { rule_of result ≡ batch }
    ensures local { result.global ≡ false }
{
    Arg::new(alloc, "batch")
        .long("batch")
        .default_value("1")
        .action(ArgAction::Set)
}

/// How many positions of runs are kept; as many as settings usually say where nothing is said.
fn cache_arg<'a>(alloc: Global) -> Arg<'a>
    ensures rule { rule_of result ≡ cache }
    ensures local { result.global ≡ false }
{
    Arg::new(alloc, "cache")
        .long("cache")
        .default_value("256")
        .action(ArgAction::Set)
}

fn drive_command<'a>(alloc: Global) -> Result<Command<'a>, AllocError>
    ensures app { IfOk result (λ c. app_of c ≡ drive) }
    ensures local { IfOk result (λ c. (fields_of c).has_globals ≡ false) }
{
    Ok(
        Command::new(alloc, "drive")
            .arg(needed_arg(alloc, "DB"))?
            .arg(batch_arg(alloc))?
            .arg(cache_arg(alloc))?,
    )
}

/// The file with the settings; it may be left out.
fn settings_arg<'a>(alloc: Global) -> Arg<'a>
    ensures rule { rule_of result ≡ settings }
    ensures local { result.global ≡ false }
{
    Arg::new(alloc, "settings")
        .long("settings")
        .action(ArgAction::Set)
}

/// A word by which activities that the program doesn't have are left alone.
fn leave_unknown_arg<'a>(alloc: Global) -> Arg<'a>
    ensures rule { rule_of result ≡ leave_unknown }
    ensures local { result.global ≡ false }
{
    Arg::new(alloc, "leave-unknown")
        .long("leave-unknown")
        .action(ArgAction::SetTrue)
}

fn work_command<'a>(alloc: Global) -> Result<Command<'a>, AllocError>
    ensures app { IfOk result (λ c. app_of c ≡ work) }
    ensures local { IfOk result (λ c. (fields_of c).has_globals ≡ false) }
{
    Ok(
        Command::new(alloc, "work")
            .arg(needed_arg(alloc, "DB"))?
            .arg(settings_arg(alloc))?
            .arg(leave_unknown_arg(alloc))?,
    )
}

fn serve_command<'a>(alloc: Global) -> Result<Command<'a>, AllocError>
    ensures app { IfOk result (λ c. app_of c ≡ serve) }
    ensures local { IfOk result (λ c. (fields_of c).has_globals ≡ false) }
{
    Ok(
        Command::new(alloc, "serve")
            .arg(needed_arg(alloc, "DB"))?
            .arg(settings_arg(alloc))?,
    )
}

/// The program with the calls that check texts.
fn text_command<'a>(alloc: Global) -> Result<Command<'a>, AllocError>
    ensures app { IfOk result (λ c. app_of c ≡ over_texts) }
{
    let check = with_one(alloc, "check", "FILE")?;
    let safe = with_two(alloc, "safe", "OLD", "NEW")?;
    Ok(
        Command::new(alloc, "flow")
            .subcommand_required(true)
            .subcommand(check)?
            .subcommand(safe)?,
    )
}

/// The program with all calls that read files alone.
fn file_command<'a>(alloc: Global) -> Result<Command<'a>, AllocError>
    ensures app { IfOk result (λ c. app_of c ≡ over_files) }
{
    let settle = with_two(alloc, "settle", "OLD", "NEW")?;
    let replay = with_two(alloc, "replay", "FILE", "HISTORY")?;
    let texts = text_command(alloc)?;
    Ok(texts.subcommand(settle)?.subcommand(replay)?)
}

/// The program with those and the calls that read and write lines over a store.
fn line_command<'a>(alloc: Global) -> Result<Command<'a>, AllocError>
    ensures app { IfOk result (λ c. app_of c ≡ over_lines) }
{
    let drive = drive_command(alloc)?;
    let history = with_two(alloc, "history", "DB", "RUN")?;
    let files = file_command(alloc)?;
    Ok(files.subcommand(drive)?.subcommand(history)?)
}

/// The program with all calls that answer what is asked and end.
fn answering_command<'a>(alloc: Global) -> Result<Command<'a>, AllocError>
    ensures app { IfOk result (λ c. app_of c ≡ answering) }
{
    let verify = with_one(alloc, "verify", "DB")?;
    let open = with_one(alloc, "open", "DB")?;
    let lines = line_command(alloc)?;
    Ok(lines.subcommand(verify)?.subcommand(open)?)
}

/// The program with all calls.
fn flow_command<'a>(alloc: Global) -> Result<Command<'a>, AllocError>
    ensures app { IfOk result (λ c. app_of c ≡ flow) }
{
    let work = work_command(alloc)?;
    let serve = serve_command(alloc)?;
    let answering = answering_command(alloc)?;
    Ok(answering.subcommand(work)?.subcommand(serve)?)
}

#[tactic(auto, using(crate::proofs::Rows::first_in_rows))]
fn text_of<'a>(found: &ArgMatches<'a>, id: &str) -> Option<&'a str>
    ensures { option_map (λ t. t.now) result ≡ first_of id.now (rows_of (found_of found.now)) }
{
    found.get_str(id)
}

/// Whether a word that stands alone is there.
fn has_word(found: &ArgMatches<'_>, id: &str) -> bool
    ensures { result ≡ is_set (first_of id.now (rows_of (found_of found.now))) }
{
    match text_of(found, id) {
        Some("true") => true,
        _ => false,
    }
}

/// The run of a number that is written out: digits, perhaps behind a plus.
pub(crate) fn run_of(word: &str) -> Option<RunId>
    ensures { result ≡ run_in word.now }
{
    match word.parse::<u64>() {
        Ok(number) => RunId::new(number),
        Err(_) => None,
    }
}

/// The size of a batch that is written out, as the number of a run.
fn batch_of(word: &str) -> Option<BatchSize>
    ensures { result ≡ batch_in word.now }
{
    match word.parse::<u64>() {
        Ok(number) => BatchSize::new(number),
        Err(_) => None,
    }
}

/// How many positions are kept, written out as the number of a run.
fn cache_of(word: &str) -> Option<CacheSize>
    ensures { result ≡ cache_in word.now }
{
    match word.parse::<u64>() {
        Ok(number) => CacheSize::new(number),
        Err(_) => None,
    }
}

fn safe_call<'a>(found: &ArgMatches<'a>) -> Option<Call<'a>>
    ensures { option_map shown result ≡ safe_in (rows_of (found_of found.now)) }
{
    let old = text_of(found, "OLD")?;
    let new = text_of(found, "NEW")?;
    Some(Call::Safe { old, new })
}

fn settle_call<'a>(found: &ArgMatches<'a>) -> Option<Call<'a>>
    ensures { option_map shown result ≡ settle_in (rows_of (found_of found.now)) }
{
    let old = text_of(found, "OLD")?;
    let new = text_of(found, "NEW")?;
    Some(Call::Settle { old, new })
}

fn replay_call<'a>(found: &ArgMatches<'a>) -> Option<Call<'a>>
    ensures { option_map shown result ≡ replay_in (rows_of (found_of found.now)) }
{
    let file = text_of(found, "FILE")?;
    let history = text_of(found, "HISTORY")?;
    Some(Call::Replay { file, history })
}

fn drive_call<'a>(found: &ArgMatches<'a>) -> Option<Call<'a>>
    ensures { option_map shown result ≡ drive_in (rows_of (found_of found.now)) }
{
    let base = text_of(found, "DB")?;
    let most = batch_of(text_of(found, "batch")?)?;
    let cache = cache_of(text_of(found, "cache")?)?;
    Some(Call::Over(base, Work::Drive(most, cache)))
}

fn history_call<'a>(found: &ArgMatches<'a>) -> Option<Call<'a>>
    ensures { option_map shown result ≡ history_in (rows_of (found_of found.now)) }
{
    let base = text_of(found, "DB")?;
    let run = run_of(text_of(found, "RUN")?)?;
    Some(Call::Over(base, Work::History(run)))
}

fn work_call<'a>(found: &ArgMatches<'a>) -> Option<Call<'a>>
    ensures { option_map shown result ≡ work_in (rows_of (found_of found.now)) }
{
    let base = text_of(found, "DB")?;
    let settings = text_of(found, "settings");
    let leave_unknown = has_word(found, "leave-unknown");
    Some(Call::Work {
        base,
        settings,
        leave_unknown,
    })
}

fn serve_call<'a>(found: &ArgMatches<'a>) -> Option<Call<'a>>
    ensures { option_map shown result ≡ serve_in (rows_of (found_of found.now)) }
{
    let base = text_of(found, "DB")?;
    let settings = text_of(found, "settings");
    Some(Call::Serve { base, settings })
}

fn named_call<'a>(name: &str, found: &ArgMatches<'a>) -> Option<Call<'a>>
    ensures { option_map shown result ≡ named_call name.now (rows_of (found_of found.now)) }
{
    match name {
        "check" => match text_of(found, "FILE") {
            Some(file) => Some(Call::Check(file)),
            None => None,
        },
        "drive" => drive_call(found),
        "history" => history_call(found),
        "open" => match text_of(found, "DB") {
            Some(base) => Some(Call::Open(base)),
            None => None,
        },
        "replay" => replay_call(found),
        "safe" => safe_call(found),
        "serve" => serve_call(found),
        "settle" => settle_call(found),
        "verify" => match text_of(found, "DB") {
            Some(base) => Some(Call::Verify(base)),
            None => None,
        },
        "work" => work_call(found),
        _ => None,
    }
}

fn matched_call<'a>(found: &ArgMatches<'a>) -> Option<Call<'a>>
    ensures { option_map shown result
        ≡ option_and_then (λ p. named_call p.0 p.1) (subcommand_rows_of found.now) }
{
    match found.subcommand() {
        Some((name, inner)) => named_call(name, inner),
        None => None,
    }
}

fn fault_of_kind(kind: ErrorKind) -> Fault
    ensures memory { kind ≡ OutOfMemory → result ≡ Fault.NoMemory _ }
    ensures usage { (result ≡ Fault.NoMemory _) ⊎ (result ≡ Fault.BadUsage) }
    ensures other { (result ≡ Fault.BadUsage) ⊎ (kind ≡ OutOfMemory) }
{
    match kind {
        ErrorKind::OutOfMemory => Fault::NoMemory(NoMemory::told()),
        _ => Fault::BadUsage,
    }
}

/// The call that the words are; the first word is the program's own.
///
/// # Failure
/// E97 where they are no call, and where help is asked for.
pub fn call_of<'a, S: AsStr>(alloc: Global, words: &'a [S]) -> Result<Call<'a>, Fault>
    // clap takes the words, and they are that call.
    ensures found { IfOk result (λ c. IsCall (map S.text words.entry.now) (shown c)) }
    // Words that clap takes as a call are answered by it, unless memory runs out.
    ensures only { (c : Pure) → IsCall (map S.text words.entry.now) c → IfErr result (λ e. e ≡ Fault.NoMemory _) }
    ensures usage { IfErr result (λ e. (e ≡ Fault.NoMemory _) ⊎ (e ≡ Fault.BadUsage)) }
{
    let command = match flow_command(alloc) {
        Ok(command) => command,
        Err(refused) => return Err(Fault::from(refused)),
    };
    match command.try_get_matches_from(words) {
        Ok(found) => match matched_call(&found) {
            Some(call) => Ok(call),
            None => Err(Fault::BadUsage),
        },
        Err(error) => Err(fault_of_kind(error.kind())),
    }
}
