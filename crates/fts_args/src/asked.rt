ghost use Rattle.std.specs.Prelude.{◌≡◌, IfOk, IfSome, IfNone, codes, map};
ghost use Rattle.std.specs.String.{string_bytes};
ghost use Rattle.clap.specs.Words.{found_of, rows_of, subcommand_rows_of};
ghost use Rattle.fts_args.specs.Asked.{AskNothing, Asks, HasOptions, HasSettings};
ghost use Rattle.fts_args.specs.Asked.{IsAsked, IsCommand};
ghost use Rattle.fts_args.specs.declared.command.Command.{Command};
ghost use Rattle.fts_types.specs.declared.settings.Settings.{Settings};

use crate::columns::names_of;
use crate::command::Command;
use crate::line::command_line;
use crate::options::{byte, flag, number, short};
use clap::ArgMatches;
use clap::error::ErrorKind;
use fts_types::{Names, Settings};
use std::alloc::{AllocError, Global};

/// What the words after the program's name ask for: the folder, the subcommand, and its options.
///
/// None is a faulty command line. What the folder is, is not looked at.
pub fn command_of(alloc: Global, words: &[String]) -> Result<Option<Command>, AllocError>
    ensures found { IfOk result (λ found. IfSome found (Asks (map string_bytes words.now))) }
    ensures none { IfOk result (λ found. IfNone found (AskNothing (map string_bytes words.now))) }
{
    match command_line(alloc)?.try_get_matches_from(words) {
        Ok(matches) => asked(alloc, &matches),
        Err(error) => {
            if error.kind() == ErrorKind::OutOfMemory {
                return Err(AllocError);
            }
            Ok(None)
        }
    }
}

/// What the matches ask for.
fn asked(alloc: Global, matches: &ArgMatches) -> Result<Option<Command>, AllocError>
    ensures found { IfOk result (λ found. IfSome found (IsAsked (subcommand_rows_of matches.now))) }
    ensures none { IfOk result (λ found. IfNone found
        ((command : Command) → IsAsked (subcommand_rows_of matches.now) command → ⊥)) }
{
    match matches.subcommand() {
        Some((name, options)) => asked_of(alloc, name, options),
        None => Ok(None),
    }
}

/// What a subcommand with these options asks for.
fn asked_of(alloc: Global, name: &str, options: &ArgMatches) -> Result<Option<Command>, AllocError>
    ensures found { IfOk result (λ found. IfSome found
        (IsCommand (name.now, rows_of (found_of options.now)))) }
    ensures none { IfOk result (λ found. IfNone found
        ((command : Command) → IsCommand (name.now, rows_of (found_of options.now)) command → ⊥)) }
{
    match name {
        "create" => created_by(alloc, options),
        "run" => Ok(Some(Command::Run)),
        "serve" => Ok(Some(Command::Serve)),
        "gen" => Ok(generated_by(options)),
        _ => Ok(None),
    }
}

/// The command `create` with these options.
fn created_by(alloc: Global, options: &ArgMatches) -> Result<Option<Command>, AllocError>
    ensures found { IfOk result (λ found. IfSome found
        (IsCommand (codes "create", rows_of (found_of options.now)))) }
    ensures none { IfOk result (λ found. IfNone found
        ((command : Command) → IsCommand (codes "create", rows_of (found_of options.now)) command
        → ⊥)) }
{
    match settings_of(alloc, options)? {
        Some(settings) => Ok(Some(Command::Create { settings })),
        None => Ok(None),
    }
}

/// The command `gen` with these words.
fn generated_by(options: &ArgMatches) -> Option<Command>
    ensures found { IfSome result (IsCommand (codes "gen", rows_of (found_of options.now))) }
    ensures none { IfNone result ((command : Command)
        → IsCommand (codes "gen", rows_of (found_of options.now)) command → ⊥) }
{
    let seed = short(options, "seed")?;
    let count = number(options, "count")?;
    Some(Command::Gen { seed, count })
}

/// The settings that the options of `create` name.
fn settings_of(alloc: Global, options: &ArgMatches) -> Result<Option<Settings>, AllocError>
    ensures found { IfOk result (λ found. IfSome found
        (HasSettings (rows_of (found_of options.now)))) }
    ensures none { IfOk result (λ found. IfNone found
        ((settings : Settings) → HasSettings (rows_of (found_of options.now)) settings → ⊥)) }
{
    let Some(names) = options.get_str("columns") else {
        return Ok(None);
    };
    let columns = names_of(alloc, names)?;
    let Some(settings) = settings_with(columns, options) else {
        return Ok(None);
    };
    match settings.check() {
        Ok(()) => Ok(Some(settings)),
        Err(_) => Ok(None),
    }
}

/// The settings with these columns, and else as the options say.
fn settings_with(columns: Names, options: &ArgMatches) -> Option<Settings>
    ensures columns { IfSome result (λ settings. settings.columns ≡ columns) }
    ensures options { IfSome result (HasOptions (rows_of (found_of options.now))) }
    ensures none { IfNone result ((settings : Settings)
        → HasOptions (rows_of (found_of options.now)) settings → ⊥) }
{
    let min = byte(options, "min")?;
    let max = byte(options, "max")?;
    let no_stopword = flag(options, "no-stopword")?;
    let optimize_words = short(options, "optimize-words")?;
    let cache_bytes = number(options, "cache-bytes")?;
    let batch_docs = number(options, "batch-docs")?;
    Some(Settings {
        columns,
        min,
        max,
        stopword: !no_stopword,
        optimize_words,
        cache_bytes,
        batch_docs,
    })
}
