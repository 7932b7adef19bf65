ghost use Rattle.std.specs.Prelude.{◌≡◌, IfOk, false};
ghost use Rattle.clap.specs.Words.{app_of, rule_of, shape_of};
ghost use Rattle.clap.specs.declared.builder.command.Command.TheViews.{out-Command as fields_of};
ghost use Rattle.fts_args.specs.Line.{command_line, create_line, gen_line, number_argument};
ghost use Rattle.fts_args.specs.Line.{number_option, text_option};

use clap::builder::ValueParser;
use clap::{Arg, ArgAction};
use std::alloc::{AllocError, Global};

/// The command line: the folder, then `create` with its options, `run`, `serve`, or `gen` with its
/// numbers.
pub(crate) fn command_line<'a>(alloc: Global) -> Result<clap::Command<'a>, AllocError>
    ensures { IfOk result (λ line. app_of line ≡ command_line) }
{
    clap::Command::new(alloc, "fts")
        .disable_help_flag(true)
        .disable_help_subcommand(true)
        .subcommand_required(true)
        .subcommand(create_line(alloc)?)?
        .subcommand(clap::Command::new(alloc, "run"))?
        .subcommand(clap::Command::new(alloc, "serve"))?
        .subcommand(gen_line(alloc)?)
}

/// The subcommand that makes a database, with an option for each of its settings.
fn create_line<'a>(alloc: Global) -> Result<clap::Command<'a>, AllocError>
    ensures shape { IfOk result (λ line. shape_of line ≡ create_line) }
    ensures local { IfOk result (λ line. (fields_of line).has_globals ≡ false) }
{
    clap::Command::new(alloc, "create")
        .arg(text_option(alloc, "columns").required(true))?
        .arg(number_option(alloc, "min", 1, 16, "3"))?
        .arg(number_option(alloc, "max", 10, 84, "84"))?
        .arg(text_option(alloc, "no-stopword").action(ArgAction::SetTrue))?
        .arg(number_option(alloc, "optimize-words", 1, 10_000, "2000"))?
        .arg(number_option(alloc, "cache-bytes", 1_000, 80_000_000, "8000000"))?
        .arg(number_option(alloc, "batch-docs", 1, 100_000, "1000"))
}

/// The subcommand that executes a script made from a number: the number, and how many statements.
fn gen_line<'a>(alloc: Global) -> Result<clap::Command<'a>, AllocError>
    ensures shape { IfOk result (λ line. shape_of line ≡ gen_line) }
    ensures local { IfOk result (λ line. (fields_of line).has_globals ≡ false) }
{
    clap::Command::new(alloc, "gen")
        .arg(number_argument(alloc, "seed", 65_535))?
        .arg(number_argument(alloc, "count", 1_000_000))
}

/// A word that is a number of at most `most`.
fn number_argument<'a>(alloc: Global, name: &'a str, most: u64) -> Arg<'a>
    ensures rule { rule_of result ≡ number_argument name.now most }
    ensures local { result.global ≡ false }
{
    Arg::new(alloc, name)
        .required(true)
        .value_parser(ValueParser::unsigned(0, most))
}

/// An option with its long name as its id.
fn text_option<'a>(alloc: Global, name: &'a str) -> Arg<'a>
    ensures rule { rule_of result ≡ text_option name.now }
    ensures local { result.global ≡ false }
{
    Arg::new(alloc, name).long(name)
}

/// An option that takes a number from `least` to `most`, and its default.
fn number_option<'a>(
    alloc: Global,
    name: &'a str,
    least: u64,
    most: u64,
    default: &'a str,
) -> Arg<'a>
    ensures rule { rule_of result ≡ number_option name.now least most default.now }
    ensures local { result.global ≡ false }
{
    text_option(alloc, name)
        .value_parser(ValueParser::unsigned(least, most))
        .default_value(default)
}
