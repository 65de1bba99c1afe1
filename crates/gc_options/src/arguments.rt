//! The arguments of subcommands as tables, and the loops that hand them to clap. A default is in its row alone: clap fills it
//! in.

ghost use Rattle.std.specs.Prelude.{◌≡◌, IfOk, IfSome, map};
ghost use Rattle.gc_options.specs.Chosen.{GivesPlace};
ghost use Rattle.gc_options.specs.Tables.{HasArguments, HasRule, HaveRules, action_for, option_rule, parser_for, positional_rule, rule_of_row};
ghost use Rattle.gc_options.specs.Words.{words_of};

use crate::given::text_in;
use clap::builder::ValueParser;
use clap::{Arg, ArgAction, ArgMatches, Command};
use gc_links::{Place, place_of};
use std::alloc::{AllocError, Global};

/// What an argument takes: nothing, a text, or a number from one bound to the other, which is read as `i64` or as `u64`. A
/// positional argument is a text without a name before it.
#[derive(Clone, Copy)]
pub enum Takes {
    Positional,
    Nothing,
    Text,
    Signed(i64, i64),
    Unsigned(u64, u64),
}

/// A row: the name of an argument, what it takes and what help calls that, its default, the arguments that it needs, those that
/// it excludes, and its help. A list is empty if there is no such value.
#[derive(Clone, Copy)]
pub struct Argument<'a> {
    pub name: &'a str,
    pub takes: Takes,
    pub value_name: &'a [&'a str],
    pub default: &'a [&'a str],
    pub needs: &'a [&'a str],
    pub excludes: &'a [&'a str],
    pub help: &'a str,
}

/// The defaults of a row, which rows take over with `..FLAG`: a flag with neither name nor help.
pub const FLAG: Argument<'static> = Argument {
    name: "",
    takes: Takes::Nothing,
    value_name: &[],
    default: &[],
    needs: &[],
    excludes: &[],
    help: "",
};

/// The argument that names the place of an instrument.
pub const PLACE: Argument<'static> = Argument {
    name: "where",
    takes: Takes::Positional,
    value_name: &["WHERE"],
    help: "A port of 127.0.0.1, from 1 on, HOST:PORT, [ADDRESS]:PORT, or the path of a device, which has a slash",
    ..FLAG
};

/// The place that the argument WHERE names. `None`: there is no such argument, or it names no place.
pub fn named_place<'a>(words: &ArgMatches<'a>) -> Option<Place<'a>>
    ensures { IfSome result (λ place. GivesPlace (words_of words.now) place) }
{
    place_of(text_in(words, "where")?)
}

/// The option that names the file of a scene.
pub const SCENE: Argument<'static> = Argument {
    name: "scene",
    takes: Takes::Text,
    value_name: &["FILE"],
    help: "Simulates the instrument that this file describes (see `geocom --help`)",
    ..FLAG
};

/// A subcommand for clap with this name, the line that says what it does (`about`), what its help ends with, and the arguments of
/// this table. `Err`: memory ran out.
// The arguments are made first: the proof of a `Command` that is alive across a `?` costs much.
pub fn command_of<'a>(
    alloc: Global,
    name: &'a str,
    about: &'a str,
    after_help: &'a str,
    table: &[Argument<'a>],
) -> Result<Command<'a>, AllocError>
    ensures { IfOk result (λ command. HasArguments name.now (map rule_of_row table.now) command) }
{
    let args = args_of(alloc, table)?;
    Command::new(alloc, name)
        .about(about)
        .after_help(after_help)
        .args(args)
}

// clap's arguments for the rows of a table, in their order. `Err`: memory ran out.
fn args_of<'a>(alloc: Global, table: &[Argument<'a>]) -> Result<Vec<Arg<'a>>, AllocError>
    ensures { IfOk result (λ args. HaveRules (map rule_of_row table.now) args.items) }
{
    let mut args = Vec::new(alloc);
    for row in table {
        args.push(arg_of(alloc, row)?)?;
    }
    Ok(args)
}

// clap's argument for a row: a positional one, or an option. Of the row of a positional one clap gets the name, the value's name
// and the help alone. `Err`: memory ran out.
fn arg_of<'a>(alloc: Global, row: &Argument<'a>) -> Result<Arg<'a>, AllocError>
    ensures { IfOk result (λ arg. HasRule (rule_of_row row.now) arg) }
{
    match row.takes {
        Takes::Positional => Ok(positional_of(alloc, row)),
        _ => option_of(alloc, row),
    }
}

// A required argument without a name before it.
fn positional_of<'a>(alloc: Global, row: &Argument<'a>) -> Arg<'a>
    ensures { HasRule (positional_rule row.now) result }
{
    Arg::new(alloc, row.name)
        .value_names(row.value_name)
        .required(true)
        .help(row.help)
}

// An argument with two hyphens before it. There is no branch, because a branch on a live builder makes the proof costly: an
// empty list adds nothing. `Err`: memory ran out.
fn option_of<'a>(alloc: Global, row: &Argument<'a>) -> Result<Arg<'a>, AllocError>
    ensures { IfOk result (λ arg. HasRule (option_rule row.now) arg) }
{
    Arg::new(alloc, row.name)
        .long(row.name)
        .help(row.help)
        .action(action_of(row.takes))
        .value_parser(parser_of(row.takes))
        .value_names(row.value_name)
        .default_values(row.default)
        .requires_all(row.needs)?
        .conflicts_with_all(row.excludes)
}

// How clap takes an option: as a flag, or with a value.
fn action_of(takes: Takes) -> ArgAction
    ensures { result ≡ action_for takes }
{
    match takes {
        Takes::Nothing => ArgAction::SetTrue,
        _ => ArgAction::Set,
    }
}

// What the value of an option may be.
fn parser_of<'a>(takes: Takes) -> ValueParser<'a>
    ensures { result ≡ parser_for takes }
{
    match takes {
        Takes::Nothing => ValueParser::Bool,
        Takes::Positional | Takes::Text => ValueParser::String,
        Takes::Signed(least, most) => ValueParser::Signed(least, most),
        Takes::Unsigned(least, most) => ValueParser::Unsigned(least, most),
    }
}
