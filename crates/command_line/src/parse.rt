//! Plain words, read by a parser for the options of their command.

ghost use Rattle.std.specs.Prelude.{◌≡◌, map, is_some, option_map, Some, string_bytes, true, false, IfOk, IfErr};
ghost use Rattle.command_line.specs.Vocabulary.{app_of, rule_of, found_of, first_value, choices_of, command_form, values_of, tables_of, are_tables, IsCommand, has_values, row_values, value_in_row, IsPlain, long_name, rule_for, parser_for};
ghost use Rattle.clap.specs.Words.{kind_of};

use crate::command::Command;
use crate::table::{Choice, Form};
use clap::error::ErrorKind;
use clap::{Arg, ArgAction, ArgMatches, Command as Parser, Error};
use std::alloc::{AllocError, Global};

/// The command that plain words mean, of which the last are these tables. The parser refuses the
/// words before them for want of memory alone.
pub fn parsed<'a>(
    alloc: Global,
    form: Form,
    words: &'a [String],
    tables: &'a [String],
) -> Result<Command<'a>, Error>
    requires { IsPlain (map string_bytes words.now) (map string_bytes tables.now) form }
    ensures ok { IfOk result (IsCommand (map string_bytes words.now)) }
    ensures err { IfErr result (λ error. kind_of error ≡ ErrorKind.OutOfMemory) }
{
    let head = words.split_at(words.len() - tables.len()).0;
    let matches = parser(alloc, form)?.try_get_matches_from(head)?;
    Ok(command_of(form, &matches, tables))
}

// The command whose options have the values that were found, in the order of its row, and which has
// these tables.
fn command_of<'a>(form: Form, matches: &ArgMatches<'a>, tables: &'a [String]) -> Command<'a>
    requires values { has_values (choices_of form)
        (row_values (first_value (found_of matches.now)) (choices_of form)) ≡ true }
    requires tables { are_tables form (map string_bytes tables.now) ≡ true }
    ensures form { command_form result ≡ form }
    ensures tables { tables_of result ≡ map string_bytes tables.now }
    ensures values { values_of result
        ≡ row_values (first_value (found_of matches.now)) (choices_of form) }
{
    let choices = form.row().1;
    let first = word_at(choices, 0, matches);
    let second = word_at(choices, 1, matches);
    let third = word_at(choices, 2, matches);
    let fourth = word_at(choices, 3, matches);
    match form {
        Form::Zero => Command::Zero {
            bench: first,
            tech: value_at(choices, 1, matches),
        },
        Form::Period => Command::Period {
            bench: first,
            tech: second,
        },
        Form::Schedule => Command::Schedule {
            bench: first,
            tech: second,
        },
        Form::Synth => Command::Synth {
            bench: first,
            tech: second,
            pl: third,
        },
        Form::Check => Command::Check {
            bench: first,
            tech: second,
            pl: third,
            report: fourth,
        },
        Form::Demo => Command::Demo {
            registers: first,
            seed: second,
        },
        Form::Margin => Command::Margin {
            bench: first,
            tech: second,
            period: third,
        },
        Form::Embed => Command::Embed {
            bench: first,
            tech: second,
            pl: third,
            topology: fourth,
        },
        Form::Moves => Command::Moves {
            bench: first,
            tech: second,
            pl: third,
            moves: fourth,
        },
        Form::Corners => Command::Corners {
            bench: first,
            tables,
        },
    }
}

// The value of the option at this place of a row, if it has one, and else no bytes.
fn word_at<'a>(choices: &[Choice], place: usize, matches: &ArgMatches<'a>) -> &'a str
    ensures { is_some (value_in_row (first_value (found_of matches.now)) choices.now place) ≡ true
        → Some result.now
        ≡ value_in_row (first_value (found_of matches.now)) choices.now place }
{
    value_at(choices, place, matches).unwrap_or("")
}

// The value of the option at this place of a row.
fn value_at<'a>(choices: &[Choice], place: usize, matches: &ArgMatches<'a>) -> Option<&'a str>
    ensures { option_map (λ word. word.now) result
        ≡ value_in_row (first_value (found_of matches.now)) choices.now place }
{
    matches.get_str(choices.get(place)?.word())
}

// The parser for a command's options.
fn parser<'a>(alloc: Global, form: Form) -> Result<Parser<'a>, AllocError>
    ensures { IfOk result (λ parser. app_of parser ≡ parser_for form) }
{
    let (name, choices): (&'a str, &[Choice]) = form.row();
    let mut parser = Parser::new(alloc, name);
    for choice in choices {
        parser = parser.arg(argument(alloc, *choice))?;
    }
    Ok(parser)
}

fn argument<'a>(alloc: Global, choice: Choice) -> Arg<'a>
    ensures rule { rule_of result ≡ rule_for choice }
    ensures local { result.global ≡ false }
{
    let word: &'a str = choice.word();
    Arg::new(alloc, word)
        .long(long_name(word))
        .required(choice.is_required())
        .action(ArgAction::Set)
}

// The option's word without the two hyphens before.
fn long_name(option: &str) -> &str
    ensures { result.now ≡ long_name option.entry.now }
{
    option.strip_prefix("--").unwrap_or(option)
}
