//! Whether words are plain: a command's name, after it options of that command with values, and
//! then the delay tables that it takes.

ghost use Rattle.std.specs.Prelude.{◌≡◌, ◌↔◌, ◌||◌, map, string_bytes, IsTrue, IfSome, IsNone};
ghost use Rattle.command_line.specs.Vocabulary.{is_ascii_digit, list_all, IsMarginPeriod, Command, is_required, takes_tables, is_file_name, is_number_within, is_period, is_value, is_taken, IsCommand, are_tables, IsPlain, has_option, is_option, are_options, has_required, are_plain, before_tables, tables_among};

use crate::table::{Choice, Form, ValueKind};
use cts_base::{Fraction, read_fraction};

/// The form of the command that plain words mean, and the tables at their end.
pub fn plain_form<'a>(words: &'a [String]) -> Option<(Form, &'a [String])>
    ensures some { IfSome result (λ plain. IsPlain (map string_bytes words.now)
        (map string_bytes plain.1.now) plain.0) }
    ensures none { IsNone result → (command : Command)
        → IsCommand (map string_bytes words.now) command → ⊥ }
{
    let [name, others @ ..] = words else {
        return None;
    };
    let form = Form::named(name.as_str())?;
    let (options, tables) = parts(form, others);
    if are_plain(form.row().1, options) && are_tables(form, tables) {
        Some((form, tables))
    } else {
        None
    }
}

// The words after a command's name: those before its tables, and those after them.
fn parts<'a>(form: Form, words: &'a [String]) -> (&'a [String], &'a [String])
    ensures options { result.0.now ≡ before_tables form words.now }
    ensures tables { result.1.now ≡ tables_among form words.now }
{
    let options = 2 * form.row().1.len();
    if takes_tables(form) && options < words.len() {
        words.split_at(options)
    } else {
        (words, &[])
    }
}

fn takes_tables(form: Form) -> bool
    ensures { result ≡ takes_tables form }
{
    form.table_bounds().1 >= 1
}

// The words are as many files' names as the command takes tables.
fn are_tables(form: Form, words: &[String]) -> bool
    ensures { result ≡ are_tables form (map string_bytes words.now) }
{
    let (least, most) = form.table_bounds();
    least <= words.len() && (words.len() <= most && are_file_names(words))
}

fn are_file_names(words: &[String]) -> bool
    ensures { result ≡ list_all is_file_name (map string_bytes words.now) }
{
    match words {
        [word, others @ ..] => is_file_name(word.as_str()) && are_file_names(others),
        _ => true,
    }
}

fn are_plain(choices: &[Choice], words: &[String]) -> bool
    ensures { result ≡ are_plain choices.now (map string_bytes words.now) }
{
    are_options(choices, words) && has_required(choices, words)
}

// The words are options with values, no option twice.
fn are_options(choices: &[Choice], words: &[String]) -> bool
    ensures { result ≡ are_options choices.now (map string_bytes words.now) }
{
    match words {
        [option, value, others @ ..] => {
            is_option(choices, option.as_str(), value.as_str(), others)
                && are_options(choices, others)
        }
        _ => words.is_empty(),
    }
}

// The word is an option that takes this value and isn't among the others.
fn is_option(choices: &[Choice], word: &str, value: &str, others: &[String]) -> bool
    ensures { result ≡ is_option choices.now word.now value.now (map string_bytes others.now) }
{
    is_taken(choices, word, value) && !has_option(others, word)
}

// The word is one of the options, which takes this value.
fn is_taken(choices: &[Choice], option: &str, value: &str) -> bool
    ensures { result ≡ is_taken choices.now option.now value.now }
{
    choices.iter().any(|choice| choice.word() == option && is_value(choice.kind(), value))
}

// The option stands among options with values.
fn has_option(words: &[String], option: &str) -> bool
    ensures { result ≡ has_option option.now (map string_bytes words.now) }
{
    match words {
        [word, _, others @ ..] => option == word.as_str() || has_option(others, option),
        _ => false,
    }
}

// Each required option stands among the words.
fn has_required(choices: &[Choice], words: &[String]) -> bool
    ensures { result ≡ has_required choices.now (map string_bytes words.now) }
{
    choices.iter().all(|choice| !choice.is_required() || has_option(words, choice.word()))
}

fn is_value(kind: ValueKind, value: &str) -> bool
    ensures { result ≡ is_value kind value.now }
{
    match kind {
        ValueKind::File => is_file_name(value),
        ValueKind::Registers => is_number_within(2, 1000, value),
        ValueKind::Seed => is_number_within(0, 999, value),
        ValueKind::Period => is_period(value),
    }
}

// One to four digits, for a number within these bounds.
fn is_number_within(least: u32, greatest: u32, word: &str) -> bool
    ensures { result ≡ is_number_within least greatest word.now }
{
    if word.len() > 4 || !are_digits(word) {
        return false;
    }
    match word.parse::<u32>() {
        Ok(number) => least <= number && number <= greatest,
        // The empty word.
        Err(_) => false,
    }
}

fn are_digits(word: &str) -> bool
    ensures { result ≡ list_all is_ascii_digit word.now }
{
    word.bytes().all(|byte| byte.is_ascii_digit())
}

// A fraction in lowest terms that is such a period.
fn is_period(word: &str) -> bool
    ensures { result ≡ is_period word.now }
{
    match read_fraction(word.as_bytes()) {
        Ok(period) => is_margin_period(period),
        Err(_) => false,
    }
}

fn is_margin_period(period: Fraction) -> bool
    ensures { IsTrue result ↔ IsMarginPeriod period }
{
    0 <= period.num() && period.num() < 1_000_000_000_000_000 && period.den() <= 10_000
}

fn is_file_name(word: &str) -> bool
    ensures { result ≡ is_file_name word.now }
{
    match word.as_bytes() {
        [] | [b'-', ..] => false,
        _ => true,
    }
}
