//! The table of commands: the name and the options of each, as they stand in the usage line.

ghost use Rattle.std.specs.Prelude.{◌≡◌, find, IfSome};
ghost use Rattle.command_line.specs.Vocabulary.{bytes_eq, Form, forms, form_name, form_named, choices_of, table_bounds, option_word, is_required};
ghost use Rattle.command_line.specs.CommandTable.{value_kind};

use Choice::{Bench, MovesFile, Placement, Registers, Report, Seed, Tech, TechIfWanted, Topology};
use Form::{Check, Corners, Demo, Embed, Margin, Moves, Period, Schedule, Synth, Zero};

/// A command without the values of its options.
#[derive(Clone, Copy, Debug, Drop, PartialEq)]
pub enum Form {
    Zero,
    Period,
    Schedule,
    Synth,
    Check,
    Demo,
    Margin,
    Embed,
    Moves,
    Corners,
}

/// An option of a command, which stands at most once after its name.
#[derive(Clone, Copy, Debug, Drop, PartialEq)]
pub enum Choice {
    Bench,
    Tech,
    /// It may be left out.
    TechIfWanted,
    Placement,
    Report,
    Topology,
    MovesFile,
    Registers,
    Seed,
    Period,
}

/// What the value of an option is.
#[derive(Clone, Copy, Debug, Drop, PartialEq)]
pub enum ValueKind {
    File,
    Registers,
    Seed,
    Period,
}

const FORMS: [Form; 10] = [
    Zero, Period, Schedule, Synth, Check, Demo, Margin, Embed, Moves, Corners,
];

impl Form {
    /// The name of the command and its options, in the order of the usage line.
    pub fn row(self) -> (&'static str, &'static [Choice])
        ensures name { result.0.now ≡ form_name self }
        ensures choices { result.1.now ≡ choices_of self }
    {
        match self {
            Zero => ("zero", &[Bench, TechIfWanted]),
            Period => ("period", &[Bench, Tech]),
            Schedule => ("schedule", &[Bench, Tech]),
            Synth => ("synth", &[Bench, Tech, Placement]),
            Check => ("check", &[Bench, Tech, Placement, Report]),
            Demo => ("demo", &[Registers, Seed]),
            Margin => ("margin", &[Bench, Tech, Choice::Period]),
            Embed => ("embed", &[Bench, Tech, Placement, Topology]),
            Moves => ("moves", &[Bench, Tech, Placement, MovesFile]),
            Corners => ("corners", &[Bench]),
        }
    }

    /// The least and the greatest number of delay tables that stand as plain words after the
    /// options of the command. Where there may be any, each of its options has to stand.
    pub fn table_bounds(self) -> (usize, usize)
        ensures { result ≡ table_bounds self }
    {
        match self {
            Corners => (1, 16),
            _ => (0, 0),
        }
    }

    /// The command with this name.
    pub fn named(name: &str) -> Option<Form>
        ensures some { IfSome result (λ form. form_name form ≡ name.now) }
        ensures first { result ≡ form_named name.now }
    {
        first_named(&FORMS, name)
    }
}

// The first of these forms that has this name.
fn first_named(forms: &[Form], name: &str) -> Option<Form>
    ensures some { IfSome result (λ form. form_name form ≡ name.now) }
    ensures first { result ≡ find (λ form. bytes_eq (form_name form) name.now) forms.now }
{
    forms.iter().copied().find(|form| form.row().0 == name)
}

impl Choice {
    /// The word that stands before the value.
    pub fn word(self) -> &'static str
        ensures { result.now ≡ option_word self }
    {
        match self {
            Bench => "--bench",
            Tech | TechIfWanted => "--tech",
            Placement => "--pl",
            Report => "--report",
            Topology => "--topology",
            MovesFile => "--moves",
            Registers => "--registers",
            Seed => "--seed",
            Choice::Period => "--period",
        }
    }

    pub fn kind(self) -> ValueKind
        ensures { result ≡ value_kind self }
    {
        match self {
            Registers => ValueKind::Registers,
            Seed => ValueKind::Seed,
            Choice::Period => ValueKind::Period,
            _ => ValueKind::File,
        }
    }

    pub fn is_required(self) -> bool
        ensures { result ≡ is_required self }
    {
        self != TechIfWanted
    }
}
