//! Reading a line word by word, each by the field that is due.

ghost use Rattle.std.specs.Prelude.{nat_abs, ◌≡◌, drop, map, ◌<◌, ◌≤◌, ◌^◌, [], ◌∷◌, IfErr, None, length, get_or, pos, codes, if◌then◌else◌};
ghost use Rattle.report_text.specs.Vocabulary.{rank, sooner_flaw, LineLeft, signed_decimal, fraction_text, quotient_text, register_name, IsBelow, signal_name, slack_text, IsSmallPeriod, IsSmallSlack, is_word, register_named, slack_field, version_text, EndsIn, Keeps, Takes, TakesNext, Circuit};
ghost use Rattle.report_text.specs.LineFields as field;

use crate::field::Flaw;
use crate::judging::fraction::{read_period, read_slack, read_steps};
use crate::judging::{
    read_counted, read_exactly, read_from, read_keyword, read_kind, read_named, read_number,
    read_register, read_signal, read_version, read_weight,
};
use crate::rules::Rules;
use cts_base::Fraction;
use cts_model::Version;
use std::marker::Model;

// Arrivals are below so many steps in size.
const MAX_ARRIVAL: i128 = 10_000_000_000_000_000_000;

/// What is left of a line that is read word by word, and what is wrong with it first so far. Where
/// a word has a flaw a step gives some value, and the line isn't taken.
#[derive(Drop)]
pub(crate) struct Scan<'a> {
    words: &'a [&'a [u8]],
    /// How many words are taken.
    taken: usize,
    flaw: Option<Flaw>,
}

impl<'a> Model for Scan<'a> {
    ghost Value = { LineLeft };

    ghost view = { λ scan. record {
      words = drop scan.taken (map (λ word. word.now) scan.words.now);
      flaw = scan.flaw;
    } };
}

impl<'a> Scan<'a> {
    /// All words of a line.
    pub(crate) fn of(words: &'a [&'a [u8]]) -> Scan<'a>
        ensures { result ≡ record { words = map (λ word. word.now) words.now; flaw = None } }
    {
        Scan {
            words,
            taken: 0,
            flaw: None,
        }
    }

    // The words that are left.
    fn left(&self) -> &[&'a [u8]]
        ensures { map (λ word. word.now) result.now ≡ self.now.words }
    {
        words_after(self.words, self.taken)
    }

    /// How many words are left.
    pub(crate) fn len(&self) -> usize
        ensures { result ≡ length self.now.words }
    {
        self.left().len()
    }

    /// Whether of the words that are left the one at a place is that one.
    pub(crate) fn has_word(&self, place: usize, word: &[u8]) -> bool
        ensures { result ≡ is_word self.now.words place word.now }
    {
        word_at(self.left(), place) == word
    }

    /// What is wrong with the line first. Nothing may be left.
    pub(crate) fn end(&self) -> Option<Flaw>
        ensures judged { (circuit : Circuit) → EndsIn circuit [] self.now result }
        ensures sound { result ≡ None → (self.now.flaw ≡ None) × (self.now.words ≡ []) }
    {
        if self.left().is_empty() {
            self.flaw
        } else {
            Some(Flaw::Form)
        }
    }

    // Takes the next word, and no bytes where none is left.
    fn next(&mut self) -> &'a [u8]
        ensures word { result.now ≡ get_or self.old.words 0 [] }
        ensures taken { TakesNext result.now self.old self.new }
    {
        match self.words.get(self.taken) {
            Some(word) => {
                self.taken += 1;
                word
            }
            None => {
                self.flaw = Some(Flaw::Form);
                &[]
            }
        }
    }

    // Keeps what is wrong with a word, or gives its value; where it has none, the other.
    fn keep<T: Copy>(&mut self, read: Result<T, Flaw>, other: T) -> T
        ensures kept { Keeps read result self.old self.new }
        ensures other { IfErr read (λ _. result ≡ other) }
    {
        match read {
            Ok(value) => value,
            Err(flaw) => {
                self.flaw = sooner(self.flaw, Some(flaw));
                other
            }
        }
    }

    /// Takes a fixed word.
    pub(crate) fn keyword(&mut self, keyword: &[u8])
        ensures { (circuit : Circuit) → Takes circuit (field.Word keyword.now ∷ [])
            (keyword.now ∷ []) (Unit {0}) self.old self.new }
    {
        let word = self.next();
        self.keep(read_keyword(keyword, word), ());
    }

    /// Takes the word of a version.
    pub(crate) fn version(&mut self) -> Version
        ensures { (circuit : Circuit) → Takes circuit (field.Version ∷ [])
            (version_text result ∷ []) (Unit {0}) self.old self.new }
    {
        let word = self.next();
        self.keep(read_version(word), Version::First)
    }

    /// Takes the word of a kind of constraint: whether it is a setup constraint.
    pub(crate) fn kind(&mut self) -> bool
        ensures { (circuit : Circuit) → Takes circuit (field.Kind ∷ [])
            ((if result then codes "setup" else codes "hold") ∷ []) (Unit {0}) self.old self.new }
    {
        let word = self.next();
        self.keep(read_kind(word), false)
    }

    /// Takes that number.
    pub(crate) fn exactly(&mut self, number: u32)
        ensures { (circuit : Circuit) → Takes circuit (field.Exactly number ∷ [])
            (signed_decimal (pos number) ∷ []) (Unit {0}) self.old self.new }
    {
        let word = self.next();
        self.keep(read_exactly(number, word), ());
    }

    /// Takes a number of that range.
    pub(crate) fn number(&mut self, least: u32, most: u32) -> u32
        ensures { (circuit : Circuit) → Takes circuit (field.Number least most ∷ [])
            (signed_decimal (pos result) ∷ []) ((least ≤ result) × (result ≤ most))
            self.old self.new }
    {
        let word = self.next();
        self.keep(read_number(least, most, word), 0)
    }

    /// Takes the number of the words that stand after it.
    pub(crate) fn counted(&mut self, count: usize, most: usize)
        ensures { (circuit : Circuit) → Takes circuit (field.Counted count most ∷ [])
            (signed_decimal (pos count) ∷ []) ((1 ≤ count) × (count ≤ most)) self.old self.new }
    {
        let word = self.next();
        self.keep(read_counted(count, most, word), ());
    }

    /// Takes a weight in ticks.
    pub(crate) fn weight(&mut self) -> i128
        ensures { (circuit : Circuit) → Takes circuit (field.Weight ∷ [])
            (signed_decimal result ∷ []) (IsBelow (10 ^ 12) result) self.old self.new }
    {
        let word = self.next();
        self.keep(read_weight(word), 0)
    }

    /// Takes a period in ticks.
    pub(crate) fn period(&mut self) -> Fraction
        ensures { (circuit : Circuit) → Takes circuit (field.Period ∷ [])
            (fraction_text result.num result.den ∷ []) (IsSmallPeriod result) self.old self.new }
    {
        let word = self.next();
        self.keep(read_period(word), Fraction::of(0, 1))
    }

    /// Takes a slack in ticks, or `-` for none.
    pub(crate) fn slack(&mut self, rules: &Rules) -> Option<Fraction>
        ensures { (circuit : Circuit) → Takes circuit (slack_field rules.now.scale ∷ [])
            (slack_text result ∷ []) (IsSmallSlack rules.now.scale.den result) self.old self.new }
    {
        let word = self.next();
        self.keep(read_slack(rules.scale.den, word), None)
    }

    /// Takes an arrival, in steps of a tick.
    pub(crate) fn arrival(&mut self, rules: &Rules) -> i128
        ensures { (circuit : Circuit) → Takes circuit
            (field.Steps rules.now.scale.den (pos (10 ^ 19)) ∷ [])
            (quotient_text result rules.now.scale.den ∷ []) (IsBelow (10 ^ 19) result)
            self.old self.new }
    {
        let word = self.next();
        self.keep(read_steps(rules.scale.den, MAX_ARRIVAL, word), 0)
    }

    /// Takes a length, in grid steps, below a bound in size.
    pub(crate) fn length(&mut self, rules: &Rules, bound: i128) -> i128
        ensures { (circuit : Circuit) → Takes circuit
            (field.Steps rules.now.scale.grid bound ∷ [])
            (quotient_text result rules.now.scale.grid ∷ []) (IsBelow (nat_abs bound) result)
            self.old self.new }
    {
        let word = self.next();
        self.keep(read_steps(rules.scale.grid, bound, word), 0)
    }

    /// Takes the name of that register.
    pub(crate) fn named(&mut self, rules: &Rules, register: u32)
        ensures { Takes rules.now.circuit.now (field.Named register ∷ [])
            (register_name rules.now.circuit.now register ∷ []) (Unit {0}) self.old self.new }
    {
        let word = self.next();
        self.keep(read_named(rules, register, word), ());
    }

    /// Takes the name of that register or of a later one.
    pub(crate) fn from(&mut self, rules: &Rules, first: u32) -> u32
        ensures { Takes rules.now.circuit.now (field.From first ∷ [])
            (register_name rules.now.circuit.now result ∷ [])
            ((first ≤ result) × (result < length rules.now.circuit.now.registers))
            self.old self.new }
    {
        let word = self.next();
        self.keep(read_from(rules, first, word), 0)
    }

    /// Takes a signal's name.
    pub(crate) fn signal(&mut self, rules: &Rules) -> u32
        ensures { Takes rules.now.circuit.now (field.Signal ∷ [])
            (signal_name rules.now.circuit.now result ∷ [])
            (result < length rules.now.circuit.now.signals) self.old self.new }
    {
        let word = self.next();
        self.keep(read_signal(rules, word), 0)
    }

    /// Takes a register's name. One that no register has gives the number of all registers.
    pub(crate) fn register(&mut self, rules: &Rules) -> u32
        ensures taken { Takes rules.now.circuit.now (field.Register ∷ [])
            (register_name rules.now.circuit.now result ∷ [])
            (result < length rules.now.circuit.now.registers) self.old self.new }
        ensures named { result
            ≡ register_named rules.now.circuit.now (get_or self.old.words 0 []) }
    {
        let word = self.next();
        let all = rules.circuit.registers.len() as u32;
        self.keep(read_register(rules, word), all)
    }
}

// The flaw of two that is judged first.
fn sooner(first: Option<Flaw>, second: Option<Flaw>) -> Option<Flaw>
    ensures { result ≡ sooner_flaw first second }
{
    if rank(first) <= rank(second) {
        first
    } else {
        second
    }
}

// How many kinds of flaws are judged before that one.
fn rank(flaw: Option<Flaw>) -> u8
    ensures { result ≡ rank flaw }
{
    match flaw {
        Some(Flaw::Form) => 0,
        Some(Flaw::Unknown) => 1,
        Some(Flaw::Unfit) => 2,
        Some(Flaw::Large) => 3,
        None => 4,
    }
}

// The word at a place, and no bytes where there is none.
fn word_at<'a>(words: &[&'a [u8]], place: usize) -> &'a [u8]
    ensures { result.now ≡ get_or (map (λ word. word.now) words.now) place [] }
{
    match words.get(place) {
        Some(word) => word,
        None => &[],
    }
}

// The words after so many, none where there are no more.
fn words_after<'a>(words: &'a [&'a [u8]], count: usize) -> &'a [&'a [u8]]
    ensures { map (λ word. word.now) result.now ≡ drop count (map (λ word. word.now) words.now) }
{
    if words.len() < count {
        return &[];
    }
    words.split_at(count).1
}
