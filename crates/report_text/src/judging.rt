//! Reading a word by the field that is due: its value, or what is wrong with it.

ghost use Rattle.std.specs.Prelude.{◌≡◌, IfOk, codes, if◌then◌else◌, ◌<◌, ◌≤◌, length, ◌↔◌, ◌^◌, IsTrue, pos};
ghost use Rattle.report_text.specs.Vocabulary.{Circuit, WordHasFlaw, version_text, flaw_in, register_name, signal_name, signed_decimal, SpellsWhole, IsBelow};
ghost use Rattle.report_text.specs.LineFields as field;

pub(crate) mod fraction;

use crate::field::Flaw;
use crate::rules::Rules;
use cts_base::read_whole;
use cts_model::Version;

// Weights are below that in size.
const MAX_WEIGHT: i128 = 1_000_000_000_000;

/// Reads a word that is to be that one.
pub(crate) fn read_keyword(keyword: &[u8], word: &[u8]) -> Result<(), Flaw>
    ensures flaw { (circuit : Circuit)
        → WordHasFlaw circuit (field.Word keyword.now) word.now (flaw_in result) }
    ensures value { IfOk result (λ _. word.now ≡ keyword.now) }
{
    if word == keyword {
        Ok(())
    } else {
        Err(Flaw::Form)
    }
}

/// Reads the word of a version.
pub(crate) fn read_version(word: &[u8]) -> Result<Version, Flaw>
    ensures flaw { (circuit : Circuit)
        → WordHasFlaw circuit field.Version word.now (flaw_in result) }
    ensures value { IfOk result (λ version. word.now ≡ version_text version) }
{
    if word == b"1".as_slice() {
        Ok(Version::First)
    } else if word == b"2".as_slice() {
        Ok(Version::Second)
    } else {
        Err(Flaw::Form)
    }
}

/// Reads the word of a kind of constraint: whether it is a setup constraint.
pub(crate) fn read_kind(word: &[u8]) -> Result<bool, Flaw>
    ensures flaw { (circuit : Circuit)
        → WordHasFlaw circuit field.Kind word.now (flaw_in result) }
    ensures value { IfOk result (λ setup.
        word.now ≡ (if setup then codes "setup" else codes "hold")) }
{
    if word == b"setup".as_slice() {
        Ok(true)
    } else if word == b"hold".as_slice() {
        Ok(false)
    } else {
        Err(Flaw::Form)
    }
}

/// Reads a register's name.
pub(crate) fn read_register(rules: &Rules, word: &[u8]) -> Result<u32, Flaw>
    ensures flaw { WordHasFlaw rules.now.circuit.now field.Register word.now (flaw_in result) }
    ensures value { IfOk result (λ register.
        (word.now ≡ register_name rules.now.circuit.now register)
        × (register < length rules.now.circuit.now.registers)) }
{
    match rules.register(word) {
        Some(register) => Ok(register),
        None => Err(Flaw::Unknown),
    }
}

/// Reads a word that is to be that register's name.
pub(crate) fn read_named(rules: &Rules, register: u32, word: &[u8]) -> Result<(), Flaw>
    ensures flaw { WordHasFlaw rules.now.circuit.now (field.Named register) word.now
        (flaw_in result) }
    ensures value { IfOk result (λ _. word.now ≡ register_name rules.now.circuit.now register) }
{
    match rules.register(word) {
        Some(found) if found == register => Ok(()),
        Some(_other) => Err(Flaw::Unfit),
        None => Err(Flaw::Unknown),
    }
}

/// Reads a word that is to be the name of that register or of a later one.
pub(crate) fn read_from(rules: &Rules, first: u32, word: &[u8]) -> Result<u32, Flaw>
    ensures flaw { WordHasFlaw rules.now.circuit.now (field.From first) word.now (flaw_in result) }
    ensures value { IfOk result (λ register.
        (word.now ≡ register_name rules.now.circuit.now register)
        × ((first ≤ register) × (register < length rules.now.circuit.now.registers))) }
{
    match rules.register(word) {
        Some(found) if first <= found => Ok(found),
        Some(_other) => Err(Flaw::Unfit),
        None => Err(Flaw::Unknown),
    }
}

/// Reads a signal's name.
pub(crate) fn read_signal(rules: &Rules, word: &[u8]) -> Result<u32, Flaw>
    ensures flaw { WordHasFlaw rules.now.circuit.now field.Signal word.now (flaw_in result) }
    ensures value { IfOk result (λ number. (word.now ≡ signal_name rules.now.circuit.now number)
        × (number < length rules.now.circuit.now.signals)) }
{
    match rules.signal(word) {
        Some(signal) => Ok(signal),
        None => Err(Flaw::Unknown),
    }
}

/// Reads a word that is to spell that number.
pub(crate) fn read_exactly(number: u32, word: &[u8]) -> Result<(), Flaw>
    ensures flaw { (circuit : Circuit)
        → WordHasFlaw circuit (field.Exactly number) word.now (flaw_in result) }
    ensures value { IfOk result (λ _. word.now ≡ signed_decimal (pos number)) }
{
    if is_number(word, number as usize) {
        Ok(())
    } else {
        Err(Flaw::Form)
    }
}

// Whether a word spells that number.
fn is_number(word: &[u8], number: usize) -> bool
    ensures spells { IsTrue result ↔ SpellsWhole word.now (pos number) }
    ensures text { IsTrue result → word.now ≡ signed_decimal (pos number) }
{
    match read_whole(word) {
        Some(value) => value == number as i128,
        None => false,
    }
}

/// Reads a number of that range.
pub(crate) fn read_number(least: u32, most: u32, word: &[u8]) -> Result<u32, Flaw>
    ensures flaw { (circuit : Circuit)
        → WordHasFlaw circuit (field.Number least most) word.now (flaw_in result) }
    ensures value { IfOk result (λ number. (word.now ≡ signed_decimal (pos number))
        × ((least ≤ number) × (number ≤ most))) }
{
    let Some(value) = read_whole(word) else {
        return Err(Flaw::Form);
    };
    if value < least as i128 {
        return Err(Flaw::Form);
    }
    if value > most as i128 {
        return Err(Flaw::Large);
    }
    Ok(value as u32)
}

/// Reads a word that is to tell how many words stand after it.
pub(crate) fn read_counted(count: usize, most: usize, word: &[u8]) -> Result<(), Flaw>
    ensures flaw { (circuit : Circuit)
        → WordHasFlaw circuit (field.Counted count most) word.now (flaw_in result) }
    ensures value { IfOk result (λ _. (word.now ≡ signed_decimal (pos count))
        × ((1 ≤ count) × (count ≤ most))) }
{
    if count == 0 || !is_number(word, count) {
        return Err(Flaw::Form);
    }
    if count > most {
        return Err(Flaw::Large);
    }
    Ok(())
}

/// Reads a weight in ticks.
pub(crate) fn read_weight(word: &[u8]) -> Result<i128, Flaw>
    ensures flaw { (circuit : Circuit)
        → WordHasFlaw circuit field.Weight word.now (flaw_in result) }
    ensures value { IfOk result (λ weight. (word.now ≡ signed_decimal weight)
        × IsBelow (10 ^ 12) weight) }
{
    let Some(value) = read_whole(word) else {
        return Err(Flaw::Form);
    };
    if value >= MAX_WEIGHT || value <= -MAX_WEIGHT {
        return Err(Flaw::Large);
    }
    Ok(value)
}
