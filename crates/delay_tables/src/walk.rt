ghost use Rattle.std.specs.Prelude.{◌≡◌, [], ◌∷◌, map, true};
ghost use Rattle.delay_tables.specs.Vocabulary.{view, table_view, texts, form_of, need_of, key_of, keys_of, section_of, Judges};
ghost use Rattle.cts_model.specs.table.TableKeys as tables;
ghost use Rattle.cts_model.specs.table.TableValues as denoted;
ghost use Rattle.cts_model.specs.table.TableFlaws as flaws;

use crate::TechFault;
use crate::document::{dotted, table_at, value_at};
use crate::fraction::{is_fraction, is_small_fraction};
use crate::keys::{Form, GATE_KEYS, GATES, Key, Need, SECTIONS, Section, gate_name};
use cts_model::Kind;
use std::alloc::Global;
use toml::{Table, Value};

/// Judges the keys one after the other.
pub(crate) fn judge_keys(alloc: Global, document: &Table) -> Result<(), TechFault>
    ensures { Judges result
        (flaws.first_flaw (flaws.section_flaw (table_view document.now)) tables.sections) }
{
    judge_top_sections(alloc, document)?;
    judge_gates(alloc, document, &GATES)
}

fn judge_top_sections(alloc: Global, document: &Table) -> Result<(), TechFault>
    ensures { Judges result
        (flaws.first_flaw (flaws.section_flaw (table_view document.now)) tables.top_sections) }
{
    judge_sections(alloc, document, &SECTIONS)
}

fn judge_sections(alloc: Global, document: &Table, sections: &[Section]) -> Result<(), TechFault>
    ensures { Judges result (flaws.first_flaw (flaws.section_flaw (table_view document.now))
        (map section_of sections.now)) }
{
    for section in sections {
        judge_section(alloc, document, &[section.name], section.keys)?;
    }
    Ok(())
}

fn judge_gates(alloc: Global, document: &Table, kinds: &[Kind]) -> Result<(), TechFault>
    ensures { Judges result (flaws.first_flaw (flaws.section_flaw (table_view document.now))
        (map tables.gate_section kinds.now)) }
{
    for kind in kinds {
        judge_gate(alloc, document, *kind)?;
    }
    Ok(())
}

fn judge_gate(alloc: Global, document: &Table, kind: Kind) -> Result<(), TechFault>
    ensures { Judges result
        (flaws.section_flaw (table_view document.now) (tables.gate_section kind)) }
{
    judge_section(alloc, document, &["gate", gate_name(kind)], &GATE_KEYS)
}

// Judges the names that lead to a table, and its keys.
fn judge_section(
    alloc: Global,
    document: &Table,
    way: &[&str],
    keys: &[Key],
) -> Result<(), TechFault>
    ensures { Judges result (flaws.section_flaw (table_view document.now)
        (record { way = texts way.now; keys = keys_of keys.now })) }
{
    judge_way(alloc, document, way)?;
    for key in keys {
        judge_key(alloc, document, way, key)?;
    }
    Ok(())
}

fn judge_way(alloc: Global, document: &Table, way: &[&str]) -> Result<(), TechFault>
    ensures { Judges result (flaws.way_flaw [] (texts way.now) (table_view document.now)) }
{
    for (place, name) in way.iter().enumerate() {
        judge_table(alloc, document, &way[..place], name)?;
    }
    Ok(())
}

// Judges that what stands at a name is a table, where anything is.
fn judge_table(alloc: Global, document: &Table, way: &[&str], name: &str) -> Result<(), TechFault>
    ensures { Judges result
        (flaws.way_flaw (texts way.now) (name.now ∷ []) (table_view document.now)) }
{
    match value_at(document, way, name) {
        Some(value) if !value.is_table() => { Err(TechFault::WrongType(dotted(alloc, way, name)?)) }
        _ => Ok(()),
    }
}

fn judge_key(alloc: Global, document: &Table, way: &[&str], key: &Key) -> Result<(), TechFault>
    ensures { Judges result
        (flaws.key_flaw (texts way.now) (table_view document.now) (key_of key.now)) }
{
    match value_at(document, way, key.name) {
        Some(value) => judge_value(alloc, way, key, value),
        None => judge_absence(alloc, way, key, table_at(document, way).is_some()),
    }
}

fn judge_value(alloc: Global, way: &[&str], key: &Key, value: &Value) -> Result<(), TechFault>
    ensures { Judges result (flaws.value_flaw (key_of key.now)
        (denoted.dotted (texts way.now) key.now.name.now) (view value.now)) }
{
    if !has_form(key.form, value) {
        return Err(TechFault::WrongType(dotted(alloc, way, key.name)?));
    }
    if !is_in_range(key.form, value) {
        return Err(TechFault::OutOfRange(dotted(alloc, way, key.name)?));
    }
    Ok(())
}

// Judges a key at which nothing stands, by whether its table is there.
fn judge_absence(alloc: Global, way: &[&str], key: &Key, there: bool) -> Result<(), TechFault>
    ensures { Judges result (flaws.absence_flaw (key_of key.now)
        (denoted.dotted (texts way.now) key.now.name.now) there) }
{
    if is_needed(key.need, there) {
        return Err(TechFault::Missing(dotted(alloc, way, key.name)?));
    }
    Ok(())
}

fn is_needed(need: Need, there: bool) -> bool
    ensures { result ≡ flaws.is_needed (need_of need) there }
{
    match need {
        Need::Always => true,
        Need::InTable => there,
        Need::Optional => false,
    }
}

fn has_form(form: Form, value: &Value) -> bool
    ensures { result ≡ denoted.has_form (form_of form) (view value.now) }
{
    match form {
        Form::Fraction => is_fraction_value(value),
        Form::Node => value.is_str(),
        Form::UpTo(_) => value.is_integer(),
    }
}

fn is_in_range(form: Form, value: &Value) -> bool
    requires { denoted.has_form (form_of form) (view value.now) ≡ true }
    ensures { result ≡ denoted.is_in_range (form_of form) (view value.now) }
{
    match form {
        Form::Fraction => is_small_fraction_value(value),
        Form::Node => is_node_value(value),
        Form::UpTo(most) => is_number_up_to(value, most),
    }
}

fn is_fraction_value(value: &Value) -> bool
    ensures { result ≡ denoted.has_form tables.Fraction (view value.now) }
{
    match value.as_str() {
        Some(text) => is_fraction(text.as_bytes()),
        None => false,
    }
}

fn is_small_fraction_value(value: &Value) -> bool
    requires { denoted.has_form tables.Fraction (view value.now) ≡ true }
    ensures { result ≡ denoted.is_in_range tables.Fraction (view value.now) }
{
    match value.as_str() {
        Some(text) => is_small_fraction(text.as_bytes()),
        None => false,
    }
}

fn is_node_value(value: &Value) -> bool
    ensures { result ≡ denoted.is_in_range tables.Node (view value.now) }
{
    match value.as_str() {
        Some(name) => 1 <= name.len() && name.len() <= 255,
        None => false,
    }
}

fn is_number_up_to(value: &Value, most: u32) -> bool
    ensures { result ≡ denoted.is_in_range (tables.UpTo most) (view value.now) }
{
    match value.as_integer() {
        Some(number) => 0 <= number && number <= i64::from(most),
        None => false,
    }
}
