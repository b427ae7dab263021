ghost use Rattle.std.specs.Prelude.{◌≡◌, [], ◌∷◌, map, Some, IfOk, if◌then◌else◌};
ghost use Rattle.delay_tables.specs.Vocabulary.{fold, flat_map, list_any, bytes_eq, nat_cmp, is_lt, slice_cmp, table_view, texts, keys_of, section_of, Judges};
ghost use Rattle.cts_model.specs.table.TableKeys as tables;
ghost use Rattle.cts_model.specs.table.TableFlaws as flaws;

use crate::TechFault;
use crate::document::{dotted, table_at};
use crate::keys::{GATE_KEYS, GATES, Key, SECTIONS, Section, TOP_NAMES, gate_name};
use cts_base::{Name, NoMemory};
use cts_model::Kind;
use std::alloc::Global;
use toml::Table;

/// Judges that each name is a key or that of a table of keys.
pub(crate) fn judge_names(alloc: Global, document: &Table) -> Result<(), TechFault>
    ensures { Judges result (flaws.name_flaw (table_view document.now)) }
{
    match least_unknown(alloc, document)? {
        Some(name) => Err(TechFault::UnknownKey(name)),
        None => Ok(()),
    }
}

fn least_unknown(alloc: Global, document: &Table) -> Result<Option<Name>, NoMemory>
    ensures { IfOk result
        (λ least. least ≡ flaws.least_name (flaws.unknown_names (table_view document.now))) }
{
    let least_at_top = with_unknown(alloc, None, document, &[], &TOP_NAMES)?;
    let gates = gate_names(alloc, &GATES)?;
    let least_gate = with_unknown(alloc, least_at_top, document, &["gate"], gates.as_slice())?;
    let least_top_key = with_sections(alloc, least_gate, document, &SECTIONS)?;
    with_gates(alloc, least_top_key, document, &GATES)
}

fn gate_names(alloc: Global, kinds: &[Kind]) -> Result<Vec<&'static str>, NoMemory>
    ensures { IfOk result (λ names. texts names.items ≡ map tables.word_of kinds.now) }
{
    let mut names = Vec::new(alloc);
    for kind in kinds {
        names.push(gate_name(*kind))?;
    }
    Ok(names)
}

fn key_names(alloc: Global, keys: &[Key]) -> Result<Vec<&'static str>, NoMemory>
    ensures { IfOk result (λ names. names.items ≡ map (λ key. key.name) keys.now) }
{
    Ok(keys.iter().map(|key| key.name).collect(alloc)?)
}

fn with_sections(
    alloc: Global,
    least: Option<Name>,
    document: &Table,
    sections: &[Section],
) -> Result<Option<Name>, NoMemory>
    ensures { IfOk result (λ lesser. lesser ≡ fold flaws.lesser_name least
        (flat_map (flaws.unknown_in_section (table_view document.now))
        (map section_of sections.now))) }
{
    let mut least = least;
    for section in sections {
        least = with_keys(alloc, least, document, &[section.name], section.keys)?;
    }
    Ok(least)
}

fn with_gates(
    alloc: Global,
    least: Option<Name>,
    document: &Table,
    kinds: &[Kind],
) -> Result<Option<Name>, NoMemory>
    ensures { IfOk result (λ lesser. lesser ≡ fold flaws.lesser_name least
        (flat_map (flaws.unknown_in_section (table_view document.now))
        (map tables.gate_section kinds.now))) }
{
    let mut least = least;
    for kind in kinds {
        least = with_gate(alloc, least, document, *kind)?;
    }
    Ok(least)
}

fn with_gate(
    alloc: Global,
    least: Option<Name>,
    document: &Table,
    kind: Kind,
) -> Result<Option<Name>, NoMemory>
    ensures { IfOk result (λ lesser. lesser ≡ fold flaws.lesser_name least
        (flaws.unknown_in_section (table_view document.now) (tables.gate_section kind))) }
{
    with_keys(
        alloc,
        least,
        document,
        &["gate", gate_name(kind)],
        &GATE_KEYS,
    )
}

// The lesser of a name and of those in a table that aren't its keys.
fn with_keys(
    alloc: Global,
    least: Option<Name>,
    document: &Table,
    way: &[&str],
    keys: &[Key],
) -> Result<Option<Name>, NoMemory>
    ensures { IfOk result (λ lesser. lesser ≡ fold flaws.lesser_name least
        (flaws.unknown_in_section (table_view document.now)
        (record { way = texts way.now; keys = keys_of keys.now }))) }
{
    let known = key_names(alloc, keys)?;
    with_unknown(alloc, least, document, way, known.as_slice())
}

// The lesser of a name and of those in a table that are none of some.
fn with_unknown(
    alloc: Global,
    least: Option<Name>,
    document: &Table,
    way: &[&str],
    known: &[&str],
) -> Result<Option<Name>, NoMemory>
    ensures { IfOk result (λ lesser. lesser ≡ fold flaws.lesser_name least
        (flaws.unknown_at (texts way.now) (texts known.now) (table_view document.now))) }
{
    match table_at(document, way) {
        Some(table) => with_unknown_in(alloc, least, table, way, known),
        None => Ok(least),
    }
}

fn with_unknown_in(
    alloc: Global,
    least: Option<Name>,
    table: &Table,
    way: &[&str],
    known: &[&str],
) -> Result<Option<Name>, NoMemory>
    ensures { IfOk result (λ lesser. lesser ≡ fold flaws.lesser_name least
        (flaws.unknown_of (texts way.now) (texts known.now)
        (flaws.names_in (table_view table.now)))) }
{
    let mut least = least;
    for name in table.keys() {
        least = with_name(alloc, least, way, known, name.as_str())?;
    }
    Ok(least)
}

fn with_name(
    alloc: Global,
    least: Option<Name>,
    way: &[&str],
    known: &[&str],
    name: &str,
) -> Result<Option<Name>, NoMemory>
    ensures { IfOk result (λ lesser. lesser ≡ fold flaws.lesser_name least
        (flaws.unknown_of (texts way.now) (texts known.now) (name.now ∷ []))) }
{
    if is_known(known, name) {
        return Ok(least);
    }
    let name = dotted(alloc, way, name)?;
    Ok(Some(lesser(least, name)))
}

fn is_known(known: &[&str], name: &str) -> bool
    ensures { result ≡ list_any (λ other. bytes_eq name.now other.now) known.now }
{
    known.iter().any(|other| name == *other)
}

fn lesser(least: Option<Name>, name: Name) -> Name
    ensures { Some result ≡ flaws.lesser_name least name }
{
    match least {
        Some(least) => lesser_of(least, name),
        None => name,
    }
}

fn lesser_of(least: Name, name: Name) -> Name
    ensures { result ≡ (if is_lt (slice_cmp nat_cmp name least) then name else least) }
{
    if name.as_slice().cmp(least.as_slice()).is_lt() {
        name
    } else {
        least
    }
}
