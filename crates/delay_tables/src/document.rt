ghost use Rattle.std.specs.Prelude.{◌≡◌, IfOk};
ghost use Rattle.delay_tables.specs.Vocabulary.{option_map, option_and_then, get_member, as_table, view, table_view, texts};
ghost use Rattle.cts_model.specs.table.TableValues as denoted;

use cts_base::{Listed, Name, NoMemory};
use std::alloc::Global;
use toml::{Table, Value};

/// A name after those of the tables that lead to it, joined by dots.
pub(crate) fn dotted(alloc: Global, way: &[&str], name: &str) -> Result<Name, NoMemory>
    ensures { IfOk result (λ text. text ≡ denoted.dotted (texts way.now) name.now) }
{
    let mut text = Vec::new(alloc);
    for table in way {
        text.extend_from_slice(table.as_bytes())?;
        text.push(b'.')?;
    }
    text.extend_from_slice(name.as_bytes())?;
    Ok(Listed::from_vec(text))
}

/// The table that some names lead to.
pub(crate) fn table_at<'a>(document: &'a Table, way: &[&str]) -> Option<&'a Table>
    ensures { option_map (λ table. table_view table.now) result
        ≡ denoted.table_at (texts way.now) (table_view document.now) }
{
    match way {
        [] => Some(document),
        [name, rest @ ..] => table_at(inner_table(document, name)?, rest),
    }
}

fn inner_table<'a>(document: &'a Table, name: &str) -> Option<&'a Table>
    ensures { option_map (λ table. table_view table.now) result
        ≡ option_and_then as_table (get_member name.now (table_view document.now)) }
{
    match document.get(name) {
        Some(value) => value.as_table(),
        None => None,
    }
}

/// What stands at a name in the table that some names lead to.
pub(crate) fn value_at<'a>(document: &'a Table, way: &[&str], name: &str) -> Option<&'a Value>
    ensures { option_map (λ value. view value.now) result
        ≡ denoted.value_at (texts way.now) name.now (table_view document.now) }
{
    match table_at(document, way) {
        Some(table) => table.get(name),
        None => None,
    }
}

/// The whole number there, or 0.
pub(crate) fn number_at(document: &Table, way: &[&str], name: &str) -> i128
    ensures { result ≡ denoted.number_at (texts way.now) name.now (table_view document.now) }
{
    match value_at(document, way, name) {
        Some(value) => i128::from(value.as_integer().unwrap_or(0)),
        None => 0,
    }
}

/// The text there, or none.
pub(crate) fn text_at<'a>(document: &'a Table, way: &[&str], name: &str) -> &'a str
    ensures { result.now ≡ denoted.text_at (texts way.now) name.now (table_view document.now) }
{
    match value_at(document, way, name) {
        Some(value) => value.as_str().unwrap_or(""),
        None => "",
    }
}
