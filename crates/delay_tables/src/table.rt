ghost use Rattle.std.specs.Prelude.{◌≡◌, [], ◌∷◌, map, codes, None, IfOk};
ghost use Rattle.delay_tables.specs.Vocabulary.{table_view, DenotesTable};
ghost use Rattle.cts_model.specs.table.TableKeys as tables;
ghost use Rattle.cts_model.specs.table.TableValues as denoted;
ghost use Rattle.cts_model.specs.table.TableFlaws as flaws;

use crate::document::{number_at, table_at, text_at};
use crate::fraction::lowest_terms;
use crate::keys::gate_name;
use cts_base::{Listed, Name, NoMemory};
use cts_model::{GateDelay, Kind, Tech};
use std::alloc::Global;
use toml::Table;

/// The delay table that a document denotes.
pub(crate) fn table_denoted(alloc: Global, document: &Table) -> Result<Tech, NoMemory>
    requires keys { flaws.first_flaw (flaws.section_flaw (table_view document.now)) tables.sections
        ≡ None }
    requires order { flaws.order_flaw (table_view document.now) ≡ None }
    ensures { IfOk result (DenotesTable (table_view document.now)) }
{
    let wire = lowest_terms(text_at(document, &["wire"], "delay").as_bytes());
    Ok(Tech {
        wire_num: wire.num(),
        wire_den: wire.den(),
        source: name_at(alloc, document, "source")?,
        setup: number_at(document, &["register"], "setup"),
        hold: number_at(document, &["register"], "hold"),
        least: number_at(document, &["register"], "least"),
        greatest: number_at(document, &["register"], "greatest"),
        host: name_at(alloc, document, "host")?,
        floor: number_at(document, &["period"], "floor"),
        gates: gate_delays(document),
    })
}

// The name of the node where the source or the host stands.
fn name_at(alloc: Global, document: &Table, table: &str) -> Result<Name, NoMemory>
    ensures { IfOk result (λ name. name
        ≡ denoted.text_at (table.now ∷ []) (codes "place") (table_view document.now)) }
{
    let name = text_at(document, &[table], "place");
    Ok(Listed::from_vec(Vec::from_slice(alloc, name.as_bytes())?))
}

fn gate_delays(document: &Table) -> [GateDelay; 8]
    ensures { result ≡ map (denoted.gate_delay_at (table_view document.now)) tables.gate_kinds }
{
    [
        gate_delay(document, Kind::And),
        gate_delay(document, Kind::Nand),
        gate_delay(document, Kind::Or),
        gate_delay(document, Kind::Nor),
        gate_delay(document, Kind::Not),
        gate_delay(document, Kind::Xor),
        gate_delay(document, Kind::Xnor),
        gate_delay(document, Kind::Buff),
    ]
}

fn gate_delay(document: &Table, kind: Kind) -> GateDelay
    ensures { result ≡ denoted.gate_delay_at (table_view document.now) kind }
{
    let way = ["gate", gate_name(kind)];
    GateDelay {
        given: table_at(document, &way).is_some(),
        least: number_at(document, &way, "least"),
        greatest: number_at(document, &way, "greatest"),
        least_per_input: number_at(document, &way, "least_per_input"),
        greatest_per_input: number_at(document, &way, "greatest_per_input"),
    }
}
