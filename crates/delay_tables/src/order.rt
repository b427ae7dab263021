ghost use Rattle.std.specs.Prelude.{◌≡◌, false, slice_index_or};
ghost use Rattle.delay_tables.specs.Vocabulary.{table_view, place_of, texts, Judges};
ghost use Rattle.cts_model.specs.table.TableKeys as tables;
ghost use Rattle.cts_model.specs.table.TableFlaws as flaws;

use crate::TechFault;
use crate::document::{dotted, number_at, table_at};
use crate::keys::{GATES, gate_name};
use cts_model::Kind;
use std::alloc::Global;
use toml::Table;

/// Judges that no least delay is above its greatest.
pub(crate) fn judge_order(alloc: Global, document: &Table) -> Result<(), TechFault>
    ensures { Judges result (flaws.order_flaw (table_view document.now)) }
{
    judge_register_order(alloc, document)?;
    judge_gate_orders(alloc, document, &GATES)
}

fn judge_register_order(alloc: Global, document: &Table) -> Result<(), TechFault>
    ensures { Judges result (flaws.register_flaw (table_view document.now)) }
{
    if is_disordered(document, &["register"], "least", "greatest") {
        return Err(TechFault::LeastAboveGreatest(dotted(alloc, &[], "register")?));
    }
    Ok(())
}

fn judge_gate_orders(alloc: Global, document: &Table, kinds: &[Kind]) -> Result<(), TechFault>
    ensures { Judges result
        (flaws.first_flaw (flaws.gate_flaw (table_view document.now)) kinds.now) }
{
    for kind in kinds {
        judge_gate_order(alloc, document, *kind)?;
    }
    Ok(())
}

fn judge_gate_order(alloc: Global, document: &Table, kind: Kind) -> Result<(), TechFault>
    ensures { Judges result (flaws.gate_flaw (table_view document.now) kind) }
{
    let name = gate_name(kind);
    let way = ["gate", name];
    if is_disordered(document, &way, "least", "greatest")
        || is_disordered(document, &way, "least_per_input", "greatest_per_input")
    {
        return Err(TechFault::LeastAboveGreatest(dotted(alloc, &[], name)?));
    }
    Ok(())
}

fn is_disordered(document: &Table, way: &[&str], least: &str, greatest: &str) -> bool
    ensures { result
        ≡ flaws.is_disordered (texts way.now) least.now greatest.now (table_view document.now) }
{
    number_at(document, way, greatest) < number_at(document, way, least)
}

/// Judges that each gate kind that a netlist uses is given. It takes no memory.
pub(crate) fn judge_kinds(document: &Table, used: &[bool; 8]) -> Result<(), TechFault>
    ensures { Judges result
        (flaws.first_flaw (flaws.kind_flaw used.now (table_view document.now)) tables.gate_kinds) }
{
    judge_gate_kinds(document, used, &GATES)
}

fn judge_gate_kinds(document: &Table, used: &[bool; 8], kinds: &[Kind]) -> Result<(), TechFault>
    ensures { Judges result
        (flaws.first_flaw (flaws.kind_flaw used.now (table_view document.now)) kinds.now) }
{
    for kind in kinds {
        judge_kind(document, used, *kind)?;
    }
    Ok(())
}

fn judge_kind(document: &Table, used: &[bool; 8], kind: Kind) -> Result<(), TechFault>
    ensures { Judges result (flaws.kind_flaw used.now (table_view document.now) kind) }
{
    if is_used(used, kind) && table_at(document, &["gate", gate_name(kind)]).is_none() {
        return Err(TechFault::MissingKind(kind));
    }
    Ok(())
}

fn is_used(used: &[bool; 8], kind: Kind) -> bool
    ensures { result ≡ slice_index_or used.now (place_of kind) false }
{
    match kind {
        Kind::And => used[0],
        Kind::Nand => used[1],
        Kind::Or => used[2],
        Kind::Nor => used[3],
        Kind::Not => used[4],
        Kind::Xor => used[5],
        Kind::Xnor => used[6],
        Kind::Buff => used[7],
        Kind::Input | Kind::Dff | Kind::Host => false,
    }
}
