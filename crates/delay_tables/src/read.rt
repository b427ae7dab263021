ghost use Rattle.std.specs.Prelude.{◌≡◌, ◌≢◌, ◌⊎◌, IfOk, IfErr, IsErrAnd, IsOkUnless};
ghost use Rattle.delay_tables.specs.Vocabulary.{table_view, IsDocument, IsDelayTable, AcceptsTable, GivesKinds, TechFault, Judges, IsUnread, RefusesTable, DenotesName};
ghost use Rattle.cts_model.specs.table.TableFlaws as flaws;

use crate::TechFault;
use crate::names::judge_names;
use crate::order::{judge_kinds, judge_order};
use crate::table::table_denoted;
use crate::walk::judge_keys;
use cts_model::Tech;
use std::alloc::Global;
use toml::Table;

/// Reads a delay table in TOML for a netlist that uses these gate kinds, in the order of `Kind`.
///
/// # Errors
///
/// The first fault of the text, or `NoMemory` where memory is refused.
pub fn read_tech(alloc: Global, bytes: &[u8], used: &[bool; 8]) -> Result<Tech, TechFault>
    // Ok comes exactly on a delay table, with the table that the bytes tell.
    ensures ok { IfOk result (AcceptsTable used.now bytes.now) }
    ensures given { IfOk result (GivesKinds used.now) }
    ensures accepted { IsDelayTable used.now bytes.now → IsOkUnless result TechFault.NoMemory }
    // A fault comes exactly where the bytes have it; memory alone is free.
    ensures refused { IfErr result (RefusesTable used.now bytes.now) }
    ensures faulty { (fault : TechFault) → fault ≢ TechFault.NoMemory
        → RefusesTable used.now bytes.now fault
        → IsErrAnd result (λ found. (found ≡ fault) ⊎ (found ≡ TechFault.NoMemory)) }
    // The unknown key that is given is the least, and of what is out of order it is the first.
    ensures denoted { IfErr result (DenotesName bytes.now) }
{
    accepted_table(alloc, bytes, used)
}

fn accepted_table(alloc: Global, bytes: &[u8], used: &[bool; 8]) -> Result<Tech, TechFault>
    ensures ok { IfOk result (AcceptsTable used.now bytes.now) }
    ensures refused { IfErr result (RefusesTable used.now bytes.now) }
{
    let document = document_of(alloc, bytes)?;
    judge(alloc, &document, used)?;
    Ok(table_denoted(alloc, &document)?)
}

fn document_of(alloc: Global, bytes: &[u8]) -> Result<Table, TechFault>
    ensures ok { IfOk result (λ document. IsDocument bytes.now (table_view document)) }
    ensures refused { IfErr result (IsUnread bytes.now) }
{
    match toml::table_from_slice(alloc, bytes) {
        Ok(document) => Ok(document),
        Err(refused) if refused.is_memory() => Err(TechFault::NoMemory),
        Err(_) => Err(TechFault::NotToml),
    }
}

fn judge(alloc: Global, document: &Table, used: &[bool; 8]) -> Result<(), TechFault>
    ensures { Judges result (flaws.table_flaw used.now (table_view document.now)) }
{
    judge_keys(alloc, document)?;
    judge_order(alloc, document)?;
    judge_kinds(document, used)?;
    judge_names(alloc, document)
}
