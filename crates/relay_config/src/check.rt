ghost use Rattle.std.specs.Prelude.{◌≡◌, ◌⊎◌, not, Some, None, option_map, option_copied, string_bytes};
ghost use Rattle.std.specs.List.{find};
ghost use Rattle.std.specs.BTreeMap.{keys};
ghost use Rattle.toml.specs.View.{view};
ghost use Rattle.relay_config.specs.Refusals.{Tells, is_known, unknown_in, lacks, is_outside, first_key, table_refusal};

use crate::forms::{fits, value_at};
use crate::rows::Row;
use crate::{ConfigFail, Key};
use av_unit::Bytes;
use std::alloc::Global;
use toml::{Table, Value};

fn is_known(rows: &[Row], key: &str) -> bool
    ensures { result ≡ is_known rows.now key.now }
{
    rows.iter().any(|row| key == row.key.name())
}

fn unknown_of<'a>(rows: &[Row], table: &'a Table) -> Option<&'a String>
    ensures { option_map (λ s. s.now) result ≡ find (λ k. not (is_known rows.now (string_bytes k))) (keys table.now) }
{
    table.keys().find(|key| !is_known(rows, key.as_str()))
}

fn unknown_key<'a>(rows: &[Row], table: &'a Value) -> Option<&'a str>
    ensures { option_copied result ≡ unknown_in rows.now (view table.now) }
{
    match unknown_of(rows, table.as_table()?) {
        Some(key) => Some(key.as_str()),
        None => None,
    }
}

fn lacks(table: &Value, row: &Row) -> bool
    ensures { result ≡ lacks (view table.now) row.now }
{
    row.required && value_at(table, row.key).is_none()
}

fn missing_key(rows: &[Row], table: &Value) -> Option<Key>
    ensures { result ≡ first_key (lacks (view table.now)) rows.now }
{
    match rows.iter().find(|row| lacks(table, row)) {
        Some(row) => Some(row.key),
        None => None,
    }
}

fn is_outside(table: &Value, row: &Row) -> bool
    ensures { result ≡ is_outside (view table.now) row.now }
{
    match value_at(table, row.key) {
        Some(value) => !fits(row.form, table, value),
        None => false,
    }
}

fn outside_key(rows: &[Row], table: &Value) -> Option<Key>
    ensures { result ≡ first_key (is_outside (view table.now)) rows.now }
{
    match rows.iter().find(|row| is_outside(table, row)) {
        Some(row) => Some(row.key),
        None => None,
    }
}

/// Tests one table: it has no key but those of the rows, it has the required ones, and each value has its
/// form, in this order.
pub(crate) fn check_table(alloc: Global, rows: &[Row], table: &Value) -> Result<(), ConfigFail>
    ensures { Tells result (table_refusal rows.now (view table.now)) }
{
    if let Some(key) = unknown_key(rows, table) {
        return Err(unknown(alloc, key));
    }
    if let Some(key) = missing_key(rows, table) {
        return Err(ConfigFail::Missing { key });
    }
    if let Some(key) = outside_key(rows, table) {
        return Err(ConfigFail::Range { key });
    }
    Ok(())
}

// Makes the refusal of a key, or `OutOfMemory` if memory to name it is refused.
fn unknown(alloc: Global, key: &str) -> ConfigFail
    ensures { (result ≡ ConfigFail.OutOfMemory) ⊎ (result ≡ ConfigFail.Unknown key.now) }
{
    match key.as_bytes().to_vec(alloc) {
        Ok(key) => ConfigFail::Unknown {
            key: Bytes::from_vec(key),
        },
        Err(_) => ConfigFail::OutOfMemory,
    }
}
