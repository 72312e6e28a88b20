ghost use Rattle.std.specs.Prelude.{◌≡◌, ◌⊎◌, Some, None, map, IfOk, IfErr};
ghost use Rattle.toml.specs.View.{view};
ghost use Rattle.relay_config.specs.Values.{tables_at};
ghost use Rattle.relay_config.specs.Refusals.{Tells, tables_refusal, first_refusal, values_of};
ghost use Rattle.relay_config.specs.Accepts.{document, refusal, Accepts, Lawful};

use crate::check::check_table;
use crate::forms::{elements, value_at};
use crate::rows::Row;
use crate::values::config;
use crate::whole::check_whole;
use crate::{Config, ConfigFail, Key, rows};
use std::alloc::Global;
use toml::Value;

// The largest size of a configuration, in bytes.
const MOST_BYTES: usize = 1_048_576;

fn document(alloc: Global, bytes: &[u8]) -> Result<Value, ConfigFail>
    ensures ok { IfOk result (λ whole. document bytes.now ≡ Some (view whole)) }
    ensures refused { IfErr result (λ e. (e ≡ ConfigFail.OutOfMemory) ⊎ ((e ≡ ConfigFail.NotToml) × (document bytes.now ≡ None))) }
{
    if bytes.len() > MOST_BYTES {
        return Err(ConfigFail::NotToml);
    }
    let Ok(text) = str::from_utf8(bytes) else {
        return Err(ConfigFail::NotToml);
    };
    match toml::table_from_str(alloc, text) {
        Ok(table) => Ok(Value::Table(table)),
        Err(e) if e.is_memory() => Err(ConfigFail::OutOfMemory),
        Err(_) => Err(ConfigFail::NotToml),
    }
}

// Returns the tables of a list, or none if the list isn't there.
fn tables_at(whole: &Value, key: Key) -> &[Value]
    ensures { map (λ v. view v) result.now ≡ tables_at key (view whole.now) }
{
    match value_at(whole, key) {
        Some(list) => elements(list),
        None => &[],
    }
}

// Tests each table of a list, one after the other.
fn check_tables(alloc: Global, rows: &[Row], tables: &[Value]) -> Result<(), ConfigFail>
    ensures { Tells result (tables_refusal rows.now (map (λ v. view v) tables.now)) }
{
    for table in tables {
        check_table(alloc, rows, table)?;
    }
    Ok(())
}

fn read_whole(alloc: Global, whole: &Value) -> Result<Config, ConfigFail>
    ensures ok { IfOk result (λ config. (first_refusal (view whole.now) ≡ None) × (values_of (view whole.now) ≡ Some config)) }
    ensures refused { IfErr result (λ e. (e ≡ ConfigFail.OutOfMemory) ⊎ (first_refusal (view whole.now) ≡ Some e)) }
    ensures lawful { IfOk result Lawful }
{
    check_table(alloc, &rows::whole(), whole)?;
    let Some(relay) = value_at(whole, Key::Relay) else {
        return Err(ConfigFail::Missing { key: Key::Relay });
    };
    check_table(alloc, &rows::relay(), relay)?;
    let streams = tables_at(whole, Key::Stream);
    check_tables(alloc, &rows::stream(), streams)?;
    let opens = tables_at(whole, Key::Open);
    check_tables(alloc, &rows::open_table(), opens)?;
    let config = config(alloc, relay, streams, opens)?;
    check_whole(&config)?;
    Ok(config)
}

/// Reads a configuration from a text.
///
/// It is Ok exactly if the text is accepted, with its values and defaults. Else the error is the first test
/// that the text fails.
///
/// The first test is `NotToml`. Then, for the whole, the table `relay`, each stream and each open table in
/// order, `Unknown`, then `Missing`, then `Range` of the first such key. Then `Range` of `http`, if it is the
/// text of `listen`. Last, for the streams and open tables together, `Missing`, `Range` of the streams and of
/// the names, `Twice` and `TooMuch`.
///
/// `OutOfMemory` may come in place of any of these.
pub fn read_config(alloc: Global, bytes: &[u8]) -> Result<Config, ConfigFail>
    ensures ok { IfOk result (Accepts bytes.now) }
    ensures refused { IfErr result (λ e. (e ≡ ConfigFail.OutOfMemory) ⊎ (refusal bytes.now ≡ Some e)) }
    ensures lawful { IfOk result Lawful }
{
    let whole = document(alloc, bytes)?;
    read_whole(alloc, &whole)
}
