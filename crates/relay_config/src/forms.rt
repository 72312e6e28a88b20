ghost use Rattle.std.specs.Prelude.{◌≡◌, ◌+◌, is_some, map, option_map, option_copied};
ghost use Rattle.std.specs.List.{list_all};
ghost use Rattle.toml.specs.Data.{as_table};
ghost use Rattle.toml.specs.View.{view};
ghost use Rattle.relay_config.specs.Forms.{value_at, elements, number_in, number_at, number_or, text_at, is_true_at, is_within, is_text, is_word, is_word_byte};
ghost use Rattle.relay_config.specs.Forms.{is_digest, is_hex_digit, is_number, is_list_of, is_key, fits};

use crate::Key;
use crate::rows::Form;
use toml::Value;

/// Returns the value at a key of a table.
pub(crate) fn value_at(table: &Value, key: Key) -> Option<&Value>
    ensures { option_map (λ v. view v.now) result ≡ value_at key (view table.now) }
{
    table.get(key.name())
}

/// Returns the elements of an array.
pub(crate) fn elements(list: &Value) -> &[Value]
    ensures { map (λ v. view v) result.now ≡ elements (view list.now) }
{
    match list.as_array() {
        Some(list) => list.as_slice(),
        None => &[],
    }
}

fn number_in(value: &Value) -> Option<u32>
    ensures { result ≡ number_in (view value.now) }
{
    u32::try_from(value.as_integer()?).ok()
}

/// Returns the number at a key.
pub(crate) fn number_at(table: &Value, key: Key) -> Option<u32>
    ensures { result ≡ number_at key (view table.now) }
{
    number_in(value_at(table, key)?)
}

/// Returns the number at a key, or the default.
pub(crate) fn number_or(table: &Value, key: Key, default: u32) -> u32
    ensures { result ≡ number_or key default (view table.now) }
{
    number_at(table, key).unwrap_or(default)
}

/// Returns the text at a key.
pub(crate) fn text_at(table: &Value, key: Key) -> Option<&str>
    ensures { option_copied result ≡ text_at key (view table.now) }
{
    match value_at(table, key) {
        Some(value) => value.as_str(),
        None => None,
    }
}

/// Tells whether the value at a key is true.
pub(crate) fn is_true_at(table: &Value, key: Key) -> bool
    ensures { result ≡ is_true_at key (view table.now) }
{
    match value_at(table, key) {
        Some(value) => value.as_bool().unwrap_or(false),
        None => false,
    }
}

fn is_within(least: usize, most: usize, n: usize) -> bool
    ensures { result ≡ is_within least most n }
{
    least <= n && n <= most
}

fn is_text(value: &Value, most: u32) -> bool
    ensures { result ≡ is_text most (view value.now) }
{
    match value.as_str() {
        Some(text) => is_within(1, most as usize, text.len()),
        None => false,
    }
}

fn is_word_byte(b: u8) -> bool
    ensures { result ≡ is_word_byte b }
{
    matches!(b, b'A'..=b'Z' | b'a'..=b'z' | b'0'..=b'9' | b'.' | b'_' | b'-')
}

fn are_word_bytes(bytes: &[u8]) -> bool
    ensures { result ≡ list_all is_word_byte bytes.now }
{
    bytes.iter().all(|b| is_word_byte(*b))
}

fn is_word(value: &Value) -> bool
    ensures { result ≡ is_word (view value.now) }
{
    match value.as_str() {
        Some(text) => is_within(1, 64, text.len()) && are_word_bytes(text.as_bytes()),
        None => false,
    }
}

fn is_hex_digit(b: u8) -> bool
    ensures { result ≡ is_hex_digit b }
{
    matches!(b, b'0'..=b'9' | b'a'..=b'f')
}

fn are_hex_digits(bytes: &[u8]) -> bool
    ensures { result ≡ list_all is_hex_digit bytes.now }
{
    bytes.iter().all(|b| is_hex_digit(*b))
}

fn is_digest(value: &Value) -> bool
    ensures { result ≡ is_digest (view value.now) }
{
    match value.as_str() {
        Some(text) => text.len() == 64 && are_hex_digits(text.as_bytes()),
        None => false,
    }
}

fn is_number(value: &Value, least: u32, most: u32) -> bool
    ensures { result ≡ is_number least most (view value.now) }
{
    match number_in(value) {
        Some(n) => is_within(least as usize, most as usize, n as usize),
        None => false,
    }
}

fn all_tables(list: &[Value]) -> bool
    ensures { result ≡ list_all (λ v. is_some (as_table (view v))) list.now }
{
    list.iter().all(|e| e.is_table())
}

fn are_tables(value: &Value) -> bool
    ensures { result ≡ is_list_of (λ e. is_some (as_table e)) (view value.now) }
{
    value.is_array() && all_tables(elements(value))
}

fn is_key(value: &Value, digest: bool) -> bool
    ensures { result ≡ is_key digest (view value.now) }
{
    if digest {
        is_digest(value)
    } else {
        is_text(value, 64)
    }
}

fn all_keys(list: &[Value], digest: bool) -> bool
    ensures { result ≡ list_all (λ v. is_key digest (view v)) list.now }
{
    list.iter().all(|e| is_key(e, digest))
}

fn are_keys(value: &Value, digest: bool) -> bool
    ensures { result ≡ is_list_of (is_key digest) (view value.now) }
{
    value.is_array() && all_keys(elements(value), digest)
}

/// Tells whether a value of a table has the form.
pub(crate) fn fits(form: Form, table: &Value, value: &Value) -> bool
    ensures { result ≡ fits form (view table.now) (view value.now) }
{
    match form {
        Form::Table => value.is_table(),
        Form::Tables => are_tables(value),
        Form::Text { most } => is_text(value, most),
        Form::Word => is_word(value),
        Form::Number { least, most } => is_number(value, least, most),
        Form::RingBytes => fits_ring(table, value),
        Form::Keys => are_keys(value, is_true_at(table, Key::Digest)),
        Form::Truth => value.as_bool().is_some(),
    }
}

fn fits_ring(table: &Value, value: &Value) -> bool
    ensures { result ≡ fits Form.RingBytes (view table.now) (view value.now) }
{
    let message = number_or(table, Key::MaxMessage, 4_194_304);
    match number_in(value) {
        Some(n) => is_within(message as usize + 64, 268_435_456, n as usize),
        None => false,
    }
}
