ghost use Rattle.std.specs.Prelude.{◌≡◌};
ghost use Rattle.relay_config.specs.Refusals.{required, optional, whole_rows, relay_rows, stream_rows, open_rows};

use crate::Key;

/// The form that a value must have.
#[derive(Clone, Copy)]
pub(crate) enum Form {
    /// A table.
    Table,
    /// A list of tables.
    Tables,
    /// A text of 1 to `most` bytes.
    Text { most: u32 },
    /// A text of 1 to 64 letters, digits, `.`, `_` and `-`.
    Word,
    /// A whole number from `least` to `most`.
    Number { least: u32, most: u32 },
    /// A whole number from the table's `max_message` plus 64 to 268,435,456.
    RingBytes,
    /// A list of keys: digests if the table's `digest` is true, else texts of 1 to 64 bytes.
    Keys,
    /// True or false.
    Truth,
}

/// A key that a table may have, whether it is required, and the form of its value.
#[derive(Clone, Copy)]
pub(crate) struct Row {
    pub key: Key,
    pub required: bool,
    pub form: Form,
}

impl Row {
    fn required(key: Key, form: Form) -> Row
        ensures { result ≡ required key form }
    {
        Row {
            key,
            required: true,
            form,
        }
    }

    fn optional(key: Key, form: Form) -> Row
        ensures { result ≡ optional key form }
    {
        Row {
            key,
            required: false,
            form,
        }
    }
}

// Makes the row of a whole number in a range. The key isn't required.
fn number(key: Key, least: u32, most: u32) -> Row
    ensures { result ≡ optional key (Form.Number least most) }
{
    Row::optional(key, Form::Number { least, most })
}

/// Returns the keys of the whole text.
pub(crate) fn whole() -> [Row; 3]
    ensures { result ≡ whole_rows }
{
    [
        Row::required(Key::Relay, Form::Table),
        Row::optional(Key::Stream, Form::Tables),
        Row::optional(Key::Open, Form::Tables),
    ]
}

/// Returns the keys of the table `relay`.
pub(crate) fn relay() -> [Row; 11]
    ensures { result ≡ relay_rows }
{
    [
        Row::required(Key::Listen, Form::Text { most: 64 }),
        Row::optional(Key::Http, Form::Text { most: 64 }),
        number(Key::Workers, 1, 16),
        number(Key::Links, 1, 64),
        number(Key::Accept, 0, 1_000_000),
        number(Key::MaxMessage, 4_096, 4_194_304),
        Row::optional(Key::RingBytes, Form::RingBytes),
        number(Key::RingItems, 16, 65_536),
        number(Key::Players, 4, 256),
        number(Key::Window, 1_000, 2_147_483_647),
        number(Key::HttpLinks, 1, 1_024),
    ]
}

/// Returns the keys of a table `stream`.
pub(crate) fn stream() -> [Row; 7]
    ensures { result ≡ stream_rows }
{
    [
        Row::required(Key::App, Form::Word),
        Row::required(Key::Name, Form::Word),
        Row::optional(Key::Publish, Form::Keys),
        Row::optional(Key::Play, Form::Keys),
        Row::optional(Key::Digest, Form::Truth),
        Row::optional(Key::Flv, Form::Text { most: 255 }),
        Row::optional(Key::Ts, Form::Text { most: 255 }),
    ]
}

/// Returns the keys of a table `open`.
pub(crate) fn open_table() -> [Row; 5]
    ensures { result ≡ open_rows }
{
    [
        Row::required(Key::App, Form::Word),
        Row::required(Key::Names, Form::Number { least: 1, most: 64 }),
        Row::optional(Key::Publish, Form::Keys),
        Row::optional(Key::Play, Form::Keys),
        Row::optional(Key::Digest, Form::Truth),
    ]
}
