ghost use Rattle.std.specs.Prelude.{ℕ, List};
ghost use Rattle.bit_fields.specs.Fields.{Field, IsReadBack};

/// Proves that each field of a number stands in its own bits, above the bits of the fields behind it.
pub fn each_field_is_read_back()
    ensures { (before after : List Field) (bits value : ℕ) → IsReadBack before bits value after }
{}
