ghost use Rattle.std.specs.Prelude.{◌≡◌, ◌+◌, ℕ, List, [], ◌++◌, take, flat_map};
ghost use Rattle.std.specs.List.{AllByRecursion};
ghost use Rattle.av_unit.specs.declared.item.Item.{Item};
ghost use Rattle.flv_tags.specs.declared.tag.Tag.{Tag};
ghost use Rattle.flv_tags.specs.declared.fail.FlvFail.{FlvFail};
ghost use Rattle.flv_tags.specs.Written.{IsWritten, tags_text};
ghost use Rattle.flv_tags.specs.Text.{IsHeld, flv_text, tags_of};
ghost use Rattle.flv_tags.specs.Reads.{IsFile, Reads};
ghost use Rattle.flv_tags.specs.Stops.{Stops};
ghost use Rattle.flv_tags.specs.Laws.{ReadsPart, SameReading, SameStop};

/// Two readings of the same bytes are one, so the cutting into pieces can't matter.
pub fn one_reading()
    ensures { (b : List ℕ) (ts us : List Tag) (q r : List ℕ) → Reads b ts q → Reads b us r → SameReading ts us q r }
{}

/// If bytes are read, their first bytes are read too, as the first of the tags.
pub fn beginnings_are_read()
    ensures { (b : List ℕ) (n : ℕ) (ts : List Tag) (r : List ℕ) → Reads b ts r → ReadsPart b n ts }
{}

/// If a byte is refused, no list that begins with the bytes up to and including it is read.
pub fn refused_bytes_are_not_read()
    ensures { (b more : List ℕ) (e : FlvFail) (n : ℕ) (ts us : List Tag) (r : List ℕ) → Stops b n ts e → Reads (take (n + 1) b ++ more) us r → ⊥ }
{}

/// A list of bytes is refused at one byte and in one way.
pub fn one_refusal()
    ensures { (b : List ℕ) (c d : FlvFail) (m n : ℕ) (ts us : List Tag) → Stops b m ts c → Stops b n us d → SameStop c d m n ts us }
{}

/// The bytes that `write_header` and `write_tag` write, or `write_item` for items, are a file of these tags.
pub fn what_is_written_is_a_file()
    ensures tags { (ts : List Tag) → AllByRecursion IsWritten ts → IsFile (tags_text ts) ts }
    ensures items { (items : List Item) → AllByRecursion IsHeld items → IsFile (flv_text items) (flat_map tags_of items) }
{}

/// A file is read as its tags, however it is cut. Its first bytes are read as the first of the tags, without
/// a refusal, and all its bytes as all tags, with no bytes left.
pub fn a_file_is_read_back()
    ensures part { (b more : List ℕ) (ts us : List Tag) (r : List ℕ) → IsFile (b ++ more) ts → Reads b us r → (later : List Tag) × (ts ≡ us ++ later) }
    ensures accepted { (b more : List ℕ) (n : ℕ) (ts us : List Tag) (e : FlvFail) → IsFile (b ++ more) ts → Stops b n us e → ⊥ }
    ensures whole { (b : List ℕ) (ts us : List Tag) (r : List ℕ) → IsFile b ts → Reads b us r → (us ≡ ts) × (r ≡ []) }
{}
