ghost use Rattle.std.specs.Prelude.{◌≡◌, ℕ, List, ◌++◌, fold};
ghost use Rattle.std.specs.List.{AllByRecursion};
ghost use Rattle.av_unit.specs.declared.item.Item.{Item};
ghost use Rattle.file_series.specs.Series.{Series, none_yet};
ghost use Rattle.series_medium.specs.Frames.{Frame, IsFrame, frames_text, said};
ghost use Rattle.series_medium.specs.Reading.{files_read, read, start};
ghost use Rattle.series_medium.specs.Broadcasts.{broadcasts, files_of, flv_file, ts_file};
ghost use Rattle.series_medium.specs.Text.{flv_series_text, ts_series_text};
ghost use Rattle.series_medium.specs.Parts.{IsPartOf};

/// Shows that the bytes of frames are read as what the frames say, and that each is read to its end.
pub fn frames_law()
    ensures { (s : Series) (frames : List Frame) → AllByRecursion IsFrame frames → read (start s) (frames_text frames) ≡ start (fold said s frames) }
{}

/// Shows that the first of any bytes are read as a first part of the files of all, and that a first part of a first part is one.
pub fn parts_law()
    ensures on { (s t u : Series) → IsPartOf s t → IsPartOf t u → IsPartOf s u }
    ensures first { (s : Series) (first more : List ℕ) → IsPartOf (files_read first s) (files_read (first ++ more) s) }
{}

/// Shows that the text of a medium is read as the files of the broadcasts of its items, in order: each has the FLV text, or the
/// transport stream text, of the items of its broadcast, from its Begin up to its End. The last is open if that End wasn't taken.
/// Broadcasts of which nothing is written have none. What is read of first bytes of that text is a first part of these files.
pub fn files_law()
    ensures flv { (items : List Item) → read (start none_yet) (flv_series_text items) ≡ start (files_of flv_file (broadcasts items)) }
    ensures ts { (items : List Item) → read (start none_yet) (ts_series_text items) ≡ start (files_of ts_file (broadcasts items)) }
    ensures flv_part { (items : List Item) (first more : List ℕ) → first ++ more ≡ flv_series_text items
        → IsPartOf (files_read first none_yet) (files_of flv_file (broadcasts items)) }
    ensures ts_part { (items : List Item) (first more : List ℕ) → first ++ more ≡ ts_series_text items
        → IsPartOf (files_read first none_yet) (files_of ts_file (broadcasts items)) }
{}
