ghost use Rattle.std.specs.Prelude.{◌≡◌, ℕ, MatchResult, Option, option_copied, option_map};
ghost use Rattle.file_series.specs.Series.{Cause, NextFails, PutsPart, Series, after_next, took};

/// Why a call of a series failed.
#[derive(Clone, Copy, Debug, Drop, PartialEq, Eq)]
pub enum SeriesFail {
    /// A file or the listing couldn't be written. The series' faults rose.
    Failed,
    /// Memory was refused.
    OutOfMemory,
}

/// A series of files. At most one of them is open.
pub trait FileSeries: Drop {
    /// If it tells them: the files that have ended, each with its listing, and the bytes of the open file.
    ghost told: { Self → Option Series };

    /// The number of times that it has failed. A count that stands at the last value of a u64 stays there.
    ghost faults: { Self → ℕ };

    /// Adds the bytes to the open file. If none is open, it opens one first. If it fails, it may have added some first bytes.
    fn put(&mut self, piece: &[u8]) -> Result<(), SeriesFail>
        ensures told { MatchResult result (λ _. told self.new ≡ option_map (took piece.now) (told self.old))
            (λ _. PutsPart piece.now (told self.old) (told self.new)) }
        ensures faults { MatchResult result (λ _. faults self.new ≡ faults self.old) (λ fail. Cause fail (faults self.old) (faults self.new)) };

    /// Ends the open file, which then has its name, and replaces the listing if one is given. If no file is open, nothing changes.
    /// If it fails, the file may have ended with the former listing.
    fn next(&mut self, listing: Option<&[u8]>) -> Result<(), SeriesFail>
        ensures told { MatchResult result (λ _. told self.new ≡ option_map (after_next (option_copied listing.entry)) (told self.old))
            (λ _. NextFails (told self.old) (told self.new)) }
        ensures faults { MatchResult result (λ _. faults self.new ≡ faults self.old) (λ fail. Cause fail (faults self.old) (faults self.new)) };
}
