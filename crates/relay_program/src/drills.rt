ghost use Rattle.std.specs.Prelude.{◌≡◌, ◌<◌, ◌≤◌, ◌+◌, ◌^◌, ◌++◌, ◌∷◌, [], List, ℕ, length, map, position, ◌==◌};
ghost use Rattle.std.specs.Prelude.{Some, None, MatchResult, IfOk, OnOk};
ghost use Rattle.std.specs.Io.KnownBytes.{append_known, IsAtEnd};
ghost use Rattle.relay_script.specs.Lines.{meaning};
ghost use Rattle.relay_script.specs.Script.{NoLineFeed};
ghost use Rattle.relay_program.specs.Drill.{done, fresh, table_of, after_line, drill_text, outside_line};
ghost use Rattle.put_text.specs.Written.{Writes};
ghost use Rattle.relay_program.specs.Outcome.{in_out, Outcome, WritesPartOfRead};
ghost use Rattle.relay_program.specs.Parts.{PutFails, AfterFaultOf, SinkCause, SinkFaults, SourceFaults, ActFails, Answered, AnswerFails};
ghost use Rattle.relay_program.specs.Parts.{Fit, Advances, Fails, FailsAt, Extended, ExtendFails, text_ahead, outside_ahead};
ghost use Rattle.relay_program.specs.Ends.{status_of};
ghost use Rattle.relay_program.specs.Words.{is_drill, only_word_is};

use crate::made::Made;
use av_unit::Bytes;
use put_text::PutFail;
use relay_base::Status;
use relay_outside::{Got, Sink, Source};
use relay_script::{LineFail, drill_line};
use std::alloc::Global;

/// A script's bytes are numbered from 1; a line with a byte past this one is outside the grammar.
pub(crate) const MOST_BYTES: u64 = 1 << 28;

/// The most bytes of a line, its LF not counted.
pub(crate) const MOST_LINE: usize = 65536;

/// How many bytes are asked of a script at a time.
pub(crate) const PIECE: usize = 4096;

// Why a drill fails before its script's end.
#[derive(Clone, Copy)]
pub(crate) enum DrillFail {
    Outside { line: u64 },
    SourceFault,
    SinkFault,
    OutOfMemory,
}

// Puts all of the text.
pub(crate) fn put_all<K: Sink>(out: &mut K, text: &[u8]) -> Result<(), DrillFail>
    ensures text { MatchResult result (λ _. K.holds out.new ≡ append_known (K.holds out.old) text.now)
        (λ fail. PutFails fail text.now (K.holds out.old) (K.holds out.new)) }
    ensures faults { MatchResult result (λ _. K.faults out.new ≡ K.faults out.old) (λ fail. SinkCause fail (K.faults out.old) (K.faults out.new)) }
{
    match put_text::put_all(out, text) {
        Ok(()) => Ok(()),
        Err(PutFail::SinkFault) => Err(DrillFail::SinkFault),
        Err(PutFail::OutOfMemory) => Err(DrillFail::OutOfMemory),
    }
}

// Does the action of the line, and returns the text that it prints.
fn said(alloc: Global, made: &mut Made, line: &[u8]) -> Result<Bytes, LineFail>
    requires { length (table_of made.old).past < 2 ^ 62 }
    ensures { MatchResult result (λ text. after_line (meaning line.now) made.old ≡ Some (done made.new text))
        (λ fail. ActFails fail (after_line (meaning line.now) made.old)) }
{
    made.act(alloc, drill_line(alloc, line)?)
}

// Answers the line with that number.
fn answer<K: Sink>(
    alloc: Global,
    made: &mut Made,
    line: &[u8],
    number: u64,
    out: &mut K,
) -> Result<(), DrillFail>
    requires { length (table_of made.old).past < 2 ^ 62 }
    ensures count { OnOk result (length (table_of made.new).past ≤ length (table_of made.old).past + 1) }
    ensures says { MatchResult result (λ _. Answered (after_line (meaning line.now) made.old) made.new (K.holds out.old) (K.holds out.new))
        (λ fail. AnswerFails fail (after_line (meaning line.now) made.old) number (K.holds out.old) (K.holds out.new)) }
    ensures faults { MatchResult result (λ _. K.faults out.new ≡ K.faults out.old) (λ fail. SinkCause fail (K.faults out.old) (K.faults out.new)) }
{
    match said(alloc, made, line) {
        Ok(text) => put_all(out, text.as_slice()),
        Err(LineFail::Outside) => Err(DrillFail::Outside { line: number }),
        Err(LineFail::OutOfMemory) => Err(DrillFail::OutOfMemory),
    }
}

// A drill in the middle of its script.
struct Drilling {
    alloc: Global,
    made: Made,
    // The bytes after the last LF.
    line: Bytes,
    // How many bytes of the script were read.
    place: u64,
    // The number of the line that is being read, from 1.
    number: u64,
}

pub(crate) fn first_line_feed(text: &[u8]) -> Option<usize>
    ensures { result ≡ position (λ c. c == 10) text.now }
{
    text.iter().position(|c| *c == b'\n')
}

impl Drilling {
    fn new(alloc: Global) -> Drilling
        ensures fit { Fit result }
        ensures begins { (result.made ≡ fresh) × (result.line ≡ []) × (result.place ≡ 0) × (result.number ≡ 1) }
    {
        Drilling {
            alloc,
            made: Made::new(),
            line: Bytes::new(alloc),
            place: 0,
            number: 1,
        }
    }

    // Lets it go.
    fn end(self) {
        let Drilling {
            alloc: _,
            made,
            line,
            place: _,
            number: _,
        } = self;
        drop(made);
        drop(line);
    }

    // Adds bytes without an LF to the line.
    fn extend(&mut self, run: &[u8]) -> Result<(), DrillFail>
        requires { Fit self.old }
        ensures fit { OnOk result (Fit self.new) }
        ensures extended { MatchResult result (λ _. Extended self.old run.now self.new) (λ fail. ExtendFails fail self.old run.now) }
    {
        let place = self.place + run.len() as u64;
        if place > MOST_BYTES || self.line.len() + run.len() > MOST_LINE {
            return Err(DrillFail::Outside { line: self.number });
        }
        let Ok(()) = self.line.append(run) else {
            return Err(DrillFail::OutOfMemory);
        };
        self.place = place;
        Ok(())
    }

    // Answers the line at its LF.
    fn end_line<K: Sink>(&mut self, out: &mut K) -> Result<(), DrillFail>
        requires { Fit self.old }
        ensures fit { OnOk result (Fit self.new) }
        ensures place { OnOk result (self.new.place ≡ self.old.place + 1) }
        ensures goes { (more : List ℕ) → MatchResult result (λ _. Advances self.old (10 ∷ more) self.new more (K.holds out.old) (K.holds out.new))
            (λ fail. Fails fail self.old (10 ∷ more) (K.holds out.old) (K.holds out.new)) }
        ensures faults { MatchResult result (λ _. K.faults out.new ≡ K.faults out.old) (λ fail. SinkCause fail (K.faults out.old) (K.faults out.new)) }
    {
        if self.place == MOST_BYTES {
            return Err(DrillFail::Outside { line: self.number });
        }
        answer(
            self.alloc,
            &mut self.made,
            self.line.as_slice(),
            self.number,
            out,
        )?;
        self.line = Bytes::new(self.alloc);
        self.place += 1;
        self.number += 1;
        Ok(())
    }

    // Reads the rest of a line, and answers it at its LF.
    fn whole_line<K: Sink>(&mut self, run: &[u8], out: &mut K) -> Result<(), DrillFail>
        requires { Fit self.old }
        ensures fit { OnOk result (Fit self.new) }
        ensures place { OnOk result (self.new.place ≡ self.old.place + length run.now + 1) }
        ensures goes { (more : List ℕ) → NoLineFeed run.now
            → MatchResult result (λ _. Advances self.old (run.now ++ 10 ∷ more) self.new more (K.holds out.old) (K.holds out.new))
            (λ fail. Fails fail self.old (run.now ++ 10 ∷ more) (K.holds out.old) (K.holds out.new)) }
        ensures faults { MatchResult result (λ _. K.faults out.new ≡ K.faults out.old) (λ fail. SinkCause fail (K.faults out.old) (K.faults out.new)) }
    {
        self.extend(run)?;
        self.end_line(out)
    }

    // Reads a piece of the script.
    fn piece<K: Sink>(&mut self, piece: &[u8], out: &mut K) -> Result<(), DrillFail>
        requires { Fit self.old }
        ensures fit { OnOk result (Fit self.new) }
        ensures place { OnOk result (self.new.place ≡ self.old.place + length piece.now) }
        ensures goes { (rest : List ℕ) → MatchResult result (λ _. Advances self.old (piece.now ++ rest) self.new rest (K.holds out.old) (K.holds out.new))
            (λ fail. Fails fail self.old (piece.now ++ rest) (K.holds out.old) (K.holds out.new)) }
        ensures faults { MatchResult result (λ _. K.faults out.new ≡ K.faults out.old) (λ fail. SinkCause fail (K.faults out.old) (K.faults out.new)) }
    {
        let mut left = piece;
        while let Some(feed) = first_line_feed(left) {
            self.whole_line(&left[..feed], out)?;
            left = &left[feed + 1..];
        }
        self.extend(left)
    }

    // Answers the bytes after the last LF.
    fn finish<K: Sink>(&mut self, out: &mut K) -> Result<(), DrillFail>
        requires { Fit self.old }
        ensures ends { MatchResult result (λ _. Writes (text_ahead self.old []) [] (K.holds out.old) (K.holds out.new) × (outside_ahead self.old [] ≡ None))
            (λ fail. Fails fail self.old [] (K.holds out.old) (K.holds out.new)) }
        ensures faults { MatchResult result (λ _. K.faults out.new ≡ K.faults out.old) (λ fail. SinkCause fail (K.faults out.old) (K.faults out.new)) }
    {
        if self.line.len() == 0 {
            return Ok(());
        }
        answer(
            self.alloc,
            &mut self.made,
            self.line.as_slice(),
            self.number,
            out,
        )
    }
}

// Answers a script to its end, by a drill that has read nothing.
fn answer_lines<S: Source, K: Sink>(
    drill: &mut Drilling,
    script: &mut S,
    out: &mut K,
) -> Result<(), DrillFail>
    requires fit { Fit drill.old }
    requires begins { (drill.old.made ≡ fresh) × (drill.old.line ≡ []) × (drill.old.place ≡ 0) × (drill.old.number ≡ 1) }
    ensures read { OnOk result (IsAtEnd (S.left script.new)) }
    ensures ends { (text : List ℕ) → S.left script.old ≡ Some text
        → MatchResult result (λ _. Writes (drill_text text) [] (K.holds out.old) (K.holds out.new) × (outside_line text ≡ None))
        (λ fail. FailsAt fail (drill_text text) (outside_line text) (K.holds out.old) (K.holds out.new)) }
    ensures part_read { WritesPartOfRead drill_text outside_line (S.left script.old) (S.left script.new) (K.holds out.old) (K.holds out.new) }
    ensures as_it_goes { AfterFaultOf result (S.left script.old) (S.left script.new) (K.holds out.old) (K.holds out.new) }
    ensures source { MatchResult result (λ _. S.faults script.new ≡ S.faults script.old)
        (λ fail. SourceFaults fail (S.faults script.old) (S.faults script.new)) }
    ensures sink { MatchResult result (λ _. K.faults out.new ≡ K.faults out.old) (λ fail. SinkFaults fail (K.faults out.old) (K.faults out.new)) }
{
    let mut piece = [0u8; PIECE];
    loop {
        match script.get(&mut piece) {
            Got::Bytes(count) => drill.piece(&piece[..count], out)?,
            Got::End => return drill.finish(out),
            Got::Failed => return Err(DrillFail::SourceFault),
        }
    }
}

// Answers a script to its end.
fn answer_script<S: Source, K: Sink>(
    alloc: Global,
    script: &mut S,
    out: &mut K,
) -> Result<(), DrillFail>
    ensures read { OnOk result (IsAtEnd (S.left script.new)) }
    ensures ends { (text : List ℕ) → S.left script.old ≡ Some text
        → MatchResult result (λ _. Writes (drill_text text) [] (K.holds out.old) (K.holds out.new) × (outside_line text ≡ None))
        (λ fail. FailsAt fail (drill_text text) (outside_line text) (K.holds out.old) (K.holds out.new)) }
    ensures part_read { WritesPartOfRead drill_text outside_line (S.left script.old) (S.left script.new) (K.holds out.old) (K.holds out.new) }
    ensures as_it_goes { AfterFaultOf result (S.left script.old) (S.left script.new) (K.holds out.old) (K.holds out.new) }
    ensures source { MatchResult result (λ _. S.faults script.new ≡ S.faults script.old)
        (λ fail. SourceFaults fail (S.faults script.old) (S.faults script.new)) }
    ensures sink { MatchResult result (λ _. K.faults out.new ≡ K.faults out.old) (λ fail. SinkFaults fail (K.faults out.old) (K.faults out.new)) }
{
    let mut drill = Drilling::new(alloc);
    let answered = answer_lines(&mut drill, script, out);
    drill.end();
    answered
}

pub(crate) fn status_of(fail: DrillFail) -> Status
    ensures { result ≡ status_of fail }
{
    match fail {
        DrillFail::Outside { line } => Status {
            code: 4,
            place: line,
        },
        DrillFail::SourceFault => Status { code: 3, place: 0 },
        DrillFail::SinkFault => Status { code: 5, place: 0 },
        DrillFail::OutOfMemory => Status { code: 6, place: 0 },
    }
}

pub(crate) fn only_word_is(words: &[Vec<u8>], text: &[u8]) -> bool
    ensures { result ≡ only_word_is (map (λ w. w.items) words.now) text.now }
{
    match words {
        [word] => word.as_slice() == text,
        _ => false,
    }
}

fn is_drill(words: &[Vec<u8>]) -> bool
    ensures { result ≡ is_drill (map (λ w. w.items) words.now) }
{
    only_word_is(words, b"drill".as_slice())
}

/// Answers a script of calls at one stream, or at one pool of slots: it puts the reply line of each call as it goes.
///
/// The one word is `drill`. A first line `ring` says the limits of the stream, or of each slot of the pool.
/// Without it they are the default ones: 33,554,432 bytes, 16,384 items and 256 players. The calls are made
/// at a pool if the line `pool` comes first of the others, and else at a stream. A line is outside the
/// grammar if [`drill_line`] says so, or if it has a byte past the script's first 2^28. Also outside are a
/// `ring` after a line that did something, a `pool` after any but `ring`, and a `begin` or `join` that has
/// a name at a stream or none at a pool. The code of the answer tells how the drill ended:
///
/// | Code | Comes | Written |
/// |---|---|---|
/// | 0 | the script was read to its end, and no line is outside the grammar | all replies |
/// | 2 | exactly if the words aren't `drill` alone; nothing is read | nothing |
/// | 3 | only if the source's faults rose | the replies to all whole lines that were read, and nothing of the line that was begun |
/// | 4 | line `place`, counted from 1, is the first outside the grammar | the replies to the lines before it |
/// | 5 | only if the sink's faults rose | a first part of the replies to the lines that were read |
/// | 6 | for want of memory | a first part of the replies to the lines that were read |
///
/// `place` is 0 but for code 4.
pub fn drill<S: Source, K: Sink>(
    alloc: Global,
    words: &[Vec<u8>],
    script: &mut S,
    out: &mut K,
) -> Status
    ensures outcome { Outcome drill_text outside_line (is_drill (map (λ w. w.items) words.now))
        (in_out (S.left script.old) (K.holds out.old) (S.faults script.old) (K.faults out.old))
        (in_out (S.left script.new) (K.holds out.new) (S.faults script.new) (K.faults out.new)) result }
    ensures untouched { result.code ≡ 2 → (script.new ≡ script.old) × (out.new ≡ out.old) }
{
    if !is_drill(words) {
        return Status { code: 2, place: 0 };
    }
    match answer_script(alloc, script, out) {
        Ok(()) => Status { code: 0, place: 0 },
        Err(fail) => status_of(fail),
    }
}
