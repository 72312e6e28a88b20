ghost use Rattle.std.specs.Prelude.{◌≡◌, ◌<◌, ◌+◌, ◌^◌, ◌++◌, ◌∷◌, [], List, ℕ, length, map};
ghost use Rattle.std.specs.Prelude.{Some, None, MatchResult, OnOk, IfErr};
ghost use Rattle.std.specs.Io.KnownBytes.{IsAtEnd};
ghost use Rattle.relay_script.specs.Script.{NoLineFeed};
ghost use Rattle.relay_replay.specs.Scenes.{IsSound, start};
ghost use Rattle.relay_program.specs.Outcome.{in_out};
ghost use Rattle.relay_program.specs.Parts.{SourceFaults};
ghost use Rattle.relay_program.specs.Replay.{Printed, outside_line};
ghost use Rattle.relay_program.specs.Replayed.{Replayed};
ghost use Rattle.relay_program.specs.ReplayParts.{HasNoSink, Fit, Advances, Stops, StopsAt, Extended, ExtendFails, Obeyed, ObeyFails, EndsIn, EndsPrinted};
ghost use Rattle.relay_program.specs.Words.{is_replay};

use crate::drills::{
    DrillFail, MOST_BYTES, MOST_LINE, PIECE, first_line_feed, only_word_is, put_all, status_of,
};
use av_unit::Bytes;
use key_guard::Guards;
use relay_base::Status;
use relay_outside::{Got, Sink, Source};
use relay_replay::Scene;
use relay_script::{LineFail, replay_line};
use std::alloc::Global;

fn is_replay(words: &[Vec<u8>]) -> bool
    ensures { result ≡ is_replay (map (λ w. w.items) words.now) }
{
    only_word_is(words, b"replay".as_slice())
}

// A replay in the middle of its script.
struct Replaying {
    alloc: Global,
    scene: Scene,
    // The bytes after the last LF.
    line: Bytes,
    // How many bytes of the script were read.
    place: u64,
    // The number of the line that is being read, from 1.
    number: u64,
}

// Does the action of the line with that number.
fn obey(
    alloc: Global,
    guards: &Guards,
    scene: &mut Scene,
    line: &[u8],
    number: u64,
) -> Result<(), DrillFail>
    requires { IsSound scene.old }
    ensures sound { OnOk result (IsSound scene.new) }
    ensures obeyed { MatchResult result (λ _. Obeyed line.now scene.old scene.new) (λ fail. ObeyFails fail line.now number scene.old) }
{
    let line = match replay_line(alloc, line) {
        Ok(line) => line,
        Err(LineFail::Outside) => return Err(DrillFail::Outside { line: number }),
        Err(LineFail::OutOfMemory) => return Err(DrillFail::OutOfMemory),
    };
    match scene.act(guards, line) {
        Ok(()) => Ok(()),
        Err(LineFail::Outside) => Err(DrillFail::Outside { line: number }),
        Err(LineFail::OutOfMemory) => Err(DrillFail::OutOfMemory),
    }
}

impl Replaying {
    fn new(alloc: Global) -> Replaying
        ensures fit { Fit result }
        ensures begins { (result.scene ≡ start) × (result.line ≡ []) × (result.place ≡ 0) × (result.number ≡ 1) }
    {
        Replaying {
            alloc,
            scene: Scene::new(alloc),
            line: Bytes::new(alloc),
            place: 0,
            number: 1,
        }
    }

    // Lets it go.
    fn end(self) {
        let Replaying {
            alloc: _,
            scene,
            line,
            place: _,
            number: _,
        } = self;
        scene.end();
        drop(line);
    }

    // Adds bytes without an LF to the line.
    fn extend(&mut self, run: &[u8]) -> Result<(), DrillFail>
        requires { Fit self.old }
        ensures fit { OnOk result (Fit self.new) }
        ensures extended { MatchResult result (λ _. Extended self.old run.now self.new) (λ fail. ExtendFails fail self.old run.now) }
    {
        let place = self.place + run.len() as u64;
        if place > MOST_BYTES || self.line.len() + run.len() > MOST_LINE {
            return Err(DrillFail::Outside { line: self.number });
        }
        let Ok(()) = self.line.append(run) else {
            return Err(DrillFail::OutOfMemory);
        };
        self.place = place;
        Ok(())
    }

    // Obeys the line at its LF.
    fn end_line(&mut self, guards: &Guards) -> Result<(), DrillFail>
        requires { Fit self.old }
        ensures fit { OnOk result (Fit self.new) }
        ensures place { OnOk result (self.new.place ≡ self.old.place + 1) }
        ensures goes { (more : List ℕ) → MatchResult result (λ _. Advances self.old (10 ∷ more) self.new more) (λ fail. Stops fail self.old (10 ∷ more)) }
    {
        if self.place == MOST_BYTES {
            return Err(DrillFail::Outside { line: self.number });
        }
        obey(
            self.alloc,
            guards,
            &mut self.scene,
            self.line.as_slice(),
            self.number,
        )?;
        self.line = Bytes::new(self.alloc);
        self.place += 1;
        self.number += 1;
        Ok(())
    }

    // Reads the rest of a line, and obeys it at its LF.
    fn whole_line(&mut self, guards: &Guards, run: &[u8]) -> Result<(), DrillFail>
        requires { Fit self.old }
        ensures fit { OnOk result (Fit self.new) }
        ensures place { OnOk result (self.new.place ≡ self.old.place + length run.now + 1) }
        ensures goes { (more : List ℕ) → NoLineFeed run.now
            → MatchResult result (λ _. Advances self.old (run.now ++ 10 ∷ more) self.new more) (λ fail. Stops fail self.old (run.now ++ 10 ∷ more)) }
    {
        self.extend(run)?;
        self.end_line(guards)
    }

    // Reads a piece of the script.
    fn piece(&mut self, guards: &Guards, piece: &[u8]) -> Result<(), DrillFail>
        requires { Fit self.old }
        ensures fit { OnOk result (Fit self.new) }
        ensures place { OnOk result (self.new.place ≡ self.old.place + length piece.now) }
        ensures goes { (rest : List ℕ) → MatchResult result
            (λ _. Advances self.old (piece.now ++ rest) self.new rest) (λ fail. Stops fail self.old (piece.now ++ rest)) }
    {
        let mut left = piece;
        while let Some(feed) = first_line_feed(left) {
            self.whole_line(guards, &left[..feed])?;
            left = &left[feed + 1..];
        }
        self.extend(left)
    }

    // Obeys the bytes after the last LF.
    fn last_line(&mut self, guards: &Guards) -> Result<(), DrillFail>
        requires { Fit self.old }
        ensures sound { OnOk result (IsSound self.new.scene) }
        ensures ends { MatchResult result (λ _. EndsIn self.old self.new.scene) (λ fail. Stops fail self.old []) }
    {
        if self.line.len() == 0 {
            return Ok(());
        }
        obey(
            self.alloc,
            guards,
            &mut self.scene,
            self.line.as_slice(),
            self.number,
        )
    }

    // Obeys the bytes after the last LF, and returns the text that is then printed.
    fn finish(&mut self, guards: &Guards) -> Result<Bytes, DrillFail>
        requires { Fit self.old }
        ensures { MatchResult result (λ text. EndsPrinted self.old text) (λ fail. Stops fail self.old []) }
    {
        self.last_line(guards)?;
        match self.scene.report() {
            Ok(text) => Ok(text),
            Err(_) => Err(DrillFail::OutOfMemory),
        }
    }
}

// Returns the output for a script, by a replay that has read nothing.
fn replay_lines<S: Source>(
    replay: &mut Replaying,
    guards: &Guards,
    script: &mut S,
) -> Result<Bytes, DrillFail>
    requires fit { Fit replay.old }
    requires begins { (replay.old.scene ≡ start) × (replay.old.line ≡ []) × (replay.old.place ≡ 0) × (replay.old.number ≡ 1) }
    ensures read { OnOk result (IsAtEnd (S.left script.new)) }
    ensures ends { (text : List ℕ) → S.left script.old ≡ Some text
        → MatchResult result (λ printed. Printed text printed × (outside_line text ≡ None)) (λ fail. StopsAt fail (outside_line text)) }
    ensures source { MatchResult result (λ _. S.faults script.new ≡ S.faults script.old)
        (λ fail. SourceFaults fail (S.faults script.old) (S.faults script.new)) }
    ensures sink { IfErr result HasNoSink }
{
    let mut buffer = [0u8; PIECE];
    loop {
        match script.get(&mut buffer) {
            Got::Bytes(count) => replay.piece(guards, &buffer[..count])?,
            Got::End => return replay.finish(guards),
            Got::Failed => return Err(DrillFail::SourceFault),
        }
    }
}

// Returns the output for a script.
fn replayed<S: Source>(alloc: Global, guards: &Guards, script: &mut S) -> Result<Bytes, DrillFail>
    ensures read { OnOk result (IsAtEnd (S.left script.new)) }
    ensures ends { (text : List ℕ) → S.left script.old ≡ Some text
        → MatchResult result (λ printed. Printed text printed × (outside_line text ≡ None)) (λ fail. StopsAt fail (outside_line text)) }
    ensures source { MatchResult result (λ _. S.faults script.new ≡ S.faults script.old)
        (λ fail. SourceFaults fail (S.faults script.old) (S.faults script.new)) }
    ensures sink { IfErr result HasNoSink }
{
    let mut replay = Replaying::new(alloc);
    let printed = replay_lines(&mut replay, guards, script);
    replay.end();
    printed
}

/// Replays a script of connections. At its end it prints the bytes that each was sent and its ending, the
/// bytes that each recorder wrote, and those that the streams hold.
///
/// The one word is `replay`. A line is outside the grammar if [`replay_line`] says so, or if it has a byte
/// past the script's first 2^28. A line that may not stand in its place, or that names a thing that isn't
/// there, is outside too. `limits` is the first line that does something, if it is there. Then `stream`,
/// `guard` and `record` stand in any order, and then the others. The code of the answer tells how the
/// replay ended:
///
/// | Code | Comes | Written |
/// |---|---|---|
/// | 0 | the script was read to its end, and no line is outside the grammar | all |
/// | 2 | exactly if the words aren't `replay` alone; nothing is read | nothing |
/// | 3 | only if the source's faults rose | nothing |
/// | 4 | line `place`, counted from 1, is the first outside the grammar | nothing |
/// | 5 | only if the sink's faults rose | a first part |
/// | 6 | for want of memory, also of a session or a recorder | nothing, or a first part |
///
/// `place` is 0 but for code 4.
pub fn replay<S: Source, K: Sink>(
    alloc: Global,
    words: &[Vec<u8>],
    guards: &Guards,
    script: &mut S,
    out: &mut K,
) -> Status
    ensures outcome { Replayed (is_replay (map (λ w. w.items) words.now))
        (in_out (S.left script.old) (K.holds out.old) (S.faults script.old) (K.faults out.old))
        (in_out (S.left script.new) (K.holds out.new) (S.faults script.new) (K.faults out.new)) result }
    ensures untouched { result.code ≡ 2 → (script.new ≡ script.old) × (out.new ≡ out.old) }
{
    if !is_replay(words) {
        return Status { code: 2, place: 0 };
    }
    let text = match replayed(alloc, guards, script) {
        Ok(text) => text,
        Err(fail) => return status_of(fail),
    };
    match put_all(out, text.as_slice()) {
        Ok(()) => Status { code: 0, place: 0 },
        Err(fail) => status_of(fail),
    }
}
