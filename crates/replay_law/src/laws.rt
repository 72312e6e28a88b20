ghost use Rattle.std.specs.Prelude.{◌≡◌, List, None, ℕ};
ghost use Rattle.relay_program.specs.Replay.{outside_line};
ghost use Rattle.replay_law.specs.Outputs.{DifferInTotal, IsOutput, OpensSessionsAlone};

/// Two outputs of `relay replay` of one script within the grammar that opens sessions alone are the same
/// but for TOTAL, in the last line. TOTAL is the number of bytes that all hold together. It counts how far
/// the bytes of a session are encoded, and the bytes that a recorder's medium keeps. Anything else that was
/// free in the two runs made no difference. It is asked that no stream's history has 2^62 calls at the end.
pub fn two_outputs_of_a_script_differ_in_the_total_alone()
    ensures { (script text text' : List ℕ) → outside_line script ≡ None → OpensSessionsAlone script → IsOutput script text → IsOutput script text'
        → DifferInTotal text text' }
{}
