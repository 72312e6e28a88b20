//! Laws of the contents of a list of recordings.
ghost use Rattle.std.specs.Prelude.{◌≡◌, ◌<◌, ℕ, List, Some, length, slice_get, Contains};
ghost use Rattle.relay_config.specs.Sum.{recorders_of};
ghost use Rattle.relay_config.specs.declared.config.Config.{Config};
ghost use Rattle.relay_config.specs.declared.config.PlaceRule.{PlaceRule};
ghost use Rattle.relay_serve.specs.Recordings.{file_in, recording, recordings_upto};
ghost use Rattle.relay_worker.specs.declared.recorder.RecordingForm.{RecordingForm};

/// Each recording that a configuration names is one of its workers', and there are no more of them than it names.
pub fn recordings_law()
    ensures each { (config : Config) (place : ℕ) (rule : PlaceRule) (form : RecordingForm) (name : List ℕ) → 0 < config.workers
        → slice_get config.places place ≡ Some rule → file_in form rule ≡ Some name
        → Contains (recordings_upto config config.workers) (recording config.limits.max_message place form) }
    ensures count { (config : Config) → 0 < config.workers → length (recordings_upto config config.workers) ≡ recorders_of config.places }
{}
