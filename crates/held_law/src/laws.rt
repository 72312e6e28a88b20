ghost use Rattle.std.specs.Prelude.{◌≤◌, ◌+◌, ℕ, List, sum, sum_by};
ghost use Rattle.relay_config.specs.declared.config.Config.{Config};
ghost use Rattle.relay_config.specs.Sum.{configured_sum};
ghost use Rattle.held_law.specs.Holders.{AreWithin};

/// All together hold at most the configured sum, in bytes. This holds if each stream, open table, session
/// of a worker, HTTP player and recorder of a configuration holds no more than its own bound. There must
/// also be no more of them than the configuration has. The bounds are those of `Stream::held`,
/// `Pool::held`, `Session::held`, `HttpPlayer::held` and the recorders' `held`, if no message and no item
/// is longer than the configuration's longest message. A worker has at most `links` sessions by
/// `Worker::law`, and the HTTP worker at most as many players as it has links, by `HttpWorker::law`.
pub fn all_together_hold_at_most_the_sum()
    ensures { (config : Config) (streams tables : List ℕ) (workers : List (List ℕ)) (players recorders : List ℕ)
        → AreWithin config streams tables workers players recorders
        → sum streams + sum tables + sum_by sum workers + sum players + sum recorders ≤ configured_sum config }
{}
