//! What holds of every run of a core, in whatever order the events of its callers come. Each call of
//! a core is a step of such a run.
ghost use Rattle.std.specs.Prelude.{◌≡◌, List, ◌∷◌, Some};
ghost use Rattle.fx_core.specs.State.{State};
ghost use Rattle.fx_core.specs.Step.{Event, Reply, step};
ghost use Rattle.fx_core.specs.Sound.{IsSound};
ghost use Rattle.fx_core.specs.Run.{Answered, IsRun, IsLastLanded, IsOnlyFlight, FliesOnce, NumbersDiffer, CountsRun};

/// Nothing is done here: the contract is what holds of every run. Each step keeps a core sound, and
/// each state that a run reaches is sound. A value that is here is the one that landed last under its
/// key. No key flies twice at one time, and no number comes twice. Where values are kept, and none was
/// dropped or evicted, each key flies once at most. The totals count what was done and answered.
pub fn every_run<K: Eq, V>()
    ensures keeps { (s t : State K V) (event : Event K V) (reply : Reply V)
        → IsSound K.eq s → step K.eq s event ≡ Some (reply, t) → IsSound K.eq t }
    ensures sound { (events : List (Answered K V)) (s : State K V) → IsRun K.eq events s → IsSound K.eq s }
    ensures here { (m : Answered K V) (earlier : List (Answered K V)) (s : State K V)
        → IsRun K.eq (m ∷ earlier) s → IsLastLanded K.eq earlier m }
    ensures flies { (m : Answered K V) (earlier : List (Answered K V)) (s : State K V)
        → IsRun K.eq (m ∷ earlier) s → IsOnlyFlight K.eq earlier m }
    ensures once { (events : List (Answered K V)) (s : State K V)
        → IsRun K.eq events s → FliesOnce K.eq events s }
    ensures numbers { (events : List (Answered K V)) (s : State K V)
        → IsRun K.eq events s → NumbersDiffer events }
    ensures totals { (events : List (Answered K V)) (s : State K V)
        → IsRun K.eq events s → CountsRun events s.totals }
{}
