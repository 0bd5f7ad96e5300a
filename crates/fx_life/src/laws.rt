//! What holds of every life of a plug-in.
ghost use Rattle.std.specs.Prelude.{List};
ghost use Rattle.fx_life.specs.Course.{Action, NotLoaded, Unloaded, IsCourse};
ghost use Rattle.fx_life.specs.Life.{IsLawfulLife};

/// Nothing is done here: the contract is what holds of every life. Actions of which each is allowed in the
/// state that the one before it left, from a plug-in that isn't loaded to one that is unloaded, are a lawful
/// life. Each call of a loaded or described plug-in is such an action.
pub fn every_life()
    ensures { (life : List Action) → IsCourse NotLoaded life Unloaded → IsLawfulLife life }
{}
