//! What holds of the tables, whatever they are made of. The calls do nothing: their contracts are the laws.
ghost use Rattle.bd_tables.specs.Laws.{AttachKeeps, ClearKeeps, DetachKeeps, DrainKeeps, DrainedKeysAreLeft, DrainsAreOver, EnterKeeps, FillKeeps, HitsAreLookups, LookKeeps, OnlyOnGrants, PutKeeps, PutLowersNothing, RaiseKeeps, RaiseLowersNothing, ReadKeeps, RetireKeeps, SweepKeeps, SweptKeysAreInNoLine};

/// Engines are granted and told only what rights and cells say.
pub fn walks_answer_the_lookup()
    ensures grants { OnlyOnGrants }
    ensures hits { HitsAreLookups }
{}

/// The tables stay sound through each turn of an engine.
pub fn engines_keep_the_tables_sound()
    ensures enter { EnterKeeps }
    ensures look { LookKeeps }
    ensures read { ReadKeeps }
    ensures fill { FillKeeps }
    ensures retire { RetireKeeps }
{}

/// The tables stay sound through each change by the kernel.
pub fn the_kernel_keeps_the_tables_sound()
    ensures attach { AttachKeeps }
    ensures clear { ClearKeeps }
    ensures drain { DrainKeeps }
    ensures sweep { SweepKeeps }
    ensures detach { DetachKeeps }
    ensures put { PutKeeps }
    ensures raise { RaiseKeeps }
{}

/// A filled entry or a raised limit lowers nothing: what a lookup gave it still gives, and as far.
pub fn growth_lowers_nothing()
    ensures put { PutLowersNothing }
    ensures raise { RaiseLowersNothing }
{}

/// A drain is over exactly where no engine is in the key. From then on none is granted there, and after the sweeps
/// the cache has nothing of the key.
pub fn revocation_leaves_nothing()
    ensures over { DrainsAreOver }
    ensures drained { DrainedKeysAreLeft }
    ensures swept { SweptKeysAreInNoLine }
{}
