//! What holds of revocations. The calls do nothing: their contracts are the laws.
ghost use Rattle.bd_revoke.specs.Laws.{CountingOffTakesOne, LeftAreCounted, StepsKeepKeys, WaitsForDetaching, WaitsForRoom};

/// A step waits for room exactly where a key is to be posted and the queue is full, and for the
/// detaching exactly where all keys are posted.
pub fn waits_exactly_where()
    ensures room { WaitsForRoom }
    ensures detaching { WaitsForDetaching }
{}

/// The keys that are not yet detached are those of the list without the ones that were counted off:
/// no step loses or adds one.
pub fn no_key_is_lost()
    ensures counted { LeftAreCounted }
    ensures steps { StepsKeepKeys }
    ensures off { CountingOffTakesOne }
{}
