//! The laws of a load whose pages others read to their places: public functions that do nothing.

ghost use Rattle.mig_apart.specs.Law.{ClaimedPlacesAreFree, NothingClaimedIsStrict, StrictIsFree};

/// What a load represents survives any change of the memory at claimed places. So other threads may
/// write there while a call of the load runs.
pub fn claimed_places_are_free()
    ensures { ClaimedPlacesAreFree }
{}

/// Where nothing is claimed, the load represents its streams with the memory as it is.
pub fn nothing_claimed_is_strict()
    ensures { NothingClaimedIsStrict }
{}

/// A load that represents its streams with a memory does so whatever is claimed.
pub fn strict_is_free()
    ensures { StrictIsFree }
{}
