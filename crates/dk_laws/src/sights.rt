//! Stamps.
ghost use Rattle.dk_laws.specs.SightsLaw.{SightsTell};

/// Where an item is seen alike at two times of a history, it has one answer.
pub fn sights_tell()
    ensures { SightsTell }
{}
