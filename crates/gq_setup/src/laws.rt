//! What stays where a setup goes on from an older one.

ghost use Rattle.gq_setup.specs.Laws.{WhatIsLeft, GoneAreNoTenants, GoneNeverBack, GoneStay, HomesStay, LossesStay, NodesGrow, RoomsGrow, SessionsGrow, TenantsStay, TimesGrow, VolumesStay};

/// An old tenant that is not gone has its place in the plan.
pub fn tenants_stay()
    ensures { TenantsStay }
{}

/// The home of each session of an old tenant's place stays, whose ever that is.
pub fn homes_stay()
    ensures { HomesStay }
{}

/// Each old volume of a tenant that is not gone has its number, its files and their blocks.
pub fn volumes_stay()
    ensures { VolumesStay }
{}

/// Each tenant that is not gone may have at least as many KiB of chunks as it might.
pub fn rooms_grow()
    ensures { RoomsGrow }
{}

/// Who was gone is gone, and no later plan has a tenant of that name.
pub fn gone_stay()
    ensures stay { GoneStay }
    ensures no_tenants { GoneAreNoTenants }
    ensures never_back { GoneNeverBack }
{}

/// Without those who are gone each other tenant has what it had, and they have no volume and no room for chunks.
pub fn what_is_left()
    ensures { WhatIsLeft }
{}

/// The old losses are the first. So no place loses fewer nodes, and the node that stands there has no smaller number, nor has a session
/// whose home is there.
pub fn losses_stay()
    ensures losses { LossesStay }
    ensures times { TimesGrow }
    ensures nodes { NodesGrow }
    ensures sessions { SessionsGrow }
{}
