//! Laws of the quorums of rounds.

ghost use Rattle.gq_phase.specs.Laws.{RoundsMeet, CollectQuorumsEnd, StoreQuorumsEnd, QuorumsAreUp, NobodyEnds, MoreStillEnd, QuorumsInGrid, StoresHavePeers, PeersOfPeers};

/// Any set of servers that ends a store round shares a server with any set that ends a collect round, so that a copy
/// stored is met by each later collect round. The servers that a round asks are up, and end it, more servers end it
/// still, and nobody ends none; whom it asks depends on the servers of the grid alone. Of the servers that end a store round
/// some end it whose peers are all among them, so that what such a server loses another of them has. That any two quorums meet is
/// Maekawa's idea (A sqrt(N) algorithm for mutual exclusion in decentralized systems, ACM TOCS 3(2), 1985).
pub fn rounds_meet()
    ensures meet { RoundsMeet }
    ensures collect { CollectQuorumsEnd }
    ensures store { StoreQuorumsEnd }
    ensures up { QuorumsAreUp }
    ensures nobody { NobodyEnds }
    ensures more { MoreStillEnd }
    ensures grid { QuorumsInGrid }
    ensures peers { StoresHavePeers }
    ensures others { PeersOfPeers }
{}
