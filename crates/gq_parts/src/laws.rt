//! What a run of a node comes to, and one of all nodes of a plan.

ghost use Rattle.gq_parts.specs.Alike.{AllDoSame, AllWriteSame};
ghost use Rattle.gq_parts.specs.AllNodes.{AllByLaw, AllFollowLaw, AllRenewalsHappen, AllStartsHappen, AllStepsHappen};
ghost use Rattle.gq_parts.specs.Worked.{AllWorked};
ghost use Rattle.gq_parts.specs.Happened.{AllWorkedHappen};
ghost use Rattle.gq_parts.specs.Looks.{AllLooksOfFleet};
ghost use Rattle.gq_parts.specs.Laws.{AllFactsByParts, AllOthersLeftOut, AllRunsByParts, AllStartsByParts, AllTenantsApart, AllTextsByParts};

/// How many hops of letters from a node to itself the line takes that made the node write them. What is left after them goes by lines, as to any
/// other node, and as stores do where a column has more servers than one. A read takes two hops, a write two, or four on a grid of one row, and a
/// listing two for each file.
pub const MOST_HOPS: u32 = 8;

/// What a node writes for a tenant is what the tenant's part of it writes, line by line, of the requests, letters and ticks that its
/// lines bring to this tenant. So where two lists of lines bring a tenant the same, the same is written for it, byte for byte,
/// whatever they bring to others.
pub fn tenants_apart()
    ensures runs { AllRunsByParts }
    ensures texts { AllTextsByParts }
    ensures apart { AllTenantsApart }
    ensures others { AllOthersLeftOut }
{}

/// So it is with starts: what a start makes of a tenant's part is what it makes of this tenant's facts, and these are what the part
/// gave by its own inputs.
pub fn starts_apart()
    ensures starts { AllStartsByParts }
    ensures facts { AllFactsByParts }
{}

/// Parts of a node that have the same of what a step looks at do the same, whatever comes: the same is written and kept, and they are alike
/// after it.
pub fn alike()
    ensures does { AllDoSame }
    ensures writes { AllWriteSame }
{}

/// Whatever lines come to the nodes of a grid, and whenever one starts with this plan or a later one, is lost and replaced, starts again by
/// its journal, or has its journal written anew: where what came for a tenant was written before, and no node that is gone takes a step, all this is a
/// run of the law of nodes that are lost and replaced, and each file is one register (`follow`). The program's nodes are such nodes. Of each tenant each
/// node has a part that does the same as what the law of nodes (`gq_node::laws::nodes`) says of this tenant's requests, letters, ticks and starts, and
/// what is told is what is written for the law's parts (`nodes`). What the calls of one node promise of a step, of a start and of a journal that is
/// written anew is what happens there (`steps`, `starts`, `renewals`). A letter in a short form may come where it was written with the content that the
/// run names; a step by it is one whatever content that is.
pub fn all_nodes()
    ensures follow { AllFollowLaw }
    ensures nodes { AllByLaw }
    ensures steps { AllStepsHappen }
    ensures starts { AllStartsHappen }
    ensures renewals { AllRenewalsHappen }
{}

/// A run of any length of which the law speaks: three nodes are lost at one place, one behind the other, and then a session writes as often as one
/// likes. The plans are sound, all its lines can come, and so its file is one register; each write is done, and both servers have it. Behind each the tenant
/// looks at the file at both nodes, which tell that write.
pub fn all_nodes_worked()
    ensures { AllWorked }
{}

/// And so it happens: nodes of which none was ever started come to all of that run, line by line. Behind it one starts again by its journal, and that of
/// the other is written anew before it starts again. All this is of nodes of the law.
pub fn all_nodes_happen()
    ensures { AllWorkedHappen }
{}

/// Whatever happens to nodes: what one tells of a tenant's look at a volume is what its server has in the fleet of that run, and the node acts in it. So
/// answers of several nodes are those of which `gq_looks::laws::answers_stand` speaks.
pub fn looks_told()
    ensures { AllLooksOfFleet }
{}
