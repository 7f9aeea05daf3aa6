//! The laws, as clauses of functions that do nothing.

ghost use Rattle.gq_node.specs.Again.{AllBeginLater, AllToldAgain, AllEndsToldAgain};
ghost use Rattle.gq_node.specs.Forms.{AllFormsStand, AllShortsAreWritten};
ghost use Rattle.gq_node.specs.Nodes.{AllNodesFollow, AllNodesServe, AllVolumesOpen};
ghost use Rattle.gq_node.specs.Once.{AllAgainLeave, AllTakeOnce, AllBeginNamed, AllBeginOnce};
ghost use Rattle.gq_node.specs.Apart.{AllCallsAct, AllCallsByParts, AllTenantsApart};
ghost use Rattle.gq_node.specs.Columns.{AllStoresGoWhereGiven};
ghost use Rattle.gq_node.specs.Progress.{AllRowsAreTried, AllColumnsAreTried};
ghost use Rattle.gq_node.specs.Aims.{AllAimsHaveQuorums, AllRequestsHaveQuorums};
ghost use Rattle.gq_node.specs.Bridge.{AllRequestsAct, AllQuestionsTell, AllLooksTell, AllLettersAct, AllTicksAct};

/// What a node does by a line, a letter or a tick is, in the tenant's part of it, an act of the law of clusters
/// (`gq_cluster::laws::clusters`) or nothing. It is an act of the law where a request begins an operation, gives it up
/// or is refused by the model, where a letter is served or heard, and where a tick sends a round's message again; what
/// is told and sent is then what the law says of the act. That a tenant asks what it has, or what the server has of a volume, is no act: it is told, and
/// nothing changes.
pub fn acts()
    ensures requests { AllRequestsAct }
    ensures questions { AllQuestionsTell }
    ensures looks { AllLooksTell }
    ensures letters { AllLettersAct }
    ensures ticks { AllTicksAct }
{}

/// Whatever comes to the nodes of a tenant, of which some are lost and replaced by new ones: lines, questions what the
/// tenant has, letters, ticks, starts with the same plan or a later one, at which a node reads the facts that it gave, the
/// word of nodes that they know of a new one, and questions for copies and answers to these; as long as what comes of
/// another node was written by it, and a node whose place a new one has taken over does nothing more. All this is a list
/// of steps of the law of nodes that are replaced (`gq_replace::laws`), which may happen one behind the other; what they
/// tell and send is what the nodes do; and in the end the law has of each node what the node has. A request that a node
/// refuses is no step. And a node that starts knows its copies again, the files that it lacks, and the numbers that are
/// reserved for each of its sessions; each session goes on behind these, used or not, and what was going on is gone.
/// By a row that has as many steps as the run takes, it is a run of the service, and each file is one register.
pub fn nodes()
    ensures follow { AllNodesFollow }
    ensures serve { AllNodesServe }
    ensures volumes { AllVolumesOpen }
{}

/// Whom a session asks, at any row and column, has a quorum for each round; so no request is refused for want of one.
pub fn aims()
    ensures quorums { AllAimsHaveQuorums }
    ensures requests { AllRequestsHaveQuorums }
{}

/// A node gives for a tenant what the tenant's part of it does by what came for this tenant, one by one, whatever came
/// for others between. So two nodes of one number that have the same part of a tenant give the same for it, where the
/// same came for it. Only a short letter is answered in short form.
pub fn tenants_apart()
    ensures calls { AllCallsAct }
    ensures parts { AllCallsByParts }
    ensures apart { AllTenantsApart }
{}

/// A request takes effect once, however often it comes. One that comes again, its number not being above that of the
/// session's last operation, leaves all as it is: nothing is sent, and nothing is to be kept. So all else that is done,
/// of a list in which each request comes any number of times, is what is done without those that come again. An operation
/// that begins by a request has its number, and these numbers rise by one, so that each begins once; a start may pass over
/// some of them, and takes none again.
pub fn requests_once()
    ensures again { AllAgainLeave }
    ensures once { AllTakeOnce }
    ensures begin { AllBeginOnce }
    ensures named { AllBeginNamed }
    ensures later { AllBeginLater }
{}

/// What is told of a request that comes again. While its operation goes on nothing is; once it is done its outcome, or
/// that it is gone, where the node does not know the outcome; and of an operation before the last one that its number
/// is old. And once the tenant was told how an operation ended, it is told the same, byte for byte, at each line of the
/// session with this number, whatever comes to the nodes between, until the session begins its next operation; where
/// the node started again since, by a plan that has the session still, it is told that the operation is gone, or that its
/// number is old, where the session goes on behind a greater one.
pub fn told_again()
    ensures again { AllToldAgain }
    ensures ends { AllEndsToldAgain }
{}

/// Where nothing else comes to a session that has an operation, ticks lead it on. While its round collects, one of the
/// next ticks, one more than there are rows, sends what a retry sends where a given row is up with the session's
/// column; while it stores, one of the next, one more than there are columns, what a retry sends where a given column
/// is up with the session's row.
pub fn ticks()
    ensures rows { AllRowsAreTried }
    ensures columns { AllColumnsAreTried }
{}

/// A letter that a node writes in a short form is that letter, where the copy that the form stands for has some content. And what a node
/// gives by a short letter, whole or in short form, are letters that the law has as written; but for that a server wants a store whole,
/// which is none.
pub fn short_forms()
    ensures forms { AllFormsStand }
    ensures written { AllShortsAreWritten }
{}

/// What a read or a listing was given it stores where others have it: where it asks others to confirm the copy, one who told the greatest
/// tag of its collect round stands in the column that it asks.
pub fn stores_where_given()
    ensures columns { AllStoresGoWhereGiven }
{}
