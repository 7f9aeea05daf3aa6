//! The laws, as clauses of functions that do nothing.

ghost use Rattle.gq_looks.specs.Laws.{AllLooksTagged, AllLooksLegal};
ghost use Rattle.gq_looks.specs.Losses.{AllAnswersKept};

/// A look sees servers, each at a moment of its own, with the copy that it then has. It takes the greatest copy of a full row, where each
/// server of a full column has that copy's tag or a greater one, and none of these servers lost its copy until the look ended. Whatever
/// the lines of a tenant and the servers' changes, disks that are lost among them: the operations on a file and such looks at it, put among
/// them as reads that give the copy's content, from when they began to when they ended, are tagged. So they have one legal order: they give what one register gives that is
/// written and read in this order, and none that ended before another began stands after it (Attiya, Bar-Noy and Dolev, Sharing memory
/// robustly in message-passing systems, JACM 42(1), 1995; Herlihy and Wing, Linearizability, ACM TOPLAS 12(3), 1990).
pub fn looks_are_reads()
    ensures tagged { AllLooksTagged }
    ensures legal { AllLooksLegal }
{}

/// An answer to a look tells how many losses its node's plan tells, and a client counts answers together that tell as many. Whatever happens in
/// a fleet whose lost places are taken over by new nodes: after some steps a node can tell its copy of a file, and after some more another
/// one, or the same, tells as many losses. Then the first one's server did not lose that file in between. So of the answers that are counted
/// together each still stood when the last of them was given.
pub fn answers_stand()
    ensures kept { AllAnswersKept }
{}
