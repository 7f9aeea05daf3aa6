//! What the output of a script is, and that it can be gone on with, apart from how it is made.

ghost use Rattle.gq_script.specs.Alone.{AnswersEachLine, TellsAsAlone, TellsTheSame};

/// What other tenants do changes nothing of what a tenant is told. The lines of the output, which are what stands between its
/// newlines, are the answers to the lines of the input, one for each. A tenant's are those of its run by itself over its own
/// lines and the server lines. So in two accepted inputs whose plans agree on the grid and the tenant's row, and which agree on
/// these lines in order, they are the same byte for byte; blocks, other rows, the tenant's place and all other lines are free.
pub fn alone()
    ensures lines { AnswersEachLine }
    ensures alone { TellsAsAlone }
    ensures same { TellsTheSame }
{}

ghost use Rattle.gq_script.specs.Linearizable.{AllFilesLinearizable};

/// Each file of each tenant is linearizable, whatever the lines of an accepted input: its operations, which are read off the lines
/// and what is told to them, have an order in which each completed one stands once, which keeps precedence, and in which a single
/// register gives the same answers (Herlihy and Wing, Linearizability, ACM TOPLAS 12(3), 1990).
pub fn linearizable()
    ensures { AllFilesLinearizable }
{}

ghost use Rattle.gq_script.specs.Stepping.{OutputsGrow};

/// What was answered is never taken back. The output of lines that have ended is a beginning of the output of every input
/// that goes on from them, whatever comes behind; where they make no plan yet, it is empty.
#[tactic(auto, using(crate::proofs::Growing::outputs_grow))]
pub fn outputs_grow()
    ensures { OutputsGrow }
{}

ghost use Rattle.gq_script.specs.Completing.{AllInputRequestsComplete, AllInputsComplete};

/// Each operation that an accepted input leaves going can be completed. Where a collect quorum and a store quorum are up
/// and steps are left: behind the input come a line `NAME retry K` and lines `NAME deliver N`, and the output goes on by
/// one line for each, none of them a refusal, of which the last tells that the operation is done. A request that is
/// accepted behind the input needs no retry.
pub fn completes()
    ensures operations { AllInputsComplete }
    ensures requests { AllInputRequestsComplete }
{}
