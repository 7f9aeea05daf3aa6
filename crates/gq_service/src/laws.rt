//! What a node's process writes.

ghost use Rattle.gq_chunks.specs.Having.{chunks_of};
ghost use Rattle.gq_service.specs.Leaving.{AllChunksStay, NoneOfTheGone, NoRoomIsLacked, NothingIsLacked, WhoStaysIsWhole};
ghost use Rattle.gq_service.specs.Writing.{AllRegistersRun, AllServedByParts, RegistersServedByParts};

use gq_parts::laws::{starts_apart, tenants_apart};
use gq_setup::laws::{gone_stay, what_is_left};
use gq_shelf::Shelf;

/// What a node's process writes is what its tenants' parts write, line by line, from the parts that the start made, each by its own
/// tenant's facts alone. So the setup, the number, the journal that was found and the lines that came determine it to the byte, and
/// what comes for one tenant changes nothing of what is written for another.
pub fn served_by_parts()
    ensures { AllServedByParts }
{
    starts_apart();
    tenants_apart();
}

/// The same of a node that keeps chunks as well: what it writes of lines about registers is what its tenants' parts write, by these lines and by facts of
/// registers alone. So no line about chunks, no chunk that is kept and no damage of the shelf changes a byte of it. The shelf may be any.
pub fn registers_by_parts<S: Shelf>()
    ensures { RegistersServedByParts (chunks_of S.noted) }
{
    starts_apart();
    tenants_apart();
}

/// And they start and step as nodes of the law of all nodes do (`gq_parts::laws::all_nodes`), by the facts of registers in the journal and by these steps.
pub fn registers_run<S: Shelf>()
    ensures { AllRegistersRun (chunks_of S.noted) }
{}

/// Where tenants went since the journal's last plan, each other tenant starts with what all its facts make of it, as if nobody had gone: so by
/// [`served_by_parts`] what is written for it is the same. Of who went no fact is taken, and who has such a place now lacks none of its files.
pub fn who_stays()
    ensures whole { WhoStaysIsWhole }
    ensures none { NoneOfTheGone }
    ensures nothing { NothingIsLacked }
    ensures chunks { AllChunksStay }
    ensures no_room { NoRoomIsLacked }
{
    gone_stay();
    what_is_left();
}
