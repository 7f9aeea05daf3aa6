//! Laws of covering sets, and of sets that have a row or a column.

ghost use Rattle.gq_grid.specs.Laws.{CoveringSetsMeet, ChosenSetsCover, RowsMeetColumns, RowUpIsRow, ColumnUpIsColumn, ColumnsHavePeers, PeersOfPeers};

/// Any two covering sets share a server, and a chosen set covers: so permission asked of one quorum is known to each
/// later one. More: a set that has a full row shares a server with each set that has a full column, so that those who
/// ask a row meet all who wrote to a column; the servers of the row that is up have a row, and those of the column a
/// column. Among the servers of a set that has a full column are some that have one and, with each of these, all that share
/// its column: so what all of them have, one that loses it gets back from another. The idea that any two such sets meet is Maekawa's (A sqrt(N) algorithm for mutual exclusion in
/// decentralized systems, ACM TOCS 3(2), 1985); a full row with a full column is this project's choice of sets.
#[tactic(auto, using(crate::proofs::Meeting::covers_meet, crate::proofs::Meeting::choose_covers, crate::proofs::Meeting::rows_meet_columns, crate::proofs::Meeting::row_up_is_row, crate::proofs::Meeting::column_up_is_column, crate::proofs::Columns::columns_have_peers, crate::proofs::Columns::peers_of_peers))]
pub fn quorums_meet()
    ensures meet { CoveringSetsMeet }
    ensures covers { ChosenSetsCover }
    ensures split { RowsMeetColumns }
    ensures row { RowUpIsRow }
    ensures column { ColumnUpIsColumn }
    ensures peers { ColumnsHavePeers }
    ensures others { PeersOfPeers }
{}
