//! Where things stand, in pixels from the left and from the top.

ghost use Rattle.std.specs.Prelude.{◌≡◌};
ghost use Rattle.gq_svg.specs.Layout.{label_room, lane_top, server_top, wide, x_of};

// The greatest column that has a place of its own: no list has 2^64 operations, and each has at most three columns. So no place
// of a column overflows, and no drawing of a list is cut.
const MOST_COLUMN: u128 = 55_340_232_221_128_654_848;

// The columns that a picture is wide at least, so that its heading fits.
const LEAST_COLUMNS: u128 = 30;

// The columns behind which a label is cut at the latest.
const MOST_LABEL: u128 = 64;

/// Where the column stands.
pub fn x_of(column: u128) -> u128
    ensures { result ≡ x_of column }
{
    96 + 21 * column.min(MOST_COLUMN)
}

/// How many columns the picture is wide.
pub fn wide(columns: u128) -> u128
    ensures { result ≡ wide columns }
{
    columns.max(LEAST_COLUMNS)
}

/// The upper side of the lane of a session.
pub fn lane_top(session: u8) -> u128
    ensures { result ≡ lane_top session }
{
    76 + 46 * u128::from(session)
}

/// The upper side of the lane of a server, where so many such lanes stand before it, below those of so many sessions.
pub fn server_top(sessions: u8, before: usize) -> u128
    ensures { result ≡ server_top sessions before }
{
    122 + 46 * u128::from(sessions) + 22 * before as u128
}

/// How many letters of a label have room between two columns.
pub fn label_room(left: u128, right: u128) -> usize
    ensures { result ≡ label_room left right }
{
    let columns = right.saturating_sub(left).min(MOST_LABEL);
    (3 * columns as usize).saturating_sub(1)
}
