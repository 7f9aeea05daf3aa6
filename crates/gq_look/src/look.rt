//! What nodes told at their places, and what follows.
//!
//! Each told the tag of its copy, or nothing. A tag *settles* the file where a whole row told that one or lesser ones, and a whole column that one or
//! greater ones: then the look is a read that gives the content of this tag (`gq_looks::laws::looks_are_reads`).

ghost use Rattle.std.specs.Prelude.{◌≡◌, ◌≤◌, length, true, None, IfSome, IfNone};
ghost use Rattle.gq_grid.specs.Sets.{servers};
ghost use Rattle.gq_grid.specs.Grid.{no_servers};
ghost use Rattle.gq_grid.specs.declared.TheConstants.{MOST_SERVERS};
ghost use Rattle.gq_look.specs.Look.{most_from, least_from, settles, found_from};

use gq_grid::{Grid, MOST_SERVERS, ServerSet};
use gq_tag::Tag;

// The places whose nodes told a tag that is no greater.
fn at_most(told: &[Option<Tag>], tag: Tag) -> ServerSet
    requires { length told.now ≤ MOST_SERVERS }
    ensures { servers result ≡ most_from 0 tag told.now no_servers }
{
    let mut set = ServerSet::empty();
    for (place, each) in told.iter().enumerate() {
        if let Some(here) = each {
            if !(tag < *here) {
                set.insert(place);
            }
        }
    }
    set
}

// The places whose nodes told a tag that is no lesser.
fn at_least(told: &[Option<Tag>], tag: Tag) -> ServerSet
    requires { length told.now ≤ MOST_SERVERS }
    ensures { servers result ≡ least_from 0 tag told.now no_servers }
{
    let mut set = ServerSet::empty();
    for (place, each) in told.iter().enumerate() {
        if let Some(here) = each {
            if !(*here < tag) {
                set.insert(place);
            }
        }
    }
    set
}

/// Whether a tag that was told settles the file.
pub fn settles(grid: &Grid, told: &[Option<Tag>], tag: Tag) -> bool
    requires { length told.now ≤ MOST_SERVERS }
    ensures { result ≡ settles grid.now told.now tag }
{
    at_most(told, tag).has_row(grid) && at_least(told, tag).has_column(grid)
}

/// The first tag that was told and settles the file; none where no such tag does.
pub fn settled(grid: &Grid, told: &[Option<Tag>]) -> Option<Tag>
    requires { length told.now ≤ MOST_SERVERS }
    ensures { result ≡ found_from grid.now told.now told.now }
{
    for each in told {
        if let Some(tag) = each {
            if settles(grid, told, *tag) {
                return Some(*tag);
            }
        }
    }
    None
}
