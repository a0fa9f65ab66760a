ghost use Rattle.std.specs.Prelude.{◌≡◌, IfOk};
ghost use Rattle.code_generator.specs.Tables.{has_room, is_spelled};
ghost use Rattle.code_generator.specs.Tables.{point_table, points_are_spelled, site_table, sites_are_spelled};
ghost use Rattle.pcode_assembler.specs.Lines.{is_place};

use pcode_assembler::code as plain;
use place::Place;
use std::alloc::{AllocError, Global};
use typed_tree::{Point, Site, Tree};

/// How many sites, and how many points, a text of code has room for.
const MOST_ROWS: usize = 1_000_000;

/// The last line, and the last column, that a text of code can spell.
const LAST_PLACE: u32 = 1_048_576;

/// Whether a text of code has room for the sites and the points of a tree, and can spell where they stand.
pub fn has_room(tree: &Tree) -> bool
    ensures { result ≡ has_room tree.now }
{
    tree.sites.len() <= MOST_ROWS
        && tree.points.len() <= MOST_ROWS
        && sites_are_spelled(tree.sites.as_slice())
        && points_are_spelled(tree.points.as_slice())
}

fn sites_are_spelled(sites: &[Site]) -> bool
    ensures { result ≡ sites_are_spelled sites.now }
{
    sites.iter().all(|site| is_spelled(site.place))
}

fn points_are_spelled(points: &[Point]) -> bool
    ensures { result ≡ points_are_spelled points.now }
{
    points.iter().all(|point| is_spelled(point.place))
}

fn is_spelled(place: Place) -> bool
    ensures { result ≡ is_spelled place }
{
    is_place(place.line) && is_place(place.column)
}

fn is_place(number: u32) -> bool
    ensures { result ≡ is_place number }
{
    1 <= number && number <= LAST_PLACE
}

/// The sites in plain numbers.
pub fn sites_of(alloc: Global, sites: &[Site]) -> Result<Vec<plain::Site>, AllocError>
    ensures { IfOk result (λ table. table.items ≡ site_table sites.now) }
{
    let plain = sites.iter().map(|site| plain::Site {
        id: site.id,
        line: site.place.line,
        column: site.place.column,
        kind: site.kind.number(),
    });
    plain.collect(alloc)
}

/// The points in plain numbers.
pub fn points_of(alloc: Global, points: &[Point]) -> Result<Vec<plain::Point>, AllocError>
    ensures { IfOk result (λ table. table.items ≡ point_table points.now) }
{
    let plain = points.iter().map(|point| plain::Point {
        id: point.id,
        line: point.place.line,
        column: point.place.column,
    });
    plain.collect(alloc)
}
