ghost use Rattle.std.specs.Prelude.{◌≡◌, ◌==◌, IfOk};
ghost use Rattle.std.specs.List.{list_any};
ghost use Rattle.std.specs.List.Sorted.{IsSorted};
ghost use Rattle.std.specs.Ordering.{nat_cmp};
ghost use Rattle.cert_checker.specs.Promise.{open_in};

use std::alloc::{AllocError, Global};
use typed_tree::Site;

/// The sites of a table whose ids are among the given ones, in the order of the table.
pub(crate) fn open_sites(
    alloc: Global,
    sites: &[Site],
    mut ids: Vec<u32>,
) -> Result<Vec<Site>, AllocError>
    ensures { IfOk result (λ found. found.items ≡ open_in ids.items sites.now) }
{
    ids.sort_unstable();
    with_ids(alloc, sites, &ids)
}

/// The sites of a table whose ids are among ascending ones.
fn with_ids(alloc: Global, sites: &[Site], ids: &[u32]) -> Result<Vec<Site>, AllocError>
    requires { IsSorted nat_cmp ids.now }
    ensures { IfOk result (λ found. found.items ≡ open_in ids.now sites.now) }
{
    let mut found = Vec::new(alloc);
    for site in sites {
        if is_among(ids, site.id) {
            found.push(*site)?;
        }
    }
    Ok(found)
}

/// Whether a number is among ascending ones.
fn is_among(ids: &[u32], id: u32) -> bool
    requires { IsSorted nat_cmp ids.now }
    ensures { result ≡ list_any (λ i. i == id) ids.now }
{
    ids.binary_search(&id).is_ok()
}
