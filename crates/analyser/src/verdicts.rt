//! Whether two verdicts are the same.

ghost use Rattle.std.specs.Prelude.{◌≡◌, true};

use cert_checker::Verdict;
use typed_tree::Site;

pub(crate) fn is_same(verdict: &Verdict, other: &Verdict) -> bool
    ensures visits { result ≡ true → verdict.now.visits ≡ other.now.visits }
    ensures sites { result ≡ true → verdict.now.open_sites.items ≡ other.now.open_sites.items }
{
    verdict.visits == other.visits && are_same(&verdict.open_sites, &other.open_sites)
}

// Whether these are the same sites, in the same order.
fn are_same(sites: &[Site], others: &[Site]) -> bool
    ensures { result ≡ true → sites.now ≡ others.now }
{
    if sites.len() != others.len() {
        return false;
    }
    for (site, other) in sites.iter().zip(others) {
        if !is_same_site(*site, *other) {
            return false;
        }
    }
    true
}

fn is_same_site(site: Site, other: Site) -> bool
    ensures { result ≡ true → site ≡ other }
{
    site.id == other.id
        && site.place.line == other.place.line
        && site.place.column == other.place.column
        && site.kind.number() == other.kind.number()
}
