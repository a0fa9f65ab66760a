use crate::sources::tree_of;
use cert_checker::{Verdict, check};
use certificate::Certificate;
use domain::Version;
use std::alloc::Global;
use std::test::Fail;

/// The verdict of a program with a site that isn't in the table: that of its second division, which would be open too.
/// (What a mod makes of -1 may be any number below its divisor.)
fn verdict_of_fewer_sites(alloc: Global) -> Result<Verdict, Fail> {
    let statements = "x := 10 div ((-1) mod 11); x := 10 div ((-1) mod 11)";
    let mut tree = tree_of(alloc, "x: integer", statements)?;
    tree.sites.truncate(2);
    let certificate = Certificate {
        version: Version::Two,
        sections: Vec::new(alloc),
    };
    Ok(check(alloc, &tree, &certificate)?)
}

#[test]
fn tells_no_site_that_is_not_in_the_table(rt: HostRuntime) -> Result<(), Fail> {
    let open = verdict_of_fewer_sites(rt.alloc())?.open_sites;
    assert!(rt; open.len() == 1 && open[0].id == 1);
    Ok(())
}
