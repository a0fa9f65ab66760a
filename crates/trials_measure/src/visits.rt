//! What it takes to find certificates.

use analyser::find;
use report::compile::compile;
use report::fault::Fault;
use std::alloc::Global;
use std::{fs, io};

/// What it takes to find a certificate.
#[derive(Clone, Copy)]
struct Counts {
    visits: u64,
    entries: u64,
    refusals: u32,
}

/// Tells of each source what it takes to find its certificate: how often the analyser enters a statement or an
/// expression, how many of both the program has, and how often the checker refuses what was found.
pub(crate) fn visits(rt: &HostRuntime, paths: &[String]) -> io::Result<()> {
    for path in paths {
        let source = fs::read(rt, path.as_str())?;
        match counted(rt.alloc(), &source) {
            Ok(counts) => println!(rt;
                "visits {} entries {} refusals {}",
                counts.visits, counts.entries, counts.refusals,
            )?,
            Err(_) => println!(rt; "refused")?,
        }
    }
    Ok(())
}

fn counted(alloc: Global, source: &[u8]) -> Result<Counts, Fault> {
    let compiled = compile(alloc, source, None)?;
    let found = find(alloc, &compiled.tree)?;
    Ok(Counts {
        visits: found.visits,
        entries: compiled.verdict.visits,
        refusals: found.refusals,
    })
}
