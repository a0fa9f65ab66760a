use crate::sources::resolved;
use certificate::{read, read_again, write};
use plain_certificate::widest;
use std::alloc::Global;
use std::test::Fail;
use test_words::rows::all_hold;

/// The texts of certificates: each kind of line, and of path, bound and number, stands in one of them.
const TEXTS: [&str; 6] = [
    "pcert 1\n",
    "pcert 1\nproc 0\nloop 0\nchange v0\nfact defined v0 2 v1-1\nloop 1\nchange v0\nchange v2\nfact defined v0\n\
     loop 2\nchange v0\nchange v2\nfact range v2 4 200\nfact defined v0\n",
    "pcert 1\nproc 1\nalias v0 v3\nalias v1 v3\nalias v1 v4\nalias v2 v4\nchange v3\nchange v4\nentry defined v3\n\
     entry defined v4\n",
    "pcert 1\nproc 1\nentry range v2 0 2147483647\n",
    "pcert 1\nproc 0\nalias v0 v999999\nchange v10\nentry range v1[].size[] -2147483647 -1\nentry range v2 1 0\n\
     exit defined v1.size\nexit defined v3 -7 v10+0\nexit order v1 v2 -1\nloop 999999\nfact order v1 v2 0\nproc 12\n\
     loop 0\nchange v0\n",
    "pcert 2\nproc 3\nentry defined v1.line -7 v10+0\nexit defined v1.line 1 v2-1 v2+0 9\nloop 7\n\
     fact defined v0 v1+0 v1+0 1 v2-1\nfact order v1 v2 0\n",
];

/// What is written of what is read of what is written of a certificate that was read.
fn again_told(alloc: Global, text: &&str) -> Result<String, Fail> {
    let certificate = read(alloc, text.as_bytes())?;
    let again = read_again(alloc, &certificate)?;
    Ok(String::from_utf8(write(alloc, &again)?)?)
}

#[test]
fn writes_what_was_read(rt: HostRuntime) -> Result<(), Fail> {
    for text in TEXTS {
        all_hold(rt.alloc(), &[(text, text)], again_told)?;
    }
    Ok(())
}

/// The widest certificate of a program.
fn widest_told(alloc: Global, source: &&str) -> Result<String, Fail> {
    let tree = resolved(alloc, source)?;
    let certificate = widest(alloc, &tree)?;
    Ok(String::from_utf8(write(alloc, &certificate)?)?)
}

/// A program with a variable, and a procedure with a variable parameter, a value parameter and a variable; each of them
/// has a loop. Another procedure has nothing of its own, and a program has nothing at all.
static WIDEST: [(&str, &str); 2] = [
    (
        "program p; var a: integer; procedure q(var b: integer; c: integer); var d: integer;
        begin while false do end; procedure r; begin end; begin while false do end.",
        "pcert 3\nproc 0\nloop 1\nchange v0\nproc 1\nalias v0 v1\nchange v0\nchange v1\nchange v2\nloop 0\nchange v0\n\
         change v1\nchange v2\nchange v3\nproc 2\nchange v0\n",
    ),
    ("program p; begin end.", "pcert 3\n"),
];

#[test]
fn lists_all_in_ascending_order(rt: HostRuntime) -> Result<(), Fail> {
    all_hold(rt.alloc(), &WIDEST, widest_told)
}
