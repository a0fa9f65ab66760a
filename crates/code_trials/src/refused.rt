//! Texts that are no code's, and what is told of them.

use pcode_assembler::{AsmFault, assemble};
use std::alloc::{AllocError, Global};
use std::test::Fail;

/// What is told of a text: nothing, where it is read.
fn told(alloc: Global, text: &str) -> Result<String, AllocError> {
    match assemble(alloc, text.as_bytes()) {
        Ok(_) => Ok(String::new(alloc)),
        Err(AsmFault::Memory(refused)) => Err(refused.into()),
        Err(fault) => format!(in alloc; "{fault}"),
    }
}

/// Fails at the first text that isn't told so.
fn all_told(alloc: Global, rows: &[(&str, &str)]) -> Result<(), Fail> {
    for (text, wanted) in rows {
        let found = told(alloc, text)?;
        if found.as_str() != *wanted {
            return Err(Fail::new(format!(in alloc; "{found} in place of {wanted} of {text}")?));
        }
    }
    Ok(())
}

/// The same of texts with a first and a last line around what is given.
fn all_told_between(alloc: Global, rows: &[(&str, &str)]) -> Result<(), Fail> {
    for (lines, wanted) in rows {
        let text = format!(in alloc; "pcode 1\n{lines}\nend\n")?;
        all_told(alloc, &[(text.as_str(), *wanted)])?;
    }
    Ok(())
}

#[test]
fn refuses_first_and_last_lines(rt: HostRuntime) -> Result<(), Fail> {
    all_told(
        rt.alloc(),
        &[
            ("pcode 1\nend\n", ""),
            ("", "code:1: refused A6"),
            ("pcode 1\n", "code:1: refused A6"),
            ("pcode 1\nend", "code:2: refused A6"),
            ("pcode 1\nfrob\n", "code:2: refused A6"),
            ("frob\nend\n\n", "code:3: refused A6"),
            ("end\n", "code:1: refused A1"),
            ("pcode 2\nend\n", "code:1: refused A1"),
            ("pcode 1 \nend\n", "code:1: refused A1"),
            ("pcode 1\r\nend\n", "code:1: refused A1"),
            ("pcode 1\npcode 1\nend\n", "code:2: refused A1"),
            ("pcode 1\nend\nadi\nend\n", "code:2: refused A1"),
            ("pcode 1\nend 5\nend\n", "code:2: refused A1"),
        ],
    )
}

#[test]
fn refuses_words_and_places(rt: HostRuntime) -> Result<(), Fail> {
    all_told_between(
        rt.alloc(),
        &[
            ("frob", "code:2: refused A1"),
            ("", "code:2: refused A1"),
            (" adi", "code:2: refused A1"),
            ("ldc\t1", "code:2: refused A1"),
            ("adi\nsite x", "code:3: refused A1"),
            ("label 0\npoint 1 1", "code:3: refused A1"),
            ("point 1 1\nsite 1 1 1", "code:3: refused A1"),
        ],
    )
}

#[test]
fn refuses_operands(rt: HostRuntime) -> Result<(), Fail> {
    all_told_between(
        rt.alloc(),
        &[
            ("ldc 2147483648", "code:2: refused A2"),
            ("ldc -2147483649", "code:2: refused A2"),
            ("ldc -0", "code:2: refused A2"),
            ("ldc +1", "code:2: refused A2"),
            ("ldc 01", "code:2: refused A2"),
            ("ldc", "code:2: refused A2"),
            ("ldc 1 ", "code:2: refused A2"),
            ("ldc  1", "code:2: refused A2"),
            ("ldc 1\r", "code:2: refused A2"),
            ("adi 1", "code:2: refused A2"),
            ("mst 16", "code:2: refused A2"),
            ("lod 0 16777216", "code:2: refused A2"),
            ("ldm 65537", "code:2: refused A2"),
            ("ent 0 16777217", "code:2: refused A2"),
            ("ret 2", "code:2: refused A2"),
            ("lds 0123456789abcdef0123456789abcde", "code:2: refused A2"),
            ("lds 0123456789ABCDEF0123456789ABCDEF", "code:2: refused A2"),
            ("label 1000000", "code:2: refused A2"),
            ("site 0 1 1", "code:2: refused A2"),
            ("site 1 1048577 1", "code:2: refused A2"),
            ("site 1 1 14", "code:2: refused A2"),
            ("chk 0 1 9", "code:2: refused A2"),
            ("site 1 1 1\nckz 1", "code:3: refused A2"),
            ("site 1 1 1\nrdi 0", "code:3: refused A2"),
        ],
    )
}

#[test]
fn refuses_labels(rt: HostRuntime) -> Result<(), Fail> {
    all_told_between(
        rt.alloc(),
        &[
            ("ujp 7", "code:2: refused A3"),
            ("ujp 7\nlabel 7", "code:2: refused A3"),
            ("cup 0 1\nfrob", "code:2: refused A3"),
            ("ujp 0\nlabel 0\nfrob", "code:2: refused A3"),
            ("ujp 0\nlabel 0\nldc x", "code:4: refused A2"),
            ("label 0\nlabel 0", "code:3: refused A4"),
            ("label 0\nadi\nlabel 00\nlabel 0", "code:4: refused A2"),
        ],
    )
}

#[test]
fn refuses_beginnings(rt: HostRuntime) -> Result<(), Fail> {
    let text = b"pcode 1\nsite 1 2 3\nlabel 0\nldc 1\nend\n";
    for end in 0..text.len() {
        match assemble(rt.alloc(), &text[..end]) {
            Err(AsmFault::Refused { rule, .. }) => assert_eq!(rt; rule.number(), 6, "at {end}"),
            Err(AsmFault::Memory(refused)) => return Err(AllocError::from(refused).into()),
            Ok(_) => assert!(rt; false, "at {end}"),
        }
    }
    Ok(())
}
