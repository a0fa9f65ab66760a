//! Texts that are read, and what is written of the codes that they say.

use pcode_assembler::assemble;
use std::alloc::{AllocError, Global};
use std::test::Fail;

/// Each instruction with its operands at their ends, and rows of both tables.
const EACH: &str =
    "pcode 1\nsite 1 1 1\nsite 1048576 1048576 13\npoint 1 1\npoint 1048576 1048576\nlabel 0\nujp 1\n\
     label 1\nfjp 0\ncup 0 0\ncup 65536 1\nldc -2147483648\nldc 2147483647\nlds 00000000000000000000000000000000\n\
     lds ffffffffffffffffffffffffffffffff\nlds 0123456789abcdef0000000000000001\nlda 0 0\nlod 15 16777215\nstr 0 1\n\
     ind 16777215\nsto\nldm 65536\nstm 0\ninc 1\nixa -2147483648 65536\nixa 2147483647 0\nadi\nsbi\nmpi\ndvi\nmod\n\
     ngi\nabi\nsqi\nodd\nnot\nand\nior\nequ\nneq\nles\nleq\ngrt\ngeq\ncmp 65536\nsgs\nsrg\nuni\nint\ndif\ninn\nseq\n\
     sne\nsle\nsge\nmst 0\nmst 15\nent 0 16777216\nent 16777216 0\nret 0\nret 1\nrdi 0\nrdc 1\nrln 0\neln 1\neof\n\
     chn 1 -2147483648 2147483647\nwri\nwrc\nwrb\nwrs 65536\nwln\nstp\nchk 1 9 -9\nckz 0\nckd 1 65536\ncka 0\ncks 1\n\
     ckm 0\nckq 1\nckr 0\nckb 1 0 127\nerr 0\nend\n";

/// What is written of the code that a text says.
fn again(alloc: Global, text: &str) -> Result<Vec<u8>, Fail> {
    let code = assemble(alloc, text.as_bytes())?;
    Ok(code.write(alloc)?)
}

#[test]
fn writes_each_instruction_as_it_is_read(rt: HostRuntime) -> Result<(), Fail> {
    let written = again(rt.alloc(), EACH)?;
    assert_eq!(rt; written.as_slice(), EACH.as_bytes());
    Ok(())
}

#[test]
fn writes_labels_where_jumps_go(rt: HostRuntime) -> Result<(), Fail> {
    let text =
        "pcode 1\nlabel 5\nlabel 999999\nlabel 0\nujp 5\nfjp 2\nlabel 3\nlabel 2\nstp\nlabel 9\nend\n";
    let written = again(rt.alloc(), text)?;
    let wanted = "pcode 1\nlabel 0\nujp 0\nfjp 2\nlabel 2\nstp\nend\n";
    assert_eq!(rt; written.as_slice(), wanted.as_bytes());
    Ok(())
}

/// A text of so many lines that are alike.
fn of_lines(alloc: Global, line: &str, count: usize) -> Result<String, AllocError> {
    let mut text = String::from_str(alloc, "pcode 1\n")?;
    text.push_str(line.repeat(alloc, count)?.as_str())?;
    text.push_str("end\n")?;
    Ok(text)
}

#[test]
fn reads_a_million(rt: HostRuntime) -> Result<(), Fail> {
    for (line, refusal) in [
        ("adi\n", "code:1000002: refused A5"),
        ("site 1 1 1\n", "code:1000002: refused A2"),
        ("point 1 1\n", "code:1000002: refused A2"),
    ] {
        let text = of_lines(rt.alloc(), line, 1_000_000)?;
        let written = again(rt.alloc(), text.as_str())?;
        assert_eq!(rt; written.as_slice(), text.as_bytes(), "of {line}");
        let more = of_lines(rt.alloc(), line, 1_000_001)?;
        match assemble(rt.alloc(), more.as_bytes()) {
            Ok(_) => assert!(rt; false, "of {line}"),
            Err(fault) => {
                let told = format!(in rt.alloc(); "{fault}")?;
                assert_eq!(rt; told.as_str(), refusal);
            }
        }
    }
    Ok(())
}
