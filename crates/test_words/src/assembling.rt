//! Codes that tests write as texts.

use pcode_assembler::{Code, assemble};
use std::alloc::Global;
use std::test::Fail;

/// The code of a text without its first and its last line, and with `; ` for the end of a line.
pub fn assembled(alloc: Global, lines: &str) -> Result<Code, Fail> {
    let lines = lines.replace(alloc, "; ", "\n")?;
    let text = format!(in alloc; "pcode 1\n{lines}\nend\n")?;
    Ok(assemble(alloc, text.as_bytes())?)
}
