use lexer::tokens;
use parser::parse;
use resolver::resolve;
use std::alloc::Global;
use std::test::Fail;
use typed_tree::Tree;

/// The typed tree of a source.
pub(crate) fn resolved(alloc: Global, source: &str) -> Result<Tree, Fail> {
    let list = tokens(alloc, source.as_bytes())?;
    let program = parse(alloc, &list)?;
    Ok(resolve(alloc, &program)?)
}

/// The typed tree of a program that may write, with its variables on the first line and its statements on the second.
pub(crate) fn tree_of(alloc: Global, variables: &str, statements: &str) -> Result<Tree, Fail> {
    let source = format!(in alloc;
        "program p(output); var {variables}; begin\n{statements}\nend."
    )?;
    resolved(alloc, source.as_str())
}
