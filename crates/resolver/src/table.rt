ghost use Rattle.std.specs.Prelude.{◌≡◌, ◌++◌, None, IfOk, MatchResult, drop, length, map};
ghost use Rattle.typed_tree.specs.Loops.{all_inside, inside_of};
ghost use Rattle.memory.specs.Refused.{the_refusal};
ghost use Rattle.typed_tree.specs.declared.fault.TypeFault.TheVariants.{Memory};
ghost use Rattle.resolver.specs.Table.{Meets, closed, controlled, meets, opened, rows_of_made, seen, IsTableOf};

use crate::typed::MadeBlock;
use declarations::Typed;
use memory::Refused;
use std::alloc::{AllocError, Global};
use typed_tree::{Loop, Stmt, TypeFault};

/// The table of the loops of blocks, which stand in the order of the text.
pub(crate) fn table_of(alloc: Global, blocks: &[MadeBlock]) -> Typed<Vec<Loop>>
    ensures { MatchResult result (λ rows. IsTableOf blocks.now rows.items) (λ why. why ≡ Memory the_refusal) }
{
    let mut met = Met {
        alloc,
        block: 0,
        loops: Vec::new(alloc),
        controls: Vec::new(alloc),
        refused: None,
    };
    for made in blocks {
        meet_block(&mut met, made);
    }
    if let Some(refused) = met.refused {
        return Err(TypeFault::Memory(refused));
    }
    Ok(met.loops)
}

// The rows of the loops, and the control variables, that were met so far.
#[derive(Drop)]
struct Met {
    alloc: Global,
    // The number of the block whose loops are met.
    block: u32,
    loops: Vec<Loop>,
    controls: Vec<u32>,
    // That memory ran out, so that rows are missing.
    refused: Option<Refused>,
}

// Meets what stands inside a block.
#[tactic(auto, using(crate::proofs::Tables::block_met))]
fn meet_block(met: &mut Met, made: &MadeBlock)
    ensures { met.new.refused ≡ None → (met.old.refused ≡ None)
        × ((seen met.new).rows ≡ (seen met.old).rows ++ rows_of_made made.now) }
{
    met.block = made.number;
    meet(met, &made.block.body);
}

// Meets what stands inside a statement.
#[cycle(meet)]
#[tactic(auto, using(crate::proofs::Tables::met_forms))]
fn meet(met: &mut Met, statement: &Stmt)
    ensures { Meets (meets (inside_of statement.now)) met.old met.new }
{
    match statement {
        Stmt::Empty { .. }
        | Stmt::Assign(_)
        | Stmt::Copy(_)
        | Stmt::Read(_)
        | Stmt::Write(_)
        | Stmt::Call(_) => {}
        Stmt::Compound { statements, .. } => meet_all(met, statements),
        Stmt::If {
            consequence,
            alternative: None,
            ..
        } => meet(met, consequence),
        Stmt::If {
            consequence,
            alternative: Some(alternative),
            ..
        } => {
            meet(met, consequence);
            meet(met, alternative);
        }
        Stmt::While { body, .. } => {
            let (row, start) = open(met);
            meet(met, body);
            close(met, None, row, start);
        }
        Stmt::Repeat { statements, .. } => {
            let (row, start) = open(met);
            meet_all(met, statements);
            close(met, None, row, start);
        }
        Stmt::Case { arms, .. } => meet_all(met, arms),
        Stmt::With { body, .. } => meet(met, body),
        Stmt::For { head, body } => {
            meet_control(met, head.control);
            let (row, start) = open(met);
            meet(met, body);
            close(met, Some(head.control), row, start);
        }
    }
}

// The same of statements, one after another.
#[cycle(meet)]
fn meet_all(met: &mut Met, statements: &[Stmt])
    ensures { Meets (meets (all_inside (map inside_of statements.now))) met.old met.new }
{
    for statement in statements {
        meet(met, statement);
    }
}

// A control variable.
fn meet_control(met: &mut Met, root: u32)
    ensures { Meets (controlled root) met.old met.new }
{
    if let Err(error) = met.controls.push(root) {
        met.refused = Some(error.into());
    }
}

// A loop begins: its row, and how many control variables were met before it.
fn open(met: &mut Met) -> (usize, usize)
    ensures begun { Meets opened met.old met.new }
    ensures row { result.0 ≡ length (seen met.old).rows }
    ensures start { result.1 ≡ length met.old.controls.items }
{
    let at = (met.loops.len(), met.controls.len());
    let begun = Loop {
        block: met.block,
        control: None,
        controls: Vec::new(met.alloc),
    };
    if let Err(error) = met.loops.push(begun) {
        met.refused = Some(error.into());
    }
    at
}

// It ends: its own control variable stands in its row, and those that were met since.
#[tactic(auto, using(crate::proofs::Tables::row_told))]
fn close(met: &mut Met, control: Option<u32>, row: usize, start: usize)
    ensures { Meets (closed control row start) met.old met.new }
{
    let controls = match behind(met.alloc, &met.controls, start) {
        Ok(controls) => controls,
        Err(error) => {
            met.refused = Some(error.into());
            return;
        }
    };
    let block = met.block;
    if let Some(told) = met.loops.get_mut(row) {
        *told = Loop {
            block,
            control,
            controls,
        };
    }
}

// The numbers behind so many.
fn behind(alloc: Global, numbers: &[u32], count: usize) -> Result<Vec<u32>, AllocError>
    ensures { IfOk result (λ found. found.items ≡ drop count numbers.now) }
{
    Vec::from_slice(alloc, numbers.get(count..).unwrap_or(&[]))
}
