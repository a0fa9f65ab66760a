ghost use Rattle.std.specs.Prelude.{◌≡◌, ◌++◌, ◌∷◌, ◌<◌, [], IfOk, get_or, length, map, slice_set};
ghost use Rattle.checker_state.specs.Loops.{is_among};
ghost use Rattle.checker_loops.specs.Pairs.{aliases_in, aliases_of, all_aliases_in, declared_aliases};
ghost use Rattle.checker_loops.specs.View.{AreWidened, HasAt, HasPartner, HaveEntered, HaveEnteredByBlock};
ghost use Rattle.checker_loops.specs.View.{kept_row, listed_of, row_at, said_pair};

use certificate::AliasPair;
use std::alloc::{AllocError, Global};
use std::collections::BTreeMap;
use std::marker::Model;
use typed_tree::Tree;

/// Pairs of variables of a program that may share a place (ISO 7185:1990, 6.6.3.3), as they are listed.
#[derive(Drop)]
pub struct Pairs<'a> {
    tree: &'a Tree,
    pairs: Vec<AliasPair>,
    // The variables that are listed in a pair with each, by root number; none of one behind them.
    partners: Vec<Vec<u32>>,
    // Of these, those that a block declares, by root number and block number.
    by_block: BTreeMap<(u32, u32), Vec<u32>>,
}

impl<'a> Model for Pairs<'a> {
    ghost use Rattle.std.specs.Coded.{codes};
    ghost use Rattle.typed_tree.specs.contracts.tree.Stmt as stmt;
    ghost use Rattle.checker_loops.specs.Pairs.{Listed};
    ghost use Rattle.checker_loops.specs.View.{AreByBlock, ArePartners, listed_of, said_pairs};

    ghost Value = { Listed };

    ghost coded = { Prim.hlevel (codes, stmt.the_row.coded) };

    ghost view = { λ kept. listed_of kept.tree.now kept.pairs.items };

    ghost invariant = { λ kept. ArePartners (said_pairs kept.pairs.items) kept.partners.items
        × AreByBlock (listed_of kept.tree.now kept.pairs.items) kept.by_block };
}

impl<'a> Pairs<'a> {
    /// These pairs.
    pub fn of(alloc: Global, tree: &'a Tree, pairs: Vec<AliasPair>) -> Result<Pairs<'a>, AllocError>
        ensures { IfOk result (λ kept. kept ≡ listed_of tree.now pairs.items) }
    {
        let mut partners = Vec::new(alloc);
        let mut by_block = BTreeMap::new(alloc);
        for pair in &pairs {
            enter(alloc, &mut partners, *pair)?;
            enter_by_block(alloc, tree, &mut by_block, *pair)?;
        }
        Ok(Pairs {
            tree,
            pairs,
            partners,
            by_block,
        })
    }

    /// These and one more.
    pub fn with(self, alloc: Global, pair: AliasPair) -> Result<Pairs<'a>, AllocError>
        ensures { IfOk result (λ kept. kept ≡ record self.entry { pairs = self.entry.pairs ++ said_pair pair ∷ [] }) }
    {
        let Pairs {
            tree,
            mut pairs,
            mut partners,
            mut by_block,
        } = self;
        enter(alloc, &mut partners, pair)?;
        enter_by_block(alloc, tree, &mut by_block, pair)?;
        pairs.push(pair)?;
        Ok(Pairs {
            tree,
            pairs,
            partners,
            by_block,
        })
    }

    /// The program of whose variables they are.
    pub fn tree(&self) -> &'a Tree
        ensures { result.now ≡ self.now.tree }
    {
        self.tree
    }

    /// The aliases of a variable that are visible in a block.
    pub fn aliases_in(&self, alloc: Global, block: u32, root: u32) -> Result<Vec<u32>, AllocError>
        ensures { IfOk result (λ found. found.items ≡ aliases_in self.now block root) }
    {
        let mut found = Vec::new(alloc);
        self.add_aliases(&mut found, block, root)?;
        Ok(found)
    }

    /// Puts those of several variables behind others.
    pub fn add_all_aliases(
        &self,
        found: &mut Vec<u32>,
        block: u32,
        roots: &[u32],
    ) -> Result<(), AllocError>
        ensures { IfOk result
            (λ _. found.new.items ≡ found.old.items ++ all_aliases_in self.now block roots.now) }
    {
        for root in roots {
            self.add_aliases(found, block, *root)?;
        }
        Ok(())
    }

    fn add_aliases(&self, found: &mut Vec<u32>, block: u32, root: u32) -> Result<(), AllocError>
        ensures { IfOk result (λ _. found.new.items ≡ found.old.items ++ aliases_in self.now block root) }
    {
        let Some(seen) = self.tree.blocks.get(block as usize) else {
            return Ok(());
        };
        for number in &seen.heading.around {
            found.extend_from_slice(self.declared_by(*number, root))?;
        }
        found.extend_from_slice(self.declared_by(block, root))
    }

    /// The aliases of a variable that a block declares.
    fn declared_by(&self, number: u32, root: u32) -> &[u32]
        ensures { result.now ≡ declared_aliases self.now root number }
    {
        match self.by_block.get(&(root, number)) {
            None => &[],
            Some(row) => row.as_slice(),
        }
    }

    /// The variables that are listed in a pair with one.
    fn aliases(&self, root: u32) -> &[u32]
        ensures { result.now ≡ aliases_of self.now.pairs root }
    {
        match self.partners.get(root as usize) {
            None => &[],
            Some(partners) => partners.as_slice(),
        }
    }

    /// Whether two variables are a listed pair.
    #[tactic(auto, using(crate::proofs::Partners::listed_back))]
    pub fn has(&self, one: u32, other: u32) -> bool
        ensures { result ≡ is_among other (aliases_of self.now.pairs one) }
    {
        let of_one = self.aliases(one);
        let of_other = self.aliases(other);
        if of_one.len() <= of_other.len() {
            of_one.contains(&other)
        } else {
            of_other.contains(&one)
        }
    }
}

/// Enters a pair at both of its variables, at the blocks that declare them.
fn enter_by_block(
    alloc: Global,
    tree: &Tree,
    table: &mut BTreeMap<(u32, u32), Vec<u32>>,
    pair: AliasPair,
) -> Result<(), AllocError>
    ensures { IfOk result (λ _. HaveEnteredByBlock tree.now pair table.old table.new) }
{
    enter_partner(alloc, tree, table, pair.first, pair.second)?;
    if pair.first == pair.second {
        return Ok(());
    }
    enter_partner(alloc, tree, table, pair.second, pair.first)
}

/// Enters a variable at another and the block that declares the first, if it is there.
fn enter_partner(
    alloc: Global,
    tree: &Tree,
    table: &mut BTreeMap<(u32, u32), Vec<u32>>,
    root: u32,
    other: u32,
) -> Result<(), AllocError>
    ensures { IfOk result (λ _. HasPartner tree.now root other table.old table.new) }
{
    match tree.variables.get(other as usize) {
        None => Ok(()),
        Some(variable) => put_at(alloc, table, (root, variable.block), other),
    }
}

/// Puts a root number into the row of a key.
fn put_at(
    alloc: Global,
    table: &mut BTreeMap<(u32, u32), Vec<u32>>,
    key: (u32, u32),
    other: u32,
) -> Result<(), AllocError>
    ensures { IfOk result (λ _. HasAt key other table.old table.new) }
{
    let mut row = match table.remove(&key) {
        None => Vec::new(alloc),
        Some(row) => row,
    };
    row.push(other)?;
    table.insert(key, row)?;
    Ok(())
}

/// Enters a pair at both of its variables.
fn enter(alloc: Global, partners: &mut Vec<Vec<u32>>, pair: AliasPair) -> Result<(), AllocError>
    ensures { IfOk result (λ _. HaveEntered pair partners.old.items partners.new.items) }
{
    widen(alloc, partners, pair.first.max(pair.second) as usize)?;
    enter_at(partners, pair.first as usize, pair.second)?;
    if pair.first == pair.second {
        return Ok(());
    }
    enter_at(partners, pair.second as usize, pair.first)
}

/// Adds rows with none, until there is one of this number.
fn widen(alloc: Global, rows: &mut Vec<Vec<u32>>, number: usize) -> Result<(), AllocError>
    ensures { IfOk result (λ _. AreWidened number rows.old.items rows.new.items) }
{
    while rows.len() <= number {
        rows.push(Vec::new(alloc))?;
    }
    Ok(())
}

/// Puts a root number into a row.
fn enter_at(rows: &mut Vec<Vec<u32>>, row: usize, other: u32) -> Result<(), AllocError>
    requires { row < length rows.old.items }
    ensures { IfOk result (λ _. map (λ row. row.items) rows.new.items ≡ slice_set (map (λ row. row.items)
        rows.old.items) row (get_or (map (λ row. row.items) rows.old.items) row [] ++ other ∷ [])) }
{
    if let Some(found) = rows.get_mut(row) {
        found.push(other)?;
    }
    Ok(())
}
