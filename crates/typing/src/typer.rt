ghost use Rattle.std.specs.Prelude.{◌≡◌, ◌≤◌, MatchResult, map, vec_len};
ghost use Rattle.typed_tree.specs.Ids.{AreInOrder, ArePointsInOrder};
ghost use Rattle.memory.specs.Refused.{the_refusal};
ghost use Rattle.typed_tree.specs.declared.fault.TypeFault.TheVariants.{Memory};
ghost use Rattle.typing.specs.Passing.{Passed};
ghost use Rattle.typing.specs.Sound.{stands};
ghost use Rattle.typing.specs.View.{headed_of, enclosing_of, record_of};
ghost use Rattle.typing.specs.declared.typer.TheConstants.{MOST_SITES, MOST_ENTRIES, MOST_NUMBERED};

use crate::blocks::PassedHeading;
use crate::{EnclosingBlock, OpenRecord};
use indexmap::IndexSet;
use place::Place;
use scopes::Scopes;
use std::alloc::Global;
use std::marker::Model;
use typed_tree::{Block, Loop, Point, Site, Tree, TypeFault, Variable};
use types::TypeTable;

/// The most sites, and the most points, of a program.
pub const MOST_SITES: usize = 1_000_000;

/// How deep blocks may be nested, of which that of the program is the first.
pub const MOST_BLOCKS: usize = 16;

/// The most variables, the most blocks and the most loops of a program.
pub const MOST_NUMBERED: usize = 1_000_000;

/// The most statements and expressions of a program.
pub const MOST_ENTRIES: u32 = 4_000_000;

/// What is made of a form of the syntax tree, or the first rule of names and types that it breaks.
pub type Made<T> = Result<T, TypeFault>;

/// What is known at a place of a program while it is typed.
#[derive(Drop)]
pub struct Typer {
    pub alloc: Global,
    pub(crate) scopes: Scopes,
    pub(crate) types: TypeTable,
    // The characters of the strings that constants are, by number.
    pub(crate) texts: Vec<Vec<u8>>,
    // By root number.
    pub(crate) variables: Vec<Variable>,
    // By block number.
    pub(crate) headings: Vec<PassedHeading>,
    // The block round the place.
    pub(crate) enclosing: EnclosingBlock,
    pub(crate) has_input: bool,
    pub(crate) has_output: bool,
    // By id.
    pub(crate) sites: Vec<Site>,
    // By id.
    pub(crate) points: Vec<Point>,
    // How many statements and expressions were entered.
    pub(crate) entries: u32,
    // How many loops began.
    pub(crate) loops: u32,
    // Those of the for statements round the place, by root number, the outermost first.
    pub(crate) controls: Vec<u32>,
    // The records of the with statements round the place, by slot.
    pub(crate) records: Vec<OpenRecord>,
    // Variables of blocks round others, which those may change, by root number.
    pub(crate) threatened: IndexSet<u32>,
    // Results that are assigned, by root number.
    pub(crate) assigned: IndexSet<u32>,
    // The place of the latest token that the syntax tree tells.
    pub(crate) latest: Place,
    // The name that was looked up last, in small letters. It is kept, so that the use of a name asks for no memory.
    pub(crate) key: Vec<u8>,
    ghost in_order: { AreInOrder sites.items },
    ghost few_sites: { vec_len sites ≤ MOST_SITES },
    ghost points_in_order: { ArePointsInOrder points.items },
    ghost few_points: { vec_len points ≤ MOST_SITES },
    ghost few_entries: { entries ≤ MOST_ENTRIES },
    ghost few_loops: { loops ≤ MOST_NUMBERED },
    ghost few_records: { vec_len records ≤ MOST_ENTRIES },
}

impl Model for Typer {
    ghost Value = { Passed };

    ghost view = { λ t. record {
      regions = t.scopes;
      types = t.types;
      texts = map (λ text. text.items) t.texts.items;
      variables = t.variables.items;
      headings = map headed_of t.headings.items;
      enclosing = enclosing_of t.enclosing;
      has_input = t.has_input;
      has_output = t.has_output;
      sites = map stands t.sites.items;
      points = map (λ point. point.place) t.points.items;
      entries = t.entries;
      loops = t.loops;
      controls = t.controls.items;
      records = map record_of t.records.items;
      threatened = t.threatened.keys;
      assigned = t.assigned.keys;
      latest = t.latest;
    } };
}

impl Typer {
    ghost use Rattle.typing.specs.Steps.{begins};
    ghost use Rattle.typing.specs.Sound.{IsLeft};

    /// What is known before a program, whose first token that the tree tells stands at `start`.
    pub fn new(alloc: Global, start: Place) -> Made<Typer>
        ensures { MatchResult result (λ typer. typer ≡ begins start) (λ fault. fault ≡ Memory the_refusal) }
    {
        let mut headings = Vec::new(alloc);
        headings.push(PassedHeading::nothing(alloc))?;
        Ok(Typer {
            alloc,
            scopes: Scopes::new(alloc),
            types: TypeTable::required(alloc)?,
            texts: Vec::new(alloc),
            variables: Vec::new(alloc),
            headings,
            enclosing: EnclosingBlock::of_program(alloc),
            has_input: false,
            has_output: false,
            sites: Vec::new(alloc),
            points: Vec::new(alloc),
            entries: 0,
            loops: 0,
            controls: Vec::new(alloc),
            records: Vec::new(alloc),
            threatened: IndexSet::new(alloc),
            assigned: IndexSet::new(alloc),
            latest: start,
            key: Vec::new(alloc),
        })
    }

    /// The types that are known.
    pub fn types(&self) -> &TypeTable
        ensures { result.now ≡ self.now.types }
    {
        &self.types
    }

    /// The typed tree of the program that was passed, by its blocks, the order of their statements in the text, and its
    /// table of loops.
    pub fn tree(self, blocks: Vec<Block>, bodies: Vec<u32>, loops: Vec<Loop>) -> Tree
        ensures blocks { result.blocks ≡ blocks }
        ensures bodies { result.bodies ≡ bodies }
        ensures loops { result.loops ≡ loops }
        ensures left { IsLeft self result }
    {
        Tree {
            blocks,
            bodies,
            variables: self.variables,
            sites: self.sites,
            points: self.points,
            loops,
            types: self.types,
        }
    }
}
