ghost use Rattle.std.specs.Prelude.{◌≡◌, ◌<◌, ◌^◌, ◌++◌, [], IfOk, OnOk, Some, length, map, slice_get, slice_index_or};
ghost use Rattle.std.specs.Option.{option_map};
ghost use Rattle.types.specs.Types.{is_structured};
ghost use Rattle.typed_tree.specs.declared.tree.Tree.{Tree};
ghost use Rattle.typed_tree.specs.Accesses.{origin_of, steps_of};
ghost use Rattle.domain.specs.Facts.{said_path};
ghost use Rattle.checker_rows.specs.Leaves.{Elements, FieldAt};
ghost use Rattle.checker_rows.specs.Limits.{row_limits};
ghost use Rattle.checker_rows.specs.Rows.{holds_sets, index_at, inner_at, is_ordinal_variable, is_structured_variable};
ghost use Rattle.checker_rows.specs.Rows.{leaf_step, part_named, path_step, rows_accessed, rows_of, rows_under};
ghost use Rattle.checker_rows.specs.Rows.{type_at, values_at};
ghost use Rattle.checker_rows.specs.View.{AreKept, IsAnswerOf, end_of, first_under, next_part, numbers, own_ranges};
ghost use Rattle.checker_rows.specs.View.{part_along, part_rows, variable_part, variable_ranges};

use crate::leaf::{Descent, RowRanges, add_leaves, leaf_counts, own_type};
use crate::part::{Part, field_part, part_count};
use crate::{Span, limits_or_integer};
use domain::{Interval, Path, Step};
use std::alloc::{AllocError, Global};
use std::marker::Model;
use typed_tree::{Access, Base, PathStep, Selector, Tree, Variable};
use types::{OrdinalRange, TypeForm, TypeId, TypeTable};

/// The rows of a program by number: its variables, and behind them the leaves of those that are structured.
#[derive(Drop)]
pub struct Rows<'a> {
    tree: &'a Tree,
    // How many leaves each type has, or the greatest number where there are more.
    counts: Vec<usize>,
    // The first row under each variable: its own, or that of its first leaf.
    firsts: Vec<usize>,
    rows: Vec<RowRanges>,
}

impl<'a> Model for Rows<'a> {
    ghost use Rattle.std.specs.Coded.{codes};
    ghost use Rattle.typed_tree.specs.contracts.tree.Stmt as stmt;
    ghost use Rattle.typed_tree.specs.declared.tree.Tree.{Tree};
    ghost use Rattle.checker_rows.specs.View.{AreKept};

    ghost Value = { Tree };

    ghost coded = { Prim.hlevel (codes, stmt.the_row.coded) };

    ghost view = { λ rows. rows.tree.now };

    ghost invariant = { λ rows. AreKept rows.tree.now rows.counts.items rows.firsts.items rows.rows.items };
}

/// What a path of a certificate names.
#[derive(Clone, Copy)]
pub struct NamedPart {
    pub type_id: TypeId,
    /// The rows that lie in it.
    pub rows: Span,
}

impl<'a> Rows<'a> {
    /// The rows of a program.
    ///
    /// # Errors
    /// No memory.
    pub fn of(alloc: Global, tree: &'a Tree) -> Result<Rows<'a>, AllocError>
        ensures { IfOk result (λ rows. rows ≡ tree.now) }
    {
        let counts = leaf_counts(alloc, &tree.types)?;
        let mut rows = own_rows(alloc, &tree.types, &tree.variables)?;
        let mut firsts = Vec::new(alloc);
        for (root, variable) in tree.variables.iter().enumerate() {
            let first = add_variable(&tree.types, root, variable, &mut rows)?;
            firsts.push(first)?;
        }
        Ok(Rows {
            tree,
            counts,
            firsts,
            rows,
        })
    }

    /// The program.
    pub fn tree(&self) -> &'a Tree
        ensures { result.now ≡ self.now }
    {
        self.tree
    }

    /// How many variables there are.
    pub fn variables(&self) -> usize
        ensures { result ≡ length self.now.variables.items }
    {
        self.tree.variables.len()
    }

    /// How many rows there are.
    pub fn count(&self) -> usize
        ensures { result ≡ length (rows_of self.now) }
    {
        self.rows.len()
    }

    /// The type of the components of a row, if that is there.
    pub fn type_id(&self, row: usize) -> Option<TypeId>
        ensures { result ≡ type_at (rows_of self.now) row }
    {
        self.rows.get(row)?.type_id
    }

    /// The values of the components of a row, or those that the members of these may have.
    pub fn values(&self, row: usize) -> Option<OrdinalRange>
        ensures { result ≡ values_at (rows_of self.now) row }
    {
        self.rows.get(row)?.values
    }

    /// The values of the first index on the way to the components of a row, if there is one.
    pub fn index(&self, row: usize) -> Option<OrdinalRange>
        ensures { result ≡ index_at (rows_of self.now) row }
    {
        self.rows.get(row)?.index
    }

    /// Those of the second, if there is one.
    pub fn inner(&self, row: usize) -> Option<OrdinalRange>
        ensures { result ≡ inner_at (rows_of self.now) row }
    {
        self.rows.get(row)?.inner
    }

    /// The values of the type of a row's components, or those of the members of its sets.
    pub fn row_limits(&self, row: usize) -> Interval
        ensures { result ≡ row_limits (rows_of self.now) row }
    {
        limits_or_integer(self.values(row))
    }

    /// Whether the components of a row are sets (6.4.3.4).
    pub fn holds_sets(&self, row: usize) -> bool
        ensures { result ≡ holds_sets self.now row }
    {
        match self.type_id(row) {
            None => false,
            Some(id) => self.tree.types.set_base(id).is_some(),
        }
    }

    /// The rows under what is accessed, its indexes aside.
    pub fn accessed(&self, access: &Access) -> Span
        ensures { numbers result ≡ rows_accessed self.now (origin_of access.now) access.now.selectors.items }
    {
        let mut part = self.begun(access);
        for selector in &access.selectors {
            part = self.selected(part, selector);
        }
        self.span(part)
    }

    /// The rows of a variable: its leaves, if it is structured, and else its own row.
    pub fn of_variable(&self, root: u32) -> Span
        ensures { numbers result ≡ rows_under self.now root [] }
    {
        self.span(Some(self.variable(root)))
    }

    /// What a path of a certificate names, if it is there.
    pub fn named(&self, path: &Path) -> Option<NamedPart>
        ensures { IsAnswerOf self.now path.now.root (part_named self.now (said_path path.now)) result }
    {
        let types = &self.tree.types;
        let mut type_id = variable_at(&self.tree.variables, path.root)?.type_id;
        let mut part = Some(self.variable(path.root));
        for step in &path.steps {
            match step {
                Step::Element => {
                    type_id = types.element(type_id)?.type_id;
                    part = self.elements(part);
                }
                Step::Field { name } => {
                    let field = types.field(type_id, name)?;
                    type_id = field.type_id;
                    part = self.field(part, field.position);
                }
            }
        }
        Some(NamedPart {
            type_id,
            rows: self.span(part),
        })
    }

    /// Whether a type is an array or a record (6.4.3).
    pub fn is_structured(&self, id: TypeId) -> bool
        ensures { result ≡ is_structured self.now.types id }
    {
        self.tree.types.is_structured(id)
    }

    /// Whether a variable is an ordinal.
    pub fn is_ordinal_variable(&self, root: u32) -> bool
        ensures { result ≡ is_ordinal_variable self.now root }
    {
        match variable_at(&self.tree.variables, root) {
            None => false,
            Some(variable) => self.tree.types.is_ordinal(variable.type_id),
        }
    }

    /// Whether a variable is an array or a record.
    pub fn is_structured_variable(&self, root: u32) -> bool
        ensures { result ≡ is_structured_variable self.now root }
    {
        match variable_at(&self.tree.variables, root) {
            None => false,
            Some(variable) => self.tree.types.is_structured(variable.type_id),
        }
    }
}

impl<'a> Rows<'a> {
    // A variable as a whole; one that isn't there has a row of its own number.
    fn variable(&self, root: u32) -> Part
        ensures part { result ≡ variable_part self.now root }
        ensures fits { end_of self.now.types (Some result) < 2 ^ 64 }
    {
        Part {
            first: first_at(&self.firsts, root),
            type_id: type_of(&self.tree.variables, root),
        }
    }

    // Where an access begins: at its variable, or at a record in it.
    fn begun(&self, access: &Access) -> Option<Part>
        ensures part { result ≡ part_along self.now.types (map path_step (steps_of (origin_of access.now)))
            (Some (variable_part self.now access.now.root)) }
        ensures fits { end_of self.now.types result < 2 ^ 64 }
    {
        let variable = Some(self.variable(access.root));
        match &access.base {
            Base::Variable => variable,
            Base::Record { path, .. } => self.along(variable, path),
        }
    }

    // What lies on a way in a part.
    fn along(&self, whole: Option<Part>, path: &[PathStep]) -> Option<Part>
        requires { end_of self.now.types whole < 2 ^ 64 }
        ensures part { result ≡ part_along self.now.types (map path_step path.now) whole }
        ensures fits { end_of self.now.types result < 2 ^ 64 }
    {
        let mut part = whole;
        for step in path {
            part = self.stepped(part, *step);
        }
        part
    }

    // Where a step leads.
    fn stepped(&self, part: Option<Part>, step: PathStep) -> Option<Part>
        requires { end_of self.now.types part < 2 ^ 64 }
        ensures part { result ≡ next_part self.now.types part (path_step step) }
        ensures fits { end_of self.now.types result < 2 ^ 64 }
    {
        match step {
            PathStep::Element => self.elements(part),
            PathStep::Field(position) => self.field(part, position),
        }
    }

    // What a selector selects.
    fn selected(&self, part: Option<Part>, selector: &Selector) -> Option<Part>
        requires { end_of self.now.types part < 2 ^ 64 }
        ensures part { result ≡ next_part self.now.types part (leaf_step selector.now) }
        ensures fits { end_of self.now.types result < 2 ^ 64 }
    {
        match selector {
            Selector::Element { .. } => self.elements(part),
            Selector::Field { position, .. } => self.field(part, *position),
        }
    }

    // The elements of an array.
    #[tactic(auto, using(crate::proofs::Counted::array_counted))]
    fn elements(&self, part: Option<Part>) -> Option<Part>
        requires { end_of self.now.types part < 2 ^ 64 }
        ensures part { result ≡ next_part self.now.types part Elements }
        ensures fits { end_of self.now.types result < 2 ^ 64 }
    {
        let part = part?;
        let id = part.type_id?;
        match self.tree.types.form(id)? {
            TypeForm::Array { element, .. } => Some(Part {
                first: part.first,
                type_id: own_type(id, *element),
            }),
            _ => None,
        }
    }

    // The field at a place from 0 in its record.
    fn field(&self, part: Option<Part>, position: usize) -> Option<Part>
        requires { end_of self.now.types part < 2 ^ 64 }
        ensures part { result ≡ next_part self.now.types part (FieldAt position) }
        ensures fits { end_of self.now.types result < 2 ^ 64 }
    {
        let part = part?;
        let id = part.type_id?;
        match self.tree.types.form(id)? {
            TypeForm::Record { fields, .. } => {
                field_part(&self.counts, id, part.first, fields, position)
            }
            _ => None,
        }
    }

    // The rows of a part.
    fn span(&self, part: Option<Part>) -> Span
        requires { end_of self.now.types part < 2 ^ 64 }
        ensures { numbers result ≡ part_rows self.now.types part }
    {
        match part {
            None => Span::none(),
            Some(part) => Span {
                first: part.first,
                count: part_count(&self.counts, part.type_id),
            },
        }
    }
}

// The variable of a number.
fn variable_at(variables: &[Variable], root: u32) -> Option<Variable>
    ensures { result ≡ slice_get variables.now root }
{
    variables.get(root as usize).copied()
}

// Its type.
fn type_of(variables: &[Variable], root: u32) -> Option<TypeId>
    ensures { result ≡ option_map (λ variable. variable.type_id) (slice_get variables.now root) }
{
    Some(variable_at(variables, root)?.type_id)
}

// The first row under the variable of a number, by those of all; that number, if no such variable is there.
fn first_at(firsts: &[usize], root: u32) -> usize
    ensures { result ≡ slice_index_or firsts.now root root }
{
    match firsts.get(root as usize) {
        None => root as usize,
        Some(first) => *first,
    }
}

// The rows of variables as wholes.
fn own_rows(
    alloc: Global,
    types: &TypeTable,
    variables: &[Variable],
) -> Result<Vec<RowRanges>, AllocError>
    ensures { IfOk result (λ rows. rows.items ≡ map (own_ranges types.now) variables.now) }
{
    let mut rows = Vec::with_capacity(alloc, variables.len())?;
    for variable in variables {
        rows.push(own_ranges(types, *variable))?;
    }
    Ok(rows)
}

// The row of a variable as a whole.
fn own_ranges(types: &TypeTable, variable: Variable) -> RowRanges
    ensures { result ≡ own_ranges types.now variable }
{
    RowRanges {
        type_id: Some(variable.type_id),
        values: types.scalar_range(variable.type_id),
        index: None,
        inner: None,
    }
}

// Puts the leaves of a variable behind rows, if it is structured, and tells the first row under it.
fn add_variable(
    types: &TypeTable,
    root: usize,
    variable: &Variable,
    rows: &mut Vec<RowRanges>,
) -> Result<usize, AllocError>
    ensures first { IfOk result (λ first. first ≡ first_under types.now root (length rows.old.items) variable.now) }
    ensures added { OnOk result (rows.new.items ≡ rows.old.items ++ variable_ranges types.now variable.now) }
{
    if !types.is_structured(variable.type_id) {
        return Ok(root);
    }
    let first = rows.len();
    add_leaves(types, Some(variable.type_id), Descent::Direct, rows)?;
    Ok(first)
}
