use crate::{Memory, number_of};
use checker_rows::Rows;
use domain::{Path, Step};
use typed_tree::{Access, Base, PathStep, Selector};
use types::{TypeForm, TypeId, TypeTable};

/// How many parts of a variable are told apart.
const MOST_PARTS: usize = 64;

/// A part of a variable, or a part of each of its elements.
#[derive(Drop)]
pub struct Part {
    path: Path,
    pub type_id: TypeId,
    // The first row under it.
    first: usize,
}

/// An array, or what is passed for one, to which no index leads, by the first row under it; or a part of each of its
/// elements.
#[derive(Clone, Copy, PartialEq, Eq, PartialOrd, Ord)]
pub struct Array {
    pub(crate) root: u32,
    pub(crate) row: usize,
    pub(crate) is_part: bool,
}

impl Array {
    /// A variable, by the first row under it, which has the number 0 here.
    pub(crate) fn of(root: u32) -> Array {
        Array {
            root,
            row: 0,
            is_part: false,
        }
    }
}

impl Part {
    /// The way to it.
    pub fn path(&self, memory: &Memory) -> Path {
        let steps = self.path.steps.iter().map(|step| step_copied(memory, step));
        Path {
            root: self.path.root,
            steps: memory.list(steps.collect(memory.alloc)),
        }
    }

    /// Whether no step leads to elements.
    pub fn is_direct(&self) -> bool {
        self.elements() == 0
    }

    /// Whether it is an array, or it or something that it lies in is this part of the elements of one.
    pub(crate) fn is_array(&self, types: &TypeTable, array: Array) -> bool {
        self.first == array.row
            && self.elements() == usize::from(array.is_part)
            && (array.is_part || types.element(self.type_id).is_some())
    }

    // How many steps lead to elements.
    fn elements(&self) -> usize {
        let steps = self.path.steps.iter();
        steps.filter(|step| matches!(step, Step::Element)).count()
    }

    // The ways to its elements or its fields.
    fn inner_paths(&self, memory: &Memory, types: &TypeTable) -> Vec<Path> {
        let mut paths = memory.none();
        match types.form(self.type_id) {
            Some(TypeForm::Array { .. }) => {
                memory.push(&mut paths, self.path_on(memory, Step::Element));
            }
            Some(TypeForm::Record { fields, .. }) => {
                for field in fields.iter().take(MOST_PARTS) {
                    let name = memory.copy(&field.name);
                    memory.push(&mut paths, self.path_on(memory, Step::Field { name }));
                }
            }
            _ => {}
        }
        paths
    }

    fn path_on(&self, memory: &Memory, step: Step) -> Path {
        let mut path = self.path(memory);
        memory.push(&mut path.steps, step);
        path
    }
}

fn step_copied(memory: &Memory, step: &Step) -> Step {
    match step {
        Step::Element => Step::Element,
        Step::Field { name } => Step::Field {
            name: memory.copy(name),
        },
    }
}

/// The parts of each variable, by its root number: first itself, and the parts of each behind it.
pub(crate) fn all_parts(memory: &Memory, rows: &Rows) -> Vec<Vec<Part>> {
    let mut all = memory.none();
    for root in 0..rows.variables() {
        let mut parts = memory.none();
        let path = Path {
            root: number_of(root),
            steps: memory.none(),
        };
        add_part(memory, rows, &mut parts, path);
        for place in 0..MOST_PARTS {
            let Some(part) = parts.get(place) else {
                break;
            };
            for path in part.inner_paths(memory, &rows.tree().types) {
                add_part(memory, rows, &mut parts, path);
            }
        }
        memory.push(&mut all, parts);
    }
    all
}

// Adds what a path leads to, if that is there.
fn add_part(memory: &Memory, rows: &Rows, parts: &mut Vec<Part>, path: Path) {
    if parts.len() < MOST_PARTS
        && let Some(named) = rows.named(&path)
    {
        let (type_id, first) = (named.type_id, named.rows.first);
        let part = Part {
            path,
            type_id,
            first,
        };
        memory.push(parts, part);
    }
}

/// What is accessed by fields and by indexes behind them, without these indexes, or a part of an element, to which one
/// index leads, with an index behind it perhaps; and how many indexes there are. `None` where the access is another
/// one.
pub(crate) fn array_accessed(rows: &Rows, access: &Access) -> Option<(Array, usize)> {
    let selectors = &access.selectors;
    let indexes = selectors
        .iter()
        .filter(|selector| is_index(*selector))
        .count();
    let are_last = selectors.iter().rev().take(indexes).all(is_index);
    let is_told = match &access.base {
        Base::Variable => {
            are_last || indexes == 1 || indexes == 2 && selectors.last().is_some_and(is_index)
        }
        Base::Record { path, .. } => {
            are_last && path.iter().all(|step| matches!(step, PathStep::Field(_)))
        }
    };
    let array = Array {
        root: access.root,
        row: rows.accessed(access).first,
        is_part: !are_last,
    };
    is_told.then_some((array, indexes))
}

fn is_index(selector: &Selector) -> bool {
    matches!(selector, Selector::Element { .. })
}
