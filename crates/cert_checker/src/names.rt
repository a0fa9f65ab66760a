//! What a certificate may name of a program (ISO 7185:1990, 6.2.2): its blocks, its loops, and the variables that are
//! visible where something is claimed of them.
ghost use Rattle.std.specs.Prelude.{◌≡◌, Some, if◌then◌else◌, nat_eq, slice_get};
ghost use Rattle.std.specs.List.{list_all};
ghost use Rattle.types.specs.Types.{is_scalar};
ghost use Rattle.checker_calls.specs.Names.{block_is_known, bound_is_known, bound_roots, claims_are_known};
ghost use Rattle.checker_calls.specs.Names.{counts_beside, is_integer_variable, is_other, loop_fact_is_known};
ghost use Rattle.checker_calls.specs.Names.{exit_is_known, fact_is_known, fact_is_on, fact_roots, has_boxes};
ghost use Rattle.checker_calls.specs.Names.{has_indexes, inner_spans};
ghost use Rattle.checker_calls.specs.Names.{has_parameter, is_array, is_known, is_matrix, is_of_loops, is_own_result};
ghost use Rattle.checker_calls.specs.Names.{is_round_about, names, pair_is_known, section_is_known, span_is_known};
ghost use Rattle.checker_calls.specs.Names.{span_roots, spans_are_known, spans_roots, stands_in};
ghost use Rattle.cert_checker.specs.NamesView.{may_name};

use certificate::{AliasPair, Certificate, Fact, LoopClaims, Section};
use checker_calls::{is_outward, is_result, is_value_parameter, is_variable_parameter, is_visible};
use checker_rows::Rows;
use domain::{Bound, Path, Span, Spans, Step};
use typed_tree::Tree;
use types::{TypeForm, TypeId, TypeTable};

/// Whether a certificate names blocks, loops, and variables and parts of them alone that are there, each loop under its
/// block, and each variable where it is visible.
pub fn is_known(rows: &Rows, certificate: &Certificate) -> bool
    ensures { result ≡ is_known rows.now certificate.now }
{
    certificate
        .sections
        .iter()
        .all(|section| section_is_known(rows, section))
}

fn section_is_known(rows: &Rows, section: &Section) -> bool
    ensures { result ≡ section_is_known rows.now section.now }
{
    (section.block as usize) < rows.tree().blocks.len()
        && claims_itself_known(rows, section)
        && loops_are_known(rows, section.block, &section.loops)
}

/// Whether a section claims of its block itself what it may.
fn claims_itself_known(rows: &Rows, section: &Section) -> bool
    ensures { result ≡ (if nat_eq section.now.block 0 then is_of_loops section.now
        else block_is_known rows.now section.now) }
{
    if section.block == 0 {
        is_of_loops(section)
    } else {
        block_is_known(rows, section)
    }
}

/// Whether a section claims nothing of its block itself.
fn is_of_loops(section: &Section) -> bool
    ensures { result ≡ is_of_loops section.now }
{
    section.aliases.is_empty()
        && section.changes.is_empty()
        && section.entry.is_empty()
        && section.exit.is_empty()
}

// ---- blocks

/// Whether what is claimed of a block itself names pairs and variables that it may.
fn block_is_known(rows: &Rows, section: &Section) -> bool
    ensures { result ≡ block_is_known rows.now section.now }
{
    let block = section.block;
    pairs_are_known(rows.tree(), block, &section.aliases)
        && all_named(rows.tree(), block, Nameable::Outward, &section.changes)
        && facts_are_on(rows, block, Nameable::Outward, &section.entry)
        && exits_are_known(rows, section, &section.exit)
}

fn pairs_are_known(tree: &Tree, block: u32, pairs: &[AliasPair]) -> bool
    ensures { result ≡ list_all (pair_is_known tree.now block) pairs.now }
{
    pairs.iter().all(|pair| pair_is_known(tree, block, *pair))
}

fn pair_is_known(tree: &Tree, block: u32, pair: AliasPair) -> bool
    ensures { result ≡ pair_is_known tree.now block pair }
{
    has_parameter(tree, block, pair.first, pair.second)
        || has_parameter(tree, block, pair.second, pair.first)
}

/// Whether a variable is a variable parameter of a block, and another is one too or stands round the block.
fn has_parameter(tree: &Tree, block: u32, root: u32, other: u32) -> bool
    ensures { result ≡ has_parameter tree.now block root other }
{
    is_variable_parameter(tree, block, root)
        && (is_variable_parameter(tree, block, other) || is_round_about(tree, block, other))
}

/// Whether a variable is visible in a block, and not declared by it.
fn is_round_about(tree: &Tree, block: u32, root: u32) -> bool
    ensures { result ≡ is_round_about tree.now block root }
{
    is_outward(tree, block, root)
        && !(is_value_parameter(tree, block, root) || is_variable_parameter(tree, block, root))
}

fn exits_are_known(rows: &Rows, section: &Section, facts: &[Fact]) -> bool
    ensures { result ≡ list_all (exit_is_known rows.now section.now) facts.now }
{
    facts.iter().all(|fact| exit_is_known(rows, section, fact))
}

/// Whether an exit fact is on the block's result, or on variables that the caller may know there.
fn exit_is_known(rows: &Rows, section: &Section, fact: &Fact) -> bool
    ensures { result ≡ exit_is_known rows.now section.now fact.now }
{
    let lasting = Nameable::Lasting(&section.changes);
    (fact_is_known(rows, fact) && is_own_result(rows.tree(), section.block, fact))
        || fact_is_on(rows, section.block, lasting, fact)
}

fn is_own_result(tree: &Tree, block: u32, fact: &Fact) -> bool
    ensures { result ≡ is_own_result tree.now block fact.now }
{
    match fact {
        Fact::Range { path, .. } => is_result(tree, block, path.root),
        Fact::Defined { path, spans } => match spans {
            Spans::None => is_result(tree, block, path.root),
            Spans::One(_) | Spans::Two(_, _) => false,
        },
        Fact::Order { .. } | Fact::Grows { .. } => false,
    }
}

// ---- loops

fn loops_are_known(rows: &Rows, block: u32, loops: &[LoopClaims]) -> bool
    ensures { result ≡ list_all (claims_are_known rows.now block) loops.now }
{
    loops
        .iter()
        .all(|claims| claims_are_known(rows, block, claims))
}

fn claims_are_known(rows: &Rows, block: u32, claims: &LoopClaims) -> bool
    ensures { result ≡ claims_are_known rows.now block claims.now }
{
    stands_in(rows.tree(), block, claims.number)
        && all_named(rows.tree(), block, Nameable::Visible, &claims.changes)
        && loop_facts_are_known(rows, block, claims.number, &claims.facts)
}

fn loop_facts_are_known(rows: &Rows, block: u32, number: u32, facts: &[Fact]) -> bool
    ensures { result ≡ list_all (loop_fact_is_known rows.now block (slice_get rows.now.loops.items number)) facts.now }
{
    facts
        .iter()
        .all(|fact| loop_fact_is_known(rows, block, number, fact))
}

/// Whether a fact of a loop names parts that are there, of variables that are visible, and whether a growth is one of a
/// for statement, of another integer variable than that counts by.
fn loop_fact_is_known(rows: &Rows, block: u32, number: u32, fact: &Fact) -> bool
    ensures { result ≡ loop_fact_is_known rows.now block (slice_get rows.now.loops.items number) fact.now }
{
    match fact {
        Fact::Grows { root, .. } => {
            is_visible(rows.tree(), block, *root)
                && is_integer_variable(rows.tree(), *root)
                && counts_beside(rows.tree(), number, *root)
        }
        Fact::Range { .. } | Fact::Defined { .. } | Fact::Order { .. } => {
            fact_is_on(rows, block, Nameable::Visible, fact)
        }
    }
}

/// Whether a variable is there, and of type integer or a subrange of it (6.4.2.2, 6.4.2.4).
fn is_integer_variable(tree: &Tree, root: u32) -> bool
    ensures { result ≡ is_integer_variable tree.now root }
{
    match tree.variables.get(root as usize) {
        None => false,
        Some(variable) => tree.types.host(variable.type_id).same(TypeTable::INTEGER),
    }
}

/// Whether a loop is a for statement, and a variable isn't its control variable (6.8.3.9).
fn counts_beside(tree: &Tree, number: u32, root: u32) -> bool
    ensures { result ≡ counts_beside root (slice_get tree.now.loops.items number) }
{
    match tree.loops.get(number as usize) {
        None => false,
        Some(one) => is_other(root, one.control),
    }
}

fn is_other(root: u32, control: Option<u32>) -> bool
    ensures { result ≡ is_other root control }
{
    match control {
        None => false,
        Some(control) => root != control,
    }
}

/// Whether a loop is there, and stands in a block.
fn stands_in(tree: &Tree, block: u32, number: u32) -> bool
    ensures { result ≡ stands_in block
        (slice_get tree.now.loops.items number) }
{
    match tree.loops.get(number as usize) {
        None => false,
        Some(one) => one.block == block,
    }
}

// ---- variables

/// The variables that a claim on a block may name.
#[derive(Clone, Copy)]
pub enum Nameable<'a> {
    /// Those that are visible in the block.
    Visible,
    /// Of these the ones that the caller may know.
    Outward,
    /// Of these the ones that keep what was passed, where the block changes these.
    Lasting(&'a [u32]),
}

fn may_name(tree: &Tree, block: u32, nameable: Nameable, root: u32) -> bool
    ensures { result ≡ may_name tree.now block nameable.entry root }
{
    match nameable {
        Nameable::Visible => is_visible(tree, block, root),
        Nameable::Outward => is_outward(tree, block, root),
        Nameable::Lasting(changes) => {
            is_outward(tree, block, root)
                && !(is_value_parameter(tree, block, root) && changes.contains(&root))
        }
    }
}

fn all_named(tree: &Tree, block: u32, nameable: Nameable, roots: &[u32]) -> bool
    ensures { result ≡ list_all (may_name tree.now block nameable.entry) roots.now }
{
    roots
        .iter()
        .all(|root| may_name(tree, block, nameable, *root))
}

// ---- facts

fn facts_are_on(rows: &Rows, block: u32, nameable: Nameable, facts: &[Fact]) -> bool
    ensures { result ≡ list_all (fact_is_on rows.now (may_name rows.now block nameable.entry)) facts.now }
{
    facts
        .iter()
        .all(|fact| fact_is_on(rows, block, nameable, fact))
}

/// Whether a fact names parts that are there, of variables that it may name.
fn fact_is_on(rows: &Rows, block: u32, nameable: Nameable, fact: &Fact) -> bool
    ensures { result ≡ fact_is_on rows.now (may_name rows.now block nameable.entry) fact.now }
{
    fact_is_known(rows, fact) && fact_names(rows.tree(), block, nameable, fact)
}

/// Whether each variable that a fact names is one that it may name.
fn fact_names(tree: &Tree, block: u32, nameable: Nameable, fact: &Fact) -> bool
    ensures { result ≡ list_all (may_name tree.now block nameable.entry) (fact_roots fact.now) }
{
    match fact {
        Fact::Range { path, .. } => may_name(tree, block, nameable, path.root),
        Fact::Defined { path, spans } => {
            may_name(tree, block, nameable, path.root) && spans_name(tree, block, nameable, *spans)
        }
        Fact::Order { root, other, .. } => {
            may_name(tree, block, nameable, *root) && may_name(tree, block, nameable, *other)
        }
        Fact::Grows { root, .. } => may_name(tree, block, nameable, *root),
    }
}

fn spans_name(tree: &Tree, block: u32, nameable: Nameable, spans: Spans) -> bool
    ensures { result ≡ list_all (may_name tree.now block nameable.entry) (spans_roots spans) }
{
    match spans {
        Spans::None => true,
        Spans::One(span) => span_names(tree, block, nameable, span),
        Spans::Two(span, inner) => {
            span_names(tree, block, nameable, span) && span_names(tree, block, nameable, inner)
        }
    }
}

fn span_names(tree: &Tree, block: u32, nameable: Nameable, span: Span) -> bool
    ensures { result ≡ list_all (may_name tree.now block nameable.entry) (span_roots span) }
{
    bound_names(tree, block, nameable, span.first) && bound_names(tree, block, nameable, span.last)
}

fn bound_names(tree: &Tree, block: u32, nameable: Nameable, bound: Bound) -> bool
    ensures { result ≡ list_all (may_name tree.now block nameable.entry) (bound_roots bound) }
{
    match bound {
        Bound::Number(_) => true,
        Bound::Plus { root, .. } => may_name(tree, block, nameable, root),
    }
}

/// Whether a fact of a block names parts that are there; a growth is none of a block.
fn fact_is_known(rows: &Rows, fact: &Fact) -> bool
    ensures { result ≡ fact_is_known rows.now fact.now }
{
    match fact {
        Fact::Range { path, .. } => names_scalars(rows, path),
        Fact::Defined { path, spans } => {
            names_elements(rows, path, *spans) && spans_are_known(rows, *spans)
        }
        Fact::Order { root, other, .. } => {
            rows.is_ordinal_variable(*root) && rows.is_ordinal_variable(*other)
        }
        Fact::Grows { .. } => false,
    }
}

/// Whether a path names a part of an ordinal or a set type.
fn names_scalars(rows: &Rows, path: &Path) -> bool
    ensures { result ≡ names rows.now (is_scalar rows.now.types) path.now }
{
    match rows.named(path) {
        None => false,
        Some(part) => rows.tree().types.is_scalar(part.type_id),
    }
}

/// Whether it names a part with elements that have an index for each span that steps to elements leave.
fn names_elements(rows: &Rows, path: &Path, spans: Spans) -> bool
    ensures { result ≡ names rows.now (has_boxes rows.now.types path.now.steps.items (Some spans)) path.now }
{
    match rows.named(path) {
        None => false,
        Some(part) => has_boxes(&rows.tree().types, &path.steps, spans, part.type_id),
    }
}

/// Whether a part behind steps has elements with an index for each span: a step to elements takes the first.
fn has_boxes(types: &TypeTable, steps: &[Step], spans: Spans, id: TypeId) -> bool
    ensures { result ≡ has_boxes types.now steps.now (Some spans) id }
{
    let mut left = spans;
    for step in steps {
        if let Step::Element = step {
            match inner_spans(left) {
                None => return false,
                Some(inner) => left = inner,
            }
        }
    }
    has_indexes(types, left, id)
}

/// The spans behind the first.
fn inner_spans(spans: Spans) -> Option<Spans>
    ensures { result ≡ inner_spans spans }
{
    match spans {
        Spans::None => None,
        Spans::One(_) => Some(Spans::None),
        Spans::Two(_, inner) => Some(Spans::One(inner)),
    }
}

fn has_indexes(types: &TypeTable, spans: Spans, id: TypeId) -> bool
    ensures { result ≡ has_indexes types.now spans id }
{
    match spans {
        Spans::None => true,
        Spans::One(_) => is_array(types, id),
        Spans::Two(_, _) => is_matrix(types, id),
    }
}

/// Whether the elements of a type are arrays.
fn is_matrix(types: &TypeTable, id: TypeId) -> bool
    ensures { result ≡ is_matrix types.now id }
{
    match types.form(id) {
        Some(TypeForm::Array { element, .. }) => is_array(types, *element),
        _ => false,
    }
}

fn is_array(types: &TypeTable, id: TypeId) -> bool
    ensures { result ≡ is_array types.now id }
{
    match types.form(id) {
        Some(TypeForm::Array { .. }) => true,
        _ => false,
    }
}

fn spans_are_known(rows: &Rows, spans: Spans) -> bool
    ensures { result ≡ spans_are_known rows.now spans }
{
    match spans {
        Spans::None => true,
        Spans::One(span) => span_is_known(rows, span),
        Spans::Two(span, inner) => span_is_known(rows, span) && span_is_known(rows, inner),
    }
}

fn span_is_known(rows: &Rows, span: Span) -> bool
    ensures { result ≡ span_is_known rows.now span }
{
    bound_is_known(rows, span.first) && bound_is_known(rows, span.last)
}

/// Whether the variable of a bound, if it has one, is there and of an ordinal type.
fn bound_is_known(rows: &Rows, bound: Bound) -> bool
    ensures { result ≡ bound_is_known rows.now bound }
{
    match bound {
        Bound::Number(_) => true,
        Bound::Plus { root, .. } => rows.is_ordinal_variable(root),
    }
}
