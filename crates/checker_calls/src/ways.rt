ghost use Rattle.std.specs.Prelude.{◌≡◌, length, nat_eq};
ghost use Rattle.typed_tree.specs.Accesses.{origin_of, step_of};
ghost use Rattle.checker_calls.specs.Actuals.{way_accessed};
ghost use Rattle.checker_calls.specs.View.{IsSplit, said_way};

use typed_tree::{Access, Base, PathStep, Selector};

/// What is left of the way on which an access leads from its variable (ISO 7185:1990, 6.5.3, 6.8.3.10).
#[derive(Clone, Copy)]
pub(crate) struct AccessWay<'a> {
    // To the record at which it begins, and from there.
    path: &'a [PathStep],
    selectors: &'a [Selector],
}

impl<'a> AccessWay<'a> {
    /// The whole way.
    pub(crate) fn of(access: &'a Access) -> AccessWay<'a>
        ensures { said_way result ≡ way_accessed (origin_of access.now) access.now.selectors.items }
    {
        let path = match &access.base {
            Base::Variable => &[],
            Base::Record { path, .. } => path.as_slice(),
        };
        AccessWay {
            path,
            selectors: access.selectors.as_slice(),
        }
    }

    /// Its first step and what is left behind it, if there is one.
    pub(crate) fn split_first(self) -> Option<(PathStep, AccessWay<'a>)>
        ensures { IsSplit (said_way self.entry) result }
    {
        if let Some((step, path)) = self.path.split_first() {
            let selectors = self.selectors;
            return Some((*step, AccessWay { path, selectors }));
        }
        let (selector, selectors) = self.selectors.split_first()?;
        Some((
            step_of(*selector),
            AccessWay {
                path: self.path,
                selectors,
            },
        ))
    }
}

// The step of a selector, without its index.
fn step_of(selector: Selector) -> PathStep
    ensures { result ≡ step_of selector }
{
    match selector {
        Selector::Element { .. } => PathStep::Element,
        Selector::Field { position, .. } => PathStep::Field(position),
    }
}

/// Whether a variable is accessed as a whole.
pub(crate) fn is_whole(access: &Access) -> bool
    ensures { result ≡ nat_eq (length (way_accessed (origin_of access.now) access.now.selectors.items)) 0 }
{
    AccessWay::of(access).split_first().is_none()
}
