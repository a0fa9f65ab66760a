//! The domains of the checker's abstract values, the facts that it may know, and the versions of certificates.
//!
//! `Domain` has the four operations that the checker's soundness stands on, with their laws; `Interval` is a
//! domain, with the arithmetic of ranges, `Hull` is one, with the operators of sets, and `Growth` is one, with the
//! steps and turns of a loop.
#![tactic(auto)]

ghost use Rattle.std.specs.Prelude.{◌≡◌, Bool, true, false};

pub mod facts;
pub mod growth;
pub mod hull;
pub mod interval;
pub mod versions;

pub use facts::{Bound, Path, Span, Spans, Step};
pub use growth::Growth;
pub use hull::Hull;
pub use interval::Interval;
pub(crate) use interval::LIMIT;
pub use versions::{Extension, Version};

/// A set of abstract values, each of which stands for the concrete values that are its members.
///
/// The members are known to contracts alone.
pub trait Domain: Sized {
    /// The concrete values.
    ghost Member: { Type 0 };

    /// That a concrete value is a member.
    ghost has: { Self → Member → Type 0 };

    /// What `leq`, `join`, `meet` and `is_empty` answer.
    ghost below: { Self → Self → Bool };

    ghost joined: { Self → Self → Self };

    ghost common: { Self → Self → Self };

    ghost vacant: { Self → Bool };

    /// Whether all members of `self` are members of `other`; `false` may also mean that it can't be told.
    fn leq(&self, other: &Self) -> bool
        ensures { result ≡ below self.now other.now };

    /// A value that has the members of both.
    fn join(&self, other: &Self) -> Self
        ensures { result ≡ joined self.now other.now };

    /// A value that has the members that both have; it may have more.
    fn meet(&self, other: &Self) -> Self
        ensures { result ≡ common self.now other.now };

    /// Whether `self` has no member; `false` may also mean that it can't be told.
    fn is_empty(&self) -> bool
        ensures { result ≡ vacant self.now };

    ghost leq_includes: { (a b : Self) (m : Member) → below a b ≡ true → has a m → has b m };

    ghost join_has_left: { (a b : Self) (m : Member) → has a m → has (joined a b) m };

    ghost join_has_right: { (a b : Self) (m : Member) → has b m → has (joined a b) m };

    ghost meet_has_common: { (a b : Self) (m : Member) → has a m → has b m → has (common a b) m };

    ghost has_present: { (a : Self) (m : Member) → has a m → vacant a ≡ false };
}
