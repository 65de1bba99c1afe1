//! Theorems of links.

ghost use Rattle.gc_links.specs.LinksMeant.{IsMeant};

use crate::watched::Watched;

/// Whatever a station's link did: each of its acts was done by its own calls of the system, in the order of the acts and without any
/// other call between them, at the place that the link leads to.
pub fn acts_are_meant<R>(_link: &Watched<'_, R>)
    ensures { ∥ IsMeant _link.now ∥₁ }
{}
