//! Heights of a specification's types: how often a value can rise strictly, where it is made of given elements of each sort.
//!
//! A worklist solver ends because each visit that changes something raises a value, and no value rises more often than its
//! lattice is high. Many types have no height: a set may have any string. But what is made of the elements of one program has
//! one, which the number of visits is bounded by.
//!
//! Definitions, and no code: each function states a law as its contract and does nothing.
#![tactic(auto)]

ghost use Rattle.value_heights.specs.Laws.{DomainsAreLattices, DomainsAreRanked, HeightsAreMonotone, OrdersAreTold, ValuesAreTold};

/// A test tells which values a domain has, where its tables are lawful.
#[tactic(auto, using(crate::proofs::Told::values_told))]
pub fn values_are_told()
    ensures { ValuesAreTold }
{}

/// A test tells of two values of such a domain whether the first is below the second.
#[tactic(auto, using(crate::proofs::Told::orders_told))]
pub fn orders_are_told()
    ensures { OrdersAreTold }
{}

/// By these tests such a domain is a lattice: bottom and joins pass, join is idempotent, commutative and associative, bottom
/// is neutral, and one value is below another exactly where their join is the other.
pub fn domains_are_lattices()
    ensures { DomainsAreLattices }
{}

/// The same on the values that are made of given elements of each sort. There each value has a rank, which is at most the
/// height of the domain, and which rises strictly with the value.
pub fn domains_are_ranked()
    ensures { DomainsAreRanked }
{}

/// With no fewer elements of any sort no height is less.
#[tactic(auto, using(crate::proofs::Fitting::are_monotone))]
pub fn heights_are_monotone()
    ensures { HeightsAreMonotone }
{}
