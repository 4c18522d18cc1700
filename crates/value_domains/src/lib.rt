//! The domains of a specification's types: which values each type has, the least of them, their joins and their order.
//!
//! A domain is a type with the table of each declared lattice in place of its name, so what is said of a domain needs no
//! declarations beside it.
//!
//! Definitions, and no code: each function states a law as its contract and does nothing.
#![tactic(auto)]

ghost use Rattle.value_domains.specs.Laws.{DomainsAreOrdered, DomainsHaveJoins, PlainIsLawful, PlainIsOne};

/// A domain whose tables are lawful is a lattice: bottom and the joins of its values are values of it; join is idempotent,
/// commutative and associative, and bottom is neutral.
#[tactic(auto, using(crate::proofs::Plain::have_joins))]
pub fn domains_have_joins()
    ensures { DomainsHaveJoins }
{}

/// In a domain whose tables are lawful one value is below another exactly where the join of the two is the other.
#[tactic(auto, using(crate::proofs::Plain::are_ordered))]
pub fn domains_are_ordered()
    ensures { DomainsAreOrdered }
{}

/// The tables of a type that names no declared lattice are lawful, whatever is declared: it has none.
#[tactic(auto, using(crate::proofs::Plain::plain_lawful))]
pub fn plain_domains_are_lawful()
    ensures { PlainIsLawful }
{}

/// A type that names no declared lattice has one domain, whatever is declared.
#[tactic(auto, using(crate::proofs::Plain::plain_one))]
pub fn plain_domains_are_one()
    ensures { PlainIsOne }
{}
