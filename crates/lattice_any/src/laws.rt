//! What the joins mean, element by element and key by key. Each function does nothing; calling it gives its law to the
//! caller's proof.
ghost use Rattle.flow_term.specs.Elements.{elem_cmp};
ghost use Rattle.lattice_sets.specs.Maps.{IsPointwise};
ghost use Rattle.value_domains.specs.Domains.{IsValueOf, least_of, joined_of};
ghost use Rattle.value_domains.specs.Values.{intersection_of, map_join, union_of};
ghost use Rattle.lattice_any.specs.Joins.{GivesIntersections, GivesUnions};
ghost use Rattle.lattice_any.specs.Tables.{DeclaredHaveDomains};
ghost use Rattle.lattice_any.specs.Types.{domain_of_any};

use crate::any::AnyL;

/// The join of two may sets has exactly the elements of either, that of two must sets exactly the elements of both.
pub fn set_joins_are_unions_and_intersections()
    ensures may { GivesUnions union_of }
    ensures must { GivesIntersections intersection_of }
{}

/// The value of a join of two maps at a key is the join of their values there, where an absent key stands for bottom.
pub fn map_joins_are_pointwise(_values: &AnyL)
    ensures { IsPointwise elem_cmp (IsValueOf (domain_of_any _values.now)) (least_of (domain_of_any _values.now)) (joined_of (domain_of_any _values.now)) (map_join (joined_of (domain_of_any _values.now))) }
{}

/// With the tables of all declarations, the domain that `AnyL::build` makes a lattice of is the one that the type has by its
/// declarations.
pub fn declared_types_have_their_domains()
    ensures { DeclaredHaveDomains }
{}
