//! Pairs, triples and quadruples of numbers, in their order: the last number changes fastest.
ghost use Rattle.std.specs.Iterator.{IsFinite};
ghost use Rattle.lattice_tables.specs.inner.Tuples.{Gives, pairs_below, quadruples_below, triples_below};

use itertools::{Itertools, Product};
use std::ops::Range;

/// The pairs of a number below `left` and one below `right`.
pub(crate) fn pairs(left: u8, right: u8) -> Product<Range<u8>, Range<u8>>
    ensures can { ⟦<Product<Range<u8>, Range<u8>> as Iterator>⟧.can_next result }
    ensures ends { IsFinite (⟦<Product<Range<u8>, Range<u8>> as Iterator>⟧.remaining result) }
    ensures items { Gives ⟦<Product<Range<u8>, Range<u8>> as Iterator>⟧.next_gives result (pairs_below left right) }
{
    (0..left).cartesian_product(0..right)
}

/// The triples of numbers below `count`.
pub(crate) fn triples(count: u8) -> Product<Product<Range<u8>, Range<u8>>, Range<u8>>
    ensures can { ⟦<Product<Product<Range<u8>, Range<u8>>, Range<u8>> as Iterator>⟧.can_next result }
    ensures ends { IsFinite (⟦<Product<Product<Range<u8>, Range<u8>>, Range<u8>> as Iterator>⟧.remaining result) }
    ensures items { Gives ⟦<Product<Product<Range<u8>, Range<u8>>, Range<u8>> as Iterator>⟧.next_gives result (triples_below count) }
{
    pairs(count, count).cartesian_product(0..count)
}

/// Two pairs of a number below `left` and one below `right`.
pub(crate) fn quadruples(
    left: u8,
    right: u8,
) -> Product<Product<Product<Range<u8>, Range<u8>>, Range<u8>>, Range<u8>>
    ensures can { ⟦<Product<Product<Product<Range<u8>, Range<u8>>, Range<u8>>, Range<u8>> as Iterator>⟧.can_next result }
    ensures ends { IsFinite (⟦<Product<Product<Product<Range<u8>, Range<u8>>, Range<u8>>, Range<u8>> as Iterator>⟧.remaining result) }
    ensures items { Gives ⟦<Product<Product<Product<Range<u8>, Range<u8>>, Range<u8>>, Range<u8>> as Iterator>⟧.next_gives result (quadruples_below left right) }
{
    pairs(left, right)
        .cartesian_product(0..left)
        .cartesian_product(0..right)
}
