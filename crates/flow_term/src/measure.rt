//! How large and how deep terms are.
ghost use Rattle.std.specs.Prelude.{◌≡◌, ◌<◌, ◌≤◌, ◌^◌, sum_by};
ghost use Rattle.flow_term.specs.Trees.{deepest, position_count, term_depth, term_size};

use crate::term::Term;

/// How many terms there are in a term, those inside annotations included.
#[cycle(size)]
#[tactic(auto, using(crate::proofs::Sizes::term_size_out, std::proofs::lemmas::List::Sums::sum_by_more, std::proofs::lemmas::List::Sums::sum_by_more_le))]
pub fn size(term: &Term) -> u64
    requires { term_size term.now < 2 ^ 32 }
    ensures { result ≡ term_size term.now }
{
    1 + size_of_all(term.children()) + size_of_all(term.annos.as_slice())
}

#[cycle(size)]
#[tactic(auto, using(crate::proofs::Sizes::term_size_out, std::proofs::lemmas::List::Sums::sum_by_more, std::proofs::lemmas::List::Sums::sum_by_more_le))]
fn size_of_all(terms: &[Term]) -> u64
    requires { sum_by term_size terms.now < 2 ^ 32 }
    ensures { result ≡ sum_by term_size terms.now }
{
    let mut total = 0;
    for term in terms {
        total += size(term);
    }
    total
}

/// How many positions a term has; annotations are none.
#[cycle(positions)]
#[tactic(auto, using(crate::proofs::Sizes::position_count_out, crate::proofs::Sizes::term_size_out, std::proofs::lemmas::List::Sums::sum_by_more, std::proofs::lemmas::List::Sums::sum_by_more_le))]
pub fn positions(term: &Term) -> u64
    requires { term_size term.now < 2 ^ 32 }
    ensures count { result ≡ position_count term.now }
    ensures within { result ≤ term_size term.now }
{
    1 + positions_of_all(term.children())
}

#[cycle(positions)]
#[tactic(auto, using(crate::proofs::Sizes::position_count_out, crate::proofs::Sizes::term_size_out, std::proofs::lemmas::List::Sums::sum_by_more, std::proofs::lemmas::List::Sums::sum_by_more_le))]
fn positions_of_all(terms: &[Term]) -> u64
    requires { sum_by term_size terms.now < 2 ^ 32 }
    ensures count { result ≡ sum_by position_count terms.now }
    ensures within { result ≤ sum_by term_size terms.now }
{
    let mut total = 0;
    for term in terms {
        total += positions(term);
    }
    total
}

/// How deep a term is: 1 for a leaf. Annotations count as children.
#[cycle(depth)]
#[tactic(auto, using(crate::proofs::Sizes::term_depth_out, crate::proofs::Sizes::term_size_out))]
pub fn depth(term: &Term) -> u32
    requires { term_size term.now < 2 ^ 32 }
    ensures depth { result ≡ term_depth term.now }
    ensures within { result ≤ term_size term.now }
{
    1 + greatest_depth(term.children()).max(greatest_depth(term.annos.as_slice()))
}

/// The greatest depth of some terms, or 0.
#[cycle(depth)]
#[tactic(auto, using(crate::proofs::Sizes::deepest_one_more, std::proofs::lemmas::List::Sums::sum_by_more, std::proofs::lemmas::List::Sums::sum_by_more_le))]
fn greatest_depth(terms: &[Term]) -> u32
    requires { sum_by term_size terms.now < 2 ^ 32 }
    ensures deepest { result ≡ deepest terms.now }
    ensures within { result ≤ sum_by term_size terms.now }
{
    let mut deepest = 0;
    for term in terms {
        deepest = depth(term).max(deepest);
    }
    deepest
}
