//! Edges between numbered nodes, linked into the list of their source and the list of their target.
ghost use Rattle.std.specs.Prelude.{◌≡◌, ◌<◌, ◌≤◌, ◌++◌, ◌∷◌, ◌+◌, [], ℕ, map, filter, max, length, true, false, not, nat_eq, OnOk, OnErr};
ghost use Rattle.std.specs.Iterator.{YieldsFirst, item_count};
ghost use Rattle.list_theory.specs.Lists.{distinct, has};
ghost use Rattle.linked_lists.specs.Chains.{list_in};
ghost use Rattle.index_lists.specs.Records.{entry_of, numbers, without_number};
ghost use Rattle.index_lists.specs.Edges.{AreEdges, as_triple, avoids, leaves, reaches, spare_of};

use crate::records::PairRecords;
use linked_lists::{ChainIter, Chains};
use std::alloc::{AllocError, Global};
use std::marker::Model;

/// Takes the memory for so many more edges, between nodes below a number.
fn reserve_edges(
    records: &mut PairRecords,
    outgoing: &mut Chains,
    incoming: &mut Chains,
    edges: usize,
    nodes: usize,
) -> Result<(), AllocError>
    requires edges { AreEdges records.old.entries outgoing.old incoming.old }
    ensures edges { AreEdges records.new.entries outgoing.new incoming.new }
    ensures entries { records.new.entries ≡ records.old.entries }
    ensures spare { OnOk result (edges ≤ spare_of records.new outgoing.new incoming.new) }
    ensures kept { OnOk result (spare_of records.old outgoing.old incoming.old ≤ spare_of records.new outgoing.new incoming.new) }
    ensures nodes { OnOk result (length outgoing.new.lists ≡ max (length outgoing.old.lists) nodes) }
    ensures err { OnErr result (length outgoing.new.lists ≡ length outgoing.old.lists) }
{
    records.reserve(edges)?;
    let numbers = records.capacity();
    outgoing.grow_items(numbers)?;
    incoming.grow_items(numbers)?;
    incoming.grow_lists(nodes)?;
    outgoing.grow_lists(nodes)
}

/// Adds an edge, and answers its number.
fn add_edge(
    records: &mut PairRecords,
    outgoing: &mut Chains,
    incoming: &mut Chains,
    from: usize,
    to: usize,
) -> usize
    requires edges { AreEdges records.old.entries outgoing.old incoming.old }
    requires spare { 0 < spare_of records.old outgoing.old incoming.old }
    requires from { from < length outgoing.old.lists }
    requires to { to < length outgoing.old.lists }
    ensures edges { AreEdges records.new.entries outgoing.new incoming.new }
    ensures entries { records.new.entries ≡ records.old.entries ++ (result, (from, to)) ∷ [] }
    ensures fresh { has nat_eq (numbers records.old.entries) result ≡ false }
    ensures spare { spare_of records.new outgoing.new incoming.new + 1 ≡ spare_of records.old outgoing.old incoming.old }
    ensures nodes { length outgoing.new.lists ≡ length outgoing.old.lists }
{
    let edge = records.add((from, to));
    outgoing.push(from, edge);
    incoming.push(to, edge);
    edge
}

/// Takes an edge out.
fn remove_edge(records: &mut PairRecords, outgoing: &mut Chains, incoming: &mut Chains, edge: usize)
    requires edges { AreEdges records.old.entries outgoing.old incoming.old }
    requires there { has nat_eq (numbers records.old.entries) edge ≡ true }
    ensures edges { AreEdges records.new.entries outgoing.new incoming.new }
    ensures entries { records.new.entries ≡ without_number records.old.entries edge }
    ensures spare { spare_of records.old outgoing.old incoming.old ≤ spare_of records.new outgoing.new incoming.new }
    ensures nodes { length outgoing.new.lists ≡ length outgoing.old.lists }
{
    let (from, to) = records.remove(edge);
    outgoing.remove(from, edge);
    incoming.remove(to, edge);
}

/// Takes out the edges that leave a node.
fn remove_outgoing(
    records: &mut PairRecords,
    outgoing: &mut Chains,
    incoming: &mut Chains,
    node: usize,
)
    requires edges { AreEdges records.old.entries outgoing.old incoming.old }
    ensures edges { AreEdges records.new.entries outgoing.new incoming.new }
    ensures entries { records.new.entries ≡ filter (λ e. not (leaves node e)) records.old.entries }
    ensures spare { spare_of records.old outgoing.old incoming.old ≤ spare_of records.new outgoing.new incoming.new }
    ensures nodes { length outgoing.new.lists ≡ length outgoing.old.lists }
{
    while let Some(edge) = outgoing.first(node) {
        remove_edge(records, outgoing, incoming, edge);
    }
}

/// Takes out the edges that reach a node.
fn remove_incoming(
    records: &mut PairRecords,
    outgoing: &mut Chains,
    incoming: &mut Chains,
    node: usize,
)
    requires edges { AreEdges records.old.entries outgoing.old incoming.old }
    ensures edges { AreEdges records.new.entries outgoing.new incoming.new }
    ensures entries { records.new.entries ≡ filter (λ e. not (reaches node e)) records.old.entries }
    ensures spare { spare_of records.old outgoing.old incoming.old ≤ spare_of records.new outgoing.new incoming.new }
    ensures nodes { length outgoing.new.lists ≡ length outgoing.old.lists }
{
    while let Some(edge) = incoming.first(node) {
        remove_edge(records, outgoing, incoming, edge);
    }
}

/// Edges between numbered nodes, in order of adding. Each has a number, which no other edge has while it is there.
///
/// An edge is in the list of its source and in that of its target, so no removal touches an edge of another node but the
/// neighbours in a list. A node is allowed where it is below a number that only `reserve` raises.
#[derive(Drop)]
pub struct EdgeLists {
    records: PairRecords,
    /// A list for each allowed node.
    outgoing: Chains,
    /// A list for each allowed node, and maybe more, where memory ran out.
    incoming: Chains,
}

impl Model for EdgeLists {
    ghost use Rattle.std.specs.Prelude.{length};
    ghost use Rattle.index_lists.specs.Edges.{AreEdges, Edges, spare_of};

    ghost Value = { Edges };

    ghost view = { λ e. record { edges = e.records.entries; spare = spare_of e.records e.outgoing e.incoming; nodes = length e.outgoing.lists } };

    ghost invariant = { λ e. AreEdges e.records.entries e.outgoing e.incoming };
}

impl EdgeLists {
    /// No edges, and no node allowed.
    pub fn new(alloc: Global) -> EdgeLists
        ensures { result ≡ record { edges = []; spare = 0; nodes = 0 } }
    {
        EdgeLists {
            records: PairRecords::new(alloc),
            outgoing: Chains::new(alloc),
            incoming: Chains::new(alloc),
        }
    }

    /// Takes the memory for so many more edges, and allows the nodes below a number.
    ///
    /// Where memory runs out, the edges and the allowed nodes are as before, and there may be no room for more edges
    /// until the next `reserve`.
    pub fn reserve(&mut self, edges: usize, nodes: usize) -> Result<(), AllocError>
        ensures edges { self.new.edges ≡ self.old.edges }
        ensures spare { OnOk result (max edges self.old.spare ≤ self.new.spare) }
        ensures nodes { OnOk result (self.new.nodes ≡ max self.old.nodes nodes) }
        ensures err { OnErr result (self.new.nodes ≡ self.old.nodes) }
    {
        reserve_edges(
            &mut self.records,
            &mut self.outgoing,
            &mut self.incoming,
            edges,
            nodes,
        )
    }

    /// Adds an edge behind all others, and answers its number, which no edge has.
    pub fn add(&mut self, from: usize, to: usize) -> usize
        requires spare { 0 < self.old.spare }
        requires from { from < self.old.nodes }
        requires to { to < self.old.nodes }
        ensures edges { self.new.edges ≡ self.old.edges ++ (result, (from, to)) ∷ [] }
        ensures fresh { has nat_eq (numbers self.old.edges) result ≡ false }
        ensures spare { self.new.spare + 1 ≡ self.old.spare }
        ensures nodes { self.new.nodes ≡ self.old.nodes }
    {
        add_edge(
            &mut self.records,
            &mut self.outgoing,
            &mut self.incoming,
            from,
            to,
        )
    }

    /// Takes an edge out. Its number may be given to a later edge.
    pub fn remove(&mut self, edge: usize)
        requires { has nat_eq (numbers self.old.edges) edge ≡ true }
        ensures edges { self.new.edges ≡ without_number self.old.edges edge }
        ensures spare { self.old.spare ≤ self.new.spare }
        ensures nodes { self.new.nodes ≡ self.old.nodes }
    {
        remove_edge(
            &mut self.records,
            &mut self.outgoing,
            &mut self.incoming,
            edge,
        );
    }

    /// Takes out all edges from a node and to it, and keeps the order of the rest.
    pub fn remove_node(&mut self, node: usize)
        ensures edges { self.new.edges ≡ filter (avoids node) self.old.edges }
        ensures spare { self.old.spare ≤ self.new.spare }
        ensures nodes { self.new.nodes ≡ self.old.nodes }
    {
        remove_around(
            &mut self.records,
            &mut self.outgoing,
            &mut self.incoming,
            node,
        );
    }

    /// The edges to a node, in order of adding, each as its number, its source and its target.
    pub fn incoming(&self, node: usize) -> EdgeIter<'_>
        ensures edges { result ≡ map as_triple (filter (reaches node) self.now.edges) }
        ensures once { distinct nat_eq (numbers self.now.edges) ≡ true }
    {
        list_edges(&self.records, &self.incoming, node)
    }

    /// The edges from a node, in order of adding, each as its number, its source and its target.
    pub fn outgoing(&self, node: usize) -> EdgeIter<'_>
        ensures edges { result ≡ map as_triple (filter (leaves node) self.now.edges) }
        ensures once { distinct nat_eq (numbers self.now.edges) ≡ true }
    {
        list_edges(&self.records, &self.outgoing, node)
    }
}

/// Takes out the edges that leave a node, and those that reach it.
fn remove_around(
    records: &mut PairRecords,
    outgoing: &mut Chains,
    incoming: &mut Chains,
    node: usize,
)
    requires edges { AreEdges records.old.entries outgoing.old incoming.old }
    ensures edges { AreEdges records.new.entries outgoing.new incoming.new }
    ensures entries { records.new.entries ≡ filter (avoids node) records.old.entries }
    ensures spare { spare_of records.old outgoing.old incoming.old ≤ spare_of records.new outgoing.new incoming.new }
    ensures nodes { length outgoing.new.lists ≡ length outgoing.old.lists }
{
    remove_outgoing(records, outgoing, incoming, node);
    remove_incoming(records, outgoing, incoming, node);
}

/// The edges of one list.
fn list_edges<'a>(records: &'a PairRecords, lists: &'a Chains, list: usize) -> EdgeIter<'a>
    ensures { result ≡ map as_triple (map (entry_of records.now.entries) (list_in lists.now list)) }
{
    EdgeIter {
        records,
        numbers: lists.iter(list),
    }
}

/// The edges that are left, in order of adding, each as its number, its source and its target.
#[derive(Drop)]
pub struct EdgeIter<'a> {
    records: &'a PairRecords,
    numbers: ChainIter<'a>,
}

impl<'a> Model for EdgeIter<'a> {
    ghost use Rattle.std.specs.Prelude.{ℕ, List, map};
    ghost use Rattle.index_lists.specs.Records.{entry_of};
    ghost use Rattle.index_lists.specs.Edges.{as_triple};

    ghost Value = { List (ℕ × ℕ × ℕ) };

    ghost view = { λ it. map as_triple (map (entry_of it.records.now.entries) it.numbers) };
}

impl<'a> Iterator for EdgeIter<'a> {
    type Item = (usize, usize, usize);

    ghost next_gives = { YieldsFirst (λ rest. rest) };

    ghost remaining = { item_count (λ rest. rest) };

    fn next(&mut self) -> Option<(usize, usize, usize)> {
        match self.numbers.next() {
            Some(edge) => {
                let (from, to) = self.records.pair(edge);
                Some((edge, from, to))
            }
            None => None,
        }
    }
}
