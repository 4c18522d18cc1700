use flow_syntax::{ArithOp, CompareOp, Side};
use flow_term::{Boxed, Elem, List, Text, Value};
use lattice_any::AnyL;

/// A part of a pair.
#[derive(Clone, Copy, Debug, PartialEq, Eq)]
pub enum Half {
    /// The first part.
    First,
    /// The second part.
    Second,
}

/// An operation on two sets. What is not reached where one of them isn't.
#[derive(Clone, Copy, Debug, PartialEq, Eq)]
pub enum Combination {
    /// The elements of either.
    Union,
    /// The elements of both.
    Inter,
    /// The elements of the first that the second lacks.
    Minus,
}

/// A function of listed elements, by their names.
#[derive(Drop)]
pub struct CallTable {
    /// The elements of each argument's lattice, in the order of the text.
    pub lattices: List<List<Text>>,
    /// The result for each argument, row by row in the order of the elements.
    pub results: List<Text>,
}

/// Code that gives a value of a lattice.
#[cycle(code)]
#[derive(Drop)]
pub enum ValueCode {
    /// This value.
    Constant(Value),
    /// The value of the property with this number at a side.
    Read(u32, Side),
    /// The flat value of an element.
    Flat(Boxed<ElemCode>),
    /// The pair of two values.
    Pair(Boxed<ValueCode>, Boxed<ValueCode>),
    /// A part of a pair.
    Part(Half, Boxed<ValueCode>),
    /// The set of these elements.
    Set(List<ElemCode>),
    /// A set made of two.
    Combine(Combination, Boxed<ValueCode>, Boxed<ValueCode>),
    /// The elements of a set other than this one; what is not reached stays so.
    Without(Boxed<ValueCode>, Boxed<ElemCode>),
    /// The join of two values of the lattice.
    Join(Boxed<AnyL>, Boxed<ValueCode>, Boxed<ValueCode>),
    /// The first value where the condition holds, and otherwise the second.
    If(Boxed<TruthCode>, Boxed<ValueCode>, Boxed<ValueCode>),
    /// The set that a comprehension makes; what is not reached where its own set isn't.
    Choose(Boxed<Choice>),
    /// Bottom and top of the flat value stay; for an element the value of the second part, where the slot with this number holds
    /// the element.
    Bind(Boxed<ValueCode>, usize, Boxed<ValueCode>),
    /// The value of a map at a key, and this value where the key is absent.
    Look(Boxed<Value>, Boxed<ValueCode>, Boxed<ElemCode>),
    /// A map to the values of the lattice with the value at the key replaced; the least value takes the key out.
    Update(Boxed<AnyL>, Boxed<ValueCode>, Boxed<ElemCode>, Boxed<ValueCode>),
    /// The map of keys and values of the lattice, where the values of one key are joined; the least value makes no entry.
    Map(Boxed<AnyL>, List<EntryCode>),
    /// What a function gives for these arguments.
    Call(Boxed<CallTable>, List<ValueCode>),
}

/// Code that gives an element.
#[cycle(code)]
#[derive(Drop)]
pub enum ElemCode {
    /// This element.
    Constant(Elem),
    /// What the slot with this number holds.
    Slot(usize),
    /// The pair of two elements.
    Pair(Boxed<ElemCode>, Boxed<ElemCode>),
    /// A part of a pair.
    Part(Half, Boxed<ElemCode>),
    /// An operation on two integers, which wraps at 64 bits.
    Arith(ArithOp, Boxed<ElemCode>, Boxed<ElemCode>),
    /// An integer with the other sign, which wraps at 64 bits.
    Negated(Boxed<ElemCode>),
    /// The first element where the condition holds, and otherwise the second.
    If(Boxed<TruthCode>, Boxed<ElemCode>, Boxed<ElemCode>),
}

/// Code that gives a truth.
#[cycle(code)]
#[derive(Drop)]
pub enum TruthCode {
    /// This truth.
    Constant(bool),
    /// A comparison of two elements.
    Compare(CompareOp, Boxed<ElemCode>, Boxed<ElemCode>),
    /// Whether the element is in the set; all are in what is not reached.
    Member(Boxed<ElemCode>, Boxed<ValueCode>),
    /// Whether both hold.
    And(Boxed<TruthCode>, Boxed<TruthCode>),
    /// Whether one of the two holds.
    Or(Boxed<TruthCode>, Boxed<TruthCode>),
    /// Whether it doesn't hold.
    Not(Boxed<TruthCode>),
    /// The first where the condition holds, and otherwise the second.
    If(Boxed<TruthCode>, Boxed<TruthCode>, Boxed<TruthCode>),
}

/// Code of a comprehension.
#[cycle(code)]
#[derive(Drop)]
pub struct Choice {
    /// The set from which it takes elements.
    pub from: ValueCode,
    /// The number of the slot that holds each of them in turn.
    pub slot: usize,
    /// The condition for which one is taken.
    pub condition: TruthCode,
    /// What is made of it.
    pub elem: ElemCode,
}

/// Code of an entry of a map.
#[cycle(code)]
#[derive(Drop)]
pub struct EntryCode {
    /// The key.
    pub key: ElemCode,
    /// The value at the key.
    pub value: ValueCode,
}
