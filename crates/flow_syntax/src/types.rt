ghost use Rattle.std.specs.Prelude.{◌≡◌, IfOk};

use crate::spec::Named;
use flow_term::Boxed;
use std::alloc::{AllocError, Global};

/// The sort of an element: of the members of a set, the keys of a map, the value in a flat lattice.
#[derive(Debug, Drop)]
pub enum ElemSort {
    /// Resolved names.
    Name,
    /// Positions of the tree.
    Pos,
    /// Strings.
    Str,
    /// Integers.
    Int,
    /// The items of a declared enum.
    Enum(Named),
    /// Pairs with a part of each of these sorts.
    Pair(Boxed<ElemSort>, Boxed<ElemSort>),
}

/// The type of a property: a lattice.
#[derive(Debug, Drop)]
pub enum LatticeType {
    /// Sets, joined by union.
    May(ElemSort),
    /// Sets and `unreached`, joined by intersection.
    Must(ElemSort),
    /// Bottom, the elements side by side, and top.
    Flat(ElemSort),
    /// Maps with keys of this sort and values of this type.
    Map(ElemSort, Boxed<LatticeType>),
    /// Pairs with a part of each of these types.
    Pair(Boxed<LatticeType>, Boxed<LatticeType>),
    /// A declared lattice with a table.
    Table(Named),
}

/// The type of an expression.
#[derive(Debug, Drop)]
pub enum ExprType {
    /// A value of this lattice.
    Lattice(LatticeType),
    /// An element of this sort.
    Elem(ElemSort),
    /// A condition: true or false.
    Truth,
}

impl ElemSort {
    /// An equal sort, the places of its names included. Fails only for want of memory.
    pub fn duplicate(&self, alloc: Global) -> Result<ElemSort, AllocError>
        ensures { IfOk result (λ sort. sort ≡ self.now) }
    {
        Ok(match self {
            ElemSort::Name => ElemSort::Name,
            ElemSort::Pos => ElemSort::Pos,
            ElemSort::Str => ElemSort::Str,
            ElemSort::Int => ElemSort::Int,
            ElemSort::Enum(name) => ElemSort::Enum(name.duplicate()?),
            ElemSort::Pair(first, second) => ElemSort::Pair(
                Boxed::new(alloc, first.get().duplicate(alloc)?)?,
                Boxed::new(alloc, second.get().duplicate(alloc)?)?,
            ),
        })
    }
}

impl LatticeType {
    /// An equal type, the places of its names included. Fails only for want of memory.
    pub fn duplicate(&self, alloc: Global) -> Result<LatticeType, AllocError>
        ensures { IfOk result (λ lattice. lattice ≡ self.now) }
    {
        Ok(match self {
            LatticeType::May(sort) => LatticeType::May(sort.duplicate(alloc)?),
            LatticeType::Must(sort) => LatticeType::Must(sort.duplicate(alloc)?),
            LatticeType::Flat(sort) => LatticeType::Flat(sort.duplicate(alloc)?),
            LatticeType::Map(keys, values) => {
                let values = Boxed::new(alloc, values.get().duplicate(alloc)?)?;
                LatticeType::Map(keys.duplicate(alloc)?, values)
            }
            LatticeType::Pair(first, second) => LatticeType::Pair(
                Boxed::new(alloc, first.get().duplicate(alloc)?)?,
                Boxed::new(alloc, second.get().duplicate(alloc)?)?,
            ),
            LatticeType::Table(name) => LatticeType::Table(name.duplicate()?),
        })
    }
}

impl ExprType {
    /// An equal type, the places of its names included. Fails only for want of memory.
    pub fn duplicate(&self, alloc: Global) -> Result<ExprType, AllocError>
        ensures { IfOk result (λ typing. typing ≡ self.now) }
    {
        Ok(match self {
            ExprType::Lattice(lattice) => ExprType::Lattice(lattice.duplicate(alloc)?),
            ExprType::Elem(sort) => ExprType::Elem(sort.duplicate(alloc)?),
            ExprType::Truth => ExprType::Truth,
        })
    }
}
