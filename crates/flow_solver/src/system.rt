//! What is solved.
ghost use Rattle.std.specs.Prelude.{◌≡◌, ◌+◌, ℕ, false, IfOk, OnOk};
ghost use Rattle.std.specs.declared.cmp.Ordering.{Ordering};
ghost use Rattle.constraint_theory.specs.Systems.{ConstraintSystem, Fitting, IsKey, IsLawful, IsOver, IsUnknown, aiming, numbers, readers};
ghost use Rattle.constraint_theory.specs.Edits.{Change, IsEdit, Movable};
ghost use Rattle.flow_solver.specs.Assigned.{AllPresent, assigned};
ghost use Rattle.flow_solver.specs.Orders.{IsOrderOf};

use crate::values::Values;
use flow_term::List;
use lattice_base::{Lattice, Steps};
use std::alloc::{AllocError, Global};
use std::cmp::Ordering;
use std::sync::ledger::Ledger;

/// Constraints over unknowns: the value of each constraint is to be below that of its target.
///
/// Unknowns and constraints are numbers. The number of a constraint is its key. Each unknown has a lattice.
///
/// # What an implementation gives
///
/// - `meaning`: the system as a mathematical object: unknowns, keys, targets, reads, what each constraint gives under an
///   assignment; and for each unknown bottom, join and order, a test of which values fit, a height, and a rank of each
///   fitting value.
/// - `laws`: no key stands twice; targets and reads are unknowns in use; bottom fits, and so do joins of fitting values
///   and what a constraint gives under fitting values; join and order are a lattice's; each constraint is monotone, and
///   depends on the unknowns that it reads alone; a rank is at most the height, and rises strictly with the value.
/// - `over`: the order of each unknown is that of its lattice, on the values that fit.
/// - `order`: how two keys compare; `ordered`: this is a weak order, and each key is less than those behind it.
/// - `change`: what an edit says of itself: the keys and unknowns that it takes away and those that it brings, which
///   values can be renamed, and how it renames them.
/// - `is_edit`: which edits are edits of the system as it is; `next`: what the system means after one; `is_reserved`:
///   whether the memory for one is taken.
/// - `edits`: an edit of the system leads to a system that meets the laws, and the two meet the laws of an edit: what stays
///   neither aims at nor reads what is gone, and keeps its target and reads; no added number is in use before; renaming
///   keeps bottoms, joins, orders and what constraints give, as far as values can be renamed.
///
/// An engine ends since no value can rise more often than its unknown's height says.
pub trait System: Drop {
    /// The lattices of the unknowns, all of one type.
    type L: Lattice;

    /// What takes constraints and unknowns away and brings others.
    type Edit: Drop;

    // What the system means.
    ghost meaning: { Self → ConstraintSystem ℕ ℕ Self.L.V };

    // The lattice of each unknown.
    ghost lattices: { Self → ℕ → Self.L };

    // How two keys compare.
    ghost order: { Self → ℕ → ℕ → Ordering };

    // What an edit says of itself.
    ghost change: { Self.Edit → Change ℕ ℕ Self.L.V };

    // Which edits are edits of the system as it is.
    ghost is_edit: { Self → Self.Edit → Type 0 };

    // What the system means after an edit.
    ghost next: { Self → Self.Edit → ConstraintSystem ℕ ℕ Self.L.V };

    // Whether the memory for an edit is taken.
    ghost is_reserved: { Self → Self.Edit → Type 0 };

    /// The unknowns in use, in their order.
    fn unknowns(&self) -> &List<usize>
        ensures { result.now ≡ (meaning self.now).unknowns };

    /// The keys in use, in their order.
    fn keys(&self) -> &List<usize>
        ensures { result.now ≡ (meaning self.now).keys };

    /// The lattice of an unknown.
    fn lattice(&self, unknown: usize) -> &Self::L
        requires { IsUnknown numbers (meaning self.now) unknown }
        ensures { result.now ≡ lattices self.now unknown };

    /// The unknown whose value is to be above the constraint's.
    fn target(&self, key: usize) -> usize
        requires { IsKey numbers (meaning self.now) key }
        ensures { result ≡ (meaning self.now).target key };

    /// The unknowns on which the constraint's value depends.
    fn reads(&self, key: usize) -> &List<usize>
        requires { IsKey numbers (meaning self.now) key }
        ensures { result.now ≡ (meaning self.now).reads key };

    /// The keys that read the unknown, in the order of keys.
    fn readers(&self, unknown: usize) -> &List<usize>
        requires { IsUnknown numbers (meaning self.now) unknown }
        ensures { result.now ≡ readers numbers (meaning self.now) unknown };

    /// The keys whose target the unknown is, in the order of keys.
    fn aiming(&self, unknown: usize) -> &List<usize>
        requires { IsUnknown numbers (meaning self.now) unknown }
        ensures { result.now ≡ aiming numbers (meaning self.now) unknown };

    /// The constraint's value under fitting values. It counts as one step.
    fn eval<C: Ledger>(
        &self,
        alloc: Global,
        key: usize,
        values: &Values<<Self::L as Lattice>::V>,
        steps: &mut Steps<C>,
    ) -> Result<<Self::L as Lattice>::V, AllocError>
        requires key { IsKey numbers (meaning self.now) key }
        requires present { AllPresent (meaning self.now) values.now }
        requires fitting { Fitting numbers (meaning self.now) (assigned (meaning self.now).bottom values.now) }
        ensures value { IfOk result (λ v. v ≡ (meaning self.now).eval key (assigned (meaning self.now).bottom values.now)) }
        ensures steps { steps.new ≡ steps.old + 1 };

    /// How two keys stand in the order of keys. It may be asked of any numbers, and takes no memory.
    fn compare(&self, a: usize, b: usize) -> Ordering
        ensures { result ≡ order self.now a b };

    /// The keys that the edit takes away.
    fn gone<'a>(&'a self, edit: &'a Self::Edit) -> &'a List<usize>
        requires { is_edit self.now edit.now }
        ensures { result.now ≡ (change edit.now).gone };

    /// The keys that the edit brings.
    fn added<'a>(&'a self, edit: &'a Self::Edit) -> &'a List<usize>
        requires { is_edit self.now edit.now }
        ensures { result.now ≡ (change edit.now).added };

    /// The unknowns that the edit takes away.
    fn gone_unknowns<'a>(&'a self, edit: &'a Self::Edit) -> &'a List<usize>
        requires { is_edit self.now edit.now }
        ensures { result.now ≡ (change edit.now).gone_unknowns };

    /// The unknowns that the edit brings.
    fn added_unknowns<'a>(&'a self, edit: &'a Self::Edit) -> &'a List<usize>
        requires { is_edit self.now edit.now }
        ensures { result.now ≡ (change edit.now).added_unknowns };

    /// The least value that an unknown has after the edit.
    fn fresh(
        &self,
        alloc: Global,
        edit: &Self::Edit,
        unknown: usize,
    ) -> Result<<Self::L as Lattice>::V, AllocError>
        requires edit { is_edit self.now edit.now }
        requires used { IsUnknown numbers (next self.now edit.now) unknown }
        ensures { IfOk result (λ v. v ≡ (next self.now edit.now).bottom unknown) };

    /// Whether the edit renames anything. Where it doesn't, no value is touched.
    fn renamed(&self, edit: &Self::Edit) -> bool
        requires { is_edit self.now edit.now }
        ensures { result ≡ false → (v : Self.L.V) → Movable (change edit.now) v → (change edit.now).shift v ≡ v };

    /// Renames in a value what the edit renames. It takes no memory.
    fn shift(&self, edit: &Self::Edit, value: &mut <Self::L as Lattice>::V)
        requires edit { is_edit self.now edit.now }
        requires movable { Movable (change edit.now) value.old }
        ensures { value.new ≡ (change edit.now).shift value.old };

    /// Takes the memory that `commit` of this edit needs. Nothing else changes, also where memory runs out.
    fn reserve(&mut self, edit: &Self::Edit) -> Result<(), AllocError>
        requires { is_edit self.old edit.now }
        ensures meaning { meaning self.new ≡ meaning self.old }
        ensures lattices { lattices self.new ≡ lattices self.old }
        ensures order { order self.new ≡ order self.old }
        ensures edits { (e : Self.Edit) → is_edit self.old e → is_edit self.new e }
        ensures next { next self.new ≡ next self.old }
        ensures reserved { OnOk result (is_reserved self.new edit.now) };

    /// Makes the system the edited one. It takes no memory.
    fn commit(&mut self, edit: Self::Edit)
        requires edit { is_edit self.old edit }
        requires reserved { is_reserved self.old edit }
        ensures { meaning self.new ≡ next self.old edit };

    ghost laws: { (s : Self) → IsLawful numbers (meaning s) };

    ghost over: { (s : Self) (u : ℕ) → IsUnknown numbers (meaning s) u → IsOver (meaning s) u (Self.L.valid (lattices s u)) (Self.L.least (lattices s u)) (Self.L.joined (lattices s u)) };

    ghost ordered: { (s : Self) → IsOrderOf (meaning s).keys (order s) };

    ghost edits: { (s : Self) (e : Self.Edit) → is_edit s e → IsLawful numbers (next s e) × IsEdit numbers (meaning s) (next s e) (change e) };
}
