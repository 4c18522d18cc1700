//! One unknown that climbs: its bound is met exactly.
ghost use Rattle.std.specs.Prelude.{◌≡◌, ◌∷◌, ◌<◌, [], ⊤};

use crate::pairs::{Pairs, listed, steps_of};
use flow_solver::{Engine, LastPick, SettleRefusal, System, Values, Visited};
use flow_term::List;
use lattice_base::Steps;
use std::alloc::{AllocError, Global};
use std::cmp::Ordering;
use std::marker::Brand;
use std::sync::ledger::{Blank, Ledger};
use std::test::Fail;

/// The one unknown and the one key, both 0.
#[derive(Drop)]
struct Climb {
    pairs: Pairs,
    zero: List<usize>,
    none: List<usize>,
    ghost zero_is: { zero ≡ 0 ∷ [] },
    ghost none_is: { none ≡ [] },
}

/// An edit that changes nothing.
#[derive(Drop)]
struct Unchanged;

impl System for Climb {
    ghost use Rattle.std.specs.Ordering.{nat_cmp};
    ghost use Rattle.solver_examples.specs.Examples.{climb, no_change};
    ghost use Rattle.solver_examples.specs.Laws.{climb_kept, climb_lawful, climb_ordered, climb_over};

    type L = Pairs;

    type Edit = Unchanged;

    ghost meaning = { λ _. climb };

    ghost lattices = { λ s _. s.pairs };

    ghost order = { λ _. nat_cmp };

    ghost change = { λ _. no_change };

    ghost is_edit = { λ _ _. ⊤ };

    ghost next = { λ _ _. climb };

    ghost is_reserved = { λ _ _. ⊤ };

    fn unknowns(&self) -> &List<usize> {
        &self.zero
    }

    fn keys(&self) -> &List<usize> {
        &self.zero
    }

    fn lattice(&self, unknown: usize) -> &Pairs {
        &self.pairs
    }

    fn target(&self, key: usize) -> usize {
        0
    }

    fn reads(&self, key: usize) -> &List<usize> {
        &self.zero
    }

    fn readers(&self, unknown: usize) -> &List<usize> {
        &self.zero
    }

    fn aiming(&self, unknown: usize) -> &List<usize> {
        &self.zero
    }

    fn eval<C: Ledger>(
        &self,
        alloc: Global,
        key: usize,
        values: &Values<(bool, bool)>,
        steps: &mut Steps<C>,
    ) -> Result<(bool, bool), AllocError> {
        steps.tick();
        let held = values.get(0).unwrap();
        Ok((true, held.0))
    }

    fn compare(&self, a: usize, b: usize) -> Ordering {
        a.cmp(&b)
    }

    fn gone<'a>(&'a self, edit: &'a Unchanged) -> &'a List<usize> {
        &self.none
    }

    fn added<'a>(&'a self, edit: &'a Unchanged) -> &'a List<usize> {
        &self.none
    }

    fn gone_unknowns<'a>(&'a self, edit: &'a Unchanged) -> &'a List<usize> {
        &self.none
    }

    fn added_unknowns<'a>(&'a self, edit: &'a Unchanged) -> &'a List<usize> {
        &self.none
    }

    fn fresh(
        &self,
        alloc: Global,
        edit: &Unchanged,
        unknown: usize,
    ) -> Result<(bool, bool), AllocError> {
        Ok((false, false))
    }

    fn renamed(&self, edit: &Unchanged) -> bool {
        false
    }

    fn shift(&self, edit: &Unchanged, value: &mut (bool, bool)) {}

    fn reserve(&mut self, edit: &Unchanged) -> Result<(), AllocError> {
        Ok(())
    }

    fn commit(&mut self, edit: Unchanged) {}

    ghost laws = { λ _. climb_lawful };

    ghost over = { λ _ u _. climb_over u };

    ghost ordered = { λ _. climb_ordered };

    ghost edits = { λ _ _ _. (climb_lawful, climb_kept) };
}

/// What a climb in three visits shows.
#[derive(Drop)]
struct Climbed {
    after_two: Result<(), SettleRefusal>,
    waiting: usize,
    last: Visited,
    idle: Visited,
    value: Option<(bool, bool)>,
    trace: Vec<(usize, usize)>,
}

/// Settles with a limit of two visits, and then makes two more.
fn made_climb<C: Ledger>(alloc: Global, blank: Blank) -> Result<Climbed, AllocError>
    requires name { blank.name ≡ C.name }
    requires parts { blank.parts ≡ C.parts }
    requires some { 0 < C.parts }
{
    let mut steps = Steps::<C>::new(blank);
    let zero = listed(alloc, &[0])?;
    let none = listed(alloc, &[])?;
    let climb = Climb {
        pairs: Pairs,
        zero,
        none,
    };
    let mut engine = Engine::new(alloc, climb, LastPick)?;
    let after_two = engine.settle(Some(2), &mut steps);
    let waiting = engine.waiting();
    let last = engine.visit(&mut steps)?;
    let idle = engine.visit(&mut steps)?;
    Ok(Climbed {
        after_two,
        waiting,
        last,
        idle,
        value: engine.value(engine.system().target(0)).copied(),
        trace: steps_of(alloc, engine.trace())?,
    })
}

/// The bound is 1 key and 2 rises that wake 1 reader: three visits settle it, and two don't.
#[test]
fn a_bound_is_met_exactly(rt: HostRuntime) -> Result<(), Fail> {
    let climbed = made_climb::<Brand>(rt.alloc(), Blank::new(1))?;
    assert_eq!(rt; climbed.after_two, Err(SettleRefusal::Spent { visits: 2 }));
    assert_eq!(rt; climbed.waiting, 1);
    assert_eq!(rt; climbed.last, Visited::Held);
    assert_eq!(rt; climbed.idle, Visited::Idle);
    assert_eq!(rt; climbed.value, Some((true, true)));
    assert_eq!(rt; climbed.trace.as_slice(), [(0, 0), (0, 0)].as_slice());
    Ok(())
}
