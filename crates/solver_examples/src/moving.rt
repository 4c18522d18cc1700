//! A system that edits turn one way and back, solved in two orders.
ghost use Rattle.std.specs.Prelude.{◌≡◌, ◌∷◌, ◌++◌, ◌<◌, ◌||◌, [], nat_eq, true, false, cond, length, slice_index_or, IfOk, OnOk};
ghost use Rattle.solver_examples.specs.Moves.{moving_place, moving_rows, moving_source, moving_target};

use crate::pairs::{Pairs, listed};
use flow_solver::{Engine, FirstPick, LastPick, Pick, System, Values};
use flow_term::List;
use lattice_base::Steps;
use std::alloc::{AllocError, Global};
use std::cmp::Ordering;
use std::marker::Brand;
use std::sync::ledger::{Blank, Ledger};
use std::test::Fail;

/// The unknown that the key reads.
fn source_of(key: usize) -> usize
    ensures { result ≡ moving_source key }
{
    if key == 1 {
        1
    } else if key == 3 {
        3
    } else if key == 5 {
        4
    } else if key < 3 {
        0
    } else {
        2
    }
}

fn target_of(key: usize) -> usize
    ensures { result ≡ moving_target key }
{
    if key == 0 {
        1
    } else if key == 2 {
        3
    } else if key == 4 {
        4
    } else if key == 6 {
        5
    } else {
        2
    }
}

/// Where the key stands among all.
fn place_of(key: usize) -> usize
    ensures { result ≡ moving_place key }
{
    if key == 6 { 2 } else { key }
}

fn add_row(alloc: Global, rows: &mut Vec<List<usize>>, numbers: &[usize]) -> Result<(), AllocError>
    ensures { OnOk result (rows.new.items ≡ rows.old.items ++ numbers.now ∷ []) }
{
    rows.push(listed(alloc, numbers)?)?;
    Ok(())
}

fn add_short_rows(alloc: Global, rows: &mut Vec<List<usize>>) -> Result<(), AllocError>
    ensures { OnOk result (rows.new.items ≡ rows.old.items ++ ([] ∷ (0 ∷ []) ∷ (1 ∷ []) ∷ (2 ∷ []) ∷ (3 ∷ []) ∷ (4 ∷ []) ∷ (5 ∷ []) ∷ (6 ∷ []) ∷ [])) }
{
    add_row(alloc, rows, &[])?;
    add_row(alloc, rows, &[0])?;
    add_row(alloc, rows, &[1])?;
    add_row(alloc, rows, &[2])?;
    add_row(alloc, rows, &[3])?;
    add_row(alloc, rows, &[4])?;
    add_row(alloc, rows, &[5])?;
    add_row(alloc, rows, &[6])
}

fn add_long_rows(alloc: Global, rows: &mut Vec<List<usize>>) -> Result<(), AllocError>
    ensures { OnOk result (rows.new.items ≡ rows.old.items ++ ((0 ∷ 2 ∷ []) ∷ (2 ∷ 3 ∷ []) ∷ (6 ∷ 4 ∷ []) ∷ (1 ∷ 5 ∷ []) ∷ (1 ∷ 3 ∷ 5 ∷ [])
        ∷ (0 ∷ 1 ∷ 2 ∷ 3 ∷ 4 ∷ []) ∷ (0 ∷ 1 ∷ 2 ∷ 4 ∷ 5 ∷ []) ∷ (0 ∷ 1 ∷ 2 ∷ 3 ∷ 4 ∷ 5 ∷ []) ∷ (0 ∷ 1 ∷ 6 ∷ 4 ∷ 5 ∷ []) ∷ [])) }
{
    add_row(alloc, rows, &[0, 2])?;
    add_row(alloc, rows, &[2, 3])?;
    add_row(alloc, rows, &[6, 4])?;
    add_row(alloc, rows, &[1, 5])?;
    add_row(alloc, rows, &[1, 3, 5])?;
    add_row(alloc, rows, &[0, 1, 2, 3, 4])?;
    add_row(alloc, rows, &[0, 1, 2, 4, 5])?;
    add_row(alloc, rows, &[0, 1, 2, 3, 4, 5])?;
    add_row(alloc, rows, &[0, 1, 6, 4, 5])
}

/// The lists that the system gives out.
fn all_rows(alloc: Global) -> Result<Vec<List<usize>>, AllocError>
    ensures { IfOk result (λ rows. rows.items ≡ moving_rows) }
{
    let mut rows = Vec::new(alloc);
    add_short_rows(alloc, &mut rows)?;
    add_long_rows(alloc, &mut rows)?;
    Ok(rows)
}

/// An edit of the system, forth or back. `refused` says that there is no memory for it.
#[derive(Drop)]
struct Turn {
    back: bool,
    refused: bool,
}

/// The system, turned or not.
#[derive(Drop)]
struct Moving {
    turned: bool,
    pairs: Pairs,
    rows: Vec<List<usize>>,
    ghost rows_are: { rows.items ≡ moving_rows },
}

impl System for Moving {
    ghost use Rattle.std.specs.Prelude.{⊤, not};
    ghost use Rattle.solver_examples.specs.Moves.{moving, moving_order, turn};
    ghost use Rattle.solver_examples.specs.MoveLaws.{moving_lawful, moving_ordered, moving_over, turn_edits};

    type L = Pairs;

    type Edit = Turn;

    ghost meaning = { λ s. moving s.turned };

    ghost lattices = { λ s _. s.pairs };

    ghost order = { λ _. moving_order };

    ghost change = { λ e. turn e.back };

    ghost is_edit = { λ s e. s.turned ≡ e.back };

    ghost next = { λ _ e. moving (not e.back) };

    ghost is_reserved = { λ _ _. ⊤ };

    fn unknowns(&self) -> &List<usize> {
        if self.turned {
            &self.rows[14]
        } else {
            &self.rows[13]
        }
    }

    fn keys(&self) -> &List<usize> {
        if self.turned {
            &self.rows[16]
        } else {
            &self.rows[15]
        }
    }

    fn lattice(&self, unknown: usize) -> &Pairs {
        &self.pairs
    }

    fn target(&self, key: usize) -> usize {
        target_of(key)
    }

    fn reads(&self, key: usize) -> &List<usize> {
        &self.rows[source_of(key) + 1]
    }

    fn readers(&self, unknown: usize) -> &List<usize> {
        let turned = self.turned;
        if unknown == 0 {
            if turned { &self.rows[1] } else { &self.rows[8] }
        } else if unknown == 1 {
            &self.rows[2]
        } else if unknown == 2 {
            if turned {
                &self.rows[10]
            } else {
                &self.rows[5]
            }
        } else if unknown == 3 {
            &self.rows[4]
        } else if unknown == 4 {
            &self.rows[6]
        } else {
            &self.rows[0]
        }
    }

    fn aiming(&self, unknown: usize) -> &List<usize> {
        let turned = self.turned;
        if unknown == 0 {
            &self.rows[0]
        } else if unknown == 1 {
            &self.rows[1]
        } else if unknown == 2 {
            if turned {
                &self.rows[11]
            } else {
                &self.rows[12]
            }
        } else if unknown == 3 {
            &self.rows[3]
        } else if unknown == 4 {
            &self.rows[5]
        } else {
            &self.rows[7]
        }
    }

    fn eval<C: Ledger>(
        &self,
        alloc: Global,
        key: usize,
        values: &Values<(bool, bool)>,
        steps: &mut Steps<C>,
    ) -> Result<(bool, bool), AllocError> {
        steps.tick();
        let held = values.get(source_of(key)).unwrap();
        if self.turned {
            Ok((key == 6 || held.0, key == 0 || held.1))
        } else {
            Ok((key == 0 || held.0, key == 2 || held.1))
        }
    }

    fn compare(&self, a: usize, b: usize) -> Ordering {
        place_of(a).cmp(&place_of(b))
    }

    fn gone<'a>(&'a self, edit: &'a Turn) -> &'a List<usize> {
        if edit.back {
            &self.rows[7]
        } else {
            &self.rows[9]
        }
    }

    fn added<'a>(&'a self, edit: &'a Turn) -> &'a List<usize> {
        if edit.back {
            &self.rows[9]
        } else {
            &self.rows[7]
        }
    }

    fn gone_unknowns<'a>(&'a self, edit: &'a Turn) -> &'a List<usize> {
        if edit.back {
            &self.rows[6]
        } else {
            &self.rows[4]
        }
    }

    fn added_unknowns<'a>(&'a self, edit: &'a Turn) -> &'a List<usize> {
        if edit.back {
            &self.rows[4]
        } else {
            &self.rows[6]
        }
    }

    fn fresh(
        &self,
        alloc: Global,
        edit: &Turn,
        unknown: usize,
    ) -> Result<(bool, bool), AllocError> {
        Ok((false, false))
    }

    fn renamed(&self, edit: &Turn) -> bool {
        true
    }

    fn shift(&self, edit: &Turn, value: &mut (bool, bool)) {
        *value = (value.1, value.0);
    }

    fn reserve(&mut self, edit: &Turn) -> Result<(), AllocError> {
        if edit.refused {
            return Err(AllocError);
        }
        Ok(())
    }

    fn commit(&mut self, edit: Turn) {
        self.turned = !edit.back;
    }

    ghost laws = { λ s. moving_lawful s.turned };

    ghost over = { λ s u _. moving_over s.turned u };

    ghost ordered = { λ s. moving_ordered s.turned };

    ghost edits = { λ s e here. turn_edits s.turned e.back here };
}

/// A number as a digit.
fn digit(number: usize) -> u8 {
    if number < 10 {
        b'0' + number as u8
    } else {
        b'+'
    }
}

/// A value as a byte: no value, no number in it, the number 0, the number 1, or both.
fn shown(value: Option<&(bool, bool)>) -> u8 {
    match value {
        None => b'-',
        Some((false, false)) => b'.',
        Some((true, false)) => b'0',
        Some((false, true)) => b'1',
        Some((true, true)) => b'2',
    }
}

/// Appends a line: the values of the unknowns 0 to 5, the keys of the steps, and how many keys wait.
fn show<P: Pick>(engine: &Engine<Moving, P>, text: &mut Vec<u8>) -> Result<(), AllocError> {
    for unknown in 0..6 {
        text.push(shown(engine.value(unknown)))?;
    }
    text.push(b' ')?;
    for (_target, key) in engine.trace().iter() {
        text.push(digit(key))?;
    }
    text.push(b' ')?;
    text.push(digit(engine.waiting()))?;
    text.push(b'\n')?;
    Ok(())
}

/// Settles, and appends a line.
fn settle_shown<P: Pick, C: Ledger>(
    engine: &mut Engine<Moving, P>,
    steps: &mut Steps<C>,
    text: &mut Vec<u8>,
) -> Result<(), AllocError> {
    if engine.settle(None, steps).is_err() {
        return Err(AllocError);
    }
    show(engine, text)
}

/// Makes the edit where the system is so turned that it is one, and appends a line, also where it is refused.
fn turn_shown<P: Pick>(
    engine: &mut Engine<Moving, P>,
    edit: Turn,
    text: &mut Vec<u8>,
) -> Result<(), AllocError> {
    if engine.system().turned != edit.back {
        return Err(AllocError);
    }
    if engine.reserve(&edit).is_ok() {
        engine.retract(edit);
    }
    show(engine, text)
}

/// Does what each byte of the script says, and appends a line for each: `s` settles, `v` visits once, `f` turns forth, `b`
/// back, and `r` is refused.
fn play<P: Pick, C: Ledger>(
    engine: &mut Engine<Moving, P>,
    script: &[u8],
    steps: &mut Steps<C>,
    text: &mut Vec<u8>,
) -> Result<(), AllocError> {
    for step in script {
        if *step == b's' {
            settle_shown(engine, steps, text)?;
        } else if *step == b'v' {
            engine.visit(steps)?;
            show(engine, text)?;
        } else {
            let edit = Turn {
                back: *step == b'b',
                refused: *step == b'r',
            };
            turn_shown(engine, edit, text)?;
        }
    }
    Ok(())
}

/// Solves the system, and plays the script.
fn played<P: Pick, C: Ledger>(
    alloc: Global,
    pick: P,
    script: &[u8],
    blank: Blank,
) -> Result<Vec<u8>, AllocError>
    requires name { blank.name ≡ C.name }
    requires parts { blank.parts ≡ C.parts }
    requires some { 0 < C.parts }
{
    let mut steps = Steps::<C>::new(blank);
    let mut text = Vec::new(alloc);
    let moving = Moving {
        turned: false,
        pairs: Pairs,
        rows: all_rows(alloc)?,
    };
    let mut engine = Engine::new(alloc, moving, pick)?;
    play(&mut engine, script, &mut steps, &mut text)?;
    Ok(text)
}

/// An edit is refused and leaves all; two are made while constraints wait, with no visit between them; and two at rest.
const SCRIPT: &[u8] = b"srfvbfsbs";

#[test]
fn the_first_pick_goes_with_the_queue(rt: HostRuntime) -> Result<(), Fail> {
    let text = played::<FirstPick, Brand>(rt.alloc(), FirstPick, SCRIPT, Blank::new(1))?;
    let want = b"\
.0212- 01234 0
.0212- 01234 0
.1.-.. 0 4
.11-.. 01 3
.00..- 01 4
.11-.. 01 3
.11-12 0146 0
.00.0- 014 2
.0212- 014234 0
";
    assert_eq!(rt; text.as_slice(), want.as_slice());
    Ok(())
}

#[test]
fn the_last_pick_leads_to_the_same_values(rt: HostRuntime) -> Result<(), Fail> {
    let text = played::<LastPick, Brand>(rt.alloc(), LastPick, SCRIPT, Blank::new(1))?;
    let want = b"\
.0212- 234014 0
.0212- 234014 0
.1.-.. 0 4
.1.-.. 0 3
.0...- 0 4
.1.-.. 0 3
.11-12 06146 0
.00.0- 014 2
.0212- 014234 0
";
    assert_eq!(rt; text.as_slice(), want.as_slice());
    Ok(())
}
