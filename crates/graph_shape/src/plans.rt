//! The steps that each rule makes of an entered position.
ghost use Rattle.std.specs.Prelude.{◌≡◌, ◌<◌, IfSome, Some, length, slice_get, option_and_then};
ghost use Rattle.graph_shape.specs.Steps.{steps_for};

use flow_term::List;
use rule_plans::Step;

/// For each control rule by its number the steps that it makes of an entered position, and those of a position that no rule matches.
#[derive(Drop)]
pub struct Plans {
    /// Of each rule, by its number.
    pub rules: List<List<Step>>,
    /// Where no rule matches.
    pub unmatched: List<Step>,
}

impl Plans {
    /// The steps of a position with this matching rule. A number without a rule has those of none.
    pub fn steps(&self, rule: Option<u32>) -> &[Step]
        ensures { result.now ≡ steps_for self.now rule }
    {
        match rule {
            None => self.unmatched.as_slice(),
            Some(number) => match self.rules.as_slice().get(number as usize) {
                None => self.unmatched.as_slice(),
                Some(steps) => steps.as_slice(),
            },
        }
    }
}
