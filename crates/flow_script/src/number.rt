//! Numbers of one to nineteen digits.
ghost use Rattle.std.specs.Prelude.{◌≡◌, ◌<◌, ◌≤◌, length, true};
ghost use Rattle.std.specs.Char.{is_ascii_digit};
ghost use Rattle.std.specs.List.{list_all};
ghost use Rattle.std.specs.Str.Parse.{digits_value};
ghost use Rattle.flow_script.specs.inner.Answers.{AnswersNumber};

/// The number that one to nineteen digits write. Nothing where the text isn't that.
pub fn read_number(text: &[u8]) -> Option<u64>
    ensures { AnswersNumber text.now result }
{
    if text.is_empty() || text.len() > 19 || !are_digits(text) {
        return None;
    }
    Some(number_of(text))
}

fn are_digits(text: &[u8]) -> bool
    ensures { result ≡ list_all is_ascii_digit text.now }
{
    text.iter().all(|byte| byte.is_ascii_digit())
}

/// The number that these digits write.
#[tactic(auto, using(crate::proofs::Numbers::are_utf8))]
fn number_of(digits: &[u8]) -> u64
    requires digits { list_all is_ascii_digit digits.now ≡ true }
    requires some { 0 < length digits.now }
    requires few { length digits.now ≤ 19 }
    ensures { result ≡ digits_value 10 digits.now }
{
    let Ok(text) = str::from_utf8(digits) else {
        unreachable!()
    };
    match text.parse::<u64>() {
        Ok(number) => number,
        Err(_) => unreachable!(),
    }
}
