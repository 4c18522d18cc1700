//! The parts of a line, with blanks between them.
ghost use Rattle.std.specs.Prelude.{◌≡◌, ◌≤◌, length, drop, take};
ghost use Rattle.std.specs.List.{prefix_len, suffix_len};
ghost use Rattle.flow_script.specs.Forms.{first_part, is_blank, is_part, other_parts, trimmed, unindented};

/// The line without the blanks round it.
pub fn trim(line: &[u8]) -> &[u8]
    ensures { result.now ≡ trimmed line.now }
{
    let rest = behind_blanks(line);
    front(rest, rest.len() - last_blanks(rest))
}

/// What stands before the first blank.
pub fn first(text: &[u8]) -> &[u8]
    ensures { result.now ≡ first_part text.now }
{
    front(text, part_len(text))
}

/// What follows the first part and the blanks behind it.
pub fn others(text: &[u8]) -> &[u8]
    ensures { result.now ≡ other_parts text.now }
{
    behind_blanks(behind(text, part_len(text)))
}

/// The text without the blanks in front.
fn behind_blanks(text: &[u8]) -> &[u8]
    ensures { result.now ≡ unindented text.now }
{
    behind(text, first_blanks(text))
}

/// How many bytes stand before the first blank.
fn part_len(text: &[u8]) -> usize
    ensures len { result ≡ prefix_len is_part text.now }
    ensures within { result ≤ length text.now }
{
    text.iter()
        .take_while(|byte| **byte != b' ' && **byte != b'\t')
        .count()
}

/// How many blanks stand in front.
fn first_blanks(text: &[u8]) -> usize
    ensures len { result ≡ prefix_len is_blank text.now }
    ensures within { result ≤ length text.now }
{
    text.iter()
        .take_while(|byte| **byte == b' ' || **byte == b'\t')
        .count()
}

/// How many blanks stand at the end.
fn last_blanks(text: &[u8]) -> usize
    ensures len { result ≡ suffix_len is_blank text.now }
    ensures within { result ≤ length text.now }
{
    text.iter()
        .rev()
        .take_while(|byte| **byte == b' ' || **byte == b'\t')
        .count()
}

fn front(text: &[u8], len: usize) -> &[u8]
    requires { len ≤ length text.now }
    ensures { result.now ≡ take len text.now }
{
    &text[..len]
}

fn behind(text: &[u8], len: usize) -> &[u8]
    requires { len ≤ length text.now }
    ensures { result.now ≡ drop len text.now }
{
    &text[len..]
}
