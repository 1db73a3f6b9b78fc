ghost use Rattle.std.specs.Prelude.{◌≡◌, ◌<◌, ◌≤◌, length, slice_index};
ghost use Rattle.std.specs.List.{prefix_len};
ghost use Rattle.flow_model.specs.Tokens.{past_gap};
ghost use Rattle.flow_tokens.specs.Classes.{has};

use crate::run::{Class, first_byte, split_run};

/// What is left behind the blanks and comments at the front.
pub fn past_gap(text: &str) -> &str
    ensures value { result.now ≡ past_gap text.now }
    ensures shorter { length result.now ≤ length text.now }
{
    let mut rest = past_blanks(text);
    while first_byte(rest) == b'#' {
        rest = past_comment(rest);
    }
    rest
}

fn past_blanks(text: &str) -> &str
    ensures same { past_gap result.now ≡ past_gap text.now }
    ensures all { prefix_len (has Class.Blank) result.now ≡ 0 }
    ensures shorter { length result.now ≤ length text.now }
{
    let (_, after) = split_run(text, Class::Blank);
    after
}

/// What is left behind the comment at the front and the blanks after it.
fn past_comment(text: &str) -> &str
    requires { slice_index text.now 0 ≡ 35 }
    ensures same { past_gap result.now ≡ past_gap text.now }
    ensures all { prefix_len (has Class.Blank) result.now ≡ 0 }
    ensures shorter { length result.now < length text.now }
{
    let (_, line_end) = split_run(text, Class::Comment);
    past_blanks(line_end)
}
