//! The lines that were taken in, for contracts alone.
ghost use Rattle.std.specs.Prelude.{◌≡◌, [], ◌∷◌, ◌++◌};

use flow_base::text::RawText;
use std::snapshot::Snapshot;
use unseen::{Listed, Makes};

struct Nothing;

impl Makes<(), RawText> for Nothing {
    ghost use Rattle.std.specs.Prelude.{[]};

    ghost list = { λ _. [] };
}

struct OneMore;

impl Makes<(Listed<RawText>, Snapshot<Vec<u8>>), RawText> for OneMore {
    ghost use Rattle.std.specs.Prelude.{[], ◌∷◌, ◌++◌};

    ghost list = { λ p. p.0 ++ p.1.value.items ∷ [] };
}

/// None yet.
pub(crate) fn no_lines() -> Listed<RawText>
    ensures { result ≡ [] }
{
    Listed::of::<(), Nothing>(&())
}

/// The lines that were taken in, and one more.
pub(crate) fn with_line(lines: &Listed<RawText>, line: Snapshot<Vec<u8>>) -> Listed<RawText>
    ensures { result ≡ lines.now ++ line.value.items ∷ [] }
{
    let more = (lines.again(), line);
    Listed::of::<(Listed<RawText>, Snapshot<Vec<u8>>), OneMore>(&more)
}
