ghost use Rattle.std.specs.Prelude.{ℕ};
ghost use Rattle.flow_cache.specs.declared.positions.Entry.{Entry as AnEntry};
ghost use Rattle.flow_cache.specs.Laws.{FoundHasIt, KeptHaveIt, UsedHaveIt};

/// What may hold of the position of a run: that it is where the run stands after a beginning of its history, say.
pub trait Rule {
    ghost holds: { ℕ → AnEntry → Type 0 };
}

/// What all positions have that are given to keep, whatever it is, has each that is found.
pub fn found_was_kept<R: Rule>()
    ensures found { FoundHasIt R.holds }
    ensures used { UsedHaveIt R.holds }
    ensures kept { KeptHaveIt R.holds }
{}
