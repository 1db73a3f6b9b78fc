ghost use Rattle.flow_check.specs.Language.{meaning_of};
ghost use Rattle.flow_machine.specs.Soundness.{ReadsWellFormed};
ghost use Rattle.flow_model.specs.Apply.{Rules, rules_of};
ghost use Rattle.flow_model.specs.World.{WorldIsSafe, WorldOpensWell};

/// Whatever commands and reports are submitted, however they are gathered, and wherever the engine stops: each book that a
/// stop may leave is sound, and is that of a beginning of the accepted commands that holds every acknowledged one.
pub fn world_is_safe()
    ensures safe { WorldIsSafe (rules_of meaning_of) }
    // Each opening takes over such a beginning.
    ensures opens { WorldOpensWell (rules_of meaning_of) }
    // The same under any rules by which each text that is a program is a well-formed one.
    ensures any_rules { (u : Rules) → ReadsWellFormed u → WorldIsSafe u }
{}
