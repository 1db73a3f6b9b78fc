ghost use Rattle.flow_check.specs.Language.{meaning_of};
ghost use Rattle.flow_machine.specs.Awaiting.{ActivitiesComplete, ActivitiesFail, ClosedWaitsOnNothing, TimersFire};
ghost use Rattle.flow_machine.specs.Limits.{ChangesWithinLimits};
ghost use Rattle.flow_machine.specs.Soundness.{NoBookIsOrderly, NoBookIsSound, NoTextUnread, OrderlyAfter, ReadsWellFormed, SoundAfter, SoundDecides, TextsReadAfter};
ghost use Rattle.flow_machine.specs.Welcome.{ChangesWelcome, ReadsShort, StuckUnnumbered};
ghost use Rattle.flow_model.specs.Apply.{rules_of};

/// Commands lead from a book in which nothing is recorded, and from any sound book, to sound books alone.
pub fn sound_after()
    ensures nothing { NoBookIsSound }
    ensures after { SoundAfter }
    // The rules of the product are such rules.
    ensures language { ReadsWellFormed (rules_of meaning_of) }
{}

/// Over such books each command can be decided, unless the store refuses or the numbers of texts or runs have ended.
pub fn sound_decides()
    ensures nothing { NoTextUnread }
    ensures after { TextsReadAfter }
    ensures decides { SoundDecides }
    // What would be numbered past the last one is the change that the command makes.
    ensures unnumbered { StuckUnnumbered }
{}

/// Commands lead from a book in which nothing is recorded, and from any orderly book, to orderly books alone: they store no text
/// but programs, and no request starts a second run.
pub fn orderly_after()
    ensures nothing { NoBookIsOrderly }
    ensures after { OrderlyAfter }
{}

/// What commands record of a sound book is such as rows take: at most 256 arguments, 1 to 20 attempts, a pause of at most a day;
/// and no run that is there is started again.
pub fn changes_fit()
    ensures { ChangesWithinLimits }
{}

/// A run waits on what its standing history leaves open: each open activity can complete or fail, each open timer can fire,
/// and a closed run has neither.
pub fn open_waits_end()
    ensures completes { ActivitiesComplete }
    ensures fails { ActivitiesFail }
    ensures fires { TimersFire }
    ensures closed { ClosedWaitsOnNothing }
{}

/// Whatever the book, a command stores a text only where it is a program that isn't there yet, starts a run of a text that is
/// there alone, and puts a turn to a run that is there.
pub fn changes_are_welcome()
    ensures welcome { ChangesWelcome }
    // A text that is a program by the rules of the product is short.
    ensures short { ReadsShort (rules_of meaning_of) }
{}
