//! What a stamp tells of the keeper that made it, for contracts alone.
use std::marker::Model;

/// What a keeper has kept: the book that was found when it was made, and the receipts since. No value of it is made: lists of it, which
/// exist in contracts alone, hold any.
pub struct Account {
    made: (),
}

impl Model for Account {
    ghost use Rattle.flow_commit.specs.Accounts.{Accounted, account_code, no_account};

    ghost Value = { Accounted };

    ghost coded = { account_code };

    ghost view = { λ _. no_account };
}
