//! What a commit that was kept is known by.
ghost use Rattle.std.specs.Prelude.{◌≡◌};
ghost use Rattle.flow_commit.specs.Stamps.{IsLawful};

use crate::account::Account;
use flow_base::number::RunId;
use flow_base::submission::Receipt;
use std::marker::Model;
use unseen::Listed;

/// The stamp of one kept batch. A commit alone makes it, and it can't be dropped: whoever has it spends it or gives it up.
pub struct Stamp {
    pub(crate) number: u64,
    /// What the keeper had kept as the commit left it, for contracts alone: a list of one.
    pub(crate) account: Listed<Account>,
    /// The receipts of the batch, for contracts alone.
    pub(crate) own: Listed<Receipt>,
    /// The runs that the batch has closed: nothing of them is ever open again.
    pub(crate) closed: Vec<RunId>,
}

impl Model for Stamp {
    ghost use Rattle.flow_commit.specs.Stamps.{IsLawful, Stamped, stamped_code, only};

    ghost Value = { Stamped };

    ghost coded = { stamped_code };

    ghost view = { λ s. record { number = s.number; account = only s.account; own = s.own; closed = s.closed.items } };

    ghost invariant = { λ s. IsLawful (only s.account) };
}

impl Stamp {
    /// The place of the batch's last command among those kept since the store was opened, from 1 on.
    pub fn number(&self) -> u64
        ensures { result ≡ self.now.number }
    {
        self.number
    }

    /// The runs that the batch has closed.
    pub fn closed(&self) -> &[RunId]
        ensures { result.now ≡ self.now.closed }
    {
        self.closed.as_slice()
    }

    /// Spends the stamp where its receipts are published, and gives its number.
    pub fn spend(self) -> u64
        ensures number { result ≡ self.number }
        ensures lawful { IsLawful self.account }
    {
        let Stamp {
            number,
            account: _,
            own: _,
            closed: _closed,
        } = self;
        number
    }

    /// Gives the stamp up: its receipts are published nowhere.
    pub fn discard(self)
        ensures { IsLawful self.account }
    {
        let Stamp {
            number: _,
            account: _,
            own: _,
            closed: _closed,
        } = self;
    }
}
