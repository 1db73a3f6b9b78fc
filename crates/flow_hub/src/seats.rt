//! The table of the published word, and its seats.
ghost use Rattle.std.specs.Prelude.{ℕ, ◌≡◌, ◌≢◌, ◌+◌, ◌≤◌, ◌^◌, ◌⊎◌, true, length, Some, IfOk};
ghost use Rattle.atomic_table.specs.Table.{Splits};
ghost use Rattle.flow_hub.specs.Knowing.{IsBefore, IsSamePart, with_member};
ghost use Rattle.flow_hub.specs.Seating.{IsRoomOf, Kept, opener, nobody, lent, adding, admitting, keeps_left, handed_back, hands_left, handed_over, keeping, seeing, owed_after, IsApart, IsKeepers, IsOwing, Knows};

use crate::known::HubFacts;
use atomic_table::{Join, Play, Seat, Split, Table, TableRule};
use std::alloc::{AllocError, Global};
use std::marker::{Brand, Model, PhantomData};
use std::mem;
use std::sync::ledger::{Blank, Book, Ledger, Share};

/// How many parts the ledger of a hub has, one for each submitter that it gives.
pub(crate) const PARTS: u64 = 1 << 62;

/// What a seat knows. No value of it is made.
pub struct Sight {
    /// It is the one under the lock: it knows all, and may add what is submitted.
    pub keeps: bool,
    /// With the one under the lock, it may add to the history.
    pub pubs: bool,
    /// With the one under the lock, it may give tasks out.
    pub gives: bool,
    /// The submitter's number that it has, and no other seat.
    pub member: Option<u64>,
    /// The submitter's number that a seat had which it met, and which is another one.
    pub met: Option<u64>,
    /// How many answers are owed to it, and not fetched.
    pub owed: u64,
    pub all: HubFacts,
    /// What was seen last.
    pub was: HubFacts,
}

/// Names one hub: its table, and the ledger of its tickets. A program picks it once, with `Brand`.
pub trait Room: Ledger {
    ghost use Rattle.atomic_table.specs.Seated.{TableId};

    ghost table: { TableId };
}

impl Room for Brand {
    ghost use Rattle.flow_hub.specs.Seating.{no_table};

    ghost table = { no_table };
}

/// The rule of the table.
pub struct Law;

impl TableRule<HubFacts, Sight, ()> for Law {
    ghost use Rattle.flow_hub.specs.Seating.{Kept, opener};

    ghost holds = { λ _. Kept };

    ghost first = { λ _. opener };
}

struct Store;

impl Play<HubFacts, Sight> for Store {
    ghost use Rattle.flow_hub.specs.Seating.{Adds};

    ghost then = { Adds };
}

struct Admit;

impl Play<HubFacts, Sight> for Admit {
    ghost use Rattle.flow_hub.specs.Seating.{Admits};

    ghost then = { Admits };
}

struct Look;

impl Play<HubFacts, Sight> for Look {
    ghost use Rattle.flow_hub.specs.Seating.{Looks};

    ghost then = { Looks };
}

struct Enter;

impl Play<HubFacts, Sight> for Enter {
    ghost use Rattle.std.specs.Prelude.{◌≡◌};
    ghost use Rattle.flow_hub.specs.Seating.{nobody};

    ghost then = { λ s v n w. w.0 ≡ nobody };
}

struct Lend;

impl Join<Sight> for Lend {
    ghost use Rattle.flow_hub.specs.Seating.{lent, nobody};

    ghost both = { lent };

    ghost spent = { nobody };
}

struct Back;

impl Split<Sight> for Back {
    ghost use Rattle.flow_hub.specs.Seating.{keeps_left, handed_back};

    ghost left = { keeps_left };

    ghost right = { handed_back };
}

struct Hands;

impl Split<Sight> for Hands {
    ghost use Rattle.flow_hub.specs.Seating.{hands_left, handed_over};

    ghost left = { hands_left };

    ghost right = { handed_over };
}

/// What a hub is made of before it has a name. `Hub::new` takes it under the one that its caller has picked.
pub struct Opened {
    table: Table<HubFacts, Sight, (), Law, Global>,
    seat: Seat<HubFacts, Sight>,
    blank: Blank,
}

impl Model for Opened {
    ghost use Rattle.std.specs.Prelude.{◌≡◌, ◌^◌, []};
    ghost use Rattle.flow_hub.specs.Seating.{Naming, naming_code, opener};

    ghost Value = { Naming };

    ghost coded = { naming_code };

    ghost view = { λ o. record { table = o.table.shared.table_id; name = o.blank.name; parts = o.blank.parts } };

    ghost invariant = { λ o. (o.table.shared.table_id.words ≡ 1) × (o.table.shared.table_id.slots ≡ 0) × (o.seat.table_id ≡ o.table.shared.table_id) × (o.seat.me ≡ (opener, [])) × (o.blank.parts ≡ 2 ^ 62) };
}

/// The word that publishes the history's length.
#[derive(Drop)]
pub(crate) struct HubTable<B: Room> {
    table: Table<HubFacts, Sight, (), Law, Global>,
    of: PhantomData<B>,
    ghost named: { table.shared.table_id ≡ B.table },
    ghost one_word: { table.shared.table_id.words ≡ 1 },
    ghost no_slot: { table.shared.table_id.slots ≡ 0 },
}

/// A seat at the table. To a contract it is what it knows.
#[derive(Drop)]
pub(crate) struct Pass<B: Room> {
    seat: Seat<HubFacts, Sight>,
    of: PhantomData<B>,
}

impl<B: Room> Model for Pass<B> {
    ghost use Rattle.std.specs.Prelude.{◌≡◌, []};
    ghost use Rattle.flow_hub.specs.declared.seats.Sight.{Sight};
    ghost use Rattle.flow_hub.specs.Seating.{sight_code};

    ghost Value = { Sight };

    ghost coded = { sight_code };

    ghost view = { λ p. p.seat.me.0 };

    ghost invariant = { λ p. (p.seat.table_id ≡ B.table) × (p.seat.me.1 ≡ []) };
}

/// What a hub is made of under its name.
pub(crate) struct Named<B: Room> {
    pub seats: HubTable<B>,
    pub seat: Pass<B>,
    pub tickets: Book<B>,
    pub share: Share<B>,
}

impl Opened {
    /// A table of one word and no place for a value, and a ledger with a part for each submitter.
    pub fn new(alloc: Global) -> Result<Opened, AllocError>
        ensures { IfOk result (λ o. (o.table.words ≡ 1) × (o.table.slots ≡ 0) × (o.parts ≡ 2 ^ 62)) }
    {
        let (table, seat) = Table::of_words(alloc, &[0], &())?;
        Ok(Opened {
            table,
            seat,
            blank: Blank::new(PARTS),
        })
    }

    /// Under a name, with the one seat that keeps, publishes and gives out.
    pub(crate) fn named<B: Room>(self) -> Named<B>
        requires room { IsRoomOf self B.table B.name B.parts }
        ensures seat { result.seat ≡ opener }
        ensures tickets { result.tickets.total ≡ 0 }
        ensures share { (result.share.parts ≡ 2 ^ 62) × (result.share.amount ≡ 0) }
        ensures parts { B.parts ≡ 2 ^ 62 }
    {
        let Opened { table, seat, blank } = self;
        let (tickets, share) = blank.open::<B>();
        Named {
            seats: HubTable {
                table,
                of: PhantomData,
            },
            seat: Pass {
                seat,
                of: PhantomData,
            },
            tickets,
            share,
        }
    }
}

impl<B: Room> HubTable<B> {
    /// A seat that has seen nothing.
    pub(crate) fn enter(&self) -> Pass<B>
        ensures { result ≡ nobody }
    {
        let (_, seat) = self.table.shared.load_new_seat::<Enter>(0);
        Pass {
            seat,
            of: PhantomData,
        }
    }

    /// The seat, in whose place one that has seen nothing is left.
    pub(crate) fn leave(&self, seat: &mut Pass<B>) -> Pass<B>
        ensures { (result ≡ seat.old) × (seat.new ≡ nobody) }
    {
        mem::replace(seat, self.enter())
    }

    /// The length of the history. What is then seen begins with what was seen.
    pub(crate) fn look(&self, me: &mut Pass<B>) -> u64
        ensures length { result ≡ length me.new.was.history }
        ensures grows { IsBefore me.old.was me.new.was }
        ensures same { (me.new.keeps ≡ me.old.keeps) × (me.new.pubs ≡ me.old.pubs) × (me.new.gives ≡ me.old.gives) }
        ensures number { (me.new.member ≡ me.old.member) × (me.new.met ≡ me.old.met) }
        ensures owed { me.new.owed ≡ me.old.owed }
        ensures apart { IsApart me.new }
    {
        self.table.shared.load::<Look>(&mut me.seat, 0)
    }

    /// A part of what one seat has goes to a seat of its own.
    fn split<M: Split<Sight>>(&self, mine: &mut Pass<B>) -> Pass<B>
        requires may { (by : ℕ) → Splits Kept by mine.old (M.left mine.old) (M.right mine.old) }
        ensures { (mine.new ≡ M.left mine.old) × (result ≡ M.right mine.old) }
    {
        let seat = self.table.shared.split_seat::<M>(&mut mine.seat);
        Pass {
            seat,
            of: PhantomData,
        }
    }

    /// A seat is lent what another saw, which is spent.
    fn lend(&self, mine: &mut Pass<B>, other: Pass<B>)
        ensures { mine.new ≡ lent mine.old other }
    {
        let Pass { seat, of: _ } = other;
        self.table.shared.join_seat::<Lend>(&mut mine.seat, seat);
    }

    /// What was lent goes back.
    pub(crate) fn back(&self, keeper: &mut Pass<B>) -> Pass<B>
        ensures { (keeper.new ≡ keeps_left keeper.old) × (result ≡ handed_back keeper.old) }
    {
        self.split::<Back>(keeper)
    }

    /// Giving out goes to a seat of its own, with the number of a submitter if there is one.
    pub(crate) fn hands(&self, keeper: &mut Pass<B>) -> Pass<B>
        ensures { (keeper.new ≡ hands_left keeper.old) × (result ≡ handed_over keeper.old) }
    {
        self.split::<Hands>(keeper)
    }

    /// The seat under the lock adds to what is known, and publishes the history's length.
    fn store(&self, keeper: &mut Pass<B>, old: u64, new: u64, all: &HubFacts)
        requires keeps { keeper.old.keeps ≡ true }
        requires may { (keeper.old.pubs ≡ true) ⊎ IsSamePart all.now keeper.old.all }
        requires may_give { (keeper.old.gives ≡ true) ⊎ (all.now.given ≡ keeper.old.all.given) }
        requires grows { IsBefore keeper.old.all all.now }
        requires lengths { (length keeper.old.all.history ≡ old) × (length all.now.history ≡ new) }
        requires owing { IsOwing keeper.old.owed keeper.old.all all.now }
        ensures added { keeper.new ≡ adding keeper.old all.now }
        ensures knows { Knows keeper.old }
    {
        self.table
            .shared
            .compare_exchange_with::<Store>(&mut keeper.seat, 0, old, new, all);
    }

    /// The seat under the lock adds one submitter more, and has its number.
    fn number(&self, keeper: &mut Pass<B>, places: u64, all: &HubFacts)
        requires keeps { keeper.old.keeps ≡ true }
        requires one_more { all.now ≡ with_member keeper.old.all }
        requires length { length all.now.history ≡ places }
        ensures { keeper.new ≡ admitting keeper.old all.now }
    {
        self.table
            .shared
            .compare_exchange_with::<Admit>(&mut keeper.seat, 0, places, places, all);
    }

    /// Under the lock: one submitter more is known of, and a seat has its number, which no other has or had.
    pub(crate) fn admit(&self, keeper: &mut Pass<B>, places: u64, all: &HubFacts) -> Pass<B>
        requires keeps { IsKeepers keeper.old }
        requires one_more { all.now ≡ with_member keeper.old.all }
        requires length { length all.now.history ≡ places }
        ensures keeper { IsKeepers keeper.new × (keeper.new.all ≡ all.now) }
        ensures badge { result.member ≡ Some keeper.old.all.members }
    {
        self.number(keeper, places, all);
        self.hands(keeper)
    }

    /// Two seats that have a submitter's number have two numbers. The other one is spent.
    pub(crate) fn meet(&self, mine: &mut Pass<B>, other: Pass<B>)
        ensures same { mine.new.member ≡ mine.old.member }
        ensures apart { (n : ℕ) → other.member ≡ Some n → mine.old.member ≢ Some n }
    {
        self.lend(mine, other);
        self.look(mine);
    }

    /// Under the lock: what is known becomes `all`, the word the length of its history, and the seat that asks is told of it. What was
    /// submitted since is owed to it, and no more what was fetched.
    pub(crate) fn told(
        &self,
        keeper: &mut Pass<B>,
        me: Pass<B>,
        old: u64,
        new: u64,
        all: &HubFacts,
    ) -> Pass<B>
        requires keeps { IsKeepers keeper.old }
        requires may { (me.pubs ≡ true) ⊎ IsSamePart all.now keeper.old.all }
        requires may_give { (me.gives ≡ true) ⊎ (all.now.given ≡ keeper.old.all.given) }
        requires grows { IsBefore keeper.old.all all.now }
        requires lengths { (length keeper.old.all.history ≡ old) × (length all.now.history ≡ new) }
        requires owing { IsOwing me.owed keeper.old.all all.now }
        ensures keeper { keeper.new ≡ keeping all.now }
        ensures told { result ≡ seeing me.pubs me.gives (owed_after me.owed keeper.old.all all.now) all.now }
        ensures before { IsBefore me.was keeper.old.all }
        ensures same { me.pubs ≡ true → IsSamePart me.was keeper.old.all }
        ensures given { me.gives ≡ true → me.was.given ≡ keeper.old.all.given }
        ensures owed { me.owed + keeper.old.all.fetched ≤ length keeper.old.all.asked }
    {
        self.lend(keeper, me);
        self.store(keeper, old, new, all);
        self.back(keeper)
    }

    /// The same where nothing was submitted and no answer fetched.
    pub(crate) fn tell(
        &self,
        keeper: &mut Pass<B>,
        me: Pass<B>,
        old: u64,
        new: u64,
        all: &HubFacts,
    ) -> Pass<B>
        requires keeps { IsKeepers keeper.old }
        requires may { (me.pubs ≡ true) ⊎ IsSamePart all.now keeper.old.all }
        requires may_give { (me.gives ≡ true) ⊎ (all.now.given ≡ keeper.old.all.given) }
        requires grows { IsBefore keeper.old.all all.now }
        requires lengths { (length keeper.old.all.history ≡ old) × (length all.now.history ≡ new) }
        requires asked { all.now.asked ≡ keeper.old.all.asked }
        requires fetched { all.now.fetched ≡ keeper.old.all.fetched }
        ensures keeper { keeper.new ≡ keeping all.now }
        ensures told { result ≡ seeing me.pubs me.gives me.owed all.now }
        ensures before { IsBefore me.was keeper.old.all }
        ensures same { me.pubs ≡ true → IsSamePart me.was keeper.old.all }
        ensures given { me.gives ≡ true → me.was.given ≡ keeper.old.all.given }
    {
        self.told(keeper, me, old, new, all)
    }
}
