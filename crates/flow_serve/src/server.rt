//! The thread that keeps: it takes what was submitted to a hub, commits it and answers it.
ghost use Rattle.std.specs.Prelude.{◌≡◌, ◌≤◌, true, false, [], List, IfErr, OnOk, MatchResult};
ghost use Rattle.std.specs.Vec.{vec_capacity};
ghost use Rattle.flow_base.specs.declared.fault.Fault.{Fault as AFault};
ghost use Rattle.flow_base.specs.declared.submission.Taken.{Taken as ATaken};
ghost use Rattle.flow_commit.specs.Calls.{BoardSays};
ghost use Rattle.flow_commit.specs.Keeping.{account_of};
ghost use Rattle.flow_commit.specs.Shutting.{AreKnown, AreOver};
ghost use Rattle.flow_hub.specs.Knowing.{IsBefore};
ghost use Rattle.flow_engine.specs.Boarding.{IsStill};
ghost use Rattle.flow_serve.specs.Posting.{HasNoBoard, HasTurn, IsKnown, LetsGo, Posts, PostsOne, SkipsFor};
ghost use Rattle.flow_hub.specs.Publishing.{InHand, IsDone, TakesAll, Together};
ghost use Rattle.flow_engine.specs.Answering.{Follows};
ghost use Rattle.flow_serve.specs.Serving.{EndsFor, GivesUp, HasAnswered, HasServed, ServesBoarded, StopsAt, StopsFor, TurnsAway};

use flow_base::code::Code;
use flow_base::fault::Fault;
use flow_base::number::Moment;
use flow_base::submission::Taken;
use flow_base::task::Posted;
use flow_commit::batch::Batch;
use flow_commit::board::Board;
use flow_commit::outcome::Outcome;
use flow_engine::engine::Engine;
use flow_hub::publisher::Publisher;
use flow_hub::seats::Room;
use flow_timers::Clock;
use flow_timers::pause::Pause;
use sqlite::Alter;
use std::alloc::Global;
use std::collections::BTreeSet;
use std::sync::Wait;
use std::time;

/// An empty list with room for so many. It is asked for again until it is there, each time after a longer pause.
fn list_with_room<R: Wait + time::Clock>(rt: &R, alloc: Global, most: usize) -> Vec<Taken>
    ensures none { result.items ≡ [] }
    ensures room { most ≤ vec_capacity result }
{
    let mut pause = Pause::new();
    for _ in rt.forever() {
        if let Ok(list) = Vec::with_capacity(alloc, most) {
            return list;
        }
        pause.wait(rt);
    }
    unreachable!()
}

/// Commits what was taken, and answers it: by receipts, or by the code for which it isn't kept.
fn commit_taken<S: Alter, B: Room, R: Wait>(
    rt: &R,
    engine: &mut Engine<S>,
    publisher: &mut Publisher<B>,
    batch: Batch,
) -> Result<(), Fault>
    requires hand { InHand (account_of S.Store engine.old) publisher.old batch }
    ensures together { Together (account_of S.Store engine.new) publisher.new }
    ensures goes_on { OnOk result ((engine.old.halted ≡ false) × (engine.new.halted ≡ false)) }
    ensures given_up { OnOk result (GivesUp publisher.old.refused publisher.new.refused) }
    ensures stops { IfErr result (λ f. StopsAt engine.old engine.new publisher.old.refused publisher.new.refused batch f) }
    // It was committed, and this has become of it, with what stands behind E80.
    ensures answered { HasAnswered S.Store engine.old engine.new publisher.old.refused publisher.new.refused batch }
    ensures posted { publisher.new.posted ≡ publisher.old.posted }
    ensures skipped { publisher.new.skipped ≡ publisher.old.skipped }
    ensures takes { publisher.new.takes ≡ publisher.old.takes }
    ensures ended { publisher.new.ended ≡ publisher.old.ended }
    ensures found { engine.new.found ≡ engine.old.found }
    ensures still { engine.new.posted ≡ engine.old.posted }
    // The runs whose keys are let go of are over.
    ensures lets_go { LetsGo S.Store engine.new publisher.old.gone publisher.new.gone }
    ensures follows { Follows S.Store engine.old engine.new }
    ensures grows { IsBefore publisher.old publisher.new }
{
    match engine.commit(batch) {
        Outcome::Kept(receipts, stamp) => {
            // If memory was refused, the keys of some runs stay: that costs room and nothing else.
            let _left = publisher.publish(rt, receipts, stamp);
            Ok(())
        }
        Outcome::NotApplied(back, fault) => {
            publisher.refuse(rt, back.into_taken(), fault.code());
            Ok(())
        }
        Outcome::Unknown(back, _fault) => {
            publisher.refuse(rt, back.into_taken(), Code::Unknown);
            Err(Fault::Unknown)
        }
        Outcome::Halted(back) => {
            publisher.refuse(rt, back.into_taken(), Code::Halted);
            Err(Fault::Halted)
        }
    }
}

/// A board: behind another one of this publisher's it looks at what is new since then alone.
fn ask_board<S: Alter>(
    engine: &mut Engine<S>,
    posted: &BTreeSet<Posted>,
    at: Moment,
    again: bool,
) -> Result<Board, Fault>
    requires still { again ≡ true → engine.old.halted ≡ false → AreKnown S.Store engine.old posted.now.keys }
    ensures { BoardSays S.Store posted.now.keys at engine.old engine.new result }
{
    if again {
        engine.next_board(posted, at)
    } else {
        engine.board(posted, at)
    }
}

/// Makes a board and posts it, or says why there is none.
fn try_board<S: Alter, B: Room, R: Wait, C: Clock>(
    rt: &R,
    engine: &mut Engine<S>,
    publisher: &mut Publisher<B>,
    clock: &C,
    again: bool,
) -> Result<(), Fault>
    requires together { Together (account_of S.Store engine.old) publisher.old }
    requires known { again ≡ true → IsKnown S.Store engine.old publisher.old.posted publisher.old.gone }
    ensures together { Together (account_of S.Store engine.new) publisher.new }
    ensures known { IsKnown S.Store engine.new publisher.new.posted publisher.new.gone }
    ensures boarded { OnOk result (publisher.new.boarded ≡ true) }
    ensures tried { AreOver S.Store engine.old publisher.old.gone → MatchResult result
        (λ _. PostsOne S.Store (C.tells clock.now) engine.new publisher.old.posted publisher.new.posted)
        (λ f. (publisher.new.posted ≡ publisher.old.posted) × HasNoBoard S.Store engine.old engine.new f) }
    ensures posts { AreOver S.Store engine.old publisher.old.gone
        → Posts S.Store (C.tells clock.now) engine.new publisher.old.posted publisher.new.posted }
    ensures gone { publisher.new.gone ≡ publisher.old.gone }
    ensures still { IsStill S.Store engine.old engine.new }
    ensures refused { publisher.new.refused ≡ publisher.old.refused }
    ensures skipped { publisher.new.skipped ≡ publisher.old.skipped }
    ensures takes { publisher.new.takes ≡ publisher.old.takes }
    ensures ended { publisher.new.ended ≡ publisher.old.ended }
    ensures grows { IsBefore publisher.old publisher.new }
{
    match ask_board(engine, publisher.posted(), clock.now(), again) {
        Ok(board) => match publisher.post(rt, board) {
            Ok(()) => Ok(()),
            Err((_board, refused)) => Err(Fault::from(refused)),
        },
        Err(fault) => Err(fault),
    }
}

/// Posts a board behind what is kept, which looks at what is new since another one if there was one. One that can't be made or posted
/// is tried once more, and then there is none this time.
fn post_board<S: Alter, B: Room, R: Wait, C: Clock>(
    rt: &R,
    engine: &mut Engine<S>,
    publisher: &mut Publisher<B>,
    clock: &C,
    again: bool,
)
    requires together { Together (account_of S.Store engine.old) publisher.old }
    requires known { again ≡ true → IsKnown S.Store engine.old publisher.old.posted publisher.old.gone }
    ensures together { Together (account_of S.Store engine.new) publisher.new }
    ensures known { IsKnown S.Store engine.new publisher.new.posted publisher.new.gone }
    ensures boarded { publisher.new.boarded ≡ true }
    // One was made and posted, or it was skipped for two faults that are told of this engine, one of each time that it was refused.
    ensures turn { AreOver S.Store engine.old publisher.old.gone
        → HasTurn S.Store (C.tells clock.now) engine.old engine.new publisher.old.posted publisher.new.posted
        publisher.old.skipped publisher.new.skipped }
    ensures posts { AreOver S.Store engine.old publisher.old.gone
        → Posts S.Store (C.tells clock.now) engine.new publisher.old.posted publisher.new.posted }
    ensures gone { publisher.new.gone ≡ publisher.old.gone }
    ensures still { IsStill S.Store engine.old engine.new }
    ensures refused { publisher.new.refused ≡ publisher.old.refused }
    ensures takes { publisher.new.takes ≡ publisher.old.takes }
    ensures ended { publisher.new.ended ≡ publisher.old.ended }
    ensures grows { IsBefore publisher.old publisher.new }
{
    let Err(first) = try_board(rt, engine, publisher, clock, again) else {
        return;
    };
    let Err(last) = try_board(rt, engine, publisher, clock, true) else {
        return;
    };
    publisher.skip(rt, &first);
    publisher.skip(rt, &last);
}

/// Answers what is submitted until the hub is closed and nothing waits, or a batch halts the engine. A board is posted first and
/// behind each batch. The first list is given.
fn serve_all<S: Alter, B: Room, R: Wait + time::Clock, C: Clock>(
    rt: &R,
    engine: &mut Engine<S>,
    publisher: &mut Publisher<B>,
    clock: &C,
    first: Vec<Taken>,
    most: usize,
) -> Result<(), Fault>
    requires together { Together (account_of S.Store engine.old) publisher.old }
    requires most { (1 ≤ most) × (most ≤ 64) }
    requires room { (first.items ≡ []) × (most ≤ vec_capacity first) }
    ensures together { Together (account_of S.Store engine.new) publisher.new }
    ensures done { OnOk result (IsDone publisher.new) }
    ensures ended { publisher.new.ended ≡ publisher.old.ended }
    ensures goes_on { OnOk result (engine.new.halted ≡ engine.old.halted) }
    ensures given_up { OnOk result (GivesUp publisher.old.refused publisher.new.refused) }
    ensures stops { IfErr result
        (λ f. (waiting : List ATaken) × StopsFor engine.old engine.new publisher.old.refused publisher.new.refused waiting f) }
    ensures served { HasServed S.Store engine.old engine.new publisher.old.refused publisher.new.refused [] }
    // A board was asked for before each batch, and behind the last one that doesn't halt the engine.
    ensures boards { AreOver S.Store engine.old publisher.old.gone → MatchResult result
        (λ _. ServesBoarded S.Store (C.tells clock.now) engine.old engine.new publisher.old.refused publisher.new.refused []
        publisher.old.posted publisher.new.posted publisher.old.skipped publisher.new.skipped 1)
        (λ _. ServesBoarded S.Store (C.tells clock.now) engine.old engine.new publisher.old.refused publisher.new.refused []
        publisher.old.posted publisher.new.posted publisher.old.skipped publisher.new.skipped 0) }
    ensures whole { TakesAll most publisher.old publisher.new }
    ensures posts { AreOver S.Store engine.old publisher.old.gone
        → Posts S.Store (C.tells clock.now) engine.new publisher.old.posted publisher.new.posted }
    ensures over { AreOver S.Store engine.old publisher.old.gone → AreOver S.Store engine.new publisher.new.gone }
    ensures found { engine.new.found ≡ engine.old.found }
    ensures follows { Follows S.Store engine.old engine.new }
    ensures grows { IsBefore publisher.old publisher.new }
{
    let mut taken = first;
    post_board(rt, engine, publisher, clock, false);
    for _ in rt.forever() {
        if !publisher.take(rt, &mut taken, most) {
            return Ok(());
        }
        commit_taken(rt, engine, publisher, Batch::of(taken))?;
        post_board(rt, engine, publisher, clock, true);
        taken = list_with_room(rt, engine.alloc(), most);
    }
    unreachable!()
}

/// Takes nothing more in, and answers all that waits that the engine has halted: E85. There is no board any more, for this fault.
fn turn_away<B: Room, R: Wait + time::Clock>(
    rt: &R,
    alloc: Global,
    publisher: &mut Publisher<B>,
    most: usize,
    fault: &Fault,
)
    requires none { publisher.old.held ≡ [] }
    requires most { (1 ≤ most) × (most ≤ 64) }
    ensures done { IsDone publisher.new }
    ensures ended { publisher.new.ended ≡ true }
    ensures none { publisher.new.held ≡ [] }
    ensures history { (publisher.new.history ≡ publisher.old.history) × (publisher.new.last ≡ publisher.old.last) }
    ensures gone { publisher.new.gone ≡ publisher.old.gone }
    ensures posted { publisher.new.posted ≡ publisher.old.posted }
    ensures skipped { SkipsFor fault.now publisher.old.skipped publisher.new.skipped }
    ensures whole { TakesAll most publisher.old publisher.new }
    ensures turned { (waiting : List ATaken) × TurnsAway publisher.old.refused publisher.new.refused waiting }
    ensures grows { IsBefore publisher.old publisher.new }
{
    publisher.close(rt);
    for _ in rt.forever() {
        let mut taken = list_with_room(rt, alloc, most);
        publisher.skip(rt, fault);
        if !publisher.take(rt, &mut taken, most) {
            return;
        }
        publisher.refuse(rt, taken, Code::Halted);
    }
    unreachable!()
}

/// Serves a hub: takes up to `most` submissions, commits them together and answers them, until the hub is closed and nothing
/// waits. A batch that isn't applied is answered E80 or E01, and it goes on. Behind a batch of which nobody knows whether it
/// is kept, which is answered E84, it closes the hub and answers all that waits E85, as it does over an engine that had
/// halted before.
///
/// Before anything is taken, and behind each batch that doesn't halt the engine, what the book gives out by the clock is posted.
/// A board that can't be made or posted, E80 or E01, is tried once more, and then skipped until the next batch, which a thread that
/// waits by `Submitter::next_tick` brings within a minute.
///
/// By the caller's condition the publisher has published what the engine has kept, as it is of an engine that has kept no
/// batch since it was opened and a publisher that has published none. What is posted is said for a publisher whose runs that are gone,
/// if there are any, are over for this engine: one that has published nothing has none, and after serving it is so.
///
/// # Failure
/// E01 before anything is taken: the hub is closed, and all that waits is answered E85. Room for later lists is asked for
/// until it is there. E84, and E85 where the engine had halted before.
pub fn serve<S: Alter, B: Room, R: Wait + time::Clock, C: Clock>(
    engine: &mut Engine<S>,
    rt: &R,
    publisher: &mut Publisher<B>,
    clock: &C,
    most: usize,
) -> Result<(), Fault>
    requires together { Together (account_of S.Store engine.old) publisher.old }
    requires most { (1 ≤ most) × (most ≤ 64) }
    // At the end the hub's history is what the keeper has kept, and all that was submitted is answered.
    ensures together { Together (account_of S.Store engine.new) publisher.new }
    ensures done { IsDone publisher.new }
    // It was closed before the call, or since then by whoever has the hub: the publisher hasn't closed it.
    ensures closed { OnOk result (publisher.new.ended ≡ publisher.old.ended) }
    // Behind a fault it doesn't wait for somebody else to close it: the publisher has closed it.
    ensures closes { IfErr result (λ _. publisher.new.ended ≡ true) }
    ensures goes_on { OnOk result (engine.new.halted ≡ engine.old.halted) }
    ensures given_up { OnOk result (GivesUp publisher.old.refused publisher.new.refused) }
    ensures stops { IfErr result
        (λ f. (waiting : List ATaken) × EndsFor engine.old engine.new publisher.old.refused publisher.new.refused waiting f) }
    // What was taken was committed batch by batch, each over the book that those before it left, and nothing else changes the book:
    // so it says what is kept, what a stop leaves, and what stands behind each E80.
    ensures served { MatchResult result
        (λ _. HasServed S.Store engine.old engine.new publisher.old.refused publisher.new.refused [])
        (λ _. (waiting : List ATaken) × HasServed S.Store engine.old engine.new publisher.old.refused publisher.new.refused waiting) }
    // A board was asked for before each batch, and behind the last one that doesn't halt the engine: it was posted, or it was refused twice,
    // for E01, E85 of an engine that had halted, or E80, and that no more often than the store has failed, if nothing else holds it back.
    // Each such fault is one that the publisher was told of, so an E01 is one that an allocator has answered. Behind a fault that ends
    // serving there is no board, for that one.
    ensures boards { AreOver S.Store engine.old publisher.old.gone → MatchResult result
        (λ _. ServesBoarded S.Store (C.tells clock.now) engine.old engine.new publisher.old.refused publisher.new.refused []
        publisher.old.posted publisher.new.posted publisher.old.skipped publisher.new.skipped 1)
        (λ f. (waiting : List ATaken) × (missed : List AFault)
        × ServesBoarded S.Store (C.tells clock.now) engine.old engine.new publisher.old.refused publisher.new.refused waiting
        publisher.old.posted publisher.new.posted publisher.old.skipped missed 0 × SkipsFor f missed publisher.new.skipped) }
    // What waited was taken together: `most` at once, or all.
    ensures whole { TakesAll most publisher.old publisher.new }
    // All that is posted is what boards of the kept book name, each made behind a beginning of what is kept, at a moment of the clock.
    ensures posts { AreOver S.Store engine.old publisher.old.gone
        → Posts S.Store (C.tells clock.now) engine.new publisher.old.posted publisher.new.posted }
    // Of runs that are over nothing is posted any more, and their keys aren't kept: where that was so of this engine, it is.
    ensures over { AreOver S.Store engine.old publisher.old.gone → AreOver S.Store engine.new publisher.new.gone }
    ensures found { engine.new.found ≡ engine.old.found }
    ensures follows { Follows S.Store engine.old engine.new }
    ensures grows { IsBefore publisher.old publisher.new }
{
    match Vec::with_capacity(engine.alloc(), most) {
        Ok(first) => match serve_all(rt, engine, publisher, clock, first, most) {
            Ok(()) => Ok(()),
            Err(fault) => {
                turn_away(rt, engine.alloc(), publisher, most, &fault);
                Err(fault)
            }
        },
        Err(refused) => {
            let fault = Fault::from(refused);
            turn_away(rt, engine.alloc(), publisher, most, &fault);
            Err(fault)
        }
    }
}
