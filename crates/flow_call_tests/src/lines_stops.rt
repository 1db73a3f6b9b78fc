//! Commands that are given up, or that have no answer.
use crate::lines_deciding::over_lists;
use flow_base::code::Code;
use flow_base::command::Command;
use flow_base::fault::Fault;
use flow_lines::batch::BatchSize;
use flow_lines::drive::drive_lines;
use flow_lines::fault::{fault_of_stop, status};
use flow_lines::streams::{Reading, Writing};
use flow_model::answer::{Answer, Answering, Stop, Together};
use std::alloc::Global;
use std::test::Fail;

/// Answers as another does, but for one batch.
#[derive(Drop)]
struct Failing<E> {
    inner: E,
    /// How many batches come before that one.
    before: u64,
    /// Why it isn't answered: without a stop it is given up, with E80.
    stop: Option<Stop>,
}

impl<E: Answering + Drop> Answering for Failing<E> {
    ghost use Rattle.std.proofs.Common.{inl, inr};
    ghost use Rattle.std.specs.Prelude.{◌≡◌, ◌⊎◌};
    ghost use Rattle.flow_base.specs.declared.code.Code.TheVariants.{StoreRefused};

    ghost rules = { E.rules };

    ghost book = { λ s. E.book s.inner };

    ghost is_sure = { λ s. E.is_sure s.inner };

    ghost follows = { λ a b. E.follows a.inner b.inner };

    // The other one has given them up, or this one has, with E80.
    ghost gives_up = { λ a s b cs k. E.gives_up a.inner s.inner b cs k ⊎ (k ≡ StoreRefused) };

    ghost failures = { λ s. E.failures s.inner };

    ghost excuses = { λ a s b cs. Unit {0} };

    ghost stops = { λ a s b cs k. Unit {0} };

    ghost follows_self = { λ a. E.follows_self a.inner };

    ghost gives_up_still = { λ a b c k cs code on. elim [
      | inl inside ↦ inl (E.gives_up_still a.inner b.inner c.inner k cs code on inside)
      | inr here ↦ inr here
    ] };

    ghost gives_up_since = { λ a b c k cs code on later. elim [
      | inl inside ↦ inl (E.gives_up_since a.inner b.inner c.inner k cs code on later inside)
      | inr here ↦ inr here
    ] };

    ghost failures_still = { λ a b. E.failures_still a.inner b.inner };

    ghost excused_or_failed = { λ a b k cs sure given. inl tt };

    ghost excuses_still = { λ a b c k cs sure on it. it };

    ghost excuses_since = { λ a b c k cs sure on later it. it };

    fn answer(&mut self, command: Command) -> Result<Answer, Stop> {
        if self.before == 0 {
            self.before = u64::MAX;
            return match self.stop {
                Some(stop) => Err(stop),
                None => Ok(Answer::NotApplied(Code::StoreRefused)),
            };
        }
        self.before -= 1;
        match self.inner.answer(command) {
            Ok(Answer::Replied(reply)) => Ok(Answer::Replied(reply)),
            Ok(Answer::NotApplied(code)) => Ok(Answer::NotApplied(code)),
            Err(stop) => Err(stop),
        }
    }

    fn answer_together(&mut self, commands: Vec<Command>) -> Result<Together, Stop> {
        if self.before == 0 {
            self.before = u64::MAX;
            return match self.stop {
                Some(stop) => Err(stop),
                None => Ok(Together::NotApplied(Code::StoreRefused)),
            };
        }
        self.before -= 1;
        match self.inner.answer_together(commands) {
            Ok(Together::Replied(replies)) => Ok(Together::Replied(replies)),
            Ok(Together::NotApplied(code)) => Ok(Together::NotApplied(code)),
            Err(stop) => Err(stop),
        }
    }
}

/// The status that lines ended with.
fn ended_with(outcome: &Result<u8, Fault>) -> u8 {
    match outcome {
        Ok(done) => *done,
        Err(fault) => status(fault),
    }
}

/// The final status, with the batch behind so many others given up or without an answer, where this is written.
fn failed_at(
    alloc: Global,
    most: u64,
    before: u64,
    stop: Option<Stop>,
    input: &[u8],
    wanted: &[u8],
) -> Option<u8> {
    let mut written = Vec::new(alloc);
    let mut engine = Failing {
        inner: over_lists(alloc),
        before,
        stop,
    };
    let outcome = drive_lines(
        alloc,
        &mut engine,
        &mut Reading::new(input),
        &mut Writing::new(&mut written),
        BatchSize::new(most)?,
    );
    if written.as_slice() == wanted {
        Some(ended_with(&outcome))
    } else {
        None
    }
}

#[test]
fn a_command_that_is_given_up_changes_nothing(rt: HostRuntime) -> Result<(), Fail> {
    let a = rt.alloc();
    let register =
        b"{\"do\":\"register\",\"src\":\"workflow a() {}\"}\n{\"do\":\"register\",\"src\":\"workflow b() {}\"}\n";
    assert_eq!(rt;
        failed_at(
            a,
            1,
            0,
            None,
            register,
            b"{\"code\":\"E80\",\"reply\":\"not applied\"}\n{\"reply\":\"registered\",\"text\":1}\n"
        ),
        Some(3)
    );
    assert_eq!(rt;
        failed_at(
            a,
            1,
            1,
            None,
            b"{\"do\":\"history\",\"run\":1}\nx\n{\"do\":\"history\",\"run\":1}\n",
            b"{\"code\":\"E70\",\"reply\":\"refused\"}\n{\"code\":\"E02\",\"reply\":\"refused\"}\n{\"code\":\"E80\",\"reply\":\"not applied\"}\n"
        ),
        Some(3)
    );
    Ok(())
}

const STOPS: [(Stop, Fault); 2] = [
    (Stop::Unknown, Fault::Unknown),
    (Stop::Halted, Fault::Halted),
];

#[test]
fn a_stop_ends_it(rt: HostRuntime) -> Result<(), Fail> {
    for (stop, fault) in STOPS {
        assert_eq!(rt;
            failed_at(
                rt.alloc(),
                1,
                1,
                Some(stop),
                b"{\"do\":\"history\",\"run\":1}\nx\n{\"do\":\"history\",\"run\":1}\n{\"do\":\"history\",\"run\":1}\n",
                b"{\"code\":\"E70\",\"reply\":\"refused\"}\n{\"code\":\"E02\",\"reply\":\"refused\"}\n"
            ),
            Some(3)
        );
        assert!(rt; fault_of_stop(stop) == fault);
    }
    Ok(())
}

#[test]
fn a_batch_is_given_up_as_a_whole(rt: HostRuntime) -> Result<(), Fail> {
    assert_eq!(rt;
        failed_at(
            rt.alloc(),
            2,
            1,
            None,
            b"{\"do\":\"history\",\"run\":1}\n{\"do\":\"register\",\"src\":\"workflow a() {}\"}\nx\n{\"do\":\"history\",\"run\":1}\nx\n{\"do\":\"register\",\"src\":\"workflow b() {}\"}\n{\"do\":\"register\",\"src\":\"workflow c() {}\"}\n",
            b"{\"code\":\"E70\",\"reply\":\"refused\"}\n{\"reply\":\"registered\",\"text\":1}\n{\"code\":\"E02\",\"reply\":\"refused\"}\n{\"code\":\"E80\",\"reply\":\"not applied\"}\n{\"code\":\"E02\",\"reply\":\"refused\"}\n{\"code\":\"E80\",\"reply\":\"not applied\"}\n{\"reply\":\"registered\",\"text\":2}\n"
        ),
        Some(3)
    );
    Ok(())
}

#[test]
fn a_stop_leaves_its_batch_without_a_line(rt: HostRuntime) -> Result<(), Fail> {
    assert_eq!(rt;
        failed_at(
            rt.alloc(),
            2,
            1,
            Some(Stop::Unknown),
            b"{\"do\":\"history\",\"run\":1}\nx\n{\"do\":\"history\",\"run\":1}\nx\n{\"do\":\"history\",\"run\":1}\nx\n{\"do\":\"history\",\"run\":1}\n",
            b"{\"code\":\"E70\",\"reply\":\"refused\"}\n{\"code\":\"E02\",\"reply\":\"refused\"}\n{\"code\":\"E70\",\"reply\":\"refused\"}\n{\"code\":\"E02\",\"reply\":\"refused\"}\n"
        ),
        Some(3)
    );
    Ok(())
}
