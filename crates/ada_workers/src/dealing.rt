//! How threads are dealt among workers, and what each worker does.
ghost use Rattle.std.specs.Prelude.{◌≡◌, ℕ, ◌<◌, ◌^◌, length};
ghost use denote.Param.Send.{IsSync, IsSend};
ghost use Rattle.ada_workers.specs.Deals.{AllReady, AllRan, AreNumbered, IsShare, AreDealt};

use ada_port::Pulse;
use run_plan::{Range, even};
use std::marker::{Send, Sync};
use std::thread::{Threads, join_mut};

/// What a worker does one after the other.
pub(crate) trait Duty {
    ghost number: { Self → ℕ };

    ghost ready: { Self → Type 0 };

    ghost ran: { Self → Self → Type 0 };

    fn run<U: Pulse>(&mut self, pulse: &U)
        requires { ready self.old }
        ensures { ran self.old self.new };
}

/// The workers from `from` on and before `to`, of so many among which so many duties are dealt.
#[derive(Clone, Copy)]
pub(crate) struct Deal {
    pub duties: u64,
    pub workers: u32,
    pub from: u32,
    pub to: u32,
}

// What a worker does: its duties, in order.
fn work<T: Duty, U: Pulse>(_share: Range, pulse: &U, tasks: &mut [T])
    requires share { IsShare T.number _share tasks.old }
    requires ready { AllReady T.ready tasks.old }
    ensures { AllRan T.ran tasks.old tasks.new }
{
    for k in 0..tasks.len() {
        tasks[k].run(pulse);
    }
}

// A worker whose thread is begun by a thread that was itself just begun waits for both to come up. So a thread begins up to
// so many workers' threads itself, one right after the other, and gives away parts of more.
const SPREAD: u32 = 4;

// How many of several workers go to the next new thread.
fn given_away(workers: u32) -> u32
    requires { 1 < workers }
    ensures { (0 < result) × (result < workers) }
{
    1 + (workers - 1) / SPREAD
}

// Some of the workers go to a new thread, where one can be made, and then some of those that are left.
#[cycle(dealt)]
fn run_dealt<R: Threads + Sync, T: Duty + Send, U: Pulse + Sync>(
    rt: &R,
    pulse: &U,
    deal: Deal,
    tasks: &mut [T],
)
    requires dealt { AreDealt T.number deal tasks.old }
    requires ready { AllReady T.ready tasks.old }
    ensures { AllRan T.ran tasks.old tasks.new }
{
    let share = even(deal.duties, deal.workers, deal.from);
    if deal.to - deal.from == 1 {
        work(share, pulse, tasks);
        return;
    }
    let middle = deal.from + given_away(deal.to - deal.from);
    let up = even(deal.duties, deal.workers, middle);
    let (front, back) = tasks.split_at_mut((up.first - share.first) as usize);
    let low = Deal { to: middle, ..deal };
    let high = Deal {
        from: middle,
        ..deal
    };
    run_both(rt, pulse, low, front, high, back);
}

// A function of its own, so that what the closures require is what it is given.
#[cycle(dealt)]
fn run_both<R: Threads + Sync, T: Duty + Send, U: Pulse + Sync>(
    rt: &R,
    pulse: &U,
    low: Deal,
    front: &mut [T],
    high: Deal,
    back: &mut [T],
)
    requires low { AreDealt T.number low front.old × AllReady T.ready front.old }
    requires high { AreDealt T.number high back.old × AllReady T.ready back.old }
    ensures low { AllRan T.ran front.old front.new }
    ensures high { AllRan T.ran back.old back.new }
{
    let mut one = ||
        requires { IsSync R.row × IsSync U.row × IsSend T.row × AreDealt T.number low front.now × AllReady T.ready front.now }
        ensures { AllRan T.ran front.entry.now front.exit.now }
    { run_dealt(rt, pulse, low, front) };
    let mut other = ||
        requires { IsSync R.row × IsSync U.row × IsSend T.row × AreDealt T.number high back.now × AllReady T.ready back.now }
        ensures { AllRan T.ran back.entry.now back.exit.now }
    { run_dealt(rt, pulse, high, back) };
    join_mut(rt, &mut one, &mut other);
}

/// Does the duties on so many workers, or on as many as there are duties: worker number i does, in order, those that even
/// division gives to part i. Where no thread can be made, a worker does another's work too.
pub(crate) fn run_duties<R: Threads + Sync, T: Duty + Send, U: Pulse + Sync>(
    rt: &R,
    tasks: &mut [T],
    workers: u32,
    pulse: &U,
)
    requires some { 0 < workers }
    requires many { length tasks.old < 2 ^ 32 }
    requires numbered { AreNumbered T.number 0 tasks.old }
    requires ready { AllReady T.ready tasks.old }
    ensures { AllRan T.ran tasks.old tasks.new }
{
    let duties = tasks.len() as u32;
    if duties == 0 {
        return;
    }
    let workers = workers.min(duties);
    let deal = Deal {
        duties: u64::from(duties),
        workers,
        from: 0,
        to: workers,
    };
    run_dealt(rt, pulse, deal, tasks);
}
