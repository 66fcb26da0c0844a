//! The top call.

ghost use Rattle.std.specs.Prelude.{map, string_bytes};
ghost use Rattle.ada_port.specs.Ports.{IsTold};
ghost use Rattle.top_call.specs.Answer.{Answers, outside};
ghost use Rattle.top_call.specs.Headline.{Headline};

use crate::run::{Given, answer_request, answer_soak};
use ada_port::{Pulse, Shelf, Sink, Source};
use command_words::{Mode, WordsFault, read};
use run_reports::{say_out_of_memory, say_usage};
use std::alloc::Global;
use std::thread::Threads;

/// The status as a number, with the input and out as they were left.
#[derive(Drop)]
pub struct Finished<I: Source + Drop, O: Sink + Drop> {
    pub status: u8,
    pub input: I,
    pub out: O,
}

fn answer_words<
    R: Threads + Sync,
    F: Shelf,
    I: Source + Drop,
    O: Sink + Drop,
    E: Sink,
    P: Pulse + Sync,
>(
    rt: &R,
    alloc: Global,
    words: &[String],
    shelf: &mut F,
    input: I,
    out: O,
    err: &mut E,
    pulse: &P,
) -> Given<I, O>
    ensures { Answers ((s : I) → IsTold (I.state s)) ((s : O) → IsTold (O.state s)) (map string_bytes words.now) result.status
        (outside (F.state shelf.old) (I.state input) (O.state out) (E.state err.old))
        (outside (F.state shelf.new) (I.state result.input) (O.state result.out) (E.state err.new)) }
{
    match read(alloc, words) {
        Ok(request) => match request.mode {
            Mode::Soak(statements) => {
                answer_soak(rt, alloc, request, statements, input, out, err, pulse)
            }
            _ => answer_request(rt, alloc, request, shelf, input, out, err, pulse),
        },
        Err(WordsFault::Usage) => {
            let status = say_usage(err);
            Given { status, input, out }
        }
        Err(WordsFault::OutOfMemory) => {
            let status = say_out_of_memory(err);
            Given { status, input, out }
        }
    }
}

/// Does what the words ask for, and gives the status, with the input and out as they were left: 0 where the run ended
/// normally or the text is accepted, 1 where the text is refused, 2 where the words are wrong, 3 for a fault of the shelf,
/// 4 where an exception is unhandled, 5 where the turns are spent, 6 for a fault of the input, 7 for a fault of out or err,
/// and 8 for want of memory.
///
/// The words are `MODE FILE [--workers N] [--chunks PLAN] [--turns K] [--vars]`, where MODE is `check`, `run` or `list`, or
/// `soak` with a number in the place of FILE. The text, which is fetched, or in a soak stated, is compiled and run. There is an
/// input on which the manual permits, under the plan and so many workers, a run that ends so, with these final variables: the
/// one that the input tells, where it tells, of which what that run didn't take is left. Where out tells, the bytes written
/// are that run's, and where `--vars` stands there and the run ended normally, a line for each final variable behind them; in a
/// soak they are four lines on that run, after a normal end alone. Where no device failed, and the run ended by itself and left
/// no parallel construct early or had one worker, it is the only one: status and bytes are a function of text, input, plan and
/// limit. Where no device failed and the sequential run on that input is calm, it is that run; and where a fault or want of
/// memory stopped the run, its output is a prefix of that run's. A line to err says why the status isn't 0. Once a device has
/// failed it is not asked again. The threads of outermost parallel constructs run on so many workers as the words say, and the
/// pulse is told of each thread that begins.
///
/// `Headline` has a field for each of these claims.
pub fn run_words<
    R: Threads + Sync,
    F: Shelf,
    I: Source + Drop,
    O: Sink + Drop,
    E: Sink,
    P: Pulse + Sync,
>(
    rt: &R,
    alloc: Global,
    words: &[String],
    shelf: &mut F,
    input: I,
    out: O,
    err: &mut E,
    pulse: &P,
) -> Finished<I, O>
    ensures { Headline ((s : I) → IsTold (I.state s)) ((s : O) → IsTold (O.state s)) (map string_bytes words.now) result.status
        (outside (F.state shelf.old) (I.state input) (O.state out) (E.state err.old))
        (outside (F.state shelf.new) (I.state result.input) (O.state result.out) (E.state err.new)) }
{
    let Given { status, input, out } = answer_words(
        rt, alloc, words, shelf, input, out, err, pulse,
    );
    Finished {
        status: status.number(),
        input,
        out,
    }
}
