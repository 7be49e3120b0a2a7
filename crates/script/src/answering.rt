// Answering the lines of a script.
ghost use Rattle.std.specs.Prelude.{◌≡◌, false, Some, None, IsSome};
ghost use Rattle.disk_slab.specs.View.{view};
ghost use Rattle.script.specs.Lines.{command_of};
ghost use Rattle.script.specs.Stages.{is_reload, seen, serving, capacity_of, words_of};
ghost use Rattle.script.specs.Answers.{Answers, Sizes, replied};
ghost use Rattle.script.specs.Turns.{Turns, turn_reply, after_turn};

use crate::command::Command;
use crate::console::Console;
use crate::line::read_line;
use crate::reply::Reply;
use crate::stage::Stage;
use disk_slab::{Cold, Live};
use slab_log::{Extent, Refusal, Size};
use store::LogStore;

impl<S: LogStore> Console<S> {
    // A console over a store, before the first line.
    pub fn new(store: S) -> Console<S>
        ensures { result.stage ≡ Some (Stage.Fresh store) }
    {
        Console {
            stage: Some(Stage::Fresh(store)),
        }
    }

    // The reply to the next line, which is given without its line feed.
    pub fn answer(&mut self, line: &[u8]) -> Reply
        ensures answers { Answers (seen S.LogStore self.old.stage) (command_of line.now) result (seen S.LogStore self.new.stage) }
    {
        let command = read_line(line);
        if let Some(next) = next_turn(&self.stage, command) {
            return turn(&mut self.stage, next);
        }
        match &mut self.stage {
            Some(Stage::Serving(live)) => serve(live, command).unwrap_or_else(Reply::No),
            Some(Stage::Refused(_)) => Reply::No(Refusal::BadLine),
            Some(Stage::Fresh(_)) => unreachable(),
            None => unreachable(),
        }
    }

    // The store, as the script has left it.
    pub fn finish(self) -> S
        ensures capacity { S.LogStore.capacity result ≡ capacity_of (seen S.LogStore self.stage) }
        ensures words { S.LogStore.words result ≡ words_of (seen S.LogStore self.stage) }
    {
        let Console { mut stage } = self;
        let _ = turn(&mut stage, Err(Refusal::BadLine));
        store_of(stage)
    }
}

// How a line leads to another stage: to a slab of this size, or to a refusal of every later line. Nothing where it does not.
fn next_turn<S: LogStore>(
    stage: &Option<Stage<S>>,
    command: Result<Command, Refusal>,
) -> Option<Result<Size, Refusal>>
    ensures { Turns (seen S.LogStore stage.now) command result }
{
    match (stage, command) {
        (Some(Stage::Fresh(_)), first) => Some(first_size(first)),
        (Some(Stage::Serving(live)), Ok(Command::Reload)) => Some(Ok(live.size())),
        _ => None,
    }
}

// The size that a first line asks for.
fn first_size(command: Result<Command, Refusal>) -> Result<Size, Refusal>
    ensures { Sizes command result }
{
    match command {
        Ok(Command::Size(sectors)) => Size::new(sectors),
        _ => Err(Refusal::BadLine),
    }
}

// Leads to the next stage. `finish` calls it too, so that the compiler keeps its large frame out of `answer`.
fn turn<S: LogStore>(stage: &mut Option<Stage<S>>, next: Result<Size, Refusal>) -> Reply
    requires { IsSome stage.old }
    ensures standing { IsSome stage.new }
    ensures reply { result ≡ turn_reply next }
    ensures leaves { seen S.LogStore stage.new ≡ after_turn (seen S.LogStore stage.old) next }
{
    let store = store_of(stage.take());
    match next {
        Ok(size) => {
            put(stage, Stage::Serving(Cold::open(store, size).load()));
            Reply::Done
        }
        Err(refusal) => {
            put(stage, Stage::Refused(store));
            Reply::No(refusal)
        }
    }
}

// The store of a stage, whose slab is closed.
fn store_of<S: LogStore>(stage: Option<Stage<S>>) -> S
    requires { IsSome stage }
    ensures capacity { S.LogStore.capacity result ≡ capacity_of (seen S.LogStore stage) }
    ensures words { S.LogStore.words result ≡ words_of (seen S.LogStore stage) }
{
    match stage {
        Some(Stage::Fresh(store)) => store,
        Some(Stage::Refused(store)) => store,
        Some(Stage::Serving(live)) => live.close(),
        None => unreachable(),
    }
}

// Puts a stage in where none stands. By `replace`, as a stage is linear and cannot be overwritten.
fn put<S: LogStore>(stage: &mut Option<Stage<S>>, next: Stage<S>)
    requires { stage.old ≡ None }
    ensures { stage.new ≡ Some next }
{
    match stage.replace(next) {
        None => {}
        Some(_stage) => unreachable(),
    }
}

// The reply to a line on a slab, which stays where it is.
#[tactic(auto, using(crate::proofs::Answered::refusal_replied, crate::proofs::Answered::refused_line, crate::proofs::Answered::sized_again, crate::proofs::Answered::no_such_extent, crate::proofs::Answered::allocated, crate::proofs::Answered::freed, crate::proofs::Answered::condensed, crate::proofs::Answered::shown))]
fn serve<S: LogStore>(
    live: &mut Live<S>,
    command: Result<Command, Refusal>,
) -> Result<Reply, Refusal>
    requires { is_reload command ≡ false }
    ensures { Answers (serving (view S.LogStore live.old)) command (replied result) (serving (view S.LogStore live.new)) }
{
    Ok(match command? {
        Command::Size(_) => return Err(Refusal::BadLine),
        Command::Allocate(want) => Reply::At(live.allocate(want)?.start),
        Command::Free { start, length } => {
            live.free(Extent::new(start, length)?)?;
            Reply::Done
        }
        Command::Condense => Reply::Words(live.condense()?),
        Command::Figures => Reply::Figures(live.figures()),
        Command::Reload => unreachable(),
    })
}
