// The calls of a store as values.
ghost use Rattle.std.specs.Prelude.{◌≡◌, length};
ghost use Rattle.replay.specs.Calls.{answer_of, after_call};

use store::api::{NoSpace, Store};
use words::changes::Change;

/// A call that a store answers or that changes it. It is a value, since one list of them, drawn at random, is made at two
/// stores: a closure would hold one store's type.
#[derive(Clone, Copy)]
pub enum Call {
    Read { item: u32, at: u32 },
    Stage { item: u32, change: Change },
    Seal,
    DropStaged,
    Prune { to: u32 },
}

/// What a call answers.
#[derive(Clone, Copy, PartialEq, Eq, Debug)]
pub enum Answer {
    Value(Option<i32>),
    Staged(Result<(), NoSpace>),
    Done,
}

/// Makes one call.
pub fn apply<S: Store>(store: &mut S, call: Call) -> Answer
    ensures answer { result ≡ answer_of (S.model store.old) call }
    ensures after { S.model store.new ≡ after_call (S.model store.old) call }
{
    match call {
        Call::Read { item, at } => Answer::Value(store.read(item, at)),
        Call::Stage { item, change } => Answer::Staged(store.stage(item, change)),
        Call::Seal => {
            store.seal();
            Answer::Done
        }
        Call::DropStaged => {
            store.drop_staged();
            Answer::Done
        }
        Call::Prune { to } => {
            store.prune(to);
            Answer::Done
        }
    }
}

/// What the questions answer.
#[derive(Clone, Copy, PartialEq, Eq, Debug)]
pub struct Counts {
    pub version: u32,
    pub capacity: u32,
    pub sealed: u32,
    pub staged: u32,
}

/// Asks all four questions.
pub fn count<S: Store>(store: &S) -> Counts
    ensures version { result.version ≡ (S.model store.now).version }
    ensures capacity { result.capacity ≡ (S.model store.now).capacity }
    ensures sealed { result.sealed ≡ length (S.model store.now).sealed }
    ensures staged { result.staged ≡ length (S.model store.now).staged }
{
    Counts {
        version: store.version(),
        capacity: store.capacity(),
        sealed: store.sealed_count(),
        staged: store.staged_count(),
    }
}
