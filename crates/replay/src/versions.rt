// Whole versions, put into any store.
ghost use Rattle.std.specs.Prelude.{◌≡◌, ℕ, ◌+◌, ◌<◌, true, ◌++◌, is_ok};
ghost use Rattle.replay.specs.Versions.{do_fit, put_in};
ghost use Rattle.store.specs.Laws.{rewritten};
ghost use Rattle.store.specs.StoreModel.{read_at};

use store::api::{NoSpace, Store};
use words::changes::Write;

/// Stages the writes behind those that are staged already, and seals them all as the next version; or drops all that is
/// staged, where there is no space for the writes.
pub fn put_version<S: Store>(store: &mut S, writes: &[Write]) -> Result<(), NoSpace>
    ensures answer { is_ok result ≡ do_fit (S.model store.old) writes.now }
    ensures after { S.model store.new ≡ put_in (S.model store.old) writes.now }
    ensures reads { is_ok result ≡ true → (S.model store.old).version < 268435455 → (i : ℕ) → read_at (S.model store.new) i ((S.model store.old).version + 1) ≡ rewritten i ((S.model store.old).staged ++ writes.now) (read_at (S.model store.old) i (S.model store.old).version) }
{
    for write in writes {
        if let Err(full) = store.stage(write.item, write.change) {
            store.drop_staged();
            return Err(full);
        }
    }
    store.seal();
    Ok(())
}
