// The interface of a store.
ghost use Rattle.std.specs.Prelude.{◌≡◌, length, is_ok};
ghost use Rattle.words.specs.Writes.{a_write};
ghost use Rattle.store.specs.StoreModel.{StoreModel, Bounded, has_space, read_at, staged_on, sealed_up, dropped, pruned_to};

use words::changes::Change;

/// A store holds as many records as it can.
#[derive(Clone, Copy, PartialEq, Eq, Debug)]
pub struct NoSpace;

/// A store keeps the changes of items in versions, so that an item can be read as an earlier version has it.
pub trait Store {
    // What the store holds.
    ghost model: { Self → StoreModel };

    /// The version that was sealed last.
    fn version(&self) -> u32
        ensures { result ≡ (model self.now).version };

    /// How many records the store can hold, sealed and staged.
    fn capacity(&self) -> u32
        ensures { result ≡ (model self.now).capacity };

    /// How many sealed records the store holds.
    fn sealed_count(&self) -> u32
        ensures { result ≡ length (model self.now).sealed };

    /// How many staged records the store holds.
    fn staged_count(&self) -> u32
        ensures { result ≡ length (model self.now).staged };

    /// The value of `item` as version `at` has it, or none where it is absent.
    fn read(&self, item: u32, at: u32) -> Option<i32>
        ensures { result ≡ read_at (model self.now) item at };

    /// Adds a change to the version that is being made; or alters nothing where there is no space.
    fn stage(&mut self, item: u32, change: Change) -> Result<(), NoSpace>
        ensures answer { is_ok result ≡ has_space (model self.old) }
        ensures after { model self.new ≡ staged_on (model self.old) (a_write item change) };

    /// Makes the staged changes the next version, also when there are none. At version 268,435,455 it alters nothing.
    fn seal(&mut self)
        ensures { model self.new ≡ sealed_up (model self.old) };

    /// Removes the staged changes.
    fn drop_staged(&mut self)
        ensures { model self.new ≡ dropped (model self.old) };

    /// Removes each sealed record that a later one of its item, of version at most `to`, replaces.
    fn prune(&mut self, to: u32)
        ensures { model self.new ≡ pruned_to to (model self.old) };

    ghost bounded: { (s : Self) → Bounded (model s) };
}
