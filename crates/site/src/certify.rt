// Certification: which entries above a snapshot write an item that an edit writes.
ghost use Rattle.std.specs.Prelude.{◌≡◌, ◌≤◌};
ghost use Rattle.account.specs.Account.{meets};
ghost use Rattle.logs.specs.LogModel.{last_version, entry_at};
ghost use Rattle.site.specs.Calls.{writes_in};
ghost use Rattle.site.specs.Certify.{clash_above};

use account::certify::has_item;
use logs::api::Log;
use words::changes::Write;

// Whether the entry of a version writes an item of these, by the log's answers up to the first that does. To gather the writes
// first and to ask `any` of them made a delivery over 240 versions twelve times as slow.
fn does_meet<L: Log>(log: &L, version: u32, writes: &[Write]) -> bool
    ensures { result ≡ meets (writes_in (entry_at (L.Log.model log.now) version)) writes.now }
{
    for number in 0..16 {
        let Some(write) = log.write(version, number) else {
            return false;
        };
        if has_item(writes, write.item) {
            return true;
        }
    }
    false
}

// The lowest version above the snapshot whose entry writes an item of these. The account looks through its commits by itself.
pub(crate) fn find_clash<L: Log>(log: &L, snapshot: u32, writes: &[Write]) -> Option<u32>
    requires { snapshot ≤ last_version (L.Log.model log.now) }
    ensures { result ≡ clash_above (L.Log.model log.now) snapshot writes.now }
{
    let first = snapshot.max(log.floor()) + 1;
    (first..log.last() + 1).find(|version| does_meet(log, *version, writes))
}
