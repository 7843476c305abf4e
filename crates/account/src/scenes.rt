// Scenes: what the commits leave of each item.
ghost use Rattle.std.specs.Prelude.{OnOk};
ghost use Rattle.account.specs.SceneMaps.{InOrder, Only, Overlaid};

use crate::certify::Kept;
use std::alloc::AllocError;
use std::collections::BTreeMap;
use words::changes::{Change, Write};

/// An item's value, and the version that set it.
#[derive(Clone, Copy, PartialEq, Eq, Debug)]
pub struct Placed {
    pub value: i32,
    pub version: u32,
}

/// The items that are present, by rising item.
pub type Scene = BTreeMap<u32, Placed>;

// Carries out one write of a version.
fn put(scene: &mut Scene, write: Write, version: u32) -> Result<(), AllocError>
    requires { InOrder scene.old }
    ensures { OnOk result (Only scene.old scene.new version write) }
{
    match write.change {
        Change::Set(value) => {
            scene.insert(write.item, Placed { value, version })?;
        }
        Change::Remove => {
            let _ = scene.remove(&write.item);
        }
    }
    Ok(())
}

// Carries out the writes of a version, one after another.
pub(crate) fn put_all(scene: &mut Scene, writes: &[Write], version: u32) -> Result<(), AllocError>
    requires { InOrder scene.old }
    ensures { OnOk result (Overlaid scene.old scene.new version writes.now) }
{
    for write in writes {
        put(scene, *write, version)?;
    }
    Ok(())
}
