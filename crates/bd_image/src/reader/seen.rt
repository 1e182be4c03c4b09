//! The rule that no two files have the same name.
ghost use Rattle.std.specs.Prelude.{◌≡◌, ◌≢◌, ℕ, ◌<◌, ◌↔◌, ◌⊎◌, List, length, IfOk, IsTrue, MatchOption, OnOk};
ghost use Rattle.bd_image.specs.Layout.{inode_count, name_field, used_mark};
ghost use Rattle.bd_image.specs.Names.{HasName};
ghost use Rattle.bd_image.specs.Rules.{HasRecords, TellsBreak, NameFresh, Obeys};

use crate::layout::NAME_FIELD;
use crate::reader::fields::{inode_count, is_used, name_field, record_place};
use bd_base::OutOfMemory;
use std::alloc::Global;
use std::collections::HashSet;

/// Adds a name to the set, and says whether it was not there.
fn add_name<'a>(seen: &mut HashSet<&'a [u8]>, name: &'a [u8]) -> Result<bool, OutOfMemory>
    ensures added { IfOk result (λ added. IsTrue added ↔ ¬ HasName seen.old name.now) }
    ensures names { OnOk result ((field : List ℕ) →
        HasName seen.new field ↔ (HasName seen.old field ⊎ (field ≡ name.now))) }
{
    let added = seen.insert(name)?;
    Ok(added)
}

/// No name is that of an earlier file.
pub(crate) fn check_names_fresh(alloc: Global, bytes: &[u8]) -> Result<Option<u64>, OutOfMemory>
    requires image { HasRecords bytes.now }
    ensures { IfOk result (TellsBreak bytes.now NameFresh) }
{
    let mut seen = HashSet::new(alloc);
    for j in 0..inode_count(bytes) {
        if is_used(bytes, j) {
            let is_new = add_name(&mut seen, name_field(bytes, j))?;
            if !is_new {
                return Ok(Some(record_place(j) + NAME_FIELD));
            }
        }
    }
    Ok(None)
}
