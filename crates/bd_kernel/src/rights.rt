//! Which right a descriptor gets next.
ghost use Rattle.std.specs.Prelude.{◌≡◌, ◌&&◌, [], not};
ghost use Rattle.bd_entry.specs.Store.{has_fragment, has_plain, lowest_unattached, next_part};
ghost use Rattle.bd_kernel.specs.Sights.{bare, no_files};

use crate::descriptor::Descriptor;
use crate::place::part_count;
use crate::table::DescriptorTable;
use bd_base::{FileId, Part};
use bd_fs::Fs;

/// The lowest part of its file that a descriptor has no right on.
pub fn lowest_unattached(fs: &Fs, descriptor: &Descriptor) -> Option<Part>
    ensures { result ≡ lowest_unattached (bare fs.now []) descriptor.now }
{
    let end = part_count(fs, descriptor.file);
    descriptor.attached.lowest_missing(end)
}

/// The part on which a descriptor can be given a right next.
pub fn next_part(fs: &Fs, table: &DescriptorTable, descriptor: &Descriptor) -> Option<Part>
    ensures { result ≡ next_part (bare fs.now table.now) descriptor.now }
{
    let part = lowest_unattached(fs, descriptor)?;
    if can_attach(table, descriptor.file, part) {
        Some(part)
    } else {
        None
    }
}

/// Whether a right can be given on this part of a file.
fn can_attach(table: &DescriptorTable, file: FileId, part: Part) -> bool
    ensures { result ≡ (not (has_plain (bare no_files table.now) file)
        && has_fragment (bare no_files table.now) file part) }
{
    !table.has_plain(file) && table.has_fragment(file, part)
}
