//! Fragments: which are shared, when one is dropped, and how many there are.
ghost use Rattle.std.specs.Prelude.{◌≡◌, ◌≢◌, Some, IfOk, []};
ghost use Rattle.std.specs.FinMap as fin;
ghost use Rattle.bd_base.specs.Keys.{Pair};
ghost use Rattle.bd_file_table.specs.Fragments.{Fragment, padded};
ghost use Rattle.bd_tables.specs.Kernel.{IsOn, KeyIs};
ghost use Rattle.bd_tables.specs.Plain.{kernel_of};

use super::{file, key, revoke};
use crate::{Drained, Full, KernelSide, Key, PlainTables};
use bd_base::FileId;
use std::alloc::Global;
use std::process::Abort;
use std::test::Fail;

/// Tables with a right of each of two processes, to part 0 of one file.
fn two_rights(alloc: Global, first: &Key, second: &Key) -> Result<PlainTables, Fail>
    requires differ { first.now.process ≢ second.now.process }
    ensures first { IfOk result (λ tables. KeyIs IsOn (kernel_of tables) first.now) }
    ensures second { IfOk result (λ tables. KeyIs IsOn (kernel_of tables) second.now) }
{
    let mut tables = PlainTables::new(alloc, 16)?;
    let file = file()?;
    tables.attach(*first, file, false, &[])?;
    tables.attach(*second, file, true, &[])?;
    Ok(tables)
}

/// Revokes two rights, and tells how many fragments are in use after each.
fn revoke_both<T: KernelSide>(tables: &mut T, first: &Key, second: &Key) -> Option<(u32, u32)>
    requires differ { first.now.process ≢ second.now.process }
    requires first { KeyIs IsOn (T.kernel tables.old) first.now }
    requires second { KeyIs IsOn (T.kernel tables.old) second.now }
{
    match revoke(tables, first) {
        Drained::NotYet(_) => None,
        Drained::Yes => {
            let between = tables.in_use();
            let _drained = revoke(tables, second);
            Some((between, tables.in_use()))
        }
    }
}

#[test]
fn a_shared_fragment_is_dropped_with_its_last_key(rt: HostRuntime) -> Result<(), Fail> {
    let (first, second) = (key(0, 3)?, key(1, 3)?);
    let mut tables = two_rights(rt.alloc(), &first, &second)?;
    assert_eq!(rt; tables.in_use(), 1);
    let in_use = revoke_both(&mut tables, &first, &second);
    assert_eq!(rt; in_use, Some((1, 0)));
    Ok(())
}

/// Attaches a right to part 0 of a file that has no filled entry, to a key that is not attached.
fn attach_bare(
    rt: &impl Abort,
    tables: &mut PlainTables,
    number: u64,
    file: u64,
) -> Result<Result<(), Full>, Fail>
    requires bare { (pair : Pair) (its : Fragment)
        → fin.get tables.old.book pair ≡ Some its → its.cells ≡ padded [] }
    ensures bare { (pair : Pair) (its : Fragment)
        → fin.get tables.new.book pair ≡ Some its → its.cells ≡ padded [] }
{
    let key = key(number / 8, number % 8)?;
    let key = &key;
    assert!(rt; !tables.attached(*key));
    let file = FileId::new(file).ok_or("a file")?;
    Ok(tables.attach(*key, file, false, &[]))
}

#[test]
fn a_sixty_fifth_pair_gets_no_fragment(rt: HostRuntime) -> Result<(), Fail> {
    let mut tables = PlainTables::new(rt.alloc(), 16)?;
    for number in 0..64 {
        assert_eq!(rt; attach_bare(&rt, &mut tables, number, number)?, Ok(()));
    }
    assert_eq!(rt; tables.in_use(), 64);
    assert_eq!(rt; attach_bare(&rt, &mut tables, 64, 64)?, Err(Full));
    // A file that has its fragment shares it.
    assert_eq!(rt; attach_bare(&rt, &mut tables, 64, 5)?, Ok(()));
    assert_eq!(rt; tables.in_use(), 64);
    Ok(())
}
