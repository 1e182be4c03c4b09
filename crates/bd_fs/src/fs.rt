//! The files of a volume and its free blocks.
ghost use Rattle.std.specs.Prelude.{◌≡◌, ℕ, ◌↔◌, [], None, Some, Err, IfOk, OnErr, IsSome, IsNone};
ghost use Rattle.std.specs.Option.{option_copied};
ghost use Rattle.bd_base.specs.Inodes.{AreValidFiles, create_refusal, empty_file, free_id, id_of, inode_at};
ghost use Rattle.bd_fs.specs.Asks.{denial_to};
ghost use Rattle.bd_fs.specs.Files.{MakesFile, file_with_id, with_file};

mod growth;
mod load;
#[cfg(test)]
mod tests;

use crate::errors::CreateError;
use crate::policy::{Ask, May, denial};
use bd_base::{FileId, Inode, InodeList, List, Name, OutOfMemory, Reason};
use bd_extents::FreeSet;
use indexmap::IndexMap;
use std::alloc::Global;
use std::marker::Model;

/// The files of a volume by their ids, and the free blocks: those data blocks that no file has.
#[derive(Drop)]
pub struct Fs {
    alloc: Global,
    total: u32,
    inodes: Vec<Option<Inode>>,
    // How many extents each file has.
    counts: Vec<u8>,
    free: FreeSet,
    names: IndexMap<Vec<u8>, FileId>,
}

impl Model for Fs {
    ghost use Rattle.bd_fs.specs.Files.{Files};

    ghost Value = { Files };

    ghost use Rattle.std.specs.Str.{bytes_eq};
    ghost use Rattle.indexmap.specs.IndexMap.{get_by};
    ghost use Rattle.bd_fs.specs.Kept.{IsKept};

    ghost view = { λ a. record { total = a.total; files = a.inodes.items } };

    ghost invariant = { λ a. IsKept (record {
      total = a.total;
      files = a.inodes.items;
      counts = a.counts.items;
      free = a.free;
      id_by_name = λ name. get_by (λ key. bytes_eq name key.items) a.names;
    }) };
}

impl Fs {
    /// How many blocks the volume has.
    pub fn total(&self) -> u32
        ensures { result ≡ self.now.total }
    {
        self.total
    }

    /// The files by their ids; None where an id is free.
    pub fn inodes(&self) -> &[Option<Inode>]
        ensures { result.now ≡ self.now.files }
    {
        self.inodes.as_slice()
    }

    /// The id of the file with this name, None exactly where there is none.
    pub fn lookup(&self, name: &Name) -> Option<FileId>
        ensures { result ≡ id_of name.now self.now.files }
    {
        self.names.get(name.as_slice()).copied()
    }

    /// The file with this id, None exactly where there is none.
    ///
    /// What it says of the files as a whole holds of every value of this type.
    pub fn inode(&self, file: FileId) -> Option<&Inode>
        ensures found { option_copied result ≡ inode_at self.now.files file }
        ensures valid { AreValidFiles self.now.total self.now.files }
    {
        self.inodes.get(file.get() as usize)?.as_ref()
    }

    /// What the policy answers to the user `uid` who asks this of a file. It tells the least rule that
    /// denies.
    pub fn may(&self, uid: u32, file: FileId, ask: Ask) -> May
        requires { IsSome (inode_at self.now.files file) }
        ensures yes { (result ≡ May.Yes) ↔ (denial_to uid ask (file_with_id self.now file) ≡ None) }
        ensures no { (rule : ℕ) →
            (result ≡ May.No rule) ↔ (denial_to uid ask (file_with_id self.now file) ≡ Some rule) }
    {
        let inode = self.existing_inode(file);
        match denial(ask, uid, inode.owner, inode.perms) {
            Some(rule) => May::No(rule),
            None => May::Yes,
        }
    }

    /// Makes an empty file, with the lowest free id.
    ///
    /// Refused in this order: Exists, exactly where a file of this name is there; Inodes, exactly
    /// where no id is free; OutOfMemory. After a refusal all is as before.
    pub fn create(&mut self, name: Name, owner: u32, perms: u8) -> Result<FileId, CreateError>
        ensures id { IfOk result (λ id. free_id self.old.files ≡ Some id) }
        ensures made { IfOk result (MakesFile self.old self.new (empty_file name owner perms)) }
        ensures exists { (result ≡ Err CreateError.Exists) ↔ IsSome (id_of name self.old.files) }
        ensures inodes { (result ≡ Err CreateError.Inodes)
            ↔ (IsNone (id_of name self.old.files) × IsNone (free_id self.old.files)) }
        ensures err { OnErr result (self.new ≡ self.old) }
    {
        if self.lookup(&name).is_some() {
            return Err(CreateError::Exists);
        }
        let id = self.free_id().ok_or(CreateError::Inodes)?;
        let key = Vec::from_slice(self.alloc, name.as_slice())?;
        self.names.insert(key, id)?;
        self.inodes[id.get() as usize] = Some(Inode {
            name,
            owner,
            perms,
            size: 0,
            blocks: List::new(self.alloc),
        });
        Ok(id)
    }

    /// Why [`Fs::create`] would make no file of this name, were there memory.
    pub fn can_create(&self, name: &Name) -> Option<Reason>
        ensures { result ≡ create_refusal name.now self.now.files }
    {
        if self.lookup(name).is_some() {
            Some(Reason::Exists)
        } else if self.free_id().is_none() {
            Some(Reason::Inodes)
        } else {
            None
        }
    }

    /// Takes an empty file away.
    pub fn remove(&mut self, file: FileId)
        requires exists { IsSome (inode_at self.old.files file) }
        requires empty { (file_with_id self.old file).blocks ≡ [] }
        ensures { self.new ≡ with_file self.old file None }
    {
        let removed = self.inodes[file.get() as usize].take();
        if let Some(inode) = removed {
            self.names.swap_remove(inode.name.as_slice());
        }
    }

    /// The file with this id, which exists.
    fn existing_inode(&self, file: FileId) -> &Inode
        requires { IsSome (inode_at self.now.files file) }
        ensures file { result.now ≡ file_with_id self.now file }
        ensures valid { AreValidFiles self.now.total self.now.files }
    {
        match &self.inodes[file.get() as usize] {
            Some(inode) => inode,
            None => unreachable!(),
        }
    }

    /// The lowest free id, None exactly where all are used.
    pub fn free_id(&self) -> Option<FileId>
        ensures { result ≡ free_id self.now.files }
    {
        let index = lowest_free(&self.inodes)?;
        FileId::new(index as u64)
    }
}

/// The lowest free index.
fn lowest_free(inodes: &[Option<Inode>]) -> Option<usize>
    ensures { result ≡ free_id inodes.now }
{
    inodes.iter().position(|inode| inode.is_none())
}
