//! The disk that the kernel changes: files, bytes and descriptors together, and what an entry changes in them.
ghost use Rattle.std.specs.Prelude.{◌≡◌, ℕ, ◌+◌, ◌-◌, ◌*◌, ◌/◌, ◌<◌, ◌≤◌, true, [], None, IfOk, IsSome, OnErr, OnOk, Some, length, replicate, slice_set};
ghost use Rattle.bd_base.specs.declared.limits.TheConstants.{BLOCK_SIZE, PROCESSES};
ghost use Rattle.bd_base.specs.Files.{blocks_for};
ghost use Rattle.bd_base.specs.Inodes.{AreValidFiles, blocks_of_slot, create_refusal, existing_file, free_id, growth_block, growth_refusal, inode_at};
ghost use Rattle.bd_entry.specs.Calls.{at_of};
ghost use Rattle.bd_entry.specs.Effects.{after_access, after_change, with_bytes_at, with_growth, with_known_size, with_size, with_told_size};
ghost use Rattle.bd_entry.specs.Store.{Store, size_at, user_of, with_descriptor};
ghost use Rattle.bd_kernel.specs.Disks.{CanChange, CanWrite, IsDiskOf, SoundEntriesCanChange, changed_disk, disk_after, files_on, table_on, unused_disk, with_new_file};
ghost use Rattle.bd_kernel.specs.Holders.{holder_in};
ghost use Rattle.bd_medium.specs.Contents.{HasBlock, range_bytes};

use crate::descriptors::Descriptors;
use crate::place::size_of;
use bd_base::{BLOCK_SIZE, BlockNo, Bytes, FileId, InodeList, Name, OutOfMemory, Pid, Range};
use bd_entry::Entry;
use bd_fs::{CreateError, Fs, GrowError};
use bd_medium::Medium;
use std::alloc::Global;
use std::marker::Model;

/// The files of a volume, the bytes of its blocks on a device, and the open descriptors of all processes, with the
/// files that these hold.
#[derive(Drop)]
pub struct Disk<M: Medium> {
    fs: Fs,
    medium: M,
    descriptors: Descriptors,
}

impl<M: Medium> Model for Disk<M> {
    ghost use Rattle.std.specs.Prelude.{◌≡◌, ◌*◌, length};
    ghost use Rattle.bd_base.specs.declared.limits.TheConstants.{BLOCK_SIZE};
    ghost use Rattle.bd_kernel.specs.Disks.{DiskState};

    ghost Value = { DiskState };

    ghost view = { λ a. record {
      total = a.fs.total;
      files = a.fs.files;
      bytes = M.contents a.medium;
      rows = a.descriptors.rows;
      held = a.descriptors.held;
    } };

    ghost invariant = { λ a. length (M.contents a.medium) ≡ BLOCK_SIZE * a.fs.total };
}

impl<M: Medium> Disk<M> {
    /// The disk of a volume with nothing open and nothing held, by so many processes. The only error is that no memory
    /// is found.
    pub fn new(
        alloc: Global,
        total: u32,
        inodes: InodeList,
        medium: M,
        processes: usize,
    ) -> Result<Disk<M>, OutOfMemory>
        requires files { AreValidFiles total inodes }
        requires few { processes ≤ PROCESSES }
        requires bytes { length (M.contents medium) ≡ BLOCK_SIZE * total }
        ensures { IfOk result (λ d. d ≡ unused_disk total inodes (M.contents medium) processes) }
    {
        let fs = Fs::new(alloc, total, inodes)?;
        let descriptors = Descriptors::new(alloc, processes)?;
        Ok(Disk {
            fs,
            medium,
            descriptors,
        })
    }

    /// The files.
    pub fn fs(&self) -> &Fs
        ensures { result.now ≡ files_on self.now }
    {
        &self.fs
    }

    /// The descriptors of all processes, and the files that these hold.
    pub fn descriptors(&self) -> &Descriptors
        ensures { result.now ≡ table_on self.now }
    {
        &self.descriptors
    }

    /// The device.
    pub fn medium(&self) -> &M
        ensures bytes { M.contents result.now ≡ self.now.bytes }
        ensures whole { length self.now.bytes ≡ BLOCK_SIZE * self.now.total }
    {
        &self.medium
    }

    /// An entry's own change; the user is that of the entry's process.
    ///
    /// The only error is that no memory is found. After it the disk is as before.
    pub fn change(&mut self, entry: &Entry, uid: u32) -> Result<(), OutOfMemory>
        requires { CanChange self.old entry.now }
        ensures effect { OnOk result ((s : Store) → IsDiskOf self.old s
            → user_of s (at_of entry.now).process ≡ uid → IsDiskOf self.new (after_change s entry.now)) }
        ensures held { OnOk result (self.new.held ≡ self.old.held) }
        ensures err { OnErr result (self.new ≡ self.old) }
    {
        self.follow(entry, uid)
    }

    /// An entry's own change, as one of the disk.
    fn follow(&mut self, entry: &Entry, uid: u32) -> Result<(), OutOfMemory>
        requires { CanChange self.old entry.now }
        ensures change { OnOk result (self.new ≡ changed_disk self.old uid entry.now) }
        ensures err { OnErr result (self.new ≡ self.old) }
    {
        match entry {
            Entry::Created { name, perms, .. } => self.create(name, uid, *perms)?,
            Entry::Access {
                block: Some(block),
                range,
                wrote: true,
                bytes,
                ..
            } => self.write(*block, *range, bytes.as_slice()),
            Entry::Extended { file, to, .. } => self.extend(*file, *to)?,
            Entry::Released { file, .. } => {
                self.fs.drop_last(*file);
            }
            Entry::Sized { at, fd, size } => {
                let descriptor = self.descriptors.get(at.process, fd.get() as u8).unwrap();
                let file = descriptor.file;
                self.set_size(file, *size);
            }
            Entry::Unlinked { file, .. } => self.fs.remove(*file),
            Entry::Opened { .. }
            | Entry::Attached { .. }
            | Entry::Cleared { .. }
            | Entry::Detached { .. }
            | Entry::Closed { .. } => self.descriptors.follow(entry),
            Entry::Mapped { .. }
            | Entry::Access { .. }
            | Entry::Missed { .. }
            | Entry::SizeRead { .. }
            | Entry::Refused { .. } => {}
        }
        Ok(())
    }

    /// Makes an empty file of this user, under the lowest free id.
    fn create(&mut self, name: &Name, uid: u32, perms: u8) -> Result<(), OutOfMemory>
        requires allowed { create_refusal name.now self.old.files ≡ None }
        ensures made { OnOk result ((id : ℕ) → free_id self.old.files ≡ Some id
            → self.new ≡ with_new_file self.old id name.now uid perms) }
        ensures err { OnErr result (self.new ≡ self.old) }
    {
        match self.fs.create(name.copy()?, uid, perms) {
            Ok(_) => Ok(()),
            Err(CreateError::OutOfMemory) => Err(OutOfMemory),
            Err(CreateError::Exists | CreateError::Inodes) => unreachable!(),
        }
    }

    /// Writes bytes into the range of a block.
    fn write(&mut self, block: BlockNo, range: Range, bytes: &[u8])
        requires { CanWrite self.old.bytes block range bytes.now }
        ensures { self.new
            ≡ disk_after self.old (λ s. after_access s true (Some block) range.lo bytes.now) }
    {
        self.medium.move_in(block, range, bytes);
    }

    /// Lets a file grow to this size; a block that it takes is all zeros.
    fn extend(&mut self, file: FileId, to: u64) -> Result<(), OutOfMemory>
        requires exists { IsSome (inode_at self.old.files file) }
        requires larger { size_at self.old.files file < to }
        requires one_block { to ≤ BLOCK_SIZE * (size_at self.old.files file / BLOCK_SIZE + 1) }
        requires allowed { growth_refusal self.old.total self.old.files
            (existing_file self.old.files file) to ≡ None }
        ensures grown { OnOk result (self.new ≡ disk_after self.old (λ s. with_growth s file to
            (growth_block s.total s.files (existing_file s.files file)))) }
        ensures err { OnErr result (self.new ≡ self.old) }
    {
        match self.fs.grow_one(file, to) {
            Ok(Some(block)) => {
                self.medium.zero(block);
                Ok(())
            }
            Ok(None) => Ok(()),
            Err(GrowError::OutOfMemory) => Err(OutOfMemory),
            Err(GrowError::TooBig | GrowError::NoSpace | GrowError::Extents) => unreachable!(),
        }
    }

    /// Gives a file this size, for which it has the blocks, and zeros past it in its last block.
    fn set_size(&mut self, file: FileId, size: u64)
        requires exists { IsSome (inode_at self.old.files file) }
        requires enough { length (blocks_of_slot (inode_at self.old.files file)) ≡ blocks_for size }
        ensures { self.new ≡ disk_after self.old (λ s. with_size s file size) }
    {
        let inode = self.fs.inode(file).unwrap();
        if let Some(block) = inode.blocks.as_slice().last() {
            let kept = size - BLOCK_SIZE * (inode.blocks.len() as u64 - 1);
            zero_from(&mut self.medium, *block, kept);
        }
        self.fs.set_size(file, size);
    }

    /// The process of this descriptor, if that is open, is told the size of its file.
    pub fn tell(&mut self, process: Pid, fd: u8)
        ensures effect { (s : Store) → IsDiskOf self.old s
            → IsDiskOf self.new (with_descriptor s process fd (with_told_size s)) }
        ensures held { self.new.held ≡ self.old.held }
    {
        self.tell_size(process, fd);
    }

    /// The same, as a change of the disk.
    fn tell_size(&mut self, process: Pid, fd: u8)
        ensures { self.new
            ≡ disk_after self.old (λ s. with_descriptor s process fd (with_told_size s)) }
    {
        if let Some(descriptor) = self.descriptors.get(process, fd) {
            let size = size_of(&self.fs, descriptor.file);
            self.descriptors.tell(process, fd, size);
        }
    }

    /// The process of this descriptor, if that is open, knows the size that it was told.
    pub fn know(&mut self, process: Pid, fd: u8)
        ensures effect { (s : Store) → IsDiskOf self.old s
            → IsDiskOf self.new (with_descriptor s process fd with_known_size) }
        ensures held { self.new.held ≡ self.old.held }
    {
        self.descriptors.know(process, fd);
    }

    /// The process holds the file.
    pub fn hold(&mut self, process: Pid, file: FileId)
        requires there { process < length self.old.held }
        requires free { holder_in self.old.held file ≡ None }
        ensures { self.new ≡ record self.old { held = slice_set self.old.held process (Some file) } }
    {
        self.descriptors.hold(process, file);
    }

    /// The process holds nothing.
    pub fn give_up(&mut self, process: Pid)
        requires { process < length self.old.held }
        ensures { self.new ≡ record self.old { held = slice_set self.old.held process None } }
    {
        self.descriptors.give_up(process);
    }

    /// The device, in place of the disk.
    pub fn into_medium(self) -> M
        ensures { M.contents result ≡ self.bytes }
    {
        let Disk { medium, .. } = self;
        medium
    }

    /// The bytes of the range of a block that is there. The only error is that no memory is found.
    pub fn read(&self, block: BlockNo, range: Range) -> Result<Bytes, OutOfMemory>
        requires { HasBlock self.now.bytes block }
        ensures { IfOk result (λ bytes. bytes ≡ range_bytes self.now.bytes block range) }
    {
        self.medium.move_out(block, range)
    }
}

/// Makes the bytes of a block 0, from this one on.
fn zero_from<M: Medium>(medium: &mut M, block: BlockNo, from: u64)
    requires block { HasBlock (M.contents medium.old) block }
    requires within { from ≤ BLOCK_SIZE }
    ensures bytes { M.contents medium.new ≡ with_bytes_at (BLOCK_SIZE * block + from)
        (replicate (BLOCK_SIZE - from) 0) (M.contents medium.old) }
    ensures length { length (M.contents medium.new) ≡ length (M.contents medium.old) }
{
    // No byte is left where the block is full.
    if let Some(rest) = Range::new(from, BLOCK_SIZE) {
        medium.move_in(block, rest, &[0; BLOCK_SIZE as usize][..rest.count()]);
    }
}

/// The own change of an entry that a running call adds to a valid store, and that keeps the rules, asks of the disk
/// only what holds there.
pub fn sound_entries_can_change()
    ensures { SoundEntriesCanChange }
{}
