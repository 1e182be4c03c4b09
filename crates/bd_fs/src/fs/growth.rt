//! Files that grow and shrink by one block.
ghost use Rattle.std.specs.Prelude.{◌≡◌, ◌+◌, ◌*◌, ◌/◌, ◌<◌, ◌≤◌, ◌↔◌, None, Some, Err, IfOk, OnOk, OnErr, IsSome, MatchResult, length, slice_set, unwrap_or};
ghost use Rattle.bd_base.specs.declared.limits.TheConstants.{BLOCK_SIZE, PARTS, PART_BLOCKS};
ghost use Rattle.bd_base.specs.declared.reason.Reason.{Reason};
ghost use Rattle.bd_base.specs.Allocation.{last_block};
ghost use Rattle.bd_base.specs.Files.{blocks_for};
ghost use Rattle.bd_base.specs.Inodes.{AreValidFiles, blocks_of_slot, grown_file, inode_at, no_file, without_last};
ghost use Rattle.bd_fs.specs.Errors.{reason_of};
ghost use Rattle.bd_fs.specs.Files.{GrowsFile, file_with_id, growth_block_of, growth_refusal_of, with_file};
ghost use Rattle.bd_base.specs.Extents.{is_extent_start};

use super::Fs;
use crate::errors::{GrowError, Refusal};
use bd_base::{BLOCK_SIZE, BlockNo, FILE_SIZE, FileId, Inode, OutOfMemory, Reason};

/// How many extents a file may have, as each file's count of them is kept.
const EXTENTS: u8 = bd_base::EXTENTS as u8;

impl Fs {
    /// Lets a file grow to `to` bytes, by at most one block, and answers the block that it took: one
    /// exactly where its size was a multiple of [`BLOCK_SIZE`].
    ///
    /// Refused in this order: TooBig, exactly where `to` is above [`FILE_SIZE`]; NoSpace, exactly
    /// where a block is needed and none is free; Extents, exactly where the block that would be taken
    /// needs a 25th extent; OutOfMemory. After a refusal all is as before.
    pub fn grow_one(&mut self, file: FileId, to: u64) -> Result<Option<BlockNo>, GrowError>
        requires exists { IsSome (inode_at self.old.files file) }
        requires larger { (file_with_id self.old file).size < to }
        requires one_block { to ≤ BLOCK_SIZE *
            ((file_with_id self.old file).size / BLOCK_SIZE + 1) }
        ensures block { IfOk result (λ block. block ≡ growth_block_of self.old file) }
        ensures grown { IfOk result (λ block. GrowsFile self.old self.new file block to) }
        ensures ok { OnOk result (growth_refusal_of self.old file to ≡ None) }
        ensures too_big { (result ≡ Err GrowError.TooBig)
            ↔ (growth_refusal_of self.old file to ≡ Some Reason.TooBig) }
        ensures no_space { (result ≡ Err GrowError.NoSpace)
            ↔ (growth_refusal_of self.old file to ≡ Some Reason.NoSpace) }
        ensures extents { (result ≡ Err GrowError.Extents)
            ↔ (growth_refusal_of self.old file to ≡ Some Reason.Extents) }
        ensures err { OnErr result (self.new ≡ self.old) }
    {
        let Some(block) = self.plan(file, to)? else {
            self.set_size(file, to);
            return Ok(None);
        };
        self.add_block(file, block, to)?;
        Ok(Some(block))
    }

    /// Why [`Fs::grow_one`] would refuse, were there memory.
    pub fn can_grow(&self, file: FileId, to: u64) -> Option<Reason>
        requires exists { IsSome (inode_at self.now.files file) }
        requires larger { (file_with_id self.now file).size < to }
        requires one_block { to ≤ BLOCK_SIZE *
            ((file_with_id self.now file).size / BLOCK_SIZE + 1) }
        ensures { result ≡ growth_refusal_of self.now file to }
    {
        match self.plan(file, to) {
            Ok(_) => None,
            Err(refusal) => Some(Reason::from(refusal)),
        }
    }

    /// The block that a growth of the file takes: None where its last block is not full, and where no block is free.
    pub fn next_block(&self, file: FileId) -> Option<BlockNo>
        requires { IsSome (inode_at self.now.files file) }
        ensures { result ≡ growth_block_of self.now file }
    {
        if self.existing_inode(file).size % BLOCK_SIZE != 0 {
            return None;
        }
        let last = last_of(&self.inodes[file.get() as usize]);
        self.free.peek(last)
    }

    /// Takes the last block of a file away, which becomes free, and answers it. The size becomes
    /// that of the blocks left.
    pub fn drop_last(&mut self, file: FileId) -> BlockNo
        requires exists { IsSome (inode_at self.old.files file) }
        requires not_empty { 0 < length (file_with_id self.old file).blocks }
        ensures block { last_block (file_with_id self.old file).blocks ≡ Some result }
        ensures dropped { self.new ≡ with_file self.old file
            (Some (without_last (file_with_id self.old file))) }
    {
        let index = file.get() as usize;
        let block = drop_block(&mut self.inodes[index]);
        let last = last_of(&self.inodes[index]);
        if begins_extent(&last, &block) {
            self.counts[index] -= 1;
        }
        self.free.give_back(block);
        block
    }

    /// Gives a file this size, for which it has as many blocks as needed.
    pub fn set_size(&mut self, file: FileId, size: u64)
        requires exists { IsSome (inode_at self.old.files file) }
        requires enough_blocks { length (file_with_id self.old file).blocks ≡ blocks_for size }
        ensures { self.new ≡ with_file self.old file
            (Some (record (file_with_id self.old file) { size = size })) }
    {
        resize(&mut self.inodes[file.get() as usize], size);
    }

    /// The block that a growth to `to` bytes takes, if any, or why it is refused.
    fn plan(&self, file: FileId, to: u64) -> Result<Option<BlockNo>, Refusal>
        requires { IsSome (inode_at self.now.files file) }
        ensures planned { MatchResult result
            (λ block. (growth_refusal_of self.now file to ≡ None) × (block ≡ growth_block_of self.now file))
            (λ r. growth_refusal_of self.now file to ≡ Some (reason_of r)) }
        ensures valid { OnOk result (AreValidFiles self.now.total self.now.files) }
    {
        if to > FILE_SIZE {
            return Err(Refusal::TooBig);
        }
        let index = file.get() as usize;
        if self.existing_inode(file).size % BLOCK_SIZE != 0 {
            return Ok(None);
        }
        let last = last_of(&self.inodes[index]);
        let after = last;
        let Some(block) = self.free.peek(after) else {
            return Err(Refusal::NoSpace);
        };
        if self.counts[index] == EXTENTS && begins_extent(&last, &block) {
            return Err(Refusal::Extents);
        }
        Ok(Some(block))
    }

    /// Appends the block that an allocation takes and that was looked up, and gives the file this size.
    fn add_block(&mut self, file: FileId, block: BlockNo, size: u64) -> Result<(), OutOfMemory>
        requires exists { IsSome (inode_at self.old.files file) }
        requires enough_blocks { length (file_with_id self.old file).blocks + 1 ≡ blocks_for size }
        requires allowed { growth_refusal_of self.old file size ≡ None }
        requires planned { growth_block_of self.old file ≡ Some block }
        ensures grown { OnOk result (GrowsFile self.old self.new file (Some block) size) }
        ensures err { OnErr result (self.new ≡ self.old) }
    {
        let index = file.get() as usize;
        let last = last_of(&self.inodes[index]);
        push_block(&mut self.inodes[index], block, size)?;
        if begins_extent(&last, &block) {
            self.counts[index] += 1;
        }
        self.free.remove(block);
        Ok(())
    }
}

/// The last block of a file, if any.
fn last_of(file: &Option<Inode>) -> Option<BlockNo>
    ensures { result ≡ last_block (blocks_of_slot file.now) }
{
    file.as_ref()?.blocks.as_slice().last().copied()
}

/// Whether `block` after `last` begins an extent.
pub fn begins_extent(last: &Option<BlockNo>, block: &BlockNo) -> bool
    ensures { result ≡ is_extent_start last.now block.now }
{
    let block = *block;
    match *last {
        Some(last) => block.get() != last.get() + 1,
        None => true,
    }
}

/// Appends a block to a file, and gives it this size.
fn push_block(file: &mut Option<Inode>, block: BlockNo, size: u64) -> Result<(), OutOfMemory>
    requires { IsSome file.old }
    ensures ok { OnOk result
        (file.new ≡ Some (grown_file (unwrap_or file.old no_file) (Some block) size)) }
    ensures err { OnErr result (file.new ≡ file.old) }
{
    if let Some(inode) = file {
        inode.blocks.push(block)?;
        inode.size = size;
    }
    Ok(())
}

/// Takes the last block of a file off.
fn drop_block(file: &mut Option<Inode>) -> BlockNo
    requires exists { IsSome file.old }
    requires not_empty { 0 < length (blocks_of_slot file.old) }
    requires in_range { length (blocks_of_slot file.old) ≤ PARTS * PART_BLOCKS }
    ensures block { last_block (blocks_of_slot file.old) ≡ Some result }
    ensures dropped { file.new ≡ Some (without_last (unwrap_or file.old no_file)) }
{
    match file {
        Some(inode) => {
            let block = inode.blocks.pop().unwrap();
            inode.size = BLOCK_SIZE * inode.blocks.len() as u64;
            block
        }
        None => unreachable!(),
    }
}

/// Gives a file this size.
fn resize(file: &mut Option<Inode>, size: u64)
    requires { IsSome file.old }
    ensures { file.new ≡ Some (record (unwrap_or file.old no_file) { size = size }) }
{
    if let Some(inode) = file {
        inode.size = size;
    }
}
