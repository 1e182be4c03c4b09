//! The directory.
ghost use Rattle.std.specs.Prelude.{◌≡◌, ℕ, ◌<◌, ◌-◌, None, Some, IfOk};
ghost use Rattle.std.proofs.Common.{replicate};
ghost use Rattle.bd_base.specs.Keys.{key_number, key_of};
ghost use Rattle.bd_directory.specs.declared.directory.TheConstants.{KEYS};
ghost use Rattle.bd_directory.specs.Entries.{blank, entered, entry_at, risen, with_count, with_grant};

use bd_base::{DESCRIPTORS, Found, Key, MOST_KEYS, OutOfMemory, PARTS};
use std::alloc::Global;
use std::marker::Model;

/// How many keys there are.
pub const KEYS: usize = MOST_KEYS;

/// What a right that is there grants.
#[derive(Clone, Copy, Debug, PartialEq, Eq)]
pub struct Grant {
    /// The number of the fragment, from 0 to 63.
    pub fragment: u8,
    /// Whether it allows writing.
    pub write: bool,
}

/// The entry of a key.
#[derive(Clone, Copy, Debug, PartialEq, Eq)]
pub struct Entry {
    /// The right, where one is there.
    pub grant: Option<Grant>,
    /// How many engines are in the key, granted or refused.
    pub count: u64,
}

/// The private entries of all keys. Contracts see them in the order of the keys.
///
/// Only [`Directory::new`] takes memory, and no call goes over the keys.
#[derive(Debug, Drop)]
pub struct Directory {
    entries: Vec<Entry>,
}

impl Model for Directory {
    ghost use Rattle.std.specs.Prelude.{◌≡◌, List, length};
    ghost use Rattle.bd_directory.specs.declared.directory.Entry.{Entry};
    ghost use Rattle.bd_directory.specs.declared.directory.TheConstants.{KEYS};

    ghost Value = { List Entry };

    ghost view = { λ a. a.entries.items };

    ghost invariant = { λ a. length a.entries.items ≡ KEYS };
}

/// The number of a key among all keys.
pub fn key_number(key: &Key) -> usize
    ensures number { result ≡ key_number key.now }
    ensures within { result < KEYS }
    ensures key { key_of result ≡ key.now }
{
    let descriptor = key.process.get() * DESCRIPTORS + key.fd.get();
    (descriptor * PARTS + key.part.get()) as usize
}

impl Directory {
    /// A directory without rights and with nobody in it.
    ///
    /// The only error is that no memory is found.
    pub fn new(alloc: Global) -> Result<Directory, OutOfMemory>
        ensures { IfOk result (λ directory. directory ≡ replicate KEYS blank) }
    {
        let blank = Entry {
            grant: None,
            count: 0,
        };
        let entries = vec![in alloc; blank; KEYS]?;
        Ok(Directory { entries })
    }

    /// Puts a right into the entry of a key that has none. Its count stays.
    pub fn attach(&mut self, key: Key, fragment: u8, write: bool)
        requires { (entry_at self.old key).grant ≡ None }
        ensures { self.new
            ≡ with_grant self.old key (Some (record { fragment = fragment; write = write })) }
    {
        let entry = &mut self.entries[key_number(&key)];
        entry.grant = Some(Grant { fragment, write });
    }

    /// Takes the right out of the entry of a key. Its count stays.
    pub fn clear(&mut self, key: Key)
        ensures { self.new ≡ with_grant self.old key None }
    {
        let entry = &mut self.entries[key_number(&key)];
        entry.grant = None;
    }

    /// Enters a key: its count rises in either case. Ok is the fragment.
    ///
    /// NoDirectory exactly where no right is there, else NoRight exactly where `write` is asked for and not allowed.
    /// A count that stands at its last value stays there. What it says of the key alone holds of each.
    pub fn enter(&mut self, key: Key, write: bool) -> Result<u8, Found>
        ensures within { key_number key < KEYS }
        ensures key { key_of (key_number key) ≡ key }
        ensures answer { result ≡ entered write (entry_at self.old key).grant }
        ensures counted { self.new ≡ with_count self.old key (risen (entry_at self.old key).count) }
    {
        let entry = &mut self.entries[key_number(&key)];
        entry.count = entry.count.saturating_add(1);
        match entry.grant {
            None => Err(Found::NoDirectory),
            Some(grant) if write && !grant.write => Err(Found::NoRight),
            Some(grant) => Ok(grant.fragment),
        }
    }

    /// Leaves a key in which somebody is: its count falls.
    pub fn retire(&mut self, key: Key)
        requires { 0 < (entry_at self.old key).count }
        ensures { self.new ≡ with_count self.old key ((entry_at self.old key).count - 1) }
    {
        let entry = &mut self.entries[key_number(&key)];
        entry.count -= 1;
    }

    /// How many engines are in the key.
    pub fn count(&self, key: Key) -> u64
        ensures { result ≡ (entry_at self.now key).count }
    {
        self.entries[key_number(&key)].count
    }
}
