//! A list of keys that takes no memory.
ghost use Rattle.std.specs.Prelude.{◌≡◌, ℕ, ◌<◌, ◌≤◌, [], ◌∷◌, ◌++◌, length};
ghost use Rattle.bd_base.specs.declared.key_list.TheConstants.{MOST_KEYS};

use crate::key::Key;
use crate::numbers::{Fd, Part, Pid};
use std::marker::Model;

/// How many keys a list has room for: one for each process, descriptor and part.
pub const MOST_KEYS: usize = 1024;

/// At most `MOST_KEYS` keys in their order. It takes no memory. Contracts see it as the list of its keys.
#[derive(Debug, Drop)]
pub struct KeyList {
    items: [Key; MOST_KEYS],
    count: usize,
}

impl Model for KeyList {
    ghost use Rattle.std.specs.Prelude.{List, ◌≤◌, take};
    ghost use Rattle.bd_base.specs.declared.key_list.TheConstants.{MOST_KEYS};
    ghost use Rattle.bd_base.specs.declared.key.Key.{Key};

    ghost Value = { List Key };

    ghost view = { λ a. take a.count a.items };

    ghost invariant = { λ a. a.count ≤ MOST_KEYS };
}

impl KeyList {
    /// A list with no key.
    pub fn new() -> KeyList
        ensures { result ≡ [] }
    {
        let unused = Key {
            process: Pid::new(0).unwrap(),
            fd: Fd::new(0).unwrap(),
            part: Part::new(0).unwrap(),
        };
        KeyList {
            items: [unused; MOST_KEYS],
            count: 0,
        }
    }

    /// Appends a key, for which there is room.
    pub fn push(&mut self, item: Key)
        requires { length self.old < MOST_KEYS }
        ensures { self.new ≡ self.old ++ item ∷ [] }
    {
        self.items[self.count] = item;
        self.count += 1;
    }

    /// The keys in their order.
    pub fn as_slice(&self) -> &[Key]
        ensures keys { result.now ≡ self.now }
        ensures room { length result.now ≤ MOST_KEYS }
    {
        &self.items[..self.count]
    }
}

#[cfg(test)]
mod tests {
    use super::*;
    use std::test::Fail;

    #[test]
    fn keeps_keys_in_order(rt: HostRuntime) -> Result<(), Fail> {
        let mut list = KeyList::new();
        assert!(rt; list.as_slice().is_empty());
        let process = Pid::new(15).ok_or("a process")?;
        let fd = Fd::new(7).ok_or("a descriptor")?;
        let first = Key {
            process,
            fd,
            part: Part::new(7).ok_or("a part")?,
        };
        let second = Key {
            process,
            fd,
            part: Part::new(0).ok_or("a part")?,
        };
        list.push(first);
        list.push(second);
        assert_eq!(rt; list.as_slice(), [first, second].as_slice());
        Ok(())
    }
}
