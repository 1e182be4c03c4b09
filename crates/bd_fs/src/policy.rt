//! Who may do what with a file.
ghost use Rattle.std.specs.Prelude.{◌≡◌, ◌<◌, if◌then◌else◌};
ghost use Rattle.bd_base.specs.Policy.{has_permission as is_permitted, read_denial as rule_against_reading, write_denial as rule_against_writing};
ghost use Rattle.bd_fs.specs.Asks.{denial_of};
ghost use Rattle.bd_fs.specs.PolicyRules.{IsLeastDenial, Question};

/// What a user asks to do with a file.
#[derive(Clone, Copy, Debug, PartialEq, Eq)]
pub enum Ask {
    /// To read it.
    Read,
    /// To read and to write it.
    ReadWrite,
    /// To take it away.
    Unlink,
}

/// What the policy answers.
#[derive(Clone, Copy, Debug, PartialEq, Eq)]
pub enum May {
    /// It is allowed.
    Yes,
    /// It is denied by this rule, the least that denies it: 1 and 2, an owner may not read or not write;
    /// 3 and 4, another may not read or not write; 5, only the owner may unlink.
    No(u8),
}

const OWNER_READ: u8 = 1;

const OWNER_WRITE: u8 = 2;

const OTHER_READ: u8 = 4;

const OTHER_WRITE: u8 = 8;

/// The number of the least rule by which the user `uid` is denied `ask` of a file of this owner and these perms: 1 to
/// [`bd_base::POLICY_RULES`]. None where no rule denies it.
pub fn denial(ask: Ask, uid: u32, owner: u32, perms: u8) -> Option<u8>
    ensures value { result ≡ denial_of ask uid owner perms }
    ensures least { IsLeastDenial (record { ask = ask; uid = uid; owner = owner; perms = perms })
        result }
{
    policy_tells_the_least_rule();

    match ask {
        Ask::Read => read_denial(uid, owner, perms),
        Ask::ReadWrite => read_denial(uid, owner, perms).or(write_denial(uid, owner, perms)),
        Ask::Unlink => unless(uid == owner, 5),
    }
}

/// The answer of the policy is the least of its rules that denies. It does nothing.
fn policy_tells_the_least_rule()
    ensures { (q : Question) → IsLeastDenial q (denial_of q.ask q.uid q.owner q.perms) }
{}

fn read_denial(uid: u32, owner: u32, perms: u8) -> Option<u8>
    ensures { result ≡ rule_against_reading uid owner perms }
{
    if uid == owner {
        unless(has_permission(perms, OWNER_READ), 1)
    } else {
        unless(has_permission(perms, OTHER_READ), 3)
    }
}

fn write_denial(uid: u32, owner: u32, perms: u8) -> Option<u8>
    ensures { result ≡ rule_against_writing uid owner perms }
{
    if uid == owner {
        unless(has_permission(perms, OWNER_WRITE), 2)
    } else {
        unless(has_permission(perms, OTHER_WRITE), 4)
    }
}

/// The rule that denies, unless it is allowed.
fn unless(allowed: bool, rule: u8) -> Option<u8>
    ensures { result ≡ (if allowed then None else Some rule) }
{
    if allowed { None } else { Some(rule) }
}

/// Whether `perms` contain `permission`.
fn has_permission(perms: u8, permission: u8) -> bool
    requires { 0 < permission }
    ensures { result ≡ is_permitted perms permission }
{
    perms / permission % 2 == 1
}
