//! The rules that an image meets, in their order; docs/FORMATS.md has their places.
ghost use Rattle.std.specs.Prelude.{◌≡◌};
ghost use Rattle.bd_image.specs.Rules.{rule_number};

/// A rule of images.
#[derive(Clone, Copy, Debug, PartialEq, Eq)]
pub enum Rule {
    /// The length is that of whole blocks, and neither too small nor too large.
    Length,
    /// The image begins as images do.
    Magic,
    /// The version is the one that is read here.
    Version,
    /// The number of blocks is that of the image.
    BlockCount,
    /// The records fill whole blocks, and are neither too few nor too many.
    InodeCount,
    /// The rest of the first block is zero.
    HeaderRest,
    /// Each record is marked as used or as free.
    UsedMark,
    /// Each free record is all zeros.
    FreeRecord,
    /// No file has permissions that are not there.
    Perms,
    /// No file has too many extents.
    ExtentCount,
    /// Each file has a name of the form that names have.
    NameForm,
    /// No name is that of an earlier file.
    NameFresh,
    /// The bytes of a file's record past its extents are zero.
    RecordRest,
    /// Each extent lies in the data area.
    ExtentRange,
    /// No extent begins where the one before it in the same file ends.
    ExtentJoins,
    /// No extent has a block of an earlier one.
    ExtentShares,
    /// Each file's size is one that a file may have, and its blocks are as many as it needs.
    Size,
    /// The bytes of each file's last block past its size are zero.
    TailZero,
    /// The bitmap marks exactly the blocks that are in use.
    Bitmap,
}

/// The rules by their numbers.
pub(crate) const RULES: [Rule; 19] = [
    Rule::Length,
    Rule::Magic,
    Rule::Version,
    Rule::BlockCount,
    Rule::InodeCount,
    Rule::HeaderRest,
    Rule::UsedMark,
    Rule::FreeRecord,
    Rule::Perms,
    Rule::ExtentCount,
    Rule::NameForm,
    Rule::NameFresh,
    Rule::RecordRest,
    Rule::ExtentRange,
    Rule::ExtentJoins,
    Rule::ExtentShares,
    Rule::Size,
    Rule::TailZero,
    Rule::Bitmap,
];

impl Rule {
    /// The number of the rule, from 1 to 19, as a refusal tells it.
    pub fn number(self) -> u8
        ensures { result ≡ rule_number self }
    {
        match self {
            Rule::Length => 1,
            Rule::Magic => 2,
            Rule::Version => 3,
            Rule::BlockCount => 4,
            Rule::InodeCount => 5,
            Rule::HeaderRest => 6,
            Rule::UsedMark => 7,
            Rule::FreeRecord => 8,
            Rule::Perms => 9,
            Rule::ExtentCount => 10,
            Rule::NameForm => 11,
            Rule::NameFresh => 12,
            Rule::RecordRest => 13,
            Rule::ExtentRange => 14,
            Rule::ExtentJoins => 15,
            Rule::ExtentShares => 16,
            Rule::Size => 17,
            Rule::TailZero => 18,
            Rule::Bitmap => 19,
        }
    }
}
