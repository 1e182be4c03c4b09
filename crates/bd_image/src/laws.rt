//! Laws of what an image and a volume are, each the contract of a function that does nothing.
ghost use Rattle.std.specs.Prelude.{◌≡◌, ℕ, ◌≤◌, List, length, take};
ghost use Rattle.byteorder.specs.Endian.{little_bytes, little_number};
ghost use Rattle.bd_base.specs.Bytes.{AreBytes};
ghost use Rattle.bd_base.specs.declared.volume.Volume.{Volume};
ghost use Rattle.bd_base.specs.Volumes.{IsSoundVolume};
ghost use Rattle.bd_image.specs.Places.{LayoutIs};
ghost use Rattle.bd_image.specs.Rules.{Accepted};
ghost use Rattle.bd_image.specs.Volumes.{AcceptedVolume, image_of, volume_of};

/// Each place and number of the layout is the one that docs/FORMATS.md says.
pub fn layout_is()
    ensures { LayoutIs }
{}

/// The bytes of the number that bytes were read as are these bytes, however many there are.
pub fn number_gives_back_its_bytes()
    ensures { (n : ℕ) → (bytes : List ℕ) → AreBytes bytes → n ≤ length bytes →
        little_bytes n (little_number n bytes) ≡ take n bytes }
{}

/// An accepted image is the image of the volume that it says, so each volume has one image.
pub fn one_image()
    ensures { (b : List ℕ) → AreBytes b → Accepted b → image_of (volume_of b) ≡ b }
{}

/// The image of an accepted volume is accepted, and says that volume.
pub fn one_volume()
    ensures accepted { (v : Volume) → AcceptedVolume v → Accepted (image_of v) }
    ensures says { (v : Volume) → AcceptedVolume v → volume_of (image_of v) ≡ v }
{}

/// A volume is that of an accepted image exactly where it is sound: what an image must hold, said of a volume alone.
pub fn sound_volumes()
    ensures sound { (v : Volume) → AcceptedVolume v → IsSoundVolume v }
    ensures accepted { (v : Volume) → IsSoundVolume v → AcceptedVolume v }
{}
