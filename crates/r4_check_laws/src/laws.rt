//! Laws of a check. Each is the contract of a function that does nothing.

ghost use Rattle.std.specs.Prelude.{◌≡◌, ℕ, []};
ghost use Rattle.r4_base.specs.Chain.{Settles};
ghost use Rattle.r4_base.specs.Image.{Image, IsImage};
ghost use Rattle.r4_base.specs.Value.{Content};
ghost use Rattle.r4_base.specs.Volume.{HasContent, HasLayout, HasVolume};
ghost use Rattle.r4_base.specs.declared.superblock.Super40.{Super40};
ghost use Rattle.r4_check.specs.Walk.{faults_of};

/// A check finds no fault exactly where there is a volume: none in a settled image exactly where it has a content,
/// and none in what an image settles to exactly where that image has a volume (docs/check.md, docs/volume.md).
pub fn faults_are_none_where_there_is_a_volume()
    ensures content { (n : ℕ) (image : Image) (s : Super40) → IsImage n image → HasLayout n image s
        → faults_of s image ≡ [] → (m : Content) × HasContent n image m }
    ensures no_content_fault { (n : ℕ) (image : Image) (s : Super40) (m : Content) → IsImage n image
        → HasLayout n image s → HasContent n image m → faults_of s image ≡ [] }
    ensures volume { (n : ℕ) (image settled : Image) (s : Super40) → IsImage n image
        → Settles n image settled → HasLayout n settled s → faults_of s settled ≡ []
        → (m : Content) × HasVolume n image m }
    ensures no_volume_fault { (n : ℕ) (image settled : Image) (s : Super40) (m : Content)
        → Settles n image settled → HasLayout n settled s → HasVolume n image m
        → faults_of s settled ≡ [] }
{}
