//! What the two writes of a move leave of the head, as clauses for readers to cite. Nothing calls it.
ghost use Rattle.std.specs.Prelude.{◌≡◌, ◌⊎◌, ◌^◌, ◌<◌, ◌≤◌, ℕ, List, length};
ghost use Rattle.rb_base.specs.declared.sizes.TheConstants.{UNIT};
ghost use Rattle.rb_control.specs.Heads.{head_of, copy_at, other_copy, copy_offset, chooser_offset, moved};
ghost use Rattle.rb_disk.specs.DiskModel.{Torn};
ghost use Rattle.rb_layout.specs.Regions.{log_offset};
ghost use Rattle.rb_layout.specs.declared.layout.Head.{Head};

/// Where the copy that isn't chosen is torn the head stays. Where the chooser is torn the head is what the chosen copy
/// says or the other one. After both writes it is the new one.
pub fn move_steps()
    ensures one { (f g : List ℕ) → Torn (copy_offset (other_copy f)) UNIT f g → head_of g ≡ head_of f }
    ensures two { (f g : List ℕ) → Torn chooser_offset 1 f g
        → (head_of g ≡ head_of f) ⊎ (head_of g ≡ copy_at f (other_copy f)) }
    ensures both { (f : List ℕ) (head : Head) → log_offset 0 ≤ length f → head.slot < 256 ^ 4
        → head.number < 256 ^ 8 → head_of (moved f head) ≡ head }
{}
