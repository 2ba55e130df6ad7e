//! Which layout a file has, by its first unit and its length. Every opening begins here.
ghost use Rattle.std.specs.Prelude.{◌≡◌, ℕ, List, length, IfOk, IfSome, IfNone, IsErrOf};
ghost use Rattle.rb_base.specs.Counts.{IsCountedAs, err_is, is_failed};
ghost use Rattle.rb_base.specs.declared.faults.OpenFault.TheVariants.{NoMemory, NotAStore};
ghost use Rattle.rb_disk.specs.Moments.{Rests};
ghost use Rattle.rb_layout.specs.declared.layout.Layout.{Layout};
ghost use Rattle.rb_layout.specs.Regions.{identity, HasIdentity};
ghost use Rattle.rb_layout.specs.OneLayout.{SameNumbers};

use crate::layout::{IDENTITY, Layout, VERSION};
use rb_base::{OpenFault, UNIT, u16_at, u32_at};
use rb_disk::Disk;

impl Layout {
    /// Which layout the file has: the one whose identity its first bytes are and whose length it has, or
    /// NotAStore where there is none. Only a call of the disk can fail.
    pub fn read<D: Disk>(disk: &mut D) -> Result<Layout, OpenFault>
        ensures found { D.tells → IfOk result (λ l. HasIdentity VERSION l (D.content disk.old)) }
        ensures none { D.tells → IsErrOf result NotAStore → (l : Layout)
            → ¬ HasIdentity VERSION l (D.content disk.old) }
        ensures no_memory { ¬ IsErrOf result NoMemory }
        ensures counted { IsCountedAs (D.faults disk.old) (D.faults disk.new) (err_is is_failed result) }
        ensures same { D.tells → Rests D.Disk disk.old disk.new }
    {
        let length = disk.len()?;
        if length < UNIT as u64 {
            return Err(OpenFault::NotAStore);
        }
        let mut front = [0; IDENTITY];
        disk.read_at(0, &mut front)?;
        let Some(layout) = layout_of(&front) else {
            return Err(OpenFault::NotAStore);
        };
        if layout.length() == length {
            Ok(layout)
        } else {
            Err(OpenFault::NotAStore)
        }
    }
}

// The layout whose identity these bytes are.
fn layout_of(front: &[u8]) -> Option<Layout>
    requires { length front.now ≡ 24 }
    ensures found { IfSome result (λ l. front.now ≡ identity VERSION l) }
    ensures none { IfNone result ((l : Layout) → ¬ (front.now ≡ identity VERSION l)) }
{
    let layout = Layout::new(
        u16_at(front, 12),
        u32_at(front, 16),
        u16_at(front, 14),
        u32_at(front, 20),
    )?;
    let mut expected = [0; IDENTITY];
    layout.put_identity(&mut expected);
    if front == expected.as_slice() {
        Some(layout)
    } else {
        None
    }
}

/// A file has one layout: its identity and its length are those of no other numbers.
pub fn one_layout()
    ensures { (version : ℕ) (l m : Layout) (file : List ℕ) → HasIdentity version l file
        → HasIdentity version m file → SameNumbers l m }
{}
