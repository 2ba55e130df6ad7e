//! Reads the bytes of a group. The log calls it.
ghost use Rattle.std.specs.Prelude.{◌≡◌, ◌≢◌, ℕ, List, [], ◌++◌, length, true, false, IfSome, IfNone};
ghost use Rattle.rb_base.specs.Groups.{Patch, patch, group_length, IsPatch, IsGroup};
ghost use Rattle.rb_group.specs.Spelling.{patch_bytes, group_bytes, SpellsGroup};

use rb_base::{BLOCK_HEAD, BlockNo, GROUP_BYTES, GROUP_PATCHES, Group, UNIT, u16_at, u32_at};

/// The bytes of a patch in front of those that it writes: the block, the offset and the length.
const PATCH_BYTES: usize = 8;

/// A patch as it lies in the bytes that are read.
#[derive(Drop)]
struct Found<'a> {
    block: BlockNo,
    at: u16,
    bytes: &'a [u8],
}

/// The patch at the front of the bytes, and the bytes behind it.
fn read_patch(bytes: &[u8]) -> Option<(Found<'_>, &[u8])>
    ensures valid { IfSome result (λ parts. IsPatch (patch parts.0.block parts.0.at parts.0.bytes.now)) }
    ensures found { IfSome result (λ parts. bytes.now ≡ patch_bytes
        (patch parts.0.block parts.0.at parts.0.bytes.now) ++ parts.1.now) }
    ensures none { IfNone result ((p : Patch) (rest : List ℕ) → IsPatch p → bytes.now ≢ patch_bytes p ++ rest) }
{
    if bytes.len() < PATCH_BYTES {
        return None;
    }
    let at = u16_at(bytes, 4);
    let length = u16_at(bytes, 6) as usize;
    let behind = &bytes[PATCH_BYTES..];
    if length < 1
        || (at as usize) < BLOCK_HEAD
        || at as usize + length > UNIT
        || behind.len() < length
    {
        return None;
    }
    let (own, rest) = behind.split_at(length);
    let found = Found {
        block: u32_at(bytes, 0),
        at,
        bytes: own,
    };
    Some((found, rest))
}

/// Puts the group whose spelling the bytes are into `group`, and says whether there is one. Where there is none, what
/// `group` holds then is no matter.
pub fn decode(bytes: &[u8], group: &mut Group) -> bool
    ensures found { result ≡ true → SpellsGroup bytes.now group.new }
    ensures none { result ≡ false → (patches : List Patch) → ¬ SpellsGroup bytes.now patches }
{
    if bytes.len() < 2 || bytes.len() > GROUP_BYTES {
        return false;
    }
    let count = u16_at(bytes, 0);
    if count < 1 || count as usize > GROUP_PATCHES {
        return false;
    }
    group.clear();
    let mut rest = &bytes[2..];
    for _ in 0..count {
        let Some((patch, behind)) = read_patch(rest) else {
            return false;
        };
        group.push(patch.block, patch.at, patch.bytes);
        rest = behind;
    }
    rest.is_empty()
}

/// No two groups have one spelling, and no spelling is the front of another. Each has as many bytes as its
/// group's length says.
pub fn one_spelling()
    ensures same { (patches others : List Patch) → IsGroup patches → IsGroup others
        → group_bytes patches ≡ group_bytes others → patches ≡ others }
    ensures prefix { (patches others : List Patch) (rest : List ℕ) → IsGroup patches → IsGroup others
        → group_bytes patches ++ rest ≡ group_bytes others → rest ≡ [] }
    ensures length { (patches : List Patch) → length (group_bytes patches) ≡ group_length patches }
{}
