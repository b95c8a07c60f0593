// Which slots are watched by their leaves' names.

ghost use Rattle.std.specs.Prelude.{◌≡◌, ℕ, ◌+◌, ◌<◌, ◌≤◌, ◌++◌, Bool, true, false, Some, OnOk, IfOk, IfErr, IfSome, MatchOption, length, map, slice_get, position, take, string_bytes};
ghost use Rattle.std.specs.List.{list_any};
ghost use Rattle.std.specs.Str.{bytes_eq};
ghost use Rattle.pearl_watch.specs.Watched.{AreAccepted, IsCause, is_refused, leaf_named, name_at, slots_from, slots_of, watched_by};

use crate::fault::WatchFault;
use pearl_instructions::object::Leaf;
use pearl_instructions::valid::Valid;
use std::alloc::{AllocError as NoMemory, Global};

/// A slot that is watched: the number of its name and its number in its leaf, both counted from 0, and its number in
/// the module.
#[derive(Clone, Copy, PartialEq, Eq, Debug)]
pub struct Watched {
    pub name: u32,
    pub number: u32,
    pub slot: u32,
}

// The number of the first leaf of this name.
fn leaf_named(leaves: &[Leaf], name: &[u8]) -> Option<usize>
    ensures { result ≡ leaf_named leaves.now name.now }
{
    leaves.iter().position(|leaf| leaf.name.as_slice() == name)
}

// Whether a name is among these.
fn is_among(names: &[String], name: &[u8]) -> bool
    ensures { result ≡ list_any (λ before. bytes_eq (string_bytes before) name.now) names.now }
{
    names.iter().any(|before| before.as_bytes() == name)
}

// The leaf that a name means, unless the name is refused; so many slots are watched by those before it.
fn accepted_leaf(leaves: &[Leaf], names: &[String], name: usize, watched: usize) -> Option<usize>
    requires within { name < length names.now }
    requires watched { watched ≡ length (watched_by leaves.now (map string_bytes names.now) name) }
    requires few { watched ≤ 1024 }
    ensures leaf { MatchOption result (is_refused leaves.now (map string_bytes names.now) name ≡ true)
        (λ v. (is_refused leaves.now (map string_bytes names.now) name ≡ false) × (v < length leaves.now)
        × (leaf_named leaves.now (name_at (map string_bytes names.now) name) ≡ Some v)) }
    ensures fits { IfSome result (λ v. IfSome (slice_get leaves.now v) (λ leaf. watched + leaf.slots ≤ 1024)) }
{
    let text = names[name].as_bytes();
    let Some(leaf) = leaf_named(leaves, text) else {
        return None;
    };
    if is_among(&names[..name], text) {
        return None;
    }
    if watched + leaves[leaf].slots as usize > 1024 {
        return None;
    }
    Some(leaf)
}

// Adds so many slots of a leaf.
fn push_slots(watched: &mut Vec<Watched>, name: u32, first: u32, count: u32) -> Result<(), NoMemory>
    requires { first + count ≤ 65536 }
    ensures { OnOk result (watched.new.items ≡ watched.old.items ++ slots_from name first count) }
{
    for number in 0..count {
        watched.push(Watched {
            name,
            number,
            slot: first + number,
        })?;
    }
    Ok(())
}

/// The slots that the names watch, in their order.
pub(crate) fn watched_slots(
    alloc: Global,
    object: &Valid,
    names: &[String],
) -> Result<Vec<Watched>, WatchFault>
    ensures watched { IfOk result (λ watched. watched.items ≡ watched_by object.now.leaves (map string_bytes names.now) (length names.now)) }
    ensures few { IfOk result (λ watched. length watched.items ≤ 1024) }
    ensures accepted { OnOk result (AreAccepted object.now.leaves (map string_bytes names.now)) }
    ensures short { OnOk result ((name : ℕ) → name < length names.now → length (name_at (map string_bytes names.now) name) ≤ 1024) }
    ensures cause { IfErr result (λ fault. IsCause object.now.leaves (map string_bytes names.now) fault) }
{
    let leaves = object.object().leaves.as_slice();
    let mut watched = Vec::new(alloc);
    for name in 0..names.len() {
        let Some(leaf) = accepted_leaf(leaves, names, name, watched.len()) else {
            return Err(WatchFault::BadName(name as u32 + 1));
        };
        push_slots(
            &mut watched,
            name as u32,
            object.first_slot(leaf as u64),
            leaves[leaf].slots,
        )?;
    }
    Ok(watched)
}
