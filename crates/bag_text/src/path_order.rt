//! The order of paths by their bytes.
ghost use Rattle.std.specs.Prelude.{IsTrue, List, OnOk, ℕ, ◌≡◌};
ghost use Rattle.std.specs.List.Sorted.{IsPermutation, IsSortedByKey};
ghost use Rattle.bag_text.specs.Text.{text_cmp};

use crate::Text;
use crate::sort_key::{common_front, key_after};
use std::alloc::{AllocError, Global};

/// What stands at a path.
pub trait HasPath {
    ghost path_of: { Self → List ℕ };

    /// The path that it stands at.
    fn path(&self) -> &Text
        ensures { result.now ≡ path_of self.now };
}

/// Sorts items by the bytes of their paths, in place: it takes memory for their keys alone. Most
/// are in order before the second sort, which then only compares neighbours.
pub fn sort_by_path<T: HasPath>(alloc: Global, items: &mut Vec<T>) -> Result<(), AllocError>
    ensures sorted { OnOk result (IsSortedByKey T.path_of text_cmp items.new.items) }
    ensures permutation { IsPermutation items.old.items items.new.items }
{
    if are_in_order(items.as_slice()) {
        return Ok(());
    }
    arrange(alloc, items)?;
    items.sort_unstable_by(|a, b| a.path().cmp(b.path()));
    Ok(())
}

/// Whether items are in the order of their paths, as those of many manifests are.
fn are_in_order<T: HasPath>(items: &[T]) -> bool
    ensures { IsTrue result → IsSortedByKey T.path_of text_cmp items.now }
{
    items.is_sorted_by(|a, b| a.path().cmp(b.path()).is_le())
}

/// Sorts items by keys that differ for most paths. Few are moved more than once, and none to memory
/// of its own.
fn arrange<T: HasPath>(alloc: Global, items: &mut Vec<T>) -> Result<(), AllocError>
    ensures { IsPermutation items.old.items items.new.items }
{
    let mut keys = keys(alloc, items.as_slice())?;
    keys.sort_by(|a, b| a.0.cmp(&b.0))?;
    let mut places = places(alloc, keys.as_slice())?;
    move_to(items.as_mut_slice(), places.as_mut_slice());
    Ok(())
}

/// The key of each item, with its place.
fn keys<T: HasPath>(alloc: Global, items: &[T]) -> Result<Vec<(u128, usize)>, AllocError> {
    let fronts = Fronts::of(items);
    let mut keys = Vec::with_capacity(alloc, items.len())?;
    for (place, item) in items.iter().enumerate() {
        keys.push((fronts.key_of(item.path().as_str()), place))?;
    }
    Ok(keys)
}

/// What the paths of payload files begin with, which most files are.
const PAYLOAD: &str = "data/";

/// The key of the least path that begins so, where a key of another is one of `BEHIND_PAYLOAD` or
/// stands below this.
const IN_PAYLOAD: u128 = 1 << 126;

const BEHIND_PAYLOAD: u128 = 1 << 127;

/// How many bytes paths begin alike: those of the payload, and the others.
#[derive(Clone, Copy)]
struct Fronts {
    payload: usize,
    others: usize,
}

impl Fronts {
    /// Those of the paths of items.
    fn of<T: HasPath>(items: &[T]) -> Fronts {
        let mut payload = None;
        let mut others = None;
        for item in items {
            let path = item.path().as_str();
            if path.starts_with(PAYLOAD) {
                payload = Some(front_of(payload, path.as_bytes()));
            } else {
                others = Some(front_of(others, path.as_bytes()));
            }
        }
        Fronts {
            payload: len_of(payload),
            others: len_of(others),
        }
    }

    /// A number that stands in the order of the paths, and most often tells them apart.
    fn key_of(self, path: &str) -> u128 {
        if path.starts_with(PAYLOAD) {
            return IN_PAYLOAD | (key_after(path.as_bytes(), self.payload) >> 2);
        }
        let key = key_after(path.as_bytes(), self.others) >> 2;
        if path < PAYLOAD {
            key
        } else {
            BEHIND_PAYLOAD | key
        }
    }
}

/// What a path has in common with the front of those before it, if any.
fn front_of<'a>(front: Option<&'a [u8]>, path: &'a [u8]) -> &'a [u8] {
    match front {
        None => path,
        Some(front) if path.starts_with(front) => front,
        Some(front) => common_front(front, path),
    }
}

/// How many bytes a front has, or none.
fn len_of(front: Option<&[u8]>) -> usize {
    match front {
        None => 0,
        Some(front) => front.len(),
    }
}

/// Where each item belongs, by the places of items in their order.
fn places(alloc: Global, order: &[(u128, usize)]) -> Result<Vec<usize>, AllocError> {
    let mut places = Vec::new(alloc);
    places.resize(order.len(), 0)?;
    for (place, item) in order.iter().enumerate() {
        if let Some(slot) = places.get_mut(item.1) {
            *slot = place;
        }
    }
    Ok(places)
}

/// Moves each item to its place. Each step brings an item there, or finds it there.
fn move_to<T>(items: &mut [T], places: &mut [usize])
    ensures { IsPermutation items.old items.new }
{
    let most = places.len().saturating_mul(2);
    let mut at = 0;
    for _ in 0..most {
        at = move_from(items, places, at);
    }
}

/// Moves the item that stands here to its place. Gives where to go on: here, or next where it was
/// at its place.
fn move_from<T>(items: &mut [T], places: &mut [usize], here: usize) -> usize
    ensures { IsPermutation items.old items.new }
{
    if here >= items.len() || here >= places.len() {
        return here;
    }
    let place = places[here];
    if place == here || place >= items.len() || place >= places.len() {
        return here.saturating_add(1);
    }
    items.swap(here, place);
    places.swap(here, place);
    here
}
