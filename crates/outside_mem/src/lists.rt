//! Lists of the objects of a store in memory. No call that changes one takes memory, since nodes go
//! from list to list.

ghost use Rattle.std.specs.Prelude.{◌≡◌, ◌<◌, ◌≤◌, ◌+◌, ◌-◌, ◌^◌, [], ◌∷◌, ◌++◌, take, drop, length, is_none, IfOk, IfSome, IsSomeAnd, Some, List, ℕ, None, option_map, IsTrue, if◌then◌else◌};
ghost use Rattle.std.specs.Option.{option_copied};
ghost use Rattle.outside.specs.Contents.{is_after, is_short};
ghost use Rattle.outside_mem.specs.Stored.{held, with_key, without, is_crossed, better, first_at, first_wanted, found_as, renamed};

use crate::writers::{MemObject, MemWriter};
use outside::key::Key;
use std::alloc::AllocError;
use std::collections::LinkedList;
use std::mem::{replace, swap};

/// The bytes of the first object with a key.
pub(crate) fn find<'a>(objects: &'a LinkedList<MemObject>, key: &Key) -> Option<&'a [u8]>
    ensures { option_map (λ bytes. bytes.now) result ≡ held objects.now key.now }
{
    for object in objects {
        if object.key == *key {
            return Some(object.bytes.as_slice());
        }
    }
    None
}

/// So many bytes of an object from a place on, if they are there.
pub(crate) fn find_range<'a>(
    objects: &'a LinkedList<MemObject>,
    key: &Key,
    at: u64,
    len: u64,
) -> Option<&'a [u8]>
    ensures short { is_none result ≡ is_short (Some (held objects.now)) key.now (at + len) }
    ensures len { IfSome result (λ range. length range.now ≡ len) }
    ensures range { IfSome result (λ range. IsSomeAnd (held objects.now key.now) (λ bytes. (at + len ≤ length bytes) × (range.now ≡ take len (drop at bytes)))) }
{
    let bytes = find(objects, key)?;
    let at = at as usize;
    let end = at.checked_add(len as usize)?;
    if end > bytes.len() {
        return None;
    }
    Some(&bytes[at..end])
}

/// Whether an object, other than those at a key that it leaves, can't stand beside one at a key.
pub(crate) fn is_crossed(objects: &LinkedList<MemObject>, left: &Key, key: &Key) -> bool
    ensures { result ≡ is_crossed left.now key.now objects.now }
{
    for object in objects {
        if object.key != *left && key.crosses(&object.key) {
            return true;
        }
    }
    false
}

/// Whether a key is at or below one and stands after another, if there is one.
fn is_after(key: &Key, under: &Key, after: Option<&Key>) -> bool
    ensures { result ≡ is_after under.now (option_copied after.entry) key.now }
{
    match after {
        None => key.is_below(under),
        Some(after) => key.is_below(under) && after < key,
    }
}

/// The object, where it is at or below a key and after another, and its key stands before that of
/// the one found so far; else that one.
fn better<'a>(
    found: Option<&'a MemObject>,
    object: &'a MemObject,
    under: &Key,
    after: Option<&Key>,
) -> Option<&'a MemObject>
    ensures { option_copied result ≡ better (is_after under.now (option_copied after.entry)) (option_copied found.entry) object.now }
{
    if !is_after(&object.key, under, after) {
        return found;
    }
    match found {
        None => Some(object),
        Some(first) => {
            if object.key < first.key {
                return Some(object);
            }
            Some(first)
        }
    }
}

/// The first object by its key, at or below a key and after another, if there is one.
pub(crate) fn first_after<'a>(
    objects: &'a LinkedList<MemObject>,
    under: &Key,
    after: Option<&Key>,
) -> Option<&'a MemObject>
    ensures { option_copied result ≡ first_wanted (is_after under.now (option_copied after.entry)) None objects.now }
{
    let mut found = None;
    for object in objects {
        found = better(found, object, under, after);
    }
    found
}

/// An object's key and length. An `Err` is want of memory.
pub(crate) fn found_as(object: &MemObject) -> Result<(Key, u64), AllocError>
    ensures { IfOk result (λ found. found ≡ found_as object.now) }
{
    let key = object.key.clone()?;
    Ok((key, object.bytes.len() as u64))
}

/// Moves the first object out of a list, into one of its own.
fn take_first(objects: &mut LinkedList<MemObject>) -> LinkedList<MemObject>
    requires { 0 < length objects.old }
    ensures taken { result ≡ take 1 objects.old }
    ensures one { length result ≡ 1 }
    ensures left { objects.new ≡ drop 1 objects.old }
{
    let rest = objects.split_off(1).unwrap();
    replace(objects, rest)
}

/// Moves the objects with a key out of a list, into one of their own.
fn take_out(objects: &mut LinkedList<MemObject>, key: &Key) -> LinkedList<MemObject>
    ensures taken { result ≡ with_key key.now objects.old }
    ensures left { objects.new ≡ without key.now objects.old }
    ensures len { length result + length objects.new ≡ length objects.old }
    ensures fits { length objects.old < 2 ^ 63 }
{
    let mut taken = LinkedList::new(*objects.allocator());
    let mut left = LinkedList::new(*objects.allocator());
    let _len = objects.len();
    'walking: while let Some(object) = objects.front() {
        let here = object.key == *key;
        let mut one = take_first(objects);
        if here {
            taken.append(&mut one).unwrap();
            continue;
        }
        left.append(&mut one).unwrap();
    }
    swap(objects, &mut left);
    taken
}

/// Gives the one object of a list another key.
fn set_key(objects: &mut LinkedList<MemObject>, key: Key)
    requires { length objects.old ≡ 1 }
    ensures { objects.new ≡ first_at key objects.old [] }
{
    if let Some(object) = objects.front_mut() {
        object.key = key;
    }
}

/// Puts objects in front of a list.
fn link(objects: &mut LinkedList<MemObject>, mut front: LinkedList<MemObject>)
    requires { length front + length objects.old < 2 ^ 63 }
    ensures { objects.new ≡ front ++ objects.old }
{
    front.append(objects).unwrap();
    swap(objects, &mut front);
}

/// Where it is to happen, puts a writer's object at a key, in place of any there.
pub(crate) fn put(objects: &mut LinkedList<MemObject>, writer: MemWriter, key: Key, happens: bool)
    requires { IsTrue happens → length objects.old + 1 < 2 ^ 63 }
    ensures { objects.new ≡ (if happens then (record { key = key; bytes = writer.bytes }) ∷ without key objects.old else objects.old) }
{
    if !happens {
        return;
    }
    drop(take_out(objects, &key));
    link(objects, writer.into_object(key));
}

/// Where it is to happen, moves the object at a key, if there is one, to another, in place of any
/// there.
pub(crate) fn rename(objects: &mut LinkedList<MemObject>, from: &Key, to: Key, happens: bool)
    ensures { objects.new ≡ (if happens then renamed from.now to objects.old else objects.old) }
{
    if !happens || find(objects, from).is_none() {
        return;
    }
    let mut taken = take_out(objects, from);
    drop(take_out(objects, &to));
    let mut object = take_first(&mut taken);
    set_key(&mut object, to);
    link(objects, object);
}

/// Where it is to happen, removes the objects with a key.
pub(crate) fn remove(objects: &mut LinkedList<MemObject>, key: &Key, happens: bool)
    ensures { objects.new ≡ (if happens then without key.now objects.old else objects.old) }
{
    if happens {
        drop(take_out(objects, key));
    }
}

/// Where it is to happen, removes the last object alone, or all.
pub(crate) fn clear(objects: &mut LinkedList<MemObject>, last_alone: bool, happens: bool)
    ensures { objects.new ≡ (if happens then (if last_alone then take (length objects.old - 1) objects.old else []) else objects.old) }
{
    if !happens {
        return;
    }
    if last_alone {
        drop(objects.pop_back());
        return;
    }
    objects.clear();
}
