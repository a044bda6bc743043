//! Reading the fields of an entry: each from the front of some bytes, with the bytes that are left.

ghost use Rattle.std.specs.Int.{w16, w32, w64};
ghost use Rattle.std.specs.Result.{result_ok};
ghost use Rattle.fs_model.specs.PathText.{read_path};
ghost use Rattle.fs_model.specs.KeyText.{read_key};
ghost use Rattle.journal_entry.specs.Reading.{Gives, number_at, byte_at, part_at, counted_at, path_at, key_at, flag_at, node_at, stored_at, plan_kind_at, len_at, store_at, id_at, plan_at, plan_or_none_at, next_at, worker_at};

use crate::bounds::{is_file_id, is_next, is_plan, is_plan_or_none, is_worker};
use crate::fault::Fault;
use fs_model::change::PlanKind;
use fs_model::path::{Path, PathFault};
use fs_model::prefix::Prefix;
use fs_model::reply::Stored;
use std::alloc::Global;

/// A number in two bytes.
pub fn u16_at(bytes: &[u8]) -> Result<(u16, &[u8]), Fault>
    ensures { Gives (λ x. (x.0, x.1.now)) result (number_at w16 bytes.now) }
{
    if bytes.len() < 2 {
        return Err(Fault::NoEntry);
    }
    let (front, rest) = bytes.split_at(2);
    Ok((u16::from_be_bytes([front[0], front[1]]), rest))
}

/// A number in four bytes.
pub fn u32_at(bytes: &[u8]) -> Result<(u32, &[u8]), Fault>
    ensures { Gives (λ x. (x.0, x.1.now)) result (number_at w32 bytes.now) }
{
    if bytes.len() < 4 {
        return Err(Fault::NoEntry);
    }
    let (front, rest) = bytes.split_at(4);
    let number = u32::from_be_bytes([front[0], front[1], front[2], front[3]]);
    Ok((number, rest))
}

/// A number in eight bytes.
pub fn u64_at(bytes: &[u8]) -> Result<(u64, &[u8]), Fault>
    ensures { Gives (λ x. (x.0, x.1.now)) result (number_at w64 bytes.now) }
{
    if bytes.len() < 8 {
        return Err(Fault::NoEntry);
    }
    let (front, rest) = bytes.split_at(8);
    let number = u64::from_be_bytes([
        front[0], front[1], front[2], front[3], front[4], front[5], front[6], front[7],
    ]);
    Ok((number, rest))
}

/// A byte.
fn byte_at(bytes: &[u8]) -> Result<(u8, &[u8]), Fault>
    ensures { Gives (λ x. (x.0, x.1.now)) result (byte_at bytes.now) }
{
    match bytes {
        [] => Err(Fault::NoEntry),
        [byte, rest @ ..] => Ok((*byte, rest)),
    }
}

/// So many bytes.
pub fn part_at(bytes: &[u8], len: usize) -> Result<(&[u8], &[u8]), Fault>
    ensures { Gives (λ x. (x.0.now, x.1.now)) result (part_at len bytes.now) }
{
    if bytes.len() < len {
        return Err(Fault::NoEntry);
    }
    Ok(bytes.split_at(len))
}

/// A text behind its length in two bytes.
#[tactic(auto, unfolding(crate::specs::Reading::counted_at))]
fn counted_at(bytes: &[u8]) -> Result<(&[u8], &[u8]), Fault>
    ensures { Gives (λ x. (x.0.now, x.1.now)) result (counted_at bytes.now) }
{
    let (len, rest) = u16_at(bytes)?;
    part_at(rest, len as usize)
}

/// The path that a text spells.
fn path_of(alloc: Global, text: &[u8]) -> Result<Path, Fault>
    ensures { Gives (λ p. p) result (result_ok (read_path text.now)) }
{
    match Path::read(alloc, text) {
        Ok(path) => Ok(path),
        Err(PathFault::Memory) => Err(Fault::Memory),
        Err(PathFault::TooLong) | Err(PathFault::BadName(_)) => Err(Fault::NoEntry),
    }
}

/// The key that a text spells.
fn key_of(alloc: Global, text: &[u8]) -> Result<Prefix, Fault>
    ensures { Gives (λ k. k) result (read_key text.now) }
{
    match Prefix::read(alloc, text)? {
        Some(key) => Ok(key),
        None => Err(Fault::NoEntry),
    }
}

/// A path.
#[tactic(auto, unfolding(crate::specs::Reading::path_at))]
pub fn path_at(alloc: Global, bytes: &[u8]) -> Result<(Path, &[u8]), Fault>
    ensures { Gives (λ x. (x.0, x.1.now)) result (path_at bytes.now) }
{
    let (text, rest) = counted_at(bytes)?;
    let path = path_of(alloc, text)?;
    Ok((path, rest))
}

/// A key.
#[tactic(auto, unfolding(crate::specs::Reading::key_at))]
pub fn key_at(alloc: Global, bytes: &[u8]) -> Result<(Prefix, &[u8]), Fault>
    ensures { Gives (λ x. (x.0, x.1.now)) result (key_at bytes.now) }
{
    let (text, rest) = counted_at(bytes)?;
    let key = key_of(alloc, text)?;
    Ok((key, rest))
}

/// A flag: 0 or 1.
#[tactic(auto, unfolding(crate::specs::Reading::flag_at))]
pub fn flag_at(bytes: &[u8]) -> Result<(bool, &[u8]), Fault>
    ensures { Gives (λ x. (x.0, x.1.now)) result (flag_at bytes.now) }
{
    let (byte, rest) = byte_at(bytes)?;
    match byte {
        0 => Ok((false, rest)),
        1 => Ok((true, rest)),
        _ => Err(Fault::NoEntry),
    }
}

/// Whether a node is a directory: 0 where it is, 1 where it is a file.
#[tactic(auto, unfolding(crate::specs::Reading::node_at))]
pub fn node_at(bytes: &[u8]) -> Result<(bool, &[u8]), Fault>
    ensures { Gives (λ x. (x.0, x.1.now)) result (node_at bytes.now) }
{
    let (byte, rest) = byte_at(bytes)?;
    match byte {
        0 => Ok((true, rest)),
        1 => Ok((false, rest)),
        _ => Err(Fault::NoEntry),
    }
}

/// How a file stands to its under-store: 0 to 2.
#[tactic(auto, unfolding(crate::specs::Reading::stored_at))]
pub fn stored_at(bytes: &[u8]) -> Result<(Stored, &[u8]), Fault>
    ensures { Gives (λ x. (x.0, x.1.now)) result (stored_at bytes.now) }
{
    let (byte, rest) = byte_at(bytes)?;
    match byte {
        0 => Ok((Stored::No, rest)),
        1 => Ok((Stored::Wanted, rest)),
        2 => Ok((Stored::Yes, rest)),
        _ => Err(Fault::NoEntry),
    }
}

/// What a plan does: 1 to 4.
#[tactic(auto, unfolding(crate::specs::Reading::plan_kind_at))]
pub fn plan_kind_at(bytes: &[u8]) -> Result<(PlanKind, &[u8]), Fault>
    ensures { Gives (λ x. (x.0, x.1.now)) result (plan_kind_at bytes.now) }
{
    let (byte, rest) = byte_at(bytes)?;
    match byte {
        1 => Ok((PlanKind::Move, rest)),
        2 => Ok((PlanKind::Remove, rest)),
        3 => Ok((PlanKind::Publish, rest)),
        4 => Ok((PlanKind::Load, rest)),
        _ => Err(Fault::NoEntry),
    }
}

/// A file's length.
#[tactic(auto, unfolding(crate::specs::Reading::len_at))]
pub fn len_at(bytes: &[u8]) -> Result<(u64, &[u8]), Fault>
    ensures { Gives (λ x. (x.0, x.1.now)) result (len_at bytes.now) }
{
    u64_at(bytes)
}

/// A store.
#[tactic(auto, unfolding(crate::specs::Reading::store_at))]
pub fn store_at(bytes: &[u8]) -> Result<(u32, &[u8]), Fault>
    ensures { Gives (λ x. (x.0, x.1.now)) result (store_at bytes.now) }
{
    u32_at(bytes)
}

/// A file's id.
#[tactic(auto, unfolding(crate::specs::Reading::id_at))]
pub fn id_at(bytes: &[u8]) -> Result<(u64, &[u8]), Fault>
    ensures { Gives (λ x. (x.0, x.1.now)) result (id_at bytes.now) }
{
    let (number, rest) = u64_at(bytes)?;
    if !is_file_id(number) {
        return Err(Fault::NoEntry);
    }
    Ok((number, rest))
}

/// A plan.
#[tactic(auto, unfolding(crate::specs::Reading::plan_at))]
pub fn plan_at(bytes: &[u8]) -> Result<(u64, &[u8]), Fault>
    ensures { Gives (λ x. (x.0, x.1.now)) result (plan_at bytes.now) }
{
    let (number, rest) = u64_at(bytes)?;
    if !is_plan(number) {
        return Err(Fault::NoEntry);
    }
    Ok((number, rest))
}

/// A plan, or 0 for none.
#[tactic(auto, unfolding(crate::specs::Reading::plan_or_none_at))]
pub fn plan_or_none_at(bytes: &[u8]) -> Result<(u64, &[u8]), Fault>
    ensures { Gives (λ x. (x.0, x.1.now)) result (plan_or_none_at bytes.now) }
{
    let (number, rest) = u64_at(bytes)?;
    if !is_plan_or_none(number) {
        return Err(Fault::NoEntry);
    }
    Ok((number, rest))
}

/// The number that the next file or plan gets.
#[tactic(auto, unfolding(crate::specs::Reading::next_at))]
pub fn next_at(bytes: &[u8]) -> Result<(u64, &[u8]), Fault>
    ensures { Gives (λ x. (x.0, x.1.now)) result (next_at bytes.now) }
{
    let (number, rest) = u64_at(bytes)?;
    if !is_next(number) {
        return Err(Fault::NoEntry);
    }
    Ok((number, rest))
}

/// A worker.
#[tactic(auto, unfolding(crate::specs::Reading::worker_at))]
pub fn worker_at(bytes: &[u8]) -> Result<(u32, &[u8]), Fault>
    ensures { Gives (λ x. (x.0, x.1.now)) result (worker_at bytes.now) }
{
    let (number, rest) = u32_at(bytes)?;
    if !is_worker(number) {
        return Err(Fault::NoEntry);
    }
    Ok((number, rest))
}
