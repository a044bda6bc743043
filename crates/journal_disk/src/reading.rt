//! Reading an area: its head, its bytes, and the entries that the bytes stand for.

ghost use Rattle.std.specs.Prelude.{◌≡◌, ℕ, ◌<◌, ◌≤◌, ◌^◌, Err, None, Ok, List, length, true, IfOk, IsErrOf, IsTrue, OnErr};
ghost use Rattle.std.specs.List.{list_all};
ghost use Rattle.outside.specs.Causes.{Rose};
ghost use Rattle.journal_entry.specs.EntryText.{is_entry};
ghost use Rattle.journal_disk.specs.AreaText.{area_of, head_of, is_shut};
ghost use Rattle.journal_disk.specs.Opening.{IsRead};
ghost use Rattle.journal_disk.specs.declared.fault.RecoverFault.TheVariants.{Damaged, Failed};

use crate::fault::RecoverFault;
use journal_entry::decode::decode;
use journal_entry::entry::{Entries, Entry};
use outside::disk::Disk;
use outside::fused::Fused;
use outside::stream::Fault;
use std::alloc::Global;

/// How many bytes are read at once.
const PIECE: usize = 8192;

/// The first bytes of an area.
#[derive(Debug, Clone, Copy)]
pub(crate) struct Head {
    /// The generation, where the area is open.
    pub(crate) generation: Option<u64>,
    /// Whether the head gate is there and closed.
    pub(crate) shut: bool,
}

// The head of an area that begins with these bytes, up to ten.
#[tactic(auto, unfolding(crate::specs::AreaText::head_of))]
fn head_in(bytes: &[u8]) -> Head
    ensures generation { result.generation ≡ head_of bytes.now }
    ensures shut { result.shut ≡ is_shut bytes.now }
{
    let shut = !bytes.is_empty() && bytes[0] == 0;
    let generation = if bytes.len() >= 10 && bytes[0] != 0 {
        let text = [
            bytes[1], bytes[2], bytes[3], bytes[4], bytes[5], bytes[6], bytes[7], bytes[8],
        ];
        Some(u64::from_be_bytes(text))
    } else {
        None
    };
    Head { generation, shut }
}

/// The head of an area; no memory.
pub(crate) fn read_head<D: Disk>(area: &mut Fused<D>) -> Result<Head, Fault>
    requires unfused { area.old.fuse ≡ None }

    ensures generation { IsTrue (D.tells area.old.disk) → IfOk result (λ head. head.generation ≡ head_of (D.history area.old.disk).now.held) }
    ensures shut { IsTrue (D.tells area.old.disk) → IfOk result (λ head. head.shut ≡ is_shut (D.history area.old.disk).now.held) }
    ensures read { IsRead D.Disk area.old area.new }
    ensures failed { OnErr result (Rose (D.faults area.old.disk) (D.faults area.new.disk)) }
{
    let mut buf = [0u8; 10];
    let n = area.read_at(0, &mut buf)?;
    Ok(head_in(&buf[..n]))
}

/// All bytes of an area.
///
/// `Failed` only where the area's own count rose; else an error is want of memory.
pub(crate) fn read_all<D: Disk>(alloc: Global, area: &mut Fused<D>) -> Result<Vec<u8>, RecoverFault>
    requires unfused { area.old.fuse ≡ None }

    ensures bytes { IsTrue (D.tells area.old.disk) → IfOk result (λ bytes. bytes.items ≡ (D.history area.old.disk).now.held) }
    ensures read { IsRead D.Disk area.old area.new }
    ensures failed { IsErrOf result Failed → Rose (D.faults area.old.disk) (D.faults area.new.disk) }
    ensures whole { (number place : ℕ) → IsErrOf result (Damaged number place) → ⊥ }
{
    let mut piece = [0u8; PIECE];
    read_pieces(alloc, area, &mut piece)
}

// The same, in pieces of the buffer's length.
fn read_pieces<D: Disk>(
    alloc: Global,
    area: &mut Fused<D>,
    piece: &mut [u8],
) -> Result<Vec<u8>, RecoverFault>
    requires unfused { area.old.fuse ≡ None }
    requires room { 0 < length piece.old }

    ensures bytes { IsTrue (D.tells area.old.disk) → IfOk result (λ bytes. bytes.items ≡ (D.history area.old.disk).now.held) }
    ensures read { IsRead D.Disk area.old area.new }
    ensures failed { IsErrOf result Failed → Rose (D.faults area.old.disk) (D.faults area.new.disk) }
    ensures whole { (number place : ℕ) → IsErrOf result (Damaged number place) → ⊥ }
{
    let len = area.len()?;
    let mut bytes = Vec::new(alloc);
    let mut at: u64 = 0;
    while at < len {
        let n = area.read_at(at, piece)?;
        if n == 0 {
            return Ok(bytes);
        }
        bytes.extend_from_slice(&piece[..n])?;
        at = at.saturating_add(n as u64);
    }
    Ok(bytes)
}

/// What an open area is read as: its entries, and the place of its closed gate.
pub(crate) fn read_area(
    alloc: Global,
    number: u32,
    bytes: &[u8],
) -> Result<(Entries, u64), RecoverFault>
    ensures ok { IfOk result (λ x. area_of bytes.now ≡ Ok (x.0, x.1)) }
    ensures small { IfOk result (λ x. x.1 < 2 ^ 63) }
    ensures entries { IfOk result (λ x. list_all is_entry x.0 ≡ true) }
    ensures damaged { (area place : ℕ) → IsErrOf result (Damaged area place) → (area ≡ number) × (area_of bytes.now ≡ Err place) }
    ensures failed { IsErrOf result Failed → ⊥ }
{
    let mut entries: Vec<Entry> = Vec::new(alloc);
    let mut place: usize = 9;
    while place < bytes.len() {
        if bytes[place] == 0 {
            return Ok((Entries::from_vec(entries), place as u64));
        }
        let Some((entry, taken)) = decode(alloc, &bytes[place + 1..])? else {
            return Err(RecoverFault::Damaged {
                area: number,
                place: place as u64,
            });
        };
        entries.push(entry)?;
        place += 1 + taken;
    }
    Err(RecoverFault::Damaged {
        area: number,
        place: place as u64,
    })
}
