//! Opens a journal of many entries, so that its time can be measured.
//!
//! The first word after the program's name is how many entries there are. They all make the same directory, so that
//! only the first fits; with a second word each makes one of its own, in no order. The status is 0 where the names are
//! those of the entries that fit, and else 1.
#![tactic(auto)]

ghost use Rattle.std.specs.Prelude.{◌≡◌, true};
ghost use Rattle.fs_model.specs.Spelled.{is_setup};

use fs_model::items::Items;
use fs_model::setup::Setup;
use master_node::Master;
use outside::fused::Fused;
use outside_mem::MemDisk;
use std::alloc::{AllocError, Global};
use std::process::ExitCode;
use std::{env, io};

/// The front of an open area: its head, the next numbers, and the mount of `/`.
const FRONT: &[u8; 54] = b"\x01\x00\x00\x00\x00\x00\x00\x00\x01\
\x01\x00\x00\x00\x11\x0f\x00\x00\x00\x00\x00\x00\x00\x01\x00\x00\x00\x00\x00\x00\x00\x01\
\x01\x00\x00\x00\x12\x0a\x00\x01/\x00\x00\x00\x01\x00\x00\x00\x00\x00\x00\x00\x00\x00\x00";

/// The entry of `mkdir /a` behind an open gate.
const MKDIR: &[u8; 10] = b"\x01\x00\x00\x00\x05\x01\x00\x02/a";

/// An open area with so many entries `mkdir /a`.
fn area(alloc: Global, count: u64) -> Result<Vec<u8>, AllocError> {
    let mut bytes = Vec::from_slice(alloc, FRONT)?;
    for _ in 0..count {
        bytes.extend_from_slice(MKDIR)?;
    }
    bytes.push(0)?;
    Ok(bytes)
}

/// The entry of `mkdir` with a number of seven digits behind an open gate.
fn numbered(number: u64) -> [u8; 17] {
    let mut entry = *b"\x01\x00\x00\x00\x0c\x01\x00\x09/n0000000";
    let mut rest = number;
    for place in [16, 15, 14, 13, 12, 11, 10] {
        entry[place] = b'0' + (rest % 10) as u8;
        rest /= 10;
    }
    entry
}

/// An open area with so many entries that each make a directory of their own, up to 1,000,002, in no order.
fn distinct_area(alloc: Global, count: u64) -> Result<Vec<u8>, AllocError> {
    let mut bytes = Vec::from_slice(alloc, FRONT)?;
    let mut number: u64 = 0;
    for _ in 0..count {
        number = number.saturating_add(7_919) % 1_000_003;
        bytes.extend_from_slice(&numbered(number))?;
    }
    bytes.push(0)?;
    Ok(bytes)
}

/// A setup of one store and no worker, with the longest areas.
fn setup(alloc: Global) -> Setup
    ensures { is_setup result ≡ true }
{
    Setup {
        block: 65_536,
        patience: 3,
        area: 1_073_741_824,
        root: Items::from_vec(Vec::new(alloc)),
        stores: 1,
        tiers: Items::from_vec(Vec::new(alloc)),
    }
}

/// The number that a word's digits give, as far as a `u64` goes.
fn number(word: &str) -> u64 {
    let mut value: u64 = 0;
    for digit in word.as_bytes() {
        value = value
            .saturating_mul(10)
            .saturating_add(u64::from(digit.saturating_sub(b'0')));
    }
    value
}

/// How many nodes the names have after an opening of this area; 0 where it isn't opened.
fn opened(alloc: Global, area: Vec<u8>) -> Result<u64, AllocError> {
    let first = Fused::new(MemDisk::new(area));
    let second = Fused::new(MemDisk::new(Vec::new(alloc)));
    match Master::recover(alloc, &setup(alloc), first, second) {
        Ok(master) => Ok(master.names().nodes()),
        Err(_) => Ok(0),
    }
}

fn main(rt: HostRuntime) -> io::Result<ExitCode> {
    let alloc = rt.alloc();
    let mut count = 0;
    let mut words: u64 = 0;
    for word in env::args(&rt)?.skip(1) {
        if words == 0 {
            count = number(&word);
        }
        words = words.saturating_add(1);
    }
    let (area, expected) = if words > 1 {
        (distinct_area(alloc, count)?, count.saturating_add(1))
    } else {
        (area(alloc, count)?, 2)
    };
    let nodes = opened(alloc, area)?;
    Ok(ExitCode::from(if nodes == expected { 0 } else { 1 }))
}
