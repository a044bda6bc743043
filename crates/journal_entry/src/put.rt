//! Writing the fields of an entry at the end of some bytes, whose spare is enough; none of this takes memory.

ghost use Rattle.std.specs.Prelude.{◌≡◌, ◌≤◌, ◌<◌, ◌+◌, ◌*◌, ◌^◌, ◌++◌, ◌∷◌, [], true, length, vec_len};
ghost use Rattle.std.specs.Vec.{vec_capacity};
ghost use Rattle.std.specs.List.{flat_map};
ghost use Rattle.fs_model.specs.PathForm.{is_path, is_key, path_text, key_text, names_text};
ghost use Rattle.fs_model.specs.PathLength.{path_len, path_bytes};
ghost use Rattle.fs_model.specs.Changes.{key_len};
ghost use Rattle.journal_entry.specs.Fields.{two_bytes, four_bytes, eight_bytes, path_field, key_field, workers_field, flag_byte, stored_byte, plan_kind_byte, node_byte};

use byteorder::{BigEndian, ByteOrder};
use fs_model::change::PlanKind;
use fs_model::items::Items;
use fs_model::name::Name;
use fs_model::numbers::WorkerNo;
use fs_model::path::Path;
use fs_model::prefix::Prefix;
use fs_model::reply::Stored;

/// Bytes.
fn put(out: &mut Vec<u8>, bytes: &[u8])
    requires { vec_len out.old + length bytes.now ≤ vec_capacity out.old }
    ensures items { out.new.items ≡ out.old.items ++ bytes.now }
    ensures len { vec_len out.new ≡ vec_len out.old + length bytes.now }
    ensures capacity { vec_capacity out.old ≤ vec_capacity out.new }
{
    match out.extend_from_slice(bytes) {
        Ok(()) => {}
        Err(_) => unreachable!(),
    }
}

/// A byte.
pub fn put_byte(out: &mut Vec<u8>, byte: u8)
    requires { vec_len out.old + 1 ≤ vec_capacity out.old }
    ensures items { out.new.items ≡ out.old.items ++ byte ∷ [] }
    ensures len { vec_len out.new ≡ vec_len out.old + 1 }
    ensures capacity { vec_capacity out.old ≤ vec_capacity out.new }
{
    match out.push(byte) {
        Ok(()) => {}
        Err(_) => unreachable!(),
    }
}

/// A number in two bytes, the highest first.
fn put_u16(out: &mut Vec<u8>, number: u16)
    requires { vec_len out.old + 2 ≤ vec_capacity out.old }
    ensures items { out.new.items ≡ out.old.items ++ two_bytes number }
    ensures len { vec_len out.new ≡ vec_len out.old + 2 }
    ensures capacity { vec_capacity out.old ≤ vec_capacity out.new }
{
    let mut bytes = [0; 2];
    BigEndian::write_u16(&mut bytes, number);
    put(out, &bytes);
}

/// A number in four bytes, the highest first.
pub fn put_u32(out: &mut Vec<u8>, number: u32)
    requires { vec_len out.old + 4 ≤ vec_capacity out.old }
    ensures items { out.new.items ≡ out.old.items ++ four_bytes number }
    ensures len { vec_len out.new ≡ vec_len out.old + 4 }
    ensures capacity { vec_capacity out.old ≤ vec_capacity out.new }
{
    let mut bytes = [0; 4];
    BigEndian::write_u32(&mut bytes, number);
    put(out, &bytes);
}

/// A number in eight bytes, the highest first.
pub fn put_u64(out: &mut Vec<u8>, number: u64)
    requires { vec_len out.old + 8 ≤ vec_capacity out.old }
    ensures items { out.new.items ≡ out.old.items ++ eight_bytes number }
    ensures len { vec_len out.new ≡ vec_len out.old + 8 }
    ensures capacity { vec_capacity out.old ≤ vec_capacity out.new }
{
    let mut bytes = [0; 8];
    BigEndian::write_u64(&mut bytes, number);
    put(out, &bytes);
}

/// A flag.
pub fn put_flag(out: &mut Vec<u8>, flag: bool)
    requires { vec_len out.old + 1 ≤ vec_capacity out.old }
    ensures items { out.new.items ≡ out.old.items ++ flag_byte flag ∷ [] }
    ensures len { vec_len out.new ≡ vec_len out.old + 1 }
    ensures capacity { vec_capacity out.old ≤ vec_capacity out.new }
{
    put_byte(out, if flag { 1 } else { 0 });
}

/// Whether a node is a directory.
pub fn put_node(out: &mut Vec<u8>, dir: bool)
    requires { vec_len out.old + 1 ≤ vec_capacity out.old }
    ensures items { out.new.items ≡ out.old.items ++ node_byte dir ∷ [] }
    ensures len { vec_len out.new ≡ vec_len out.old + 1 }
    ensures capacity { vec_capacity out.old ≤ vec_capacity out.new }
{
    put_byte(out, if dir { 0 } else { 1 });
}

/// The byte for how a file stands to its under-store.
fn stored_byte(stored: Stored) -> u8
    ensures { result ≡ stored_byte stored }
{
    match stored {
        Stored::No => 0,
        Stored::Wanted => 1,
        Stored::Yes => 2,
    }
}

/// How a file stands to its under-store.
pub fn put_stored(out: &mut Vec<u8>, stored: Stored)
    requires { vec_len out.old + 1 ≤ vec_capacity out.old }
    ensures items { out.new.items ≡ out.old.items ++ stored_byte stored ∷ [] }
    ensures len { vec_len out.new ≡ vec_len out.old + 1 }
    ensures capacity { vec_capacity out.old ≤ vec_capacity out.new }
{
    put_byte(out, stored_byte(stored));
}

/// The byte for what a plan does.
fn plan_kind_byte(kind: PlanKind) -> u8
    ensures { result ≡ plan_kind_byte kind }
{
    match kind {
        PlanKind::Move => 1,
        PlanKind::Remove => 2,
        PlanKind::Publish => 3,
        PlanKind::Load => 4,
    }
}

/// What a plan does.
pub fn put_plan_kind(out: &mut Vec<u8>, kind: PlanKind)
    requires { vec_len out.old + 1 ≤ vec_capacity out.old }
    ensures items { out.new.items ≡ out.old.items ++ plan_kind_byte kind ∷ [] }
    ensures len { vec_len out.new ≡ vec_len out.old + 1 }
    ensures capacity { vec_capacity out.old ≤ vec_capacity out.new }
{
    put_byte(out, plan_kind_byte(kind));
}

/// The names of a path, each behind a slash.
fn put_path_names(out: &mut Vec<u8>, names: &[Name])
    requires { vec_len out.old + path_bytes names.now ≤ vec_capacity out.old }
    ensures items { out.new.items ≡ out.old.items ++ names_text names.now }
    ensures len { vec_len out.new ≡ vec_len out.old + path_bytes names.now }
    ensures capacity { vec_capacity out.old ≤ vec_capacity out.new }
{
    for name in names {
        put_byte(out, b'/');
        put(out, name.as_bytes());
    }
}

/// The text of a path.
fn put_path_text(out: &mut Vec<u8>, path: &Path)
    requires { vec_len out.old + path_len path.now ≤ vec_capacity out.old }
    ensures items { out.new.items ≡ out.old.items ++ path_text path.now }
    ensures len { vec_len out.new ≡ vec_len out.old + path_len path.now }
    ensures capacity { vec_capacity out.old ≤ vec_capacity out.new }
    ensures path { is_path path.now ≡ true }
{
    match path.as_slice() {
        [] => put_byte(out, b'/'),
        names => put_path_names(out, names),
    }
}

/// A path: the length of its text in two bytes, and the text.
pub fn put_path(out: &mut Vec<u8>, path: &Path)
    requires { vec_len out.old + 2 + path_len path.now ≤ vec_capacity out.old }
    ensures items { out.new.items ≡ out.old.items ++ path_field path.now }
    ensures len { vec_len out.new ≡ vec_len out.old + 2 + path_len path.now }
    ensures capacity { vec_capacity out.old ≤ vec_capacity out.new }
    ensures path { is_path path.now ≡ true }
{
    put_u16(out, path.text_len() as u16);
    put_path_text(out, path);
}

/// The names of a key, each behind a slash.
fn put_key_names(out: &mut Vec<u8>, names: &[Items<u8>])
    requires { vec_len out.old + path_bytes names.now ≤ vec_capacity out.old }
    ensures items { out.new.items ≡ out.old.items ++ names_text names.now }
    ensures len { vec_len out.new ≡ vec_len out.old + path_bytes names.now }
    ensures capacity { vec_capacity out.old ≤ vec_capacity out.new }
{
    for name in names {
        put_byte(out, b'/');
        put(out, name.as_slice());
    }
}

/// The text of a key.
fn put_key_text(out: &mut Vec<u8>, key: &Prefix)
    requires { vec_len out.old + key_len key.now ≤ vec_capacity out.old }
    ensures items { out.new.items ≡ out.old.items ++ key_text key.now }
    ensures len { vec_len out.new ≡ vec_len out.old + key_len key.now }
    ensures capacity { vec_capacity out.old ≤ vec_capacity out.new }
    ensures key { is_key key.now ≡ true }
{
    match key.as_slice() {
        [] => {}
        [first, rest @ ..] => {
            put(out, first.as_slice());
            put_key_names(out, rest);
        }
    }
}

/// A key: the length of its text in two bytes, and the text.
pub fn put_key(out: &mut Vec<u8>, key: &Prefix)
    requires { vec_len out.old + 2 + key_len key.now ≤ vec_capacity out.old }
    ensures items { out.new.items ≡ out.old.items ++ key_field key.now }
    ensures len { vec_len out.new ≡ vec_len out.old + 2 + key_len key.now }
    ensures capacity { vec_capacity out.old ≤ vec_capacity out.new }
    ensures key { is_key key.now ≡ true }
{
    put_u16(out, key.text_len() as u16);
    put_key_text(out, key);
}

/// Workers, one after the other.
fn put_each(out: &mut Vec<u8>, workers: &[WorkerNo])
    requires { vec_len out.old + 4 * length workers.now ≤ vec_capacity out.old }
    ensures items { out.new.items ≡ out.old.items ++ flat_map four_bytes workers.now }
    ensures len { vec_len out.new ≡ vec_len out.old + 4 * length workers.now }
    ensures capacity { vec_capacity out.old ≤ vec_capacity out.new }
{
    for worker in workers {
        put_u32(out, worker.0);
    }
}

/// Workers: how many there are in two bytes, and each.
pub fn put_workers(out: &mut Vec<u8>, workers: &[WorkerNo])
    requires few { length workers.now < 2 ^ 16 }
    requires room { vec_len out.old + 2 + 4 * length workers.now ≤ vec_capacity out.old }
    ensures items { out.new.items ≡ out.old.items ++ workers_field workers.now }
    ensures len { vec_len out.new ≡ vec_len out.old + 2 + 4 * length workers.now }
    ensures capacity { vec_capacity out.old ≤ vec_capacity out.new }
{
    put_u16(out, workers.len() as u16);
    put_each(out, workers);
}
