//! Reservations: bytes that are kept free at a tier.

ghost use Rattle.std.specs.Prelude.{◌≡◌, ℕ, ◌+◌, ◌≤◌, ◌<◌, length, map, get_or, nat_eq, option_map};
ghost use Rattle.std.specs.List.{All};
ghost use Rattle.tier_book.specs.Rows.{room_row, room_sum, room_numbered, rooms_with, rooms_without};

use crate::tier::give_bytes;
use fs_model::numbers::TierNo;
use std::marker::Model;

/// The number of a reservation, from 1; one book gives no number twice before the last, 2^64 - 1.
#[derive(Clone, Copy, PartialEq, Eq, Debug, Drop)]
pub struct RoomNo(pub u64);

impl Model for RoomNo {
    ghost use Rattle.std.specs.Prelude.{ℕ};

    ghost Value = { ℕ };

    ghost view = { λ a. a.0 };

    ghost inverse = { λ n. record { 0 = n } };
}

/// A reservation of bytes at a tier.
#[derive(Clone, Copy, Debug, PartialEq, Eq)]
pub struct Room {
    /// Its number.
    pub number: RoomNo,
    /// The tier at which the bytes are reserved.
    pub tier: TierNo,
    /// How many bytes.
    pub bytes: u64,
}

impl Room {
    /// Whether the reservation has this number.
    fn has(&self, number: RoomNo) -> bool
        ensures { result ≡ nat_eq self.now.number number }
    {
        self.number == number
    }
}

/// The reservation with this number, the oldest if there are several.
pub(crate) fn find_room(rooms: &[Room], number: RoomNo) -> Option<Room>
    ensures { option_map room_row result ≡ room_numbered number (map room_row rooms.now) }
{
    for room in rooms {
        if room.has(number) {
            return Some(*room);
        }
    }
    None
}

/// Takes the bytes of the reservations with this number off what is taken of their tiers.
pub(crate) fn free_rooms(taken: &mut [u64], rooms: &[Room], number: RoomNo)
    requires tiers { All (λ r. r.tier < length taken.old) (map room_row rooms.now) }
    requires taken { (t : ℕ) → t < length taken.old → room_sum t (map room_row rooms.now) ≤ get_or taken.old t 0 }
    ensures len { length taken.new ≡ length taken.old }
    ensures freed { (t : ℕ) → t < length taken.old → get_or taken.new t 0 + room_sum t (rooms_with number (map room_row rooms.now)) ≡ get_or taken.old t 0 }
{
    for room in rooms {
        if room.has(number) {
            give_bytes(taken, room.tier, room.bytes);
        }
    }
}

/// Takes the reservations with this number out of the list.
pub(crate) fn remove_rooms(rooms: &mut Vec<Room>, number: RoomNo)
    ensures items { map room_row rooms.new.items ≡ rooms_without number (map room_row rooms.old.items) }
    ensures bound { length rooms.new.items ≤ length rooms.old.items }
{
    rooms.retain(|room| !room.has(number));
}
