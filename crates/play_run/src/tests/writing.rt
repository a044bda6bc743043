//! Writers of which a call fails: a broken label, and the room that is left.

use super::failing::{Call, some_lines, tier, watched};
use super::scripts::TWO_BLOCKS;
use std::alloc::{AllocError, Global};
use std::test::Fail;

/// A broken writer `f` of `/t`; it answers to its end alone, and its file is never done. Five files of another actor
/// behind it.
const BROKEN: &str = "1 put f g:0:0:8 -> refused 19 BadLabel
1 room f -> refused 19 BadLabel
1 done f -> refused 19 BadLabel
1 next f -> refused 19 BadLabel
1 poll f 4 -> refused 19 BadLabel
1 create f /u MUST_CACHE 1 -> refused 19 BadLabel
1 open f /t NO_CACHE 0 -> refused 19 BadLabel
1 open r /t NO_CACHE 0 -> refused 7 Incomplete
1 create g /t MUST_CACHE 1 -> refused 3 Exists
1 stat /t -> stat file 1 0 INCOMPLETE -
2 create a /a MUST_CACHE 1 -> done
2 create b /b MUST_CACHE 1 -> done
2 create c /c MUST_CACHE 1 -> done
2 create d /d MUST_CACHE 1 -> done
2 create e /e MUST_CACHE 1 -> done
2 room a -> done
2 room b -> done
";

/// Where the writer has neither a block nor a room, both tiers have room for all of four blocks.
const FREE_4: &str = "2 room c -> done
2 room d -> done
2 room e -> refused 15 NoRoom 1
1 close f -> done
2 room e -> refused 15 NoRoom 1
";

/// Where it has a block that is committed.
const FREE_3: &str = "2 room c -> done
2 room d -> refused 15 NoRoom 1
1 close f -> done
2 room d -> refused 15 NoRoom 1
";

/// Where it has room, which its end gives back.
const FREE_3_OF_4: &str = "2 room c -> done
2 room d -> refused 15 NoRoom 1
1 close f -> done
2 room d -> done
2 room e -> refused 15 NoRoom 1
";

/// Where it has both.
const FREE_2_OF_3: &str = "2 room c -> refused 15 NoRoom 1
1 close f -> done
2 room c -> done
2 room d -> refused 15 NoRoom 1
";

/// Then the other actor's writers end, and a file of three blocks is written.
const THREE_MORE: &str = "1 close f -> refused 19 BadLabel
2 close a -> done
2 close b -> done
2 close c -> done
2 close d -> done
2 close e -> done
3 create g /g MUST_CACHE 1 -> done
3 room g -> done
3 put g g:1:0:4 -> taken 4
3 room g -> done
3 put g g:1:4:4 -> taken 4
3 room g -> done
3 put g g:1:8:4 -> taken 4
";

/// It has no room for a fourth block where the writer left one, and is read back.
const IS_12: &str = "3 room g -> refused 15 NoRoom 1
3 done g -> done
3 stat /g -> stat file 7 12 NOT_PERSISTED -
3 open r /g NO_CACHE 1 -> opened 12
3 next r -> from worker 1 0
3 poll r 4 -> piece 01020304
3 next r -> from worker 1 1
3 poll r 4 -> piece 05060708
3 next r -> from worker 1 1
3 poll r 4 -> piece 090a0b0c
3 next r -> end
1 stat /t -> stat file 1 0 INCOMPLETE -
";

/// Else it has.
const IS_16: &str = "3 room g -> done
3 put g g:1:12:4 -> taken 4
3 room g -> refused 15 NoRoom 1
3 done g -> done
3 stat /g -> stat file 7 16 NOT_PERSISTED -
3 open r /g NO_CACHE 1 -> opened 16
3 next r -> from worker 1 0
3 poll r 4 -> piece 01020304
3 next r -> from worker 1 0
3 poll r 4 -> piece 05060708
3 next r -> from worker 1 1
3 poll r 4 -> piece 090a0b0c
3 next r -> from worker 1 1
3 poll r 4 -> piece 0d0e0f10
3 next r -> end
1 stat /t -> stat file 1 0 INCOMPLETE -
";

/// The first lines of the file of two blocks, and then these.
fn broken_after(alloc: Global, kept: usize, parts: [&str; 3]) -> Result<String, AllocError> {
    let mut lines = some_lines(alloc, TWO_BLOCKS, 0, kept)?;
    let [fault, free, more] = parts;
    for part in [fault, BROKEN, free, THREE_MORE, more] {
        lines.push_str(part)?;
    }
    Ok(lines)
}

/// `room f` failed.
const ROOM: &str = "1 room f -> refused 24 TierFault 1\n";

/// The first put failed.
const PUT: &str = "1 put f g:0:0:8 -> refused 24 TierFault 1\n";

/// The put into the second block failed.
const PUT_2: &str = "1 put f g:0:4:4 -> refused 24 TierFault 1\n";

/// `done f` failed.
const DONE: &str = "1 done f -> refused 24 TierFault 1\n";

/// The second put into the first block failed.
const PUT_MORE: &str = "1 put f x:00 -> taken 1
1 put f x:010203 -> refused 24 TierFault 1
";

#[test]
fn one_fault_breaks_a_writer(rt: HostRuntime) -> Result<(), Fail> {
    let alloc = rt.alloc();
    for (call, number, on, kept, parts, faults, objects) in [
        (Call::BeginWrite, 1, false, 2, [ROOM, FREE_4, IS_16], 1, 2),
        (Call::BeginWrite, 2, false, 5, [ROOM, FREE_3, IS_12], 1, 2),
        (Call::Finish, 1, false, 5, [ROOM, FREE_4, IS_16], 1, 2),
        (Call::LateFinish, 1, false, 5, [ROOM, FREE_4, IS_16], 1, 3),
        (Call::Finish, 2, false, 7, [DONE, FREE_3, IS_12], 1, 2),
        (Call::LateFinish, 2, false, 7, [DONE, FREE_3, IS_12], 1, 3),
        (Call::Put(1), 1, false, 3, [PUT, FREE_3_OF_4, IS_16], 0, 2),
        (Call::Put(1), 1, true, 3, [PUT, FREE_3_OF_4, IS_16], 0, 2),
        (
            Call::Put(1),
            2,
            false,
            3,
            [PUT_MORE, FREE_3_OF_4, IS_16],
            0,
            2,
        ),
        (Call::Put(2), 1, false, 6, [PUT_2, FREE_2_OF_3, IS_12], 0, 2),
        (Call::Put(2), 1, true, 6, [PUT_2, FREE_2_OF_3, IS_12], 0, 2),
    ] {
        let lines = broken_after(alloc, kept, parts)?;
        let first = tier(alloc, call, number, on)?;
        let seen = watched(alloc, &lines, first)?;
        assert_eq!(rt;
            seen.text.as_str(),
            lines.as_str(),
            "{call:?} {number} {on}"
        );
        assert_eq!(rt; seen.faults, faults, "{call:?} {number} {on}");
        assert_eq!(rt; seen.objects, objects, "{call:?} {number} {on}");
    }
    Ok(())
}

/// No block can be begun at the first tier; a file without a block doesn't need it.
const NONE_BEGUN: &str = "1 room f -> refused 24 TierFault 1
1 room f -> refused 19 BadLabel
2 create g /g MUST_CACHE 1 -> done
2 put g x:00 -> needroom
2 room g -> refused 24 TierFault 1
2 put g x:00 -> refused 19 BadLabel
2 close g -> done
1 close f -> done
1 create f /t MUST_CACHE 1 -> refused 3 Exists
1 create f /u MUST_CACHE 1 -> done
1 room f -> refused 24 TierFault 1
1 done f -> refused 19 BadLabel
2 create g /v MUST_CACHE 1 -> done
2 done g -> done
2 stat /v -> stat file 4 0 NOT_PERSISTED -
";

/// None behind the first.
const ONE_BEGUN: &str = "1 room f -> refused 24 TierFault 1
2 create g /g MUST_CACHE 1 -> done
2 room g -> refused 24 TierFault 1
2 done g -> refused 19 BadLabel
1 close f -> done
2 create h /h MUST_CACHE 1 -> done
2 room h -> refused 24 TierFault 1
";

/// Two blocks fill the first tier, and the next is begun at the other.
const TWO_BEGUN: &str = "2 create g /g MUST_CACHE 1 -> done
2 room g -> done
2 put g g:1:0:4 -> taken 4
2 room g -> done
2 put g g:1:4:4 -> taken 4
2 room g -> refused 15 NoRoom 1
2 done g -> done
2 open r /g NO_CACHE 0 -> opened 8
2 next r -> from worker 1 1
2 poll r 4 -> piece 01020304
";

/// No block can be committed at the first tier, also none without a byte; its room is free again each time. At the
/// other tier a block can.
const NONE_FINISHED: &str = "1 room f -> refused 24 TierFault 1
1 room f -> refused 19 BadLabel
2 create a /a MUST_CACHE 1 -> done
2 room a -> done
2 put a x:aa -> taken 1
2 create b /b MUST_CACHE 1 -> done
2 room b -> done
2 create c /c MUST_CACHE 1 -> done
2 room c -> done
2 put c x:cc -> taken 1
2 done c -> done
2 done a -> refused 24 TierFault 1
2 done b -> refused 24 TierFault 1
2 close a -> done
2 create d /d MUST_CACHE 1 -> done
2 room d -> done
2 done d -> refused 24 TierFault 1
2 open r /c NO_CACHE 0 -> opened 1
2 next r -> from worker 1 1
2 poll r 1 -> piece cc
2 open s /a NO_CACHE 0 -> refused 7 Incomplete
";

/// None behind the first.
const ONE_FINISHED: &str = "1 done f -> refused 24 TierFault 1
1 close f -> done
2 create a /a MUST_CACHE 1 -> done
2 room a -> done
2 put a x:aa -> taken 1
2 room a -> done
2 done a -> refused 24 TierFault 1
2 done a -> refused 19 BadLabel
2 close a -> done
";

#[test]
fn each_fault_breaks_its_writer(rt: HostRuntime) -> Result<(), Fail> {
    let alloc = rt.alloc();
    for (call, number, kept, more, faults, objects) in [
        (Call::BeginWrite, 1, 2, NONE_BEGUN, 3, 0),
        (Call::BeginWrite, 2, 5, ONE_BEGUN, 3, 1),
        (Call::BeginWrite, 3, 17, TWO_BEGUN, 0, 2),
        (Call::Finish, 1, 5, NONE_FINISHED, 4, 0),
        (Call::LateFinish, 1, 5, NONE_FINISHED, 4, 4),
        (Call::Finish, 2, 7, ONE_FINISHED, 2, 1),
        (Call::LateFinish, 2, 7, ONE_FINISHED, 2, 3),
        (Call::Finish, 3, 17, TWO_BEGUN, 0, 2),
    ] {
        let mut lines = some_lines(alloc, TWO_BLOCKS, 0, kept)?;
        lines.push_str(more)?;
        let first = tier(alloc, call, number, true)?;
        let seen = watched(alloc, &lines, first)?;
        assert_eq!(rt; seen.text.as_str(), lines.as_str(), "{call:?} {number}");
        assert_eq!(rt; seen.faults, faults, "{call:?} {number}");
        assert_eq!(rt; seen.objects, objects, "{call:?} {number}");
    }
    Ok(())
}
