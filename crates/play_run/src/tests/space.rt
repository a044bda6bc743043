//! Which tier a block goes to, and where there is no room.

use super::answered;
use std::test::Fail;

/// Four blocks fill both tiers of worker 1; without room, all else goes on.
const FULL: &str = "1 create f /t MUST_CACHE 1 -> done
1 room f -> done
1 put f g:0:0:4 -> taken 4
1 room f -> done
1 put f g:0:4:4 -> taken 4
1 room f -> done
1 put f g:0:8:4 -> taken 4
1 room f -> done
1 put f g:0:12:3 -> taken 3
1 room f -> done
1 put f g:0:15:1 -> taken 1
1 room f -> refused 15 NoRoom 1
1 put f g:0:16:1 -> needroom
1 room f -> refused 15 NoRoom 1
1 create g /u MUST_CACHE 1 -> done
1 room g -> refused 15 NoRoom 1
1 put g x:00 -> needroom
1 done f -> done
1 room g -> refused 15 NoRoom 1
1 done g -> done
1 stat /t -> stat file 1 16 NOT_PERSISTED -
1 stat /u -> stat file 2 0 NOT_PERSISTED -
1 open r /t NO_CACHE 0 -> opened 16
1 next r -> from worker 1 0
1 poll r 4 -> piece 00010203
1 next r -> from worker 1 0
1 poll r 4 -> piece 04050607
1 poll r 4 -> needblock 2
1 next r -> from worker 1 1
1 next r -> from worker 1 1
1 poll r 4 -> piece 08090a0b
1 next r -> from worker 1 1
1 poll r 3 -> piece 0c0d0e
1 poll r 3 -> piece 0f
1 poll r 3 -> end
";

/// A block that is committed keeps its bytes alone, and the first tier that has four bytes free is taken.
const SHORT_BLOCKS: &str = "1 create a /a MUST_CACHE 1 -> done
1 room a -> done
1 put a x:aa -> taken 1
1 done a -> done
1 create b /b MUST_CACHE 1 -> done
1 room b -> done
1 put b x:bb -> taken 1
1 create c /c MUST_CACHE 1 -> done
1 room c -> done
1 put c x:cc -> taken 1
1 done c -> done
1 create d /d MUST_CACHE 1 -> done
1 room d -> done
1 put d x:dd -> taken 1
1 create e /e MUST_CACHE 1 -> done
1 room e -> refused 15 NoRoom 1
1 done b -> done
1 room e -> done
1 put e x:ee -> taken 1
1 done d -> done
1 done e -> done
1 open r /a NO_CACHE 0 -> opened 1
1 next r -> from worker 1 0
1 poll r 1 -> piece aa
1 open s /b NO_CACHE 0 -> opened 1
1 next s -> from worker 1 0
1 poll s 1 -> piece bb
1 open t /c NO_CACHE 0 -> opened 1
1 next t -> from worker 1 1
1 poll t 1 -> piece cc
1 open u /d NO_CACHE 0 -> opened 1
1 next u -> from worker 1 1
1 poll u 1 -> piece dd
1 open v /e NO_CACHE 0 -> opened 1
1 next v -> from worker 1 0
1 poll v 1 -> piece ee
";

/// Room is one block, however often it is asked for, and a label that ends gives it back; its committed blocks stay.
const GIVEN_BACK: &str = "1 create a /a MUST_CACHE 1 -> done
1 room a -> done
1 room a -> done
1 room a -> done
1 create b /b MUST_CACHE 1 -> done
1 room b -> done
1 create c /c MUST_CACHE 1 -> done
1 room c -> done
1 put c x:00010203 -> taken 4
1 room c -> done
1 create d /d MUST_CACHE 1 -> done
1 room d -> refused 15 NoRoom 1
1 room a -> done
1 put a x:01 -> taken 1
1 room a -> done
1 close c -> done
1 room d -> done
1 create e /e MUST_CACHE 1 -> done
1 room e -> refused 15 NoRoom 1
1 close a -> done
1 room e -> done
1 stat /a -> stat file 1 0 INCOMPLETE -
1 stat /c -> stat file 3 0 INCOMPLETE -
1 create c /c MUST_CACHE 1 -> refused 3 Exists
1 open r /c NO_CACHE 0 -> refused 7 Incomplete
1 create c /g MUST_CACHE 1 -> done
1 room c -> refused 15 NoRoom 1
1 done b -> done
1 room c -> done
1 create h /h MUST_CACHE 1 -> done
1 room h -> refused 15 NoRoom 1
";

#[test]
fn blocks_find_room_so(rt: HostRuntime) -> Result<(), Fail> {
    for lines in [FULL, SHORT_BLOCKS, GIVEN_BACK] {
        assert_eq!(rt; answered(rt.alloc(), lines)?.as_str(), lines);
    }
    Ok(())
}
