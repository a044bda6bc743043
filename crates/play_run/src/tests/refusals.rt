//! What is answered to events that can't be done.

use super::{answered, told};
use outside_mem::MemObjects;
use std::test::Fail;

/// More bytes than fit, and more than there are.
const TOO_MANY: &str = "1 create f /t MUST_CACHE 1 -> done
1 room f -> done
1 put f g:0:0:65536 -> taken 4
1 put f g:0:4:65536 -> needroom
1 room f -> done
1 put f x:aabbcc -> taken 3
1 put f x:ddeeff -> taken 1
1 put f x:ee -> needroom
1 done f -> done
1 open r /t NO_CACHE 0 -> opened 8
1 next r -> from worker 1 0
1 poll r 65536 -> piece 00010203
1 next r -> from worker 1 0
1 poll r 65536 -> piece aabbccdd
1 poll r 65536 -> end
1 poll r 1 -> end
";

/// No actor has a label of another.
const OTHER_ACTORS: &str = "1 create f /t MUST_CACHE 1 -> done
2 room f -> refused 19 BadLabel
2 put f x:00 -> refused 19 BadLabel
2 done f -> refused 19 BadLabel
2 next f -> refused 19 BadLabel
2 poll f 1 -> refused 19 BadLabel
2 close f -> refused 19 BadLabel
64 put f x:00 -> refused 19 BadLabel
2 create f /t MUST_CACHE 1 -> refused 3 Exists
2 create f /u MUST_CACHE 1 -> done
1 room f -> done
2 put f x:00 -> needroom
1 put f x:61 -> taken 1
2 room f -> done
2 put f x:6263 -> taken 2
2 done f -> done
1 open r /u NO_CACHE 0 -> opened 2
2 next r -> refused 19 BadLabel
2 poll r 1 -> refused 19 BadLabel
1 next r -> from worker 1 0
1 poll r 4 -> piece 6263
1 done f -> done
1 stat /t -> stat file 1 1 NOT_PERSISTED -
";

/// A label is a writer or a reader, and none where it was never made, or is ended.
const OTHER_KINDS: &str = "1 room f -> refused 19 BadLabel
1 put f x:00 -> refused 19 BadLabel
1 done f -> refused 19 BadLabel
1 next f -> refused 19 BadLabel
1 poll f 1 -> refused 19 BadLabel
1 close f -> refused 19 BadLabel
1 create f /t MUST_CACHE 1 -> done
1 next f -> refused 19 BadLabel
1 poll f 1 -> refused 19 BadLabel
1 create f /u MUST_CACHE 1 -> refused 19 BadLabel
1 open f /t NO_CACHE 0 -> refused 19 BadLabel
1 room f -> done
1 poll f 1 -> refused 19 BadLabel
1 put f x:61 -> taken 1
1 done f -> done
1 done f -> refused 19 BadLabel
1 close f -> refused 19 BadLabel
1 open f /t NO_CACHE 0 -> opened 1
1 room f -> refused 19 BadLabel
1 put f x:00 -> refused 19 BadLabel
1 done f -> refused 19 BadLabel
1 create f /u MUST_CACHE 1 -> refused 19 BadLabel
1 open f /t NO_CACHE 0 -> refused 19 BadLabel
1 next f -> from worker 1 0
1 put f x:00 -> refused 19 BadLabel
1 poll f 1 -> piece 61
1 close f -> done
1 poll f 1 -> refused 19 BadLabel
1 next f -> refused 19 BadLabel
1 close f -> refused 19 BadLabel
1 create f /u MUST_CACHE 1 -> done
";

/// Paths that lead to nothing, to a directory, or over a file.
const PATHS: &str = "1 mkdir / -> refused 3 Exists
1 create f / MUST_CACHE 1 -> refused 3 Exists
1 open r / NO_CACHE 0 -> refused 5 IsDirectory
1 mkdir /d -> done
1 mkdir /d -> refused 3 Exists
1 create f /d MUST_CACHE 1 -> refused 3 Exists
1 open r /d NO_CACHE 0 -> refused 5 IsDirectory
1 create f /d/t MUST_CACHE 1 -> done
1 create g /d/t MUST_CACHE 1 -> refused 3 Exists
1 mkdir /d/t -> refused 3 Exists
1 mkdir /d/t/u -> refused 4 NotDirectory
1 create g /d/t/u MUST_CACHE 1 -> refused 4 NotDirectory
1 open r /d/t/u NO_CACHE 0 -> refused 4 NotDirectory
1 open r /d/t/u/v NO_CACHE 0 -> refused 4 NotDirectory
1 stat /d/t/u -> refused 4 NotDirectory
1 stat /d/t/u/v -> refused 4 NotDirectory
1 ls /d/t -> refused 4 NotDirectory
1 ls /d/t/u -> refused 4 NotDirectory
1 mkdir /x/y -> refused 2 NotFound
1 create g /x/y MUST_CACHE 1 -> refused 2 NotFound
1 open r /x NO_CACHE 0 -> refused 2 NotFound
1 open r /x/y NO_CACHE 0 -> refused 2 NotFound
1 stat /x -> refused 2 NotFound
1 stat /x/y -> refused 2 NotFound
1 ls /x -> refused 2 NotFound
1 ls /d -> names t
1 create g /u MUST_CACHE 1 -> done
1 stat /u -> stat file 2 0 INCOMPLETE -
";

/// Workers that don't run, or that there aren't, and what is looked at before them.
const WORKERS: &str = "1 create f /t MUST_CACHE 2 -> refused 16 NoWorker 2
1 create f /t MUST_CACHE 3 -> refused 16 NoWorker 3
1 create f /t MUST_CACHE 1000 -> refused 16 NoWorker 1000
1 put f x:00 -> refused 19 BadLabel
1 ls / -> names
1 create f /t MUST_CACHE 1 -> done
1 room f -> done
1 put f x:61 -> taken 1
1 create f /u MUST_CACHE 3 -> refused 19 BadLabel
1 create g /x/u MUST_CACHE 3 -> refused 2 NotFound
1 create g /t MUST_CACHE 3 -> refused 3 Exists
1 create g /t/u MUST_CACHE 2 -> refused 4 NotDirectory
1 open f /t NO_CACHE 3 -> refused 19 BadLabel
1 open r /x NO_CACHE 3 -> refused 2 NotFound
1 open r / NO_CACHE 3 -> refused 5 IsDirectory
1 open r /t NO_CACHE 3 -> refused 7 Incomplete
1 done f -> done
1 open r /t NO_CACHE 3 -> refused 16 NoWorker 3
1 open r /t NO_CACHE 1000 -> refused 16 NoWorker 1000
1 open r /t NO_CACHE 2 -> opened 1
1 next r -> from worker 1 0
1 poll r 1 -> piece 61
";

#[test]
fn bad_events_are_refused(rt: HostRuntime) -> Result<(), Fail> {
    for lines in [TOO_MANY, OTHER_ACTORS, OTHER_KINDS, PATHS, WORKERS] {
        assert_eq!(rt; answered(rt.alloc(), lines)?.as_str(), lines);
    }
    Ok(())
}

/// Areas of 64 bytes have no room for an entry behind the first gate, which stands at place 54.
const AREA_64: &str = "1 mkdir /a -> refused 22 Limit Area
1 create f /t MUST_CACHE 1 -> refused 22 Limit Area
1 create f /t MUST_CACHE 2 -> refused 22 Limit Area
1 create f /t MUST_CACHE 3 -> refused 16 NoWorker 3
1 put f x:00 -> refused 19 BadLabel
1 ls / -> names
";

/// The entry of `/a` has 9 bytes, and moves the gate to place 64.
const AREA_65: &str = "1 mkdir /aa -> refused 22 Limit Area
1 mkdir /a -> done
1 mkdir /b -> refused 22 Limit Area
1 mkdir /a -> refused 3 Exists
1 ls / -> names a
";

/// The entry of a file `/t` has 17 bytes, and moves the gate to place 72; that of its end has 30.
const AREA_100: &str = "1 create f /t MUST_CACHE 1 -> done
1 room f -> done
1 put f x:61626364 -> taken 4
1 done f -> refused 22 Limit Area
1 done f -> refused 22 Limit Area
1 put f x:65 -> needroom
1 room f -> done
1 put f x:65 -> taken 1
1 stat /t -> stat file 1 0 INCOMPLETE -
1 open r /t NO_CACHE 0 -> refused 7 Incomplete
1 mkdir /a -> done
1 mkdir /b -> done
1 mkdir /c -> refused 22 Limit Area
1 create g /u MUST_CACHE 1 -> refused 22 Limit Area
1 ls / -> names a b t
1 close f -> done
";

/// One byte less than a file and its end need.
const AREA_103: &str = "1 create f /t MUST_CACHE 1 -> done
1 done f -> refused 22 Limit Area
1 close f -> done
1 stat /t -> stat file 1 0 INCOMPLETE -
";

/// Just what they need.
const AREA_104: &str = "1 create f /t MUST_CACHE 1 -> done
1 done f -> done
1 stat /t -> stat file 1 0 NOT_PERSISTED -
1 create g /u MUST_CACHE 1 -> refused 22 Limit Area
1 mkdir /a -> refused 22 Limit Area
";

#[test]
fn a_journal_area_has_a_limit(rt: HostRuntime) -> Result<(), Fail> {
    let alloc = rt.alloc();
    for (area, lines) in [
        (64, AREA_64),
        (65, AREA_65),
        (100, AREA_100),
        (103, AREA_103),
        (104, AREA_104),
    ] {
        let got = told(alloc, area, lines, MemObjects::new(alloc))?;
        assert_eq!(rt; got.as_str(), lines, "{area}");
    }
    Ok(())
}
