//! Whole scripts: files that are written and read back.

use super::answered;
use std::alloc::{AllocError, Global};
use std::test::Fail;

/// A file without a byte.
pub(super) const EMPTY: &str = "1 create f /e MUST_CACHE 1 -> done
1 done f -> done
1 open r /e NO_CACHE 0 -> opened 0
1 poll r 10 -> end
1 close r -> done
1 stat /e -> stat file 1 0 NOT_PERSISTED -
";

/// A file of eight bytes in two blocks, written and read back.
pub(super) const TWO_BLOCKS: &str = "1 create f /t MUST_CACHE 1 -> done
1 put f g:0:0:8 -> needroom
1 room f -> done
1 put f g:0:0:8 -> taken 4
1 put f g:0:4:4 -> needroom
1 room f -> done
1 put f g:0:4:4 -> taken 4
1 done f -> done
1 open r /t NO_CACHE 0 -> opened 8
1 poll r 65536 -> needblock 0
1 next r -> from worker 1 0
1 poll r 65536 -> piece 00010203
1 poll r 65536 -> needblock 1
1 next r -> from worker 1 0
1 poll r 65536 -> piece 04050607
1 poll r 65536 -> end
1 close r -> done
";

/// A file that is opened before it is done, and afterwards.
const BEFORE_DONE: &str = "1 create f /a MUST_CACHE 1 -> done
1 open r /a NO_CACHE 1 -> refused 7 Incomplete
1 stat /a -> stat file 1 0 INCOMPLETE -
1 done f -> done
1 open r /a NO_CACHE 1 -> opened 0
1 next r -> end
1 put f x:00 -> refused 19 BadLabel
";

/// The same, with blocks: a block that is committed is not read before the file is done.
const BLOCKS_BEFORE_DONE: &str = "1 create f /a MUST_CACHE 1 -> done
1 room f -> done
1 put f x:61626364 -> taken 4
1 open r /a NO_CACHE 0 -> refused 7 Incomplete
1 room f -> done
1 open r /a NO_CACHE 0 -> refused 7 Incomplete
1 put f x:65 -> taken 1
1 stat /a -> stat file 1 0 INCOMPLETE -
1 done f -> done
1 stat /a -> stat file 1 5 NOT_PERSISTED -
1 open r /a NO_CACHE 0 -> opened 5
1 next r -> from worker 1 0
1 poll r 5 -> piece 61626364
1 poll r 5 -> needblock 1
1 next r -> from worker 1 0
1 poll r 5 -> piece 65
1 next r -> end
1 poll r 5 -> end
";

/// An open block without a byte is committed too, and a file of no byte has no block.
const EMPTY_BLOCK: &str = "1 create f /e MUST_CACHE 1 -> done
1 room f -> done
1 room f -> done
1 done f -> done
1 stat /e -> stat file 1 0 NOT_PERSISTED -
1 open r /e NO_CACHE 0 -> opened 0
1 next r -> end
1 poll r 1 -> end
1 next r -> end
1 close r -> done
";

/// The generator's bytes: `g:N:K:1` is the one byte N + K + K / 256.
const GENERATED: &str = "1 create f /g MUST_CACHE 1 -> done
1 room f -> done
1 put f g:255:0:4 -> taken 4
1 room f -> done
1 put f g:1:255:4 -> taken 4
1 room f -> done
1 put f g:0:4398046511103:1 -> taken 1
1 put f g:3:65535:2 -> taken 2
1 put f g:7:9:1 -> taken 1
1 done f -> done
1 open r /g NO_CACHE 0 -> opened 12
1 next r -> from worker 1 0
1 poll r 65536 -> piece ff000102
1 next r -> from worker 1 0
1 poll r 65536 -> piece 00020304
1 next r -> from worker 1 1
1 poll r 65536 -> piece fe010310
1 poll r 65536 -> end
";

/// Two actors read one file in pieces of their own, from a source that is asked for again.
const PIECES: &str = "1 create f /t MUST_CACHE 1 -> done
1 room f -> done
1 put f x:0a -> taken 1
1 put f x:0b0c -> taken 2
1 put f x:0d0e -> taken 1
1 put f x:0e -> needroom
1 room f -> done
1 put f x:0e0f -> taken 2
1 done f -> done
1 open r /t NO_CACHE 0 -> opened 6
2 open r /t NO_CACHE 2 -> opened 6
1 next r -> from worker 1 0
1 next r -> from worker 1 0
1 poll r 1 -> piece 0a
2 poll r 1 -> needblock 0
2 next r -> from worker 1 0
2 poll r 3 -> piece 0a0b0c
1 next r -> from worker 1 0
1 poll r 2 -> piece 0b0c
1 poll r 2 -> piece 0d
1 poll r 2 -> needblock 1
2 poll r 2 -> piece 0d
1 close r -> done
2 poll r 2 -> needblock 1
2 next r -> from worker 1 0
2 poll r 1 -> piece 0e
2 poll r 1 -> piece 0f
2 poll r 1 -> end
2 next r -> end
2 close r -> done
";

/// Directories, and files in them.
const NAMES: &str = "1 ls / -> names
1 stat / -> stat dir
1 mkdir /b -> done
2 mkdir /a%20b -> done
64 mkdir /b/c -> done
1 ls / -> names a%20b b
1 create f /b/f MUST_CACHE 1 -> done
2 create f /b/c/f MUST_CACHE 1 -> done
1 ls /b -> names c f
1 done f -> done
2 close f -> done
1 stat /b/f -> stat file 1 0 NOT_PERSISTED -
1 stat /b/c/f -> stat file 2 0 INCOMPLETE -
1 ls /b/c -> names f
";

#[test]
fn scripts_are_answered_so(rt: HostRuntime) -> Result<(), Fail> {
    for lines in [
        "",
        EMPTY,
        TWO_BLOCKS,
        BEFORE_DONE,
        BLOCKS_BEFORE_DONE,
        EMPTY_BLOCK,
        GENERATED,
        PIECES,
        NAMES,
    ] {
        assert_eq!(rt; answered(rt.alloc(), lines)?.as_str(), lines);
    }
    Ok(())
}

/// The lines of `/f1` to `/f64`, which actor 1 makes under the labels `f1` to `f64`.
fn labels(alloc: Global) -> Result<String, AllocError> {
    let mut lines = String::new(alloc);
    for n in 1..65u32 {
        let line = format!(in alloc; "1 create f{n} /f{n} MUST_CACHE 1 -> done\n")?;
        lines.push_str(&line)?;
    }
    Ok(lines)
}

/// What comes behind them: a label more, in each way that is looked at before and after the limit.
const LABEL_65: &str = "1 create z /z MUST_CACHE 1 -> refused 22 Limit Labels
2 create z /z MUST_CACHE 1 -> done
1 create f1 /y MUST_CACHE 1 -> refused 19 BadLabel
1 create y /no/y MUST_CACHE 1 -> refused 2 NotFound
1 create y /z MUST_CACHE 1 -> refused 3 Exists
1 create y /y MUST_CACHE 3 -> refused 16 NoWorker 3
1 create y /y MUST_CACHE 2 -> refused 22 Limit Labels
1 mkdir /y -> done
1 done f64 -> done
1 open r /f64 NO_CACHE 0 -> opened 0
1 open s /f64 NO_CACHE 0 -> refused 22 Limit Labels
1 open s /f64 NO_CACHE 2 -> refused 22 Limit Labels
1 open s /f64 NO_CACHE 3 -> refused 16 NoWorker 3
1 open s /f63 NO_CACHE 0 -> refused 7 Incomplete
1 open f1 /f64 NO_CACHE 0 -> refused 19 BadLabel
2 open s /f64 NO_CACHE 0 -> opened 0
1 close f1 -> done
1 open s /f64 NO_CACHE 0 -> opened 0
1 create x /x MUST_CACHE 1 -> refused 22 Limit Labels
1 close r -> done
1 create x /x MUST_CACHE 1 -> done
1 stat /x -> stat file 66 0 INCOMPLETE -
";

#[test]
fn an_actor_has_64_labels(rt: HostRuntime) -> Result<(), Fail> {
    let alloc = rt.alloc();
    let mut lines = labels(alloc)?;
    lines.push_str(LABEL_65)?;
    assert_eq!(rt; answered(alloc, &lines)?.as_str(), lines.as_str());
    Ok(())
}
