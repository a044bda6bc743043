//! What trees made of paths in text answer.

ghost use Rattle.std.specs.Prelude.{◌≡◌, false};

use crate::row::{DIRECTORY, Row, Walk};
use crate::tree::Tree;
use fs_model::numbers::FileId;
use fs_model::path::Path;
use fs_model::reply::Stored;
use std::alloc::Global;
use std::test::Fail;

/// A file with this number.
fn file(id: u64) -> Row
    ensures { result.dir ≡ false }
{
    Row {
        dir: false,
        id,
        len: 3 * (id % 10),
        done: true,
        stored: Stored::Wanted,
        pinned: true,
    }
}

/// Adds a node where the tree has a place for it, and says whether it had.
fn add(tree: &mut Tree, alloc: Global, text: &str, row: Row) -> Result<bool, Fail> {
    let path = Path::read(alloc, text.as_bytes())?;
    let Walk::Found(_) = tree.walk_above(&path) else {
        return Ok(false);
    };
    if tree.contains(&path) {
        return Ok(false);
    }
    if tree.path_of(alloc, FileId(row.id))?.is_some() {
        return Ok(false);
    }
    tree.add(alloc, &path, row)?;
    Ok(true)
}

/// A tree of three directories below `/`, of which `/a` has a directory with a file, and a file.
fn sample(alloc: Global) -> Result<Tree, Fail> {
    let mut tree = Tree::new(alloc)?;
    for text in ["/ab", "/a", "/a!", "/a/x"] {
        add(&mut tree, alloc, text, DIRECTORY)?;
    }
    add(&mut tree, alloc, "/a/x/deep", file(8))?;
    add(&mut tree, alloc, "/a/y", file(7))?;
    Ok(tree)
}

/// The names that the tree lists, with a space between them.
fn listed(tree: &Tree, alloc: Global, text: &str) -> Result<Vec<u8>, Fail> {
    let path = Path::read(alloc, text.as_bytes())?;
    let names = tree.list(alloc, &path)?;
    let mut line = Vec::new(alloc);
    for name in &names {
        if !line.is_empty() {
            line.push(b' ')?;
        }
        line.extend_from_slice(name.as_bytes())?;
    }
    Ok(line)
}

#[test]
fn nodes_go_where_nothing_is_below_a_directory(rt: HostRuntime) -> Result<(), Fail> {
    let mut tree = sample(rt.alloc())?;
    assert_eq!(rt; tree.len(), 7);
    for (text, row, added) in [
        ("/", DIRECTORY, false),
        ("/a", file(9), false),
        ("/b/c", DIRECTORY, false),
        ("/a/y/z", file(9), false),
        ("/ab/w", file(7), false),
        ("/ab/w", file(9), true),
        ("/ab/w", DIRECTORY, false),
        ("/b", DIRECTORY, true),
        ("/b/c", DIRECTORY, true),
    ] {
        assert_eq!(rt; add(&mut tree, rt.alloc(), text, row)?, added, "{text}");
    }
    assert_eq!(rt; tree.len(), 10);
    Ok(())
}

#[test]
fn the_first_prefix_that_is_no_directory_decides(rt: HostRuntime) -> Result<(), Fail> {
    let tree = sample(rt.alloc())?;
    for (text, walk, above) in [
        ("/", Walk::Found(DIRECTORY), Walk::Found(DIRECTORY)),
        ("/a", Walk::Found(DIRECTORY), Walk::Found(DIRECTORY)),
        ("/ab", Walk::Found(DIRECTORY), Walk::Found(DIRECTORY)),
        ("/a/y", Walk::Found(file(7)), Walk::Found(DIRECTORY)),
        ("/a/x/deep", Walk::Found(file(8)), Walk::Found(DIRECTORY)),
        ("/a/y/z", Walk::Blocked, Walk::Blocked),
        ("/a/y/z/q", Walk::Blocked, Walk::Blocked),
        ("/b", Walk::Absent, Walk::Found(DIRECTORY)),
        ("/abc", Walk::Absent, Walk::Found(DIRECTORY)),
        ("/a/x/none", Walk::Absent, Walk::Found(DIRECTORY)),
        ("/b/c", Walk::Absent, Walk::Absent),
        ("/b/a/y", Walk::Absent, Walk::Absent),
    ] {
        let path = Path::read(rt.alloc(), text.as_bytes())?;
        assert_eq!(rt; tree.walk(&path), walk, "{text}");
        assert_eq!(rt; tree.walk_above(&path), above, "{text}");
    }
    Ok(())
}

#[test]
fn names_right_below_are_listed_in_byte_order(rt: HostRuntime) -> Result<(), Fail> {
    let tree = sample(rt.alloc())?;
    for (text, names) in [
        ("/", "a a! ab"),
        ("/a", "x y"),
        ("/a/x", "deep"),
        ("/ab", ""),
        ("/a/y", ""),
        ("/none", ""),
    ] {
        assert_eq!(rt;
            listed(&tree, rt.alloc(), text)?.as_slice(),
            names.as_bytes(),
            "{text}"
        );
    }
    Ok(())
}

#[test]
fn a_file_is_found_by_its_number(rt: HostRuntime) -> Result<(), Fail> {
    let tree = sample(rt.alloc())?;
    for (id, text) in [(7, "/a/y"), (8, "/a/x/deep")] {
        let path = Path::read(rt.alloc(), text.as_bytes())?;
        assert!(rt;
            tree.path_of(rt.alloc(), FileId(id))? == Some(path),
            "{text}"
        );
    }
    assert!(rt; tree.path_of(rt.alloc(), FileId(0))?.is_none());
    Ok(())
}

/// Puts a row in place of a node of the same kind and number, and says whether there was one.
fn set(tree: &mut Tree, alloc: Global, text: &str, row: Row) -> Result<bool, Fail> {
    let path = Path::read(alloc, text.as_bytes())?;
    let Walk::Found(found) = tree.walk(&path) else {
        return Ok(false);
    };
    if found.dir != row.dir || found.id != row.id {
        return Ok(false);
    }
    tree.set(&path, row);
    Ok(true)
}

#[test]
fn a_row_is_set_in_place(rt: HostRuntime) -> Result<(), Fail> {
    let mut tree = sample(rt.alloc())?;
    let longer = Row {
        len: 4_398_046_511_104,
        stored: Stored::Yes,
        pinned: false,
        ..file(7)
    };
    for (text, row, there) in [
        ("/a/y", longer, true),
        ("/a", DIRECTORY, true),
        ("/a/y", file(8), false),
        ("/a/y", DIRECTORY, false),
        ("/a", file(7), false),
        ("/none", file(7), false),
    ] {
        assert_eq!(rt; set(&mut tree, rt.alloc(), text, row)?, there, "{text}");
    }
    for (text, row) in [
        ("/a/y", longer),
        ("/a/x/deep", file(8)),
        ("/a", DIRECTORY),
        ("/ab", DIRECTORY),
    ] {
        let path = Path::read(rt.alloc(), text.as_bytes())?;
        assert_eq!(rt; tree.walk(&path), Walk::Found(row), "{text}");
    }
    assert_eq!(rt; tree.len(), 7);
    Ok(())
}

/// Whether the path of the second text is that of the first, or below it.
fn is_at_or_below(upper: &str, text: &str) -> bool {
    upper == "/" || text == upper || text.starts_with(upper) && text[upper.len()..].starts_with("/")
}

#[test]
fn a_node_goes_with_all_below_it(rt: HostRuntime) -> Result<(), Fail> {
    for (removed, left) in [
        ("/a", 3),
        ("/a/x", 5),
        ("/a/x/deep", 6),
        ("/a/y", 6),
        ("/a!", 6),
        ("/ab", 6),
        ("/none", 7),
        ("/a/none", 7),
    ] {
        let mut tree = sample(rt.alloc())?;
        tree.remove(&Path::read(rt.alloc(), removed.as_bytes())?);
        assert_eq!(rt; tree.len(), left, "{removed}");
        for text in ["/", "/a", "/a!", "/a/x", "/a/x/deep", "/a/y", "/ab"] {
            let path = Path::read(rt.alloc(), text.as_bytes())?;
            let stays = !is_at_or_below(removed, text);
            assert_eq!(rt; tree.contains(&path), stays, "{text} without {removed}");
        }
    }
    Ok(())
}

/// Puts a node where the tree has a place for it, into room that is made before, and says whether it had.
fn put(tree: &mut Tree, alloc: Global, text: &str, row: Row) -> Result<bool, Fail> {
    let path = Path::read(alloc, text.as_bytes())?;
    tree.reserve(1)?;
    let Walk::Found(_) = tree.walk_above(&path) else {
        return Ok(false);
    };
    if tree.contains(&path) {
        return Ok(false);
    }
    if tree.path_of(alloc, FileId(row.id))?.is_some() {
        return Ok(false);
    }
    tree.put(path, row);
    Ok(true)
}

#[test]
fn nodes_for_which_there_is_room_come_in(rt: HostRuntime) -> Result<(), Fail> {
    let mut tree = sample(rt.alloc())?;
    for (text, row, added) in [
        ("/ab/w", file(9), true),
        ("/a/z", DIRECTORY, true),
        ("/a/z", DIRECTORY, false),
        ("/none/z", DIRECTORY, false),
        ("/a/z/f", file(9), false),
    ] {
        assert_eq!(rt; put(&mut tree, rt.alloc(), text, row)?, added, "{text}");
    }
    assert_eq!(rt; tree.len(), 9);
    assert_eq!(rt;
        listed(&tree, rt.alloc(), "/a")?.as_slice(),
        "x y z".as_bytes()
    );
    Ok(())
}

#[test]
fn a_file_is_set_by_its_number(rt: HostRuntime) -> Result<(), Fail> {
    let mut tree = sample(rt.alloc())?;
    let longer = Row { len: 5, ..file(8) };
    tree.set_file(longer);
    tree.set_file(file(9));
    for (text, row) in [
        ("/a/x/deep", longer),
        ("/a/y", file(7)),
        ("/a/x", DIRECTORY),
    ] {
        let path = Path::read(rt.alloc(), text.as_bytes())?;
        assert_eq!(rt; tree.walk(&path), Walk::Found(row), "{text}");
    }
    assert_eq!(rt; tree.len(), 7);
    Ok(())
}

#[test]
fn all_nodes_are_told_in_the_order_of_their_paths(rt: HostRuntime) -> Result<(), Fail> {
    let tree = sample(rt.alloc())?;
    let rows = tree.rows(rt.alloc())?;
    let all = [
        ("/", DIRECTORY),
        ("/a", DIRECTORY),
        ("/a/x", DIRECTORY),
        ("/a/x/deep", file(8)),
        ("/a/y", file(7)),
        ("/a!", DIRECTORY),
        ("/ab", DIRECTORY),
    ];
    assert_eq!(rt; rows.len(), all.len());
    for (told, (text, row)) in rows.iter().zip(all) {
        assert!(rt;
            told.path == Path::read(rt.alloc(), text.as_bytes())?,
            "{text}"
        );
        assert_eq!(rt; told.row, row, "{text}");
    }
    Ok(())
}

/// Puts a node under another path where no path gets too long, and says whether none does.
fn relink(tree: &mut Tree, alloc: Global, text: &str, to: &str) -> Result<bool, Fail> {
    let path = Path::read(alloc, text.as_bytes())?;
    let to = Path::read(alloc, to.as_bytes())?;
    if !tree.stays_short(&path, &to) {
        return Ok(false);
    }
    tree.relink(alloc, &path, &to)?;
    Ok(true)
}

#[test]
fn a_node_moves_with_all_below_it(rt: HostRuntime) -> Result<(), Fail> {
    for (from, to, there, gone) in [
        ("/a", "/b", "/b/x/deep", "/a/x/deep"),
        ("/a", "/ab/c", "/ab/c/y", "/a/y"),
        ("/a/x", "/x", "/x/deep", "/a/x"),
        ("/a/y", "/a!/z", "/a!/z", "/a/y"),
        ("/a", "/!", "/!/x", "/a"),
    ] {
        let mut tree = sample(rt.alloc())?;
        assert!(rt; relink(&mut tree, rt.alloc(), from, to)?, "{from} to {to}");
        assert_eq!(rt; tree.len(), 7, "{from} to {to}");
        assert!(rt;
            tree.contains(&Path::read(rt.alloc(), there.as_bytes())?),
            "{there}"
        );
        assert!(rt;
            !tree.contains(&Path::read(rt.alloc(), gone.as_bytes())?),
            "{gone}"
        );
        let mut order = Vec::new(rt.alloc());
        for row in tree.rows(rt.alloc())? {
            order.push(row.path)?;
        }
        assert!(rt; order.is_sorted(), "{from} to {to}");
    }
    Ok(())
}
