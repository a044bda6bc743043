use crate::block::{block_count, block_span};
use crate::event::Fill;
use crate::label::Label;
use crate::name::Name;
use crate::path::{Path, PathFault};
use crate::piece::Piece;
use crate::prefix::Prefix;
use std::alloc::Global;
use std::cmp::Ordering;
use std::test::Fail;

fn path(alloc: Global, text: &str) -> Result<Path, Fail> {
    Ok(Path::read(alloc, text.as_bytes())?)
}

#[test]
fn texts_are_paths_or_have_their_first_fault(rt: HostRuntime) -> Result<(), Fail> {
    let alloc = rt.alloc();
    for (text, names) in [
        ("/", 0usize),
        ("/a", 1),
        ("/a/b c/é", 3),
        ("/...", 1),
        ("/tierfs", 1),
    ] {
        let found = path(alloc, text)?;
        assert_eq!(rt; found.as_slice().len(), names, "at {text}");
        assert_eq!(rt; found.text_len(), text.len() as u64, "at {text}");
    }
    for (text, fault) in [
        ("", PathFault::BadName(0)),
        ("a", PathFault::BadName(0)),
        ("a/b", PathFault::BadName(0)),
        ("//", PathFault::BadName(0)),
        ("/a/", PathFault::BadName(1)),
        ("/a//b", PathFault::BadName(1)),
        ("/.", PathFault::BadName(0)),
        ("/a/..", PathFault::BadName(1)),
        ("/.tierfs", PathFault::BadName(0)),
        ("/a/b/.tierfs-new", PathFault::BadName(2)),
        ("/a\0b", PathFault::BadName(0)),
    ] {
        assert_eq!(rt; Path::read(alloc, text.as_bytes()), Err(fault), "at {text}");
    }
    assert_eq!(rt; Path::read(alloc, b"/\xff"), Err(PathFault::BadName(0)));
    Ok(())
}

#[test]
fn names_and_paths_have_a_greatest_length(rt: HostRuntime) -> Result<(), Fail> {
    let alloc = rt.alloc();
    let mut text = Vec::new(alloc);
    for _ in 0..16 {
        text.push(b'/')?;
        for _ in 0..255 {
            text.push(b'n')?;
        }
    }
    assert!(rt; Path::read(alloc, &text).is_ok());
    text.push(b'n')?;
    assert_eq!(rt; Path::read(alloc, &text), Err(PathFault::TooLong));
    let mut name = vec![in alloc; b'n'; 255]?;
    assert!(rt; Name::read(alloc, &name)?.is_some());
    name.push(b'n')?;
    assert!(rt; Name::read(alloc, &name)?.is_none());
    Ok(())
}

#[test]
fn paths_are_ordered_by_their_names(rt: HostRuntime) -> Result<(), Fail> {
    let alloc = rt.alloc();
    let (upper, lower, beside) = (
        path(alloc, "/a")?,
        path(alloc, "/a/b")?,
        path(alloc, "/ab")?,
    );
    assert!(rt; lower.under(&upper) && upper.under(&upper) && upper.under(&Path::root(alloc)));
    assert!(rt; !beside.under(&upper) && !upper.under(&lower));
    assert!(rt; upper < lower && lower < beside);
    assert_eq!(rt; upper.clone()?.cmp(&upper), Ordering::Equal);
    Ok(())
}

#[test]
fn labels_are_short_words(rt: HostRuntime) -> Result<(), Fail> {
    let alloc = rt.alloc();
    for (text, is_one) in [
        ("f", true),
        ("a1b2c3d4e5f6g7h8", true),
        ("", false),
        ("F", false),
        ("a-b", false),
        ("a1b2c3d4e5f6g7h8i", false),
    ] {
        let found = Label::read(alloc, text.as_bytes())?;
        assert_eq!(rt; found.is_some(), is_one, "at {text}");
        if let Some(label) = found {
            assert_eq!(rt; label.clone()?.as_bytes(), text.as_bytes());
        }
    }
    Ok(())
}

#[test]
fn blocks_have_one_size_but_the_last(rt: HostRuntime) {
    assert_eq!(rt; block_count(0, 4), 0);
    assert_eq!(rt; block_count(8, 4), 2);
    assert_eq!(rt; block_count(9, 4), 3);
    assert_eq!(rt; block_span(9, 4, 1), (4, 8));
    assert_eq!(rt; block_span(9, 4, 2), (8, 9));
}

#[test]
fn fills_are_copied(rt: HostRuntime) -> Result<(), Fail> {
    let alloc = rt.alloc();
    let fill = Fill::Listed(Piece::from_vec(Vec::from_slice(alloc, b"x")?));
    let other = Fill::Made {
        num: 7,
        at: 0,
        len: 4,
    };
    assert!(rt; fill.clone()? == fill && other != fill);
    Ok(())
}

#[test]
fn texts_are_keys_or_none(rt: HostRuntime) -> Result<(), Fail> {
    let alloc = rt.alloc();
    for (text, names) in [
        ("", Some(0usize)),
        ("a", Some(1)),
        ("a/b c/é", Some(3)),
        (".tierfs", Some(1)),
        (".tierfs/7", Some(2)),
        ("/", None),
        ("/a", None),
        ("a/", None),
        ("a//b", None),
        ("..", None),
        ("a/.", None),
        ("a/.tierfs", None),
        (".tierfs-new", None),
        ("a\0", None),
    ] {
        let found = Prefix::read(alloc, text.as_bytes())?;
        assert_eq!(rt;
            found.as_ref().map(|key| key.as_slice().len()),
            names,
            "at {text}"
        );
        if let Some(key) = found {
            assert_eq!(rt; key.text_len(), text.len() as u64, "at {text}");
        }
    }
    Ok(())
}

#[test]
fn keys_have_at_most_8192_bytes(rt: HostRuntime) -> Result<(), Fail> {
    let alloc = rt.alloc();
    let mut text = vec![in alloc; b'n'; 8191]?;
    for (at, byte) in text.iter_mut().enumerate() {
        if at % 2 == 1 {
            *byte = b'/';
        }
    }
    text.push(b'n')?;
    assert!(rt; Prefix::read(alloc, &text)?.is_some());
    text.push(b'n')?;
    assert!(rt; Prefix::read(alloc, &text)?.is_none());
    Ok(())
}

#[test]
fn prefixes_are_copied(rt: HostRuntime) -> Result<(), Fail> {
    let empty = Prefix::empty(rt.alloc());
    assert!(rt; empty.clone()? == empty && empty.as_slice().is_empty());
    Ok(())
}
