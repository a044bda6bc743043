//! Keys, and names of media, on small tables.

use crate::key::Key;
use crate::media::MediaNames;
use std::alloc::{AllocError, Global};
use std::cmp::Ordering;
use std::test::Fail as Failure;

/// The key whose names stand in a text with a slash between them.
fn key_of(alloc: Global, text: &str) -> Result<Key, AllocError> {
    let mut names = Vec::new(alloc);
    for name in text.split('/') {
        names.push(String::from_str(alloc, name)?)?;
    }
    Ok(Key::from_names(names))
}

fn texts_of(alloc: Global, texts: &[&str]) -> Result<Vec<String>, AllocError> {
    let mut names = Vec::new(alloc);
    for text in texts {
        names.push(String::from_str(alloc, text)?)?;
    }
    Ok(names)
}

/// A journal's name that stores and tiers may have too, and these names of stores, and of the tiers of
/// two workers.
fn names_of(
    alloc: Global,
    stores: &[&str],
    first: &[&str],
    second: &[&str],
) -> Result<MediaNames, AllocError> {
    let mut tiers = Vec::new(alloc);
    tiers.push(texts_of(alloc, first)?)?;
    tiers.push(texts_of(alloc, second)?)?;
    Ok(MediaNames {
        journal: String::from_str(alloc, "a")?,
        stores: texts_of(alloc, stores)?,
        tiers,
    })
}

/// The order of two keys, and whether the first is below the second, and whether they cross.
fn compared(
    alloc: Global,
    first: &str,
    second: &str,
) -> Result<(Ordering, bool, bool), AllocError> {
    let key = key_of(alloc, first)?;
    let other = key_of(alloc, second)?;
    Ok((key.cmp(&other), key.is_below(&other), key.crosses(&other)))
}

#[test]
fn keys_are_ordered_by_their_bytes_and_cross_where_one_is_a_prefix(
    rt: HostRuntime,
) -> Result<(), Failure> {
    for (first, second, order, below, crosses) in [
        ("a", "a", Ordering::Equal, true, false),
        ("a", "b", Ordering::Less, false, false),
        ("a/b", "a", Ordering::Greater, true, true),
        ("a", "a/b", Ordering::Less, false, true),
        ("ab", "a", Ordering::Greater, false, false),
        ("n/10", "n/2", Ordering::Less, false, false),
    ] {
        let got = compared(rt.alloc(), first, second)?;
        assert_eq!(rt; got, (order, below, crosses), "{first} {second}");
    }
    Ok(())
}

#[test]
fn two_numbers_are_a_key(rt: HostRuntime) -> Result<(), Failure> {
    let key = Key::of_numbers(rt.alloc(), 7, 10)?;
    let same = key.clone()? == key_of(rt.alloc(), "7/10")?;
    assert!(rt; same);
    Ok(())
}

/// Whether no two of the names are equal.
fn differ(
    alloc: Global,
    stores: &[&str],
    first: &[&str],
    second: &[&str],
) -> Result<bool, AllocError> {
    Ok(names_of(alloc, stores, first, second)?.are_distinct())
}

#[test]
fn equal_names_are_found_wherever_they_stand(rt: HostRuntime) -> Result<(), Failure> {
    let alloc = rt.alloc();
    assert!(rt; differ(alloc, &[], &[], &[])?);
    assert!(rt; differ(alloc, &["a", "b"], &["c"], &["d", ""])?);
    assert!(rt; !differ(alloc, &["a", "b", "a"], &[], &[])?);
    assert!(rt; !differ(alloc, &["a"], &["b", "b"], &[])?);
    assert!(rt; !differ(alloc, &["a"], &["b"], &["c", "a"])?);
    assert!(rt; !differ(alloc, &["a"], &["b"], &["c", "b"])?);
    assert!(rt; !differ(alloc, &[""], &[], &[""])?);
    Ok(())
}
