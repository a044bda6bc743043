//! What labels answer after inserts, takes and puts.

use crate::labels::{Labelled, Labels};
use fs_model::label::Label;
use std::alloc::Global;
use std::test::Fail;

/// The label that the text is.
fn label(alloc: Global, text: &str) -> Result<Label, Fail> {
    let label = Label::read(alloc, text.as_bytes())?.ok_or("no label")?;
    Ok(label)
}

/// Puts a hand under a label that isn't there, and says whether it did.
fn add(labels: &mut Labels<u8>, label: Label, hand: u8) -> Result<bool, Fail> {
    if labels.contains(&label) {
        return Ok(false);
    }
    labels.reserve()?;
    labels.insert(label, hand);
    Ok(true)
}

/// Raises the hand under a label, and says whether the label was there.
fn raise(labels: &mut Labels<u8>, label: &Label, by: u8) -> bool {
    match labels.take(label) {
        None => false,
        Some(Labelled { label, hand }) => {
            labels.put(Labelled {
                label,
                hand: hand.saturating_add(by),
            });
            true
        }
    }
}

/// One step: `+` adds, `^` raises, and any other sign takes the label away.
fn step(labels: &mut Labels<u8>, sign: u8, label: Label, hand: u8) -> Result<bool, Fail> {
    match sign {
        b'+' => add(labels, label, hand),
        b'^' => Ok(raise(labels, &label, hand)),
        _ => Ok(labels.take(&label).is_some()),
    }
}

/// What is under the label; 0 for nothing.
fn shown(labels: &Labels<u8>, label: &Label) -> u8 {
    match labels.get(label) {
        None => 0,
        Some(hand) => *hand,
    }
}

#[test]
fn three_labels_come_change_and_go(rt: HostRuntime) -> Result<(), Fail> {
    let mut labels = Labels::new(rt.alloc());
    let first = label(rt.alloc(), "a")?;
    let second = label(rt.alloc(), "ab")?;
    let third = label(rt.alloc(), "b0")?;
    for (sign, text, hand, did, all, len) in [
        (b'+', "a", 1, true, (1, 0, 0), 1),
        (b'+', "ab", 2, true, (1, 2, 0), 2),
        (b'+', "a", 3, false, (1, 2, 0), 2),
        (b'^', "a", 4, true, (5, 2, 0), 2),
        (b'^', "b0", 4, false, (5, 2, 0), 2),
        (b'-', "a", 0, true, (0, 2, 0), 1),
        (b'-', "a", 0, false, (0, 2, 0), 1),
        (b'+', "b0", 7, true, (0, 2, 7), 2),
        (b'+', "a", 9, true, (9, 2, 7), 3),
        (b'-', "ab", 0, true, (9, 0, 7), 2),
        (b'^', "b0", 1, true, (9, 0, 8), 2),
    ] {
        let known = label(rt.alloc(), text)?;
        assert_eq!(rt; step(&mut labels, sign, known, hand)?, did, "{text}");
        let now = (
            shown(&labels, &first),
            shown(&labels, &second),
            shown(&labels, &third),
        );
        assert_eq!(rt; now, all, "{text}");
        assert_eq!(rt; labels.len(), len, "{text}");
    }
    Ok(())
}
