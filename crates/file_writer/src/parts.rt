//! The open block of a file's writer, and its object in a store.

ghost use Rattle.std.specs.Prelude.{◌≡◌, ◌≤◌, ◌<◌, ◌+◌, ◌^◌, false, length, IfSome, IsSomeAnd, OnOk};
ghost use Rattle.outside.specs.Causes.{Rose};
ghost use Rattle.file_writer.specs.Pens.{HasSpare, IsBroken, is_pen_steady, pen_faults, pen_tells};
ghost use Rattle.file_writer.specs.Parts.{BlockStops, BlockTakes, ObjectBreaks, ObjectTakes, is_object_steady, object_faults, object_tells};
ghost use Rattle.file_writer.specs.Fails.{IfBlock, IfObject};

use crate::pen::Pen;
use fs_model::numbers::StoreNo;
use outside::objects::ObjectWrite;

/// An open block: how many bytes it has, and the worker's writer of it, or none.
#[derive(Debug, Drop)]
pub struct Block<W> {
    pub len: u32,
    pub pen: Pen<W>,
}

/// An object in the making: its store, and the store's writer of it.
#[derive(Debug, Drop)]
pub struct Object<W> {
    pub store: StoreNo,
    pub pen: Pen<W>,
}

/// Whose writer failed.
#[derive(Debug, Clone, Copy, PartialEq, Eq)]
pub(crate) enum Failed {
    /// The open block's.
    Block,
    /// The object's, in this store.
    Object(StoreNo),
}

/// The open block takes a piece, and the object too, where there is one. After a fault the block is
/// as long as before, and takes no more into a worker's writer.
pub(crate) fn put_in<W: ObjectWrite>(
    block: &mut Block<W>,
    object: &mut Option<Object<W>>,
    piece: &[u8],
) -> Result<(), Failed>
    requires fits { block.old.len + length piece.now < 2 ^ 32 }
    requires spare { HasSpare W.ObjectWrite (length piece.now) block.old.pen }
    requires object { IfSome object.old (λ o. HasSpare W.ObjectWrite (length piece.now) o.pen) }
    ensures block { OnOk result (BlockTakes W.ObjectWrite piece.now block.old block.new) }
    ensures object { OnOk result (ObjectTakes W.ObjectWrite piece.now object.old object.new) }
    ensures block_tells { OnOk result (pen_tells W.ObjectWrite block.new.pen ≡ pen_tells W.ObjectWrite block.old.pen) }
    ensures object_tells { OnOk result (object_tells W.ObjectWrite object.new ≡ object_tells W.ObjectWrite object.old) }

    ensures tier { IfBlock result (Rose (pen_faults W.ObjectWrite block.old.pen) (pen_faults W.ObjectWrite block.new.pen)) }
    ensures tier_stops { IfBlock result (BlockStops block.old block.new × (object.new ≡ object.old)) }
    ensures under { IfObject result (λ store. IsSomeAnd object.old (λ o. store ≡ o.store) × Rose (object_faults W.ObjectWrite object.old) (object_faults W.ObjectWrite object.new)) }
    ensures under_stops { IfObject result (λ _. BlockStops block.old block.new × ObjectBreaks object.old object.new) }

    ensures block_later { pen_faults W.ObjectWrite block.old.pen ≤ pen_faults W.ObjectWrite block.new.pen }
    ensures object_later { object_faults W.ObjectWrite object.old ≤ object_faults W.ObjectWrite object.new }

    ensures tier_unsteady { IfBlock result (is_pen_steady W.ObjectWrite block.old.pen ≡ false) }
    ensures under_unsteady { IfObject result (λ _. is_object_steady W.ObjectWrite object.old ≡ false) }
    ensures block_steady { is_pen_steady W.ObjectWrite block.new.pen ≡ is_pen_steady W.ObjectWrite block.old.pen }
    ensures object_steady { is_object_steady W.ObjectWrite object.new ≡ is_object_steady W.ObjectWrite object.old }
{
    match block.pen.put(piece) {
        Ok(()) => {}
        Err(_) => return Err(Failed::Block),
    }
    if let Some(object) = object {
        match object.pen.put(piece) {
            Ok(()) => {}
            Err(_) => {
                block.pen.spoil();
                return Err(Failed::Object(object.store));
            }
        }
    }
    block.len += piece.len() as u32;
    Ok(())
}
