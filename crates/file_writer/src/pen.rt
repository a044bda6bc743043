//! The writer of a block or of an object, and what became of it.

ghost use Rattle.std.specs.Prelude.{◌≡◌, ◌≤◌, false, length, OnOk, OnErr};
ghost use Rattle.outside.specs.Causes.{HasCause};
ghost use Rattle.file_writer.specs.Pens.{HasSpare, IsBroken, IsOpen, is_pen_steady, PenKeeps, PenTakes, broken, pen_faults, pen_of, pen_tells, writer_of};

use outside::objects::ObjectWrite;
use outside::stream::Fault;
use std::alloc::AllocError;
use std::mem;

/// A writer, or none.
#[derive(Debug, Drop)]
pub enum Pen<W> {
    /// It takes the bytes.
    Open(W),
    /// A fault left it with other bytes than those that count, and it takes no more.
    Broken(W),
    /// There is none, or it was taken out.
    Gone,
}

impl<W: ObjectWrite> Pen<W> {
    /// The pen of a writer that is given, or of none.
    pub(crate) fn of(writer: Option<W>) -> Pen<W>
        ensures { result ≡ pen_of writer }
    {
        match writer {
            None => Pen::Gone,
            Some(writer) => Pen::Open(writer),
        }
    }

    /// An open pen takes the whole piece, and any other takes nothing; no memory. A fault breaks it.
    pub(crate) fn put(&mut self, piece: &[u8]) -> Result<(), Fault>
        requires { HasSpare W.ObjectWrite (length piece.now) self.old }
        ensures taken { OnOk result (PenTakes W.ObjectWrite piece.now self.old self.new) }
        ensures tells { OnOk result (pen_tells W.ObjectWrite self.new ≡ pen_tells W.ObjectWrite self.old) }
        ensures broke { OnErr result (IsOpen self.old × IsBroken self.new) }
        ensures cause { HasCause (pen_faults W.ObjectWrite self.old) (pen_faults W.ObjectWrite self.new) result }
        ensures unsteady { OnErr result (is_pen_steady W.ObjectWrite self.old ≡ false) }
        ensures steady { is_pen_steady W.ObjectWrite self.new ≡ is_pen_steady W.ObjectWrite self.old }
    {
        match mem::replace(self, Pen::Gone) {
            Pen::Open(mut writer) => match writer.put(piece) {
                Ok(()) => {
                    *self = Pen::Open(writer);
                    Ok(())
                }
                Err(fault) => {
                    *self = Pen::Broken(writer);
                    Err(fault)
                }
            },
            Pen::Broken(writer) => {
                *self = Pen::Broken(writer);
                Ok(())
            }
            Pen::Gone => Ok(()),
        }
    }

    /// It takes no more.
    pub(crate) fn spoil(&mut self)
        ensures broken { self.new ≡ broken self.old }
        ensures steady { is_pen_steady W.ObjectWrite self.new ≡ is_pen_steady W.ObjectWrite self.old }
    {
        match mem::replace(self, Pen::Gone) {
            Pen::Open(writer) => *self = Pen::Broken(writer),
            Pen::Broken(writer) => *self = Pen::Broken(writer),
            Pen::Gone => {}
        }
    }

    /// Takes the writer out.
    pub(crate) fn take(&mut self) -> Option<W>
        ensures writer { result ≡ writer_of self.old }
        ensures gone { self.new ≡ Pen.Gone }
    {
        match mem::replace(self, Pen::Gone) {
            Pen::Open(writer) => Some(writer),
            Pen::Broken(writer) => Some(writer),
            Pen::Gone => None,
        }
    }

    /// Makes the spare of an open pen at least `count`. An `Err` is want of memory.
    pub(crate) fn reserve(&mut self, count: u64) -> Result<(), AllocError>
        ensures spare { OnOk result (HasSpare W.ObjectWrite count self.new) }
        ensures keeps { PenKeeps W.ObjectWrite self.old self.new }
        ensures tells { pen_tells W.ObjectWrite self.new ≡ pen_tells W.ObjectWrite self.old }
        ensures steady { is_pen_steady W.ObjectWrite self.new ≡ is_pen_steady W.ObjectWrite self.old }
    {
        match self {
            Pen::Open(writer) => writer.reserve(count),
            Pen::Broken(_) => Ok(()),
            Pen::Gone => Ok(()),
        }
    }
}
