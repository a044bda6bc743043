//! One event of the core.

ghost use Rattle.std.specs.Prelude.{◌≡◌, true};
ghost use Rattle.fs_model.specs.Built.{is_built};
ghost use Rattle.fs_model.specs.Spelled.{is_actor, is_spelled};
ghost use Rattle.cluster_core.specs.Causes.{IsCaused};
ghost use Rattle.cluster_core.specs.Crashes.{Crashes};
ghost use Rattle.cluster_core.specs.Goes.{Steps};
ghost use Rattle.cluster_core.specs.Media.{MediaStays};
ghost use Rattle.cluster_core.specs.Steady.{IsSteady};

use crate::cluster::Core;
use fs_model::event::{Event, ReadType, WriteType};
use fs_model::numbers::Actor;
use fs_model::reply::Reply;
use outside::disk::Disk;
use outside::objects::Objects;
use std::alloc::Global;

impl<D: Disk, O: Objects> Core<D, O, O::Reader, O::Writer> {
    /// Does one event of an actor, and answers it: the event is one that the program has, and that a script can spell.
    pub fn step(&mut self, alloc: Global, actor: Actor, event: &Event) -> Reply
        requires actor { is_actor actor ≡ true }
        requires built { is_built event.now ≡ true }
        requires spelled { is_spelled event.now ≡ true }
        ensures steps { Steps D.Disk O.Objects O.Reader.ObjectRead O.Writer.ObjectWrite self.old self.new actor event.now result }
        ensures media { MediaStays D.Disk O.Objects self.old self.new }
        ensures cause { IsCaused D.Disk O.Objects O.Reader.ObjectRead O.Writer.ObjectWrite self.old self.new actor event.now result }
        ensures crash { Crashes D.Disk self.old self.new actor event.now result }
        ensures steady { IsSteady D.Disk O.Objects O.Reader.ObjectRead O.Writer.ObjectWrite self.old → IsSteady D.Disk O.Objects O.Reader.ObjectRead O.Writer.ObjectWrite self.new }
    {
        match event {
            Event::Mkdir { path } => self.mkdir(actor, path),
            Event::Create {
                label,
                path,
                kind: WriteType::MustCache,
                worker,
            } => self.create(actor, label, path, *worker),
            Event::List { path } => self.list(alloc, actor, path),
            Event::Stat { path } => self.stat(actor, path),
            Event::Room { label } => self.room(alloc, actor, label),
            Event::Put { label, fill } => self.put(alloc, actor, label, fill),
            Event::Finish { label } => self.finish(alloc, actor, label),
            Event::OpenFile {
                label,
                path,
                kind: ReadType::NoCache,
                worker,
            } => self.open_file(actor, label, path, *worker),
            Event::Next { label } => self.next(alloc, actor, label),
            Event::Poll { label, max } => self.poll(alloc, actor, label, *max),
            Event::Close { label } => self.close_label(actor, label),
            Event::Checkpoint => self.checkpoint(alloc, actor),
            Event::Fuse { calls } => self.set_fuse(actor, *calls),
            _ => unreachable!(),
        }
    }
}
