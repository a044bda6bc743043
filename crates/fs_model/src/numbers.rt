//! Numbers with a meaning of their own. A contract sees each as its number.

use std::marker::Model;

/// An actor: 1 to 64.
#[derive(Clone, Copy, PartialEq, Eq, Debug, Drop)]
pub struct Actor(pub u32);

impl Model for Actor {
    ghost use Rattle.std.specs.Prelude.{ℕ};

    ghost Value = { ℕ };

    ghost view = { λ a. a.0 };

    ghost inverse = { λ n. record { 0 = n } };
}

/// A worker, numbered from 1; 0 means no worker.
#[derive(Clone, Copy, PartialEq, Eq, Debug, Drop)]
pub struct WorkerNo(pub u32);

impl Model for WorkerNo {
    ghost use Rattle.std.specs.Prelude.{ℕ};

    ghost Value = { ℕ };

    ghost view = { λ a. a.0 };

    ghost inverse = { λ n. record { 0 = n } };
}

/// An under-store, numbered from 1.
#[derive(Clone, Copy, PartialEq, Eq, Debug, Drop)]
pub struct StoreNo(pub u32);

impl Model for StoreNo {
    ghost use Rattle.std.specs.Prelude.{ℕ};

    ghost Value = { ℕ };

    ghost view = { λ a. a.0 };

    ghost inverse = { λ n. record { 0 = n } };
}

/// A tier of a worker, numbered from 0, the fastest first.
#[derive(Clone, Copy, PartialEq, Eq, Debug, Drop)]
pub struct TierNo(pub u32);

impl Model for TierNo {
    ghost use Rattle.std.specs.Prelude.{ℕ};

    ghost Value = { ℕ };

    ghost view = { λ a. a.0 };

    ghost inverse = { λ n. record { 0 = n } };
}

/// A block of a file, numbered from 0.
#[derive(Clone, Copy, PartialEq, Eq, Debug, Drop)]
pub struct BlockNo(pub u32);

impl Model for BlockNo {
    ghost use Rattle.std.specs.Prelude.{ℕ};

    ghost Value = { ℕ };

    ghost view = { λ a. a.0 };

    ghost inverse = { λ n. record { 0 = n } };
}

/// A file, for as long as it lives; ids are never used again.
#[derive(Clone, Copy, PartialEq, Eq, Debug, Drop)]
pub struct FileId(pub u64);

impl Model for FileId {
    ghost use Rattle.std.specs.Prelude.{ℕ};

    ghost Value = { ℕ };

    ghost view = { λ a. a.0 };

    ghost inverse = { λ n. record { 0 = n } };
}

/// A plan, numbered from 1; 0 means no plan.
#[derive(Clone, Copy, PartialEq, Eq, Debug, Drop)]
pub struct PlanNo(pub u64);

impl Model for PlanNo {
    ghost use Rattle.std.specs.Prelude.{ℕ};

    ghost Value = { ℕ };

    ghost view = { λ a. a.0 };

    ghost inverse = { λ n. record { 0 = n } };
}
