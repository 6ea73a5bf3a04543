//! How marking is shared out.
ghost use Rattle.std.specs.Prelude.{◌≡◌, ◌<◌, ◌≤◌, ◌↔◌, IfOk, IsErrOf};
ghost use Rattle.leak_pool.specs.Plan.{IsBetween};

use std::marker::Model;
use thiserror::Error;

/// How many workers mark, how many words a piece of the roots has at most, and how many blocks a worker's stack holds.
#[derive(Clone, Copy, Debug, PartialEq, Eq)]
pub struct Plan {
    workers: u32,
    piece: u32,
    stack: u32,
}

impl Model for Plan {
    ghost use Rattle.std.specs.Prelude.{◌≤◌};
    ghost use Rattle.leak_pool.specs.Plan.{Numbers, IsBetween};

    ghost Value = { Numbers };

    ghost view = { λ p. record { workers = p.workers; piece = p.piece; stack = p.stack } };

    ghost inverse = { λ n. record { workers = n.workers; piece = n.piece; stack = n.stack } };

    ghost invariant = { λ p.
        IsBetween 1 64 p.workers × IsBetween 1 65536 p.piece × (p.stack ≤ 65536) };
}

/// Why numbers make no plan, in the order in which they are looked at.
#[derive(Clone, Copy, Debug, PartialEq, Eq, Error)]
pub enum PlanError {
    /// The number of workers is 0 or over 64.
    #[error("workers must be 1 to 64")]
    Workers,
    /// A piece has 0 words or over 65,536.
    #[error("piece must be 1 to 65536")]
    Piece,
    /// A stack has over 65,536 entries.
    #[error("stack must be 0 to 65536")]
    Stack,
}

impl Plan {
    /// Makes a plan of this many workers, words in a piece and entries in a stack.
    pub fn new(workers: u32, piece: u32, stack: u32) -> Result<Plan, PlanError>
        ensures workers { IsErrOf result PlanError.Workers ↔ ¬ IsBetween 1 64 workers }
        ensures piece { IsErrOf result PlanError.Piece
            ↔ (IsBetween 1 64 workers × ¬ IsBetween 1 65536 piece) }
        ensures stack { IsErrOf result PlanError.Stack
            ↔ (IsBetween 1 64 workers × IsBetween 1 65536 piece × (65536 < stack)) }
        ensures made { IfOk result (λ p.
            (p.workers ≡ workers) × (p.piece ≡ piece) × (p.stack ≡ stack)) }
    {
        if workers < 1 || 64 < workers {
            return Err(PlanError::Workers);
        }
        if piece < 1 || 65_536 < piece {
            return Err(PlanError::Piece);
        }
        if 65_536 < stack {
            return Err(PlanError::Stack);
        }
        Ok(Plan {
            workers,
            piece,
            stack,
        })
    }

    /// How many workers mark.
    pub fn workers(&self) -> u32
        ensures number { result ≡ self.now.workers }
        ensures bounds { IsBetween 1 64 result }
    {
        self.workers
    }

    /// How many words a piece of the roots has at most.
    pub fn piece(&self) -> u32
        ensures number { result ≡ self.now.piece }
        ensures bounds { IsBetween 1 65536 result }
    {
        self.piece
    }

    /// How many blocks a worker's stack holds at most.
    pub fn stack(&self) -> u32
        ensures number { result ≡ self.now.stack }
        ensures bounds { result ≤ 65536 }
    {
        self.stack
    }
}
