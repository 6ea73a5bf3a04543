//! A core is read on while its last piece is sifted. No other file of the crate starts threads.

ghost use Rattle.std.specs.Prelude.{◌≡◌, ◌<◌, [], length, IfOk, IfErr, OnOk};
ghost use Rattle.leak_sift.specs.Sifted.{Takes};
ghost use Rattle.leak_passing.specs.Rest.{LosesRest};
ghost use Rattle.leak_passing.specs.Sifting.{ReadsInto, SiftsPiece};

use crate::fault::RestFault;
use crate::pieces::are_bytes;
use leak_sift::Sifting;
use leak_streams::{ReadCalls, ReadFault, Reading};
use leak_team::Team;
use std::alloc::{AllocError, Global};
use std::marker::Model;
use std::mem::swap;
use std::thread::{Threads, join_mut};

/// How many bytes a piece has at least beside whose sifting the next one is read. Own rule: it takes some times as long
/// as the start of a thread.
const LEAST: usize = 131_072;

/// A reading that has a piece to be sifted, and room for the next one.
///
/// Contracts see the reading, with this piece.
#[derive(Drop)]
pub(crate) struct Ahead {
    reading: Reading,
    front: Vec<u8>,
    /// How many bytes of the front are the piece.
    count: usize,
    back: Vec<u8>,
}

impl Model for Ahead {
    ghost use Rattle.std.specs.Prelude.{◌<◌, ◌≤◌, length, take};
    ghost use Rattle.leak_streams.specs.Pieces.{TakenSoFar};

    ghost Value = { TakenSoFar };

    ghost view = { λ a. record a.reading { piece = take a.count a.front.items } };

    ghost invariant = { λ a. (a.count ≤ length a.front.items)
        × (0 < length a.front.items) × (0 < length a.back.items) };
}

impl Ahead {
    /// Goes on with the reading, in pieces of at most so many bytes. None of its bytes is to be sifted.
    pub(crate) fn new(alloc: Global, reading: Reading, size: usize) -> Result<Ahead, AllocError>
        ensures { IfOk result (λ ahead. ahead ≡ record reading { piece = [] }) }
    {
        let size = size.max(1);
        Ok(Ahead {
            reading,
            front: vec![in alloc; 0u8; size]?,
            count: 0,
            back: vec![in alloc; 0u8; size]?,
        })
    }

    /// Sifts the piece, and reads the next one: beside it, if that is worth a thread. Tells whether there is one: if not,
    /// the core has ended.
    pub(crate) fn sift_and_read<T: Threads + Sync, R: ReadCalls>(
        &mut self,
        team: &Team<'_, T>,
        sifting: &mut Sifting<'_>,
        reader: &mut R,
        limit: u64,
    ) -> Result<bool, RestFault>
        ensures ok { IfOk result (SiftsPiece R.calls limit reader.old self.old sifting.old
            reader.new self.new sifting.new) }
        ensures refused { IfErr result (LosesRest R.calls limit reader.old self.old reader.new) }
    {
        // Of two workers both sift: one alone takes longer than the reading saves.
        if team.workers < 3 || self.count < LEAST {
            return self.sift_then_read(team, sifting, reader, limit);
        }
        let others = team.of(team.workers - 1);
        self.sift_beside_read(&others, sifting, reader, limit)
    }

    /// Sifts the piece by the team, and then reads the next one.
    fn sift_then_read<T: Threads + Sync, R: ReadCalls>(
        &mut self,
        team: &Team<'_, T>,
        sifting: &mut Sifting<'_>,
        reader: &mut R,
        limit: u64,
    ) -> Result<bool, RestFault>
        ensures ok { IfOk result (SiftsPiece R.calls limit reader.old self.old sifting.old
            reader.new self.new sifting.new) }
        ensures refused { IfErr result (LosesRest R.calls limit reader.old self.old reader.new) }
    {
        let piece = &self.front.as_slice()[..self.count];
        are_bytes(piece);
        sifting.take(team, piece)?;
        let front = self.front.as_mut_slice();
        self.count = self.reading.next_into(reader, limit, front)?;
        Ok(self.count > 0)
    }

    /// Sifts the piece by the team, and reads the next one meanwhile. A fault of the read is told first.
    fn sift_beside_read<T: Threads + Sync, R: ReadCalls>(
        &mut self,
        team: &Team<'_, T>,
        sifting: &mut Sifting<'_>,
        reader: &mut R,
        limit: u64,
    ) -> Result<bool, RestFault>
        ensures ok { IfOk result (SiftsPiece R.calls limit reader.old self.old sifting.old
            reader.new self.new sifting.new) }
        ensures refused { IfErr result (LosesRest R.calls limit reader.old self.old reader.new) }
    {
        let piece = &self.front.as_slice()[..self.count];
        are_bytes(piece);
        let back = self.back.as_mut_slice();
        let reading = &mut self.reading;
        let (sifted, read) = join_mut(
            team.rt,
            &mut || -> Result<(), AllocError>
                ensures { OnOk result (Takes sifting.entry.now piece.entry.now sifting.exit.now) }
            { sifting.take(team, piece) },
            &mut || -> Result<usize, ReadFault>
                requires { 0 < length back.now }
                ensures { ReadsInto R.calls limit reader.entry.now reading.entry.now
                    reader.exit.now reading.exit.now back.exit.now result }
            { reading.next_into(reader, limit, back) },
        );
        let count = match read {
            Ok(count) => count,
            Err(fault) => return Err(RestFault::Read(fault)),
        };
        match sifted {
            Ok(()) => {
                swap(&mut self.front, &mut self.back);
                self.count = count;
                Ok(count > 0)
            }
            Err(_) => Err(short_beside(count)),
        }
    }
}

/// The fault if there is no memory for what is kept of a piece, and the read beside it gave so many bytes.
fn short_beside(count: usize) -> RestFault
    ensures end { count ≡ 0 → result ≡ RestFault.Short }
    ensures more { 0 < count → result ≡ RestFault.Read ReadFault.NoMemory }
{
    if count == 0 {
        RestFault::Short
    } else {
        RestFault::Read(ReadFault::NoMemory)
    }
}
