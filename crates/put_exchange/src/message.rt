// Messages: what a rank puts into one window.
ghost use Rattle.std.specs.Prelude.{◌≡◌, ◌+◌, ◌-◌, ◌<◌, ◌≤◌, length};
ghost use Rattle.overlay_laws.specs.Entries.{In};
ghost use Rattle.serial_spec.specs.File.{written};
ghost use Rattle.serial_spec.specs.Said.{write_cells, moved_down};
ghost use Rattle.put_exchange.specs.Sent.{bytes_of, cells_of, posts_of, put_bytes, sent, AreCuts, IsCut};

use exchange_crew::SharedJob;
use nc_base::{Extent, Post};
use std::marker::Model;

/// Bytes of a put that go to one place of the file.
#[derive(Clone, Copy, Drop)]
pub struct Cut {
    /// The first byte's place in the file.
    pub at: u64,
    /// The put's place among those of its rank.
    pub slot: u32,
    /// The first byte's place among those of the put.
    pub from: u64,
    pub len: u64,
}

/// What one rank puts into one window: cuts of its puts, in order of place. It owns a share of the job, in which the bytes stand, so none
/// is copied to send them. Each cut lies in the window's hull and in its put.
#[derive(Drop)]
pub struct Message {
    hull: Extent,
    rank: u32,
    job: SharedJob,
    cuts: Vec<Cut>,
}

impl Model for Message {
    ghost use Rattle.put_exchange.specs.Sent.{cells_of, posts_of, sent, AreCuts, Sent};

    ghost Value = { Sent };

    ghost view = { λ m. sent m.hull m.rank (cells_of (posts_of m.job.batches m.rank) m.cuts.items) };

    ghost invariant = { λ m. AreCuts m.job.batches m.hull m.rank m.cuts.items };
}

impl Message {
    /// One of these cuts.
    pub(crate) fn new(hull: Extent, rank: u32, job: SharedJob, cuts: Vec<Cut>) -> Self
        requires { AreCuts job.batches hull rank cuts.items }
        ensures { result ≡ sent hull rank (cells_of (posts_of job.batches rank) cuts.items) }
    {
        Message {
            hull,
            rank,
            job,
            cuts,
        }
    }

    /// Lays its bytes over those of a hull, if it is the message's own.
    pub(crate) fn lay(&self, hull: Extent, buf: &mut [u8])
        requires room { length buf.old ≡ hull.len }
        ensures laid { self.now.hull ≡ hull → buf.new ≡ write_cells buf.old (moved_down hull.at self.now.pieces) }
        ensures long { length buf.new ≡ length buf.old }
    {
        if self.hull == hull {
            let batches = self.job.job().batches.as_slice();
            let puts = batches[self.rank as usize].puts.as_slice();
            lay_cuts(hull, puts, self.cuts.as_slice(), buf);
        }
    }
}

// Lays cuts of a rank's puts over the bytes of a hull, one after another.
fn lay_cuts(hull: Extent, puts: &[Post], cuts: &[Cut], buf: &mut [u8])
    requires room { length buf.old ≡ hull.len }
    requires cuts { (cut : Cut) → In cuts.now cut → IsCut puts.now hull cut }
    ensures { buf.new ≡ write_cells buf.old (moved_down hull.at (cells_of puts.now cuts.now)) }
{
    for cut in cuts {
        lay_cut(hull, puts, cut, buf);
    }
}

// Lays one cut over the bytes of a hull.
fn lay_cut(hull: Extent, puts: &[Post], cut: &Cut, buf: &mut [u8])
    requires room { length buf.old ≡ hull.len }
    requires cut { IsCut puts.now hull cut.now }
    ensures { buf.new ≡ written buf.old (cut.now.at - hull.at) (bytes_of puts.now cut.now) }
{
    let bytes = cut_bytes(puts, cut);
    let at = (cut.at - hull.at) as usize;
    buf[at..at + bytes.len()].copy_from_slice(bytes);
}

// The bytes of a cut.
fn cut_bytes<'a>(puts: &'a [Post], cut: &Cut) -> &'a [u8]
    requires put { cut.now.slot < length puts.now }
    requires found { cut.now.from + cut.now.len ≤ length (put_bytes puts.now cut.now.slot) }
    ensures bytes { result.now ≡ bytes_of puts.now cut.now }
    ensures long { length result.now ≡ cut.now.len }
{
    let from = cut.from as usize;
    let len = cut.len as usize;
    let bytes = puts[cut.slot as usize].bytes.as_slice();
    &bytes[from..from + len]
}
