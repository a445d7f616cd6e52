// Steps of two ranks and of one on small datasets, by two aggregators. Calls and bytes are worked out by hand.
ghost use Rattle.std.specs.Prelude.{◌≡◌, ◌<◌, ◌≤◌, [], ◌∷◌, true, length};
ghost use Rattle.serial_spec.specs.HeaderBytes.{header_len};
ghost use Rattle.serial_spec.specs.SoundHeaders.{is_sound};
ghost use Rattle.serial_spec.specs.Lawful.{are_lawful_hints};
ghost use Rattle.serial_spec.specs.Layout.{end_of};
ghost use Rattle.collective_round.specs.Rounds.{IsGet, IsPut};

mod alone;
mod puts;
pub(super) mod together;

use collective_round::{Dataset as Lent, PutEnd, get_solo, put_all, put_solo};
use nc_base::{
    Batch, BlobList, Direction, Header, Hints, Job, NcType, OverlapRule, Post, PostList, StepErr,
};
use nc_outside::{Disk, MemDisk, OpenGate};
use piece_exchange::{Crew, SharedJob, Tools};
use std::alloc::Global;
use std::process::Abort;
use std::sync::Wait;
use std::thread::Threads;
use test_fixtures::{
    Asked, NO_LAYOUT, NO_MEMORY, has_whole_bytes, is_accepted, laid_out, one, one_variable, post,
    two,
};
use var_layout::{Measures, file_end};
use vara_extents::records_needed;

/// Two aggregators; one rank alone has windows of eight bytes.
const HINTS: Hints = Hints {
    cb_nodes: 2,
    cb_buffer: 12,
    rd_buffer: 8,
    wr_buffer: 8,
    line_room: 2,
    threads: false,
    overlap: OverlapRule::Refuse,
    header_align: 4,
    var_align: 4,
    striping_unit: 1,
};

/// The length of windows, the room of the aggregators' lines, whether they have threads, and what becomes of puts that share a byte.
#[derive(Clone, Copy)]
pub(super) struct Way {
    pub(super) cb_buffer: u64,
    pub(super) line_room: u32,
    pub(super) threads: bool,
    pub(super) overlap: OverlapRule,
}

pub(super) const IN_TURN: Way = Way {
    cb_buffer: 12,
    line_room: 2,
    threads: false,
    overlap: OverlapRule::Refuse,
};

fn hints_of(rt: &impl Abort, way: Way) -> Hints
    ensures { are_lawful_hints result ≡ true }
{
    assert!(rt; 1 <= way.line_room && way.line_room <= 64);
    assert!(rt; 1 <= way.cb_buffer && way.cb_buffer <= 33_554_432);
    Hints {
        cb_buffer: way.cb_buffer,
        line_room: way.line_room,
        threads: way.threads,
        overlap: way.overlap,
        ..HINTS
    }
}

/// A dataset, and how its steps are done.
#[derive(Drop)]
pub(super) struct Dataset {
    pub(super) header: Header,
    pub(super) hints: Hints,
}

/// The dimension x of this length, and the variable v over it, which begins at 80.
fn placed(rt: &impl Abort, alloc: Global, len: u64, kind: NcType) -> Header
    ensures { is_sound result ≡ true }
{
    let header = one_variable(alloc, len, kind, 0).expect(rt, NO_MEMORY);
    laid_out(header).expect(rt, NO_LAYOUT)
}

/// A request for elements of v.
pub(super) fn posted(rt: &impl Abort, alloc: Global, asked: &Asked) -> Post {
    post(alloc, asked).expect(rt, NO_MEMORY)
}

fn batch_of_put(rt: &impl Abort, alloc: Global, post: Post) -> Batch
    ensures { result ≡ record { puts = post ∷ []; gets = [] } }
{
    Batch {
        puts: one(alloc, post).expect(rt, NO_MEMORY),
        gets: PostList::new(alloc),
    }
}

fn batch_of_get(rt: &impl Abort, alloc: Global, post: Post) -> Batch
    ensures { result ≡ record { puts = []; gets = post ∷ [] } }
{
    Batch {
        puts: PostList::new(alloc),
        gets: one(alloc, post).expect(rt, NO_MEMORY),
    }
}

/// Two gets of a rank alone.
fn batch_of_gets(rt: &impl Abort, alloc: Global, a: Post, b: Post) -> Batch
    ensures { result ≡ record { puts = []; gets = a ∷ b ∷ [] } }
{
    Batch {
        puts: PostList::new(alloc),
        gets: two(alloc, a, b).expect(rt, NO_MEMORY),
    }
}

/// The put of a run's only rank.
fn only_put(rt: &impl Abort, alloc: Global, post: Post) -> SharedJob
    ensures { result.batches ≡ record { puts = post ∷ []; gets = [] } ∷ [] }
{
    let batch = batch_of_put(rt, alloc, post);
    let job = Job {
        batches: one(alloc, batch).expect(rt, NO_MEMORY),
    };
    SharedJob::new(alloc, job).expect(rt, NO_MEMORY)
}

/// A put of each of two ranks.
fn puts_of(rt: &impl Abort, alloc: Global, a: Post, b: Post) -> SharedJob
    ensures { result.batches ≡ record { puts = a ∷ []; gets = [] } ∷ record { puts = b ∷ []; gets = [] } ∷ [] }
{
    let (first, second) = (batch_of_put(rt, alloc, a), batch_of_put(rt, alloc, b));
    let job = Job {
        batches: two(alloc, first, second).expect(rt, NO_MEMORY),
    };
    SharedJob::new(alloc, job).expect(rt, NO_MEMORY)
}

/// A get of each of two ranks.
fn gets_of(rt: &impl Abort, alloc: Global, a: Post, b: Post) -> Job
    ensures { result.batches ≡ record { puts = []; gets = a ∷ [] } ∷ record { puts = []; gets = b ∷ [] } ∷ [] }
{
    let (first, second) = (batch_of_get(rt, alloc, a), batch_of_get(rt, alloc, b));
    Job {
        batches: two(alloc, first, second).expect(rt, NO_MEMORY),
    }
}

/// A step takes this put.
fn is_put(rt: &impl Abort, header: &Header, post: &Post)
    ensures { IsPut header.now post.now }
{
    assert!(rt; is_accepted(header, post, Direction::Put));
    assert!(rt; has_whole_bytes(header, post));
}

/// A step takes this get from a file of this length.
fn is_get(rt: &impl Abort, header: &Header, len: u64, post: &Post)
    requires { len < 1000 }
    ensures { IsGet header.now len post.now }
{
    assert!(rt; is_accepted(header, post, Direction::Get));
    let needed = records_needed(header, post.var as usize, &post.region);
    assert!(rt; file_end(header, needed) <= len);
}

/// The file is as long as it is without a record, and small.
fn is_long(rt: &impl Abort, header: &Header, disk: &MemDisk)
    ensures from { disk.now.from ≡ 0 }
    ensures long { end_of header.now (header_len header.now) 0 ≤ length disk.now.bytes }
    ensures small { length disk.now.bytes < 1000 }
{
    let end = file_end(header, 0);
    let size = disk.size();
    let from = disk.first_place();
    assert!(rt; from == 0 && end <= size && size < 1000);
}

/// How the put of a run's only rank ends by one aggregator, and the record count then.
pub(super) fn put_by_one<'a, R: Abort + Threads + Wait + Sync>(
    rt: &'a R,
    alloc: Global,
    disk: &mut MemDisk,
    header: &Header,
    a: Post,
) -> (Result<PutEnd, StepErr>, u64)
    requires { is_sound header.now ≡ true }
{
    let tools = Tools {
        rt,
        alloc,
        gate: &OpenGate,
    };
    put_without_helpers(&tools, disk, header, a)
}

fn put_without_helpers<'s, R: Abort + Threads + Wait + Sync>(
    tools: &'s Tools<'s, R, OpenGate>,
    disk: &mut MemDisk,
    header: &Header,
    a: Post,
) -> (Result<PutEnd, StepErr>, u64)
    requires { is_sound header.now ≡ true }
{
    let (rt, alloc) = (tools.rt, tools.alloc);
    is_put(rt, header, &a);
    is_long(rt, header, disk);
    let job = only_put(rt, alloc, a);
    let measures = Measures::of(header);
    let hints = Hints {
        cb_nodes: 1,
        ..HINTS
    };
    let dataset = Lent {
        header,
        measures: &measures,
        hints: &hints,
    };
    let mut crew = Crew::<(), R, OpenGate, MemDisk>::alone(tools);
    let mut records = 0;
    let end = put_all(tools, &mut crew, disk, &dataset, &mut records, &job);
    // Calls, which hide from the check how each list of these is let go.
    drop(crew);
    drop(job);
    (end, records)
}

/// How the put of a rank alone ends.
fn put_one(
    rt: &impl Abort,
    alloc: Global,
    disk: &mut MemDisk,
    header: &Header,
    a: Post,
) -> Result<PutEnd, StepErr>
    requires { is_sound header.now ≡ true }
{
    is_put(rt, header, &a);
    is_long(rt, header, disk);
    let batch = batch_of_put(rt, alloc, a);
    let measures = Measures::of(header);
    let dataset = Lent {
        header,
        measures: &measures,
        hints: &HINTS,
    };
    put_solo(alloc, disk, &dataset, 3, &batch)
}

/// What a rank alone gets by two requests, one blob each.
fn get_one(
    rt: &impl Abort,
    alloc: Global,
    disk: &mut MemDisk,
    header: &Header,
    a: Post,
    b: Post,
) -> Result<BlobList, StepErr>
    requires { is_sound header.now ≡ true }
{
    is_long(rt, header, disk);
    let len = disk.size();
    is_get(rt, header, len, &a);
    is_get(rt, header, len, &b);
    let batch = batch_of_gets(rt, alloc, a, b);
    let measures = Measures::of(header);
    let dataset = Lent {
        header,
        measures: &measures,
        hints: &HINTS,
    };
    get_solo(alloc, disk, &dataset, &batch)
}

/// The dimension x of this length, and the variable v over it.
pub(super) fn small_dataset(
    rt: &impl Abort,
    alloc: Global,
    len: u64,
    kind: NcType,
    way: Way,
) -> Dataset
    ensures sound { is_sound result.header ≡ true }
    ensures hints { are_lawful_hints result.hints ≡ true }
{
    Dataset {
        header: placed(rt, alloc, len, kind),
        hints: hints_of(rt, way),
    }
}
