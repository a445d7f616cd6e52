// A value of each type that has a clone, and its copy. A copy of a value copies all that stands in it.
use super::{NO_MEMORY, only};
use nc_base::*;
use std::alloc::Global;
use std::process::Abort;

fn attr(alloc: Global) -> Attr {
    Attr {
        name: Name::new(alloc),
        kind: NcType::Byte,
        count: 5,
        bytes: Blob::new(alloc),
    }
}

fn dim(alloc: Global) -> Dim {
    Dim {
        name: Name::new(alloc),
        len: 4,
    }
}

fn var(alloc: Global) -> Var {
    Var {
        name: Name::new(alloc),
        dims: IdList::new(alloc),
        attrs: AttrList::new(alloc),
        kind: NcType::Int,
        begin: 80,
    }
}

fn header(rt: &impl Abort, alloc: Global) -> Header {
    Header {
        version: 1,
        records: 0,
        dims: only(rt, alloc, dim(alloc)),
        attrs: only(rt, alloc, attr(alloc)),
        vars: only(rt, alloc, var(alloc)),
    }
}

fn part(alloc: Global) -> Part {
    Part {
        start: SizeList::new(alloc),
        count: SizeList::new(alloc),
    }
}

fn put(rt: &impl Abort, alloc: Global) -> Call {
    Call::Put {
        all: true,
        var: Name::new(alloc),
        given: Given {
            form: Form::Varn,
            start: SizeList::new(alloc),
            count: SizeList::new(alloc),
            stride: SizeList::new(alloc),
            imap: SizeList::new(alloc),
            parts: only(rt, alloc, part(alloc)),
        },
        values: Values::Numbers(NumberList::new(alloc)),
    }
}

fn wait(alloc: Global) -> Call {
    Call::Wait {
        all: true,
        choice: Choice::Listed(IdList::new(alloc)),
    }
}

const HINTS: Hints = Hints {
    cb_nodes: 1,
    cb_buffer: 16_777_216,
    rd_buffer: 4_194_304,
    wr_buffer: 524_288,
    line_room: 2,
    threads: true,
    overlap: OverlapRule::Refuse,
    header_align: 4,
    var_align: 4,
    striping_unit: 1,
};

fn script(rt: &impl Abort, alloc: Global) -> Script {
    let extra = Extra::Att {
        owner: Some(Name::new(alloc)),
        attr: attr(alloc),
    };
    Script {
        fresh: false,
        header: header(rt, alloc),
        ranks: 1,
        hints: HINTS,
        filled: false,
        extra: only(rt, alloc, extra),
        calls: only(rt, alloc, only(rt, alloc, put(rt, alloc))),
    }
}

fn region(alloc: Global) -> Region {
    Region {
        start: SizeList::new(alloc),
        count: SizeList::new(alloc),
        stride: SizeList::new(alloc),
        imap: SizeList::new(alloc),
        packed: true,
    }
}

fn batch(rt: &impl Abort, alloc: Global) -> Batch {
    let post = Post {
        id: 1,
        var: 0,
        region: region(alloc),
        bytes: Blob::new(alloc),
    };
    Batch {
        puts: only(rt, alloc, post),
        gets: PostList::new(alloc),
    }
}

fn job(rt: &impl Abort, alloc: Global) -> Job {
    Job {
        batches: only(rt, alloc, batch(rt, alloc)),
    }
}

fn offer(rt: &impl Abort, alloc: Global) -> Offer {
    Offer {
        kind: OfferKind::Meet(MeetKind::Put),
        known: 0,
        batch: batch(rt, alloc),
    }
}

fn reply(alloc: Global) -> Reply {
    Reply {
        pair: None,
        records: 2,
        got: BlobList::new(alloc),
    }
}

fn answer(rt: &impl Abort, alloc: Global) -> Answer {
    let item = Item {
        id: 3,
        code: Code::Null,
        values: Some(Values::Bits(BitList::new(alloc))),
    };
    Answer {
        code: Code::ESelf,
        pair: None,
        number: Some(4),
        values: None,
        items: only(rt, alloc, item),
    }
}

/// Whether a list of this item has a copy that equals it.
fn is_copied<T: TryClone + PartialEq + Drop>(rt: &impl Abort, alloc: Global, item: T) -> bool {
    let list = only(rt, alloc, item);
    list.clone(alloc).expect(rt, NO_MEMORY) == list
}

#[test]
fn copies_of_scripts_and_calls_equal_their_sources(rt: HostRuntime) {
    let alloc = rt.alloc();
    assert!(rt; is_copied(&rt, alloc, script(&rt, alloc)));
    assert!(rt; is_copied(&rt, alloc, wait(alloc)));
}

#[test]
fn copies_of_steps_and_answers_equal_their_sources(rt: HostRuntime) {
    let alloc = rt.alloc();
    assert!(rt; is_copied(&rt, alloc, job(&rt, alloc)));
    assert!(rt; is_copied(&rt, alloc, offer(&rt, alloc)));
    assert!(rt; is_copied(&rt, alloc, reply(alloc)));
    assert!(rt; is_copied(&rt, alloc, answer(&rt, alloc)));
}

const EXTENT: Extent = Extent { at: 80, len: 16 };

const OWNED: Owned = Owned {
    extent: EXTENT,
    rank: 0,
    request: 1,
    slot: 0,
    from: 0,
};

#[test]
fn copies_of_plain_items_equal_their_sources(rt: HostRuntime) {
    let alloc = rt.alloc();
    assert!(rt; is_copied(&rt, alloc, Mark::Solo(1, 2)));
    assert!(rt; is_copied(&rt, alloc, EXTENT));
    assert!(rt; is_copied(&rt, alloc, OWNED));
    assert!(rt; is_copied(&rt, alloc, DiskCall::Store(80, 16)));
}
