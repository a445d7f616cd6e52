// Worked steps on small datasets, with the bytes worked out by hand.
ghost use Rattle.std.specs.Prelude.{◌≡◌, [], ◌∷◌, true, IfOk};
ghost use Rattle.nc_base.specs.declared.step.MeetKind.TheVariants.{Put};
ghost use Rattle.nc_base.specs.declared.step.OfferKind.TheVariants as kind;
ghost use Rattle.serial_spec.specs.SoundHeaders.{is_sound};
ghost use Rattle.reference.specs.Requests.{IsPut};

use crate::tests::fixtures::placed;
use nc_base::{
    Batch, Direction, Header, MeetKind, NcType, Offer, OfferKind, OverlapRule, Pair, Post, PostList,
};
use reference::meeting;
use std::alloc::{AllocError, Global};
use std::process::Abort;
use std::test::Fail;
use test_fixtures::{Asked, NO_MEMORY, has_whole_bytes, is_accepted, post};

// A request for elements of v.
fn posted(rt: &impl Abort, alloc: Global, asked: &Asked) -> Post {
    post(alloc, asked).expect(rt, NO_MEMORY)
}

// A step takes this put.
fn is_put(rt: &impl Abort, header: &Header, post: &Post)
    ensures { IsPut header.now post.now }
{
    assert!(rt; is_accepted(header, post, Direction::Put));
    assert!(rt; has_whole_bytes(header, post));
}

fn offer_of(alloc: Global, post: Post) -> Result<Offer, AllocError>
    ensures { IfOk result (λ offer. offer ≡ record { kind = kind.Meet Put; known = 0; batch = record { puts = post ∷ []; gets = [] } }) }
{
    Ok(Offer {
        kind: OfferKind::Meet(MeetKind::Put),
        known: 0,
        batch: Batch {
            puts: PostList::from_vec(vec![in alloc; post]?),
            gets: PostList::new(alloc),
        },
    })
}

// The file and the count after two ranks' puts, and the pair that both are told.
fn met<R: Abort>(
    rt: &R,
    alloc: Global,
    header: &Header,
    a: Post,
    b: Post,
    file: &mut Vec<u8>,
    records: &mut u64,
) -> Result<Option<Pair>, Fail>
    requires { is_sound header.now ≡ true }
{
    is_put(rt, header, &a);
    is_put(rt, header, &b);
    let offers = vec![in alloc; offer_of(alloc, a)?, offer_of(alloc, b)?]?;
    let rule = OverlapRule::Refuse;
    let answered = meeting(alloc, header, rule, offers.as_slice(), file, records);
    // A call, which hides from the check how each list of it is let go.
    drop(offers);
    let replies = answered?;
    let list = replies.as_slice();
    assert!(rt; list.len() == 2);
    let pair = list[0].pair;
    assert!(rt; list[1].pair == pair);
    drop(replies);
    Ok(pair)
}

// A file of so many zeros.
fn zeros(rt: &impl Abort, alloc: Global, count: usize) -> Vec<u8> {
    vec![in alloc; 0; count].expect(rt, NO_MEMORY)
}

// What two ranks put, how many records there are then, and the bytes behind the header.
struct Case {
    kind: NcType,
    len: u64,
    puts: [Asked; 2],
    records: u64,
    bytes: &'static [u8],
}

const GAPS: Case = Case {
    kind: NcType::Int,
    len: 4,
    puts: [
        Asked {
            from: 0,
            count: 2,
            stride: 2,
            bytes: b"\0\0\0\x01\0\0\0\x03",
        },
        Asked {
            from: 1,
            count: 2,
            stride: 2,
            bytes: b"\0\0\0\x02\0\0\0\x04",
        },
    ],
    records: 0,
    bytes: b"\0\0\0\x01\0\0\0\x02\0\0\0\x03\0\0\0\x04",
};

const RECORDS: Case = Case {
    kind: NcType::Short,
    len: 0,
    puts: [
        Asked {
            from: 3,
            count: 1,
            stride: 1,
            bytes: b"\0\x07",
        },
        Asked {
            from: 0,
            count: 0,
            stride: 1,
            bytes: b"",
        },
    ],
    records: 4,
    bytes: b"\0\0\0\0\0\0\0\x07",
};

// A file of the header alone, or with the bytes of four ints, after the puts of the case.
fn case_met<R: Abort>(rt: &R, alloc: Global, case: &Case) -> Result<Vec<u8>, Fail> {
    let header = placed(rt, alloc, case.len, case.kind);
    let [first, second] = &case.puts;
    let (a, b) = (posted(rt, alloc, first), posted(rt, alloc, second));
    let mut file = zeros(rt, alloc, if case.len == 0 { 80 } else { 96 });
    let mut records = 0;
    let answered = met(rt, alloc, &header, a, b, &mut file, &mut records);
    drop(header);
    let pair = answered?;
    assert!(rt; pair.is_none());
    assert!(rt; records == case.records);
    assert!(rt; file.as_slice().get(80..) == Some(case.bytes));
    Ok(file)
}

#[test]
fn two_ranks_fill_each_others_gaps(rt: HostRuntime) -> Result<(), Fail> {
    case_met(&rt, rt.alloc(), &GAPS)?;
    Ok(())
}

#[test]
fn a_record_is_put_and_counted(rt: HostRuntime) -> Result<(), Fail> {
    let file = case_met(&rt, rt.alloc(), &RECORDS)?;
    assert!(rt; file.as_slice().get(4..8) == Some([0u8, 0, 0, 4].as_slice()));
    Ok(())
}
