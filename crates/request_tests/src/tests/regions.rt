// Regions of a file: what a form leaves out, the extents of a region, and calls on many boxes.
ghost use Rattle.std.specs.Prelude.{◌≡◌, true};
ghost use Rattle.serial_spec.specs.SoundHeaders.{is_sound};

use nc_base::{
    CallErr, Code, Direction, Form, Given, Header, NcType, Part, PartList, Region, SizeList,
};
use std::alloc::Global;
use std::process::Abort;
use test_fixtures::{NO_LAYOUT, NO_MEMORY, laid_out, one, one_variable, region, two};
use var_layout::Measures;
use vara_extents::{Ends, Extents, check, check_parts, widen};

/// A call of this form that gives nothing but its boxes.
fn given(alloc: Global, form: Form, parts: PartList) -> Given {
    Given {
        form,
        start: SizeList::new(alloc),
        count: SizeList::new(alloc),
        stride: SizeList::new(alloc),
        imap: SizeList::new(alloc),
        parts,
    }
}

/// The dimension x of this length, and the byte variable v over it.
fn header_of(rt: &impl Abort, alloc: Global, len: u64) -> Header {
    one_variable(alloc, len, NcType::Byte, 80).expect(rt, NO_MEMORY)
}

#[test]
fn a_whole_variable_has_the_known_records(rt: HostRuntime) {
    let alloc = rt.alloc();
    let header = header_of(&rt, alloc, 0);
    assert!(rt; header.vars.len() == 1);
    let whole = given(alloc, Form::Var, PartList::new(alloc));
    let widened = widen(alloc, &header, 0, &whole, 3).expect(&rt, NO_MEMORY);
    let wanted = region(alloc, 0, 3, 1).expect(&rt, NO_MEMORY);
    assert!(rt; widened == wanted);
    // Calls, which hide from the check how each list of these is let go.
    drop(wanted);
    drop(widened);
    drop(whole);
    drop(header);
}

/// A put of the region gives these extents, each with its place and its length.
fn assert_extents(rt: &impl Abort, header: &Header, region: &Region, extents: &[(u64, u64)])
    requires { is_sound header.now ≡ true }
{
    let measures = Measures::of(header);
    assert!(rt; check(header, &measures, 0, region, 0, Direction::Put).is_ok());
    let mut wanted = extents.iter();
    for extent in Extents::new(header, &measures, 0, region) {
        assert!(rt; wanted.next() == Some(&(extent.at, extent.len)));
    }
    assert!(rt; wanted.next().is_none());
}

/// The stride of three elements from the second one on, and the extents, where the variable begins at 80.
const STRIDES: [(u64, &[(u64, u64)]); 2] = [(1, &[(84, 12)]), (2, &[(84, 4), (92, 4), (100, 4)])];

#[test]
fn elements_that_follow_one_another_are_one_extent(rt: HostRuntime) {
    let bare = one_variable(rt.alloc(), 6, NcType::Int, 0).expect(&rt, NO_MEMORY);
    let header = laid_out(bare).expect(&rt, NO_LAYOUT);
    for (stride, extents) in STRIDES {
        let region = region(rt.alloc(), 1, 3, stride).expect(&rt, NO_MEMORY);
        assert_extents(&rt, &header, &region, extents);
        drop(region);
    }
    drop(header);
}

fn part(rt: &impl Abort, alloc: Global, start: u64, count: u64) -> Part {
    Part {
        start: one(alloc, start).expect(rt, NO_MEMORY),
        count: one(alloc, count).expect(rt, NO_MEMORY),
    }
}

/// How a put of the first two elements, and of two more from `start` on, is refused.
fn refusal(rt: &impl Abort, alloc: Global, header: &Header, start: u64) -> Option<CallErr> {
    let (first, second) = (part(rt, alloc, 0, 2), part(rt, alloc, start, 2));
    let parts = two(alloc, first, second).expect(rt, NO_MEMORY);
    let given = given(alloc, Form::Varn, parts);
    let ends = Ends {
        direction: Direction::Put,
        known: 0,
    };
    let refused = check_parts(alloc, header, &Measures::of(header), 0, &given, ends).err();
    drop(given);
    refused
}

#[test]
fn parts_of_a_put_share_no_element(rt: HostRuntime) {
    let header = header_of(&rt, rt.alloc(), 4);
    assert!(rt; refusal(&rt, rt.alloc(), &header, 2).is_none());
    assert!(rt; refusal(&rt, rt.alloc(), &header, 1) == Some(CallErr::Code(Code::ESelf)));
    drop(header);
}
