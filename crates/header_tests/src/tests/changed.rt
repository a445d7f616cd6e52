// Headers with one word changed.
use super::read;
use nc_base::HeaderErr;
use std::alloc::Global;
use std::process::Abort;
use test_fixtures::NO_MEMORY;

/// One dimension and one variable of it, which begins at 80.
const LINE: &[u8] = &[
    67, 68, 70, 1, 0, 0, 0, 0, 0, 0, 0, 10, 0, 0, 0, 1, 0, 0, 0, 1, 120, 0, 0, 0, 0, 0, 0, 4, 0, 0,
    0, 0, 0, 0, 0, 0, 0, 0, 0, 11, 0, 0, 0, 1, 0, 0, 0, 1, 118, 0, 0, 0, 0, 0, 0, 1, 0, 0, 0, 0, 0,
    0, 0, 0, 0, 0, 0, 0, 0, 0, 0, 4, 0, 0, 0, 16, 0, 0, 0, 80,
];

/// The dimension x, the record dimension t, and one variable over t and x, which begins at 96.
const GRID: &[u8] = &[
    67, 68, 70, 1, 0, 0, 0, 0, 0, 0, 0, 10, 0, 0, 0, 2, 0, 0, 0, 1, 120, 0, 0, 0, 0, 0, 0, 3, 0, 0,
    0, 1, 116, 0, 0, 0, 0, 0, 0, 0, 0, 0, 0, 0, 0, 0, 0, 0, 0, 0, 0, 11, 0, 0, 0, 1, 0, 0, 0, 1,
    118, 0, 0, 0, 0, 0, 0, 2, 0, 0, 0, 1, 0, 0, 0, 0, 0, 0, 0, 0, 0, 0, 0, 0, 0, 0, 0, 4, 0, 0, 0,
    12, 0, 0, 0, 96,
];

/// A header, a place of it, the word that is put there, and the fault.
const TABLE: [(&[u8], usize, u32, Option<HeaderErr>); 16] = [
    (LINE, 0, 0x5844_4601, Some(HeaderErr::NotCdf)),
    (LINE, 0, 0x4344_4603, Some(HeaderErr::BadVersion)),
    (LINE, 0, 0x4344_4602, Some(HeaderErr::Truncated(76))),
    (LINE, 4, 0xffff_ffff, Some(HeaderErr::Streaming)),
    (LINE, 8, 0x0000_000b, Some(HeaderErr::BadTag(8))),
    (LINE, 12, 0x8000_0000, Some(HeaderErr::BadNumber(12))),
    (LINE, 12, 0x7fff_ffff, Some(HeaderErr::TooLarge)),
    (LINE, 56, 0x0000_0005, Some(HeaderErr::BadDimId(0))),
    (LINE, 68, 0x0000_0007, Some(HeaderErr::BadType(68))),
    (LINE, 76, 0x0000_004c, Some(HeaderErr::Shared(0, 0))),
    // A stored size is of no account, nor are a tag before a list without entries, and padding that isn't zero.
    (LINE, 72, 0xffff_ffff, None),
    (LINE, 28, 0x0000_000c, None),
    (LINE, 20, 0x7801_0203, None),
    // Two record dimensions; a variable over t and t; one over x and x.
    (GRID, 24, 0x0000_0000, Some(HeaderErr::TwoRecordDims)),
    (GRID, 72, 0x0000_0001, Some(HeaderErr::RecordDimNotFirst(0))),
    (GRID, 68, 0x0000_0000, None),
];

fn with_word(rt: &impl Abort, alloc: Global, header: &[u8], at: usize, word: u32) -> Vec<u8> {
    let mut bytes = Vec::from_slice(alloc, header).expect(rt, NO_MEMORY);
    for (place, byte) in word.to_be_bytes().iter().enumerate() {
        if let Some(old) = bytes.get_mut(at.saturating_add(place)) {
            *old = *byte;
        }
    }
    bytes
}

fn fault(alloc: Global, bytes: &[u8]) -> Option<HeaderErr> {
    read(alloc, bytes).err()
}

#[test]
fn one_word_changed(rt: HostRuntime) {
    for (header, at, word, wanted) in TABLE {
        let bytes = with_word(&rt, rt.alloc(), header, at, word);
        assert!(rt; fault(rt.alloc(), &bytes) == wanted, "{word:x} at {at}");
    }
}
