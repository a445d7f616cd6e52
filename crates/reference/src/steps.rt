// A step of the file.
ghost use Rattle.std.specs.Prelude.{◌≡◌, ◌++◌, ◌<◌, ◌≤◌, ◌^◌, ℕ, map, flat_map, length, true, nat_lt, if◌then◌else◌, max, IfOk, OnOk};
ghost use Rattle.std.specs.List.{enumerate_from};
ghost use Rattle.nc_base.specs.declared.plan.Post.{Post};
ghost use Rattle.overlay_laws.specs.Entries.{In};
ghost use Rattle.serial_spec.specs.FileStep as step;
ghost use Rattle.serial_spec.specs.FileStep.{get_post, Setting};
ghost use Rattle.serial_spec.specs.SoundHeaders.{is_sound};
ghost use Rattle.serial_spec.specs.Limits.{record_limit};
ghost use Rattle.serial_spec.specs.Records.{with_records};
ghost use Rattle.vara_extents.specs.Accepted.{IsAccepted};
ghost use Rattle.reference.specs.Requests.{counted, setting, IsPut, IsRight};

use crate::bytes::write;
use crate::elements::get;
use crate::puts::{after_puts, needed_by, told};
use nc_base::{BlobList, Header, Memory, Offer, OverlapRule, Pair, Post, Reply};
use std::alloc::Global;

/// The puts of a meeting with their ranks, in rank order and each rank's in order of posting.
pub fn puts_of(alloc: Global, offers: &[Offer]) -> Result<Vec<(u32, Post)>, Memory>
    requires few { length offers.now ≤ 2 ^ 32 }
    ensures { IfOk result (λ puts. puts.items ≡ flat_map step.puts_of (enumerate_from 0 offers.now)) }
{
    let mut puts = Vec::new(alloc);
    for (rank, offer) in offers.iter().enumerate() {
        add_puts(alloc, rank as u32, offer, &mut puts)?;
    }
    Ok(puts)
}

/// Adds the puts of a rank to those of others.
fn add_puts(
    alloc: Global,
    rank: u32,
    offer: &Offer,
    puts: &mut Vec<(u32, Post)>,
) -> Result<(), Memory>
    ensures { OnOk result (puts.new.items ≡ puts.old.items ++ step.puts_of (rank, offer.now)) }
{
    for post in offer.batch.puts.as_slice() {
        puts.push((rank, post.clone(alloc)?))?;
    }
    Ok(())
}

/// Does the puts of a step, unless two of them share a byte: the record count that they need.
pub(crate) fn do_puts(
    alloc: Global,
    header: &Header,
    puts: &[(u32, Post)],
    pair: Option<Pair>,
    file: &mut Vec<u8>,
) -> Result<u64, Memory>
    requires sound { is_sound header.now ≡ true }
    requires right { (p : ℕ × Post) → In puts.now p → IsPut header.now p.1 }
    ensures file { OnOk result ((s : Setting) → s.header ≡ header.now → file.new.items ≡ step.after_puts s puts.now pair file.old.items) }
    ensures needs { IfOk result (λ n. (s : Setting) → s.header ≡ header.now → n ≡ step.needs s puts.now pair) }
{
    match pair {
        Some(_) => Ok(0),
        None => {
            after_puts(alloc, header, puts, file)?;
            Ok(needed_by(header, puts))
        }
    }
}

/// The bytes of each get.
pub(crate) fn get_all(
    alloc: Global,
    header: &Header,
    posts: &[Post],
    file: &[u8],
) -> Result<BlobList, Memory>
    requires sound { is_sound header.now ≡ true }
    requires accepted { (p : Post) → In posts.now p → IsAccepted header.now p.var p.region }
    ensures { IfOk result (λ got. (s : Setting) → s.header ≡ header.now → got ≡ map (get_post s file.now) posts.now) }
{
    let mut got = Vec::with_capacity(alloc, posts.len())?;
    for post in posts {
        got.push(get(alloc, header, post, file)?)?;
    }
    Ok(BlobList::from_vec(got))
}

/// Does the puts and then the gets of a rank's offer: its reply. The record count of the file stays.
pub fn solo(
    alloc: Global,
    header: &Header,
    overlap: OverlapRule,
    rank: u32,
    offer: &Offer,
    file: &mut Vec<u8>,
) -> Result<Reply, Memory>
    requires sound { is_sound header.now ≡ true }
    requires right { IsRight header.now offer.now }
    ensures file { OnOk result (file.new.items ≡ (step.solo (setting header.now overlap) rank offer.now (counted file.old.items 0)).0.file) }
    ensures reply { IfOk result (λ reply. reply ≡ (step.solo (setting header.now overlap) rank offer.now (counted file.old.items 0)).1) }
{
    let mut puts = Vec::new(alloc);
    add_puts(alloc, rank, offer, &mut puts)?;
    let pair = told(alloc, header, overlap, puts.as_slice())?;
    let needed = do_puts(alloc, header, puts.as_slice(), pair, file)?;
    let got = get_all(alloc, header, offer.batch.gets.as_slice(), file.as_slice())?;
    Ok(Reply {
        pair,
        records: offer.known.max(needed),
        got,
    })
}

/// Raises the record count where more are needed, in the file too.
pub fn raise(
    header: &Header,
    needed: u64,
    file: &mut Vec<u8>,
    records: &mut u64,
) -> Result<(), Memory>
    requires needed { needed < record_limit header.now.version }
    ensures file { OnOk result (file.new.items ≡ (if nat_lt records.old needed then with_records header.now.version file.old.items needed else file.old.items)) }
    ensures records { OnOk result (records.new ≡ max records.old needed) }
{
    if needed <= *records {
        return Ok(());
    }
    write_count(header, needed, file)?;
    *records = needed;
    Ok(())
}

/// Writes the field of the record count, which follows the first 4 bytes: big-endian, 8 bytes in CDF-5 and else 4.
fn write_count(header: &Header, count: u64, file: &mut Vec<u8>) -> Result<(), Memory>
    requires fits { count < record_limit header.now.version }
    ensures { OnOk result (file.new.items ≡ with_records header.now.version file.old.items count) }
{
    if header.version == 5 {
        write(file, 4, &count.to_be_bytes())
    } else {
        write(file, 4, &(count as u32).to_be_bytes())
    }
}
