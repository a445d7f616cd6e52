// From external form to the words of memory.
ghost use Rattle.std.specs.Prelude.{◌≡◌, ◌<◌, ◌≤◌, ◌/◌, ℕ, List, pos, length, map, IfOk};
ghost use Rattle.std.specs.Int.{w8, w16, w32, w64, from_be_bytes, cast_signed};
ghost use Rattle.std.specs.Simd.{first_chunks};

use nc_base::{BitList, Memory, NumberList};
use std::alloc::Global;

/// A number of `N` bytes that a word of memory holds.
pub(crate) trait Decode<W, const N: usize> {
    ghost word: { List ℕ → W };

    fn word(form: [u8; N]) -> W
        ensures { result ≡ word form.entry };
}

impl Decode<i32, 1> for i8 {
    ghost word = { λ form. cast_signed w8 (from_be_bytes w8 form) };

    #[inline(always)]
    fn word(form: [u8; 1]) -> i32
        ensures { result ≡ cast_signed w8 (from_be_bytes w8 form) }
    {
        i32::from(u8::from_be_bytes(form).cast_signed())
    }
}

impl Decode<i32, 1> for u8 {
    ghost word = { λ form. pos (from_be_bytes w8 form) };

    #[inline(always)]
    fn word(form: [u8; 1]) -> i32
        ensures { result ≡ pos (from_be_bytes w8 form) }
    {
        i32::from(u8::from_be_bytes(form))
    }
}

impl Decode<i32, 2> for i16 {
    ghost word = { λ form. cast_signed w16 (from_be_bytes w16 form) };

    #[inline(always)]
    fn word(form: [u8; 2]) -> i32
        ensures { result ≡ cast_signed w16 (from_be_bytes w16 form) }
    {
        i32::from(u16::from_be_bytes(form).cast_signed())
    }
}

impl Decode<i32, 2> for u16 {
    ghost word = { λ form. pos (from_be_bytes w16 form) };

    #[inline(always)]
    fn word(form: [u8; 2]) -> i32
        ensures { result ≡ pos (from_be_bytes w16 form) }
    {
        i32::from(u16::from_be_bytes(form))
    }
}

impl Decode<i32, 4> for i32 {
    ghost word = { λ form. cast_signed w32 (from_be_bytes w32 form) };

    #[inline(always)]
    fn word(form: [u8; 4]) -> i32
        ensures { result ≡ cast_signed w32 (from_be_bytes w32 form) }
    {
        u32::from_be_bytes(form).cast_signed()
    }
}

impl Decode<i64, 4> for u32 {
    ghost word = { λ form. pos (from_be_bytes w32 form) };

    #[inline(always)]
    fn word(form: [u8; 4]) -> i64
        ensures { result ≡ pos (from_be_bytes w32 form) }
    {
        i64::from(u32::from_be_bytes(form))
    }
}

impl Decode<i64, 8> for i64 {
    ghost word = { λ form. cast_signed w64 (from_be_bytes w64 form) };

    #[inline(always)]
    fn word(form: [u8; 8]) -> i64
        ensures { result ≡ cast_signed w64 (from_be_bytes w64 form) }
    {
        u64::from_be_bytes(form).cast_signed()
    }
}

impl Decode<u32, 4> for u32 {
    ghost word = { λ form. from_be_bytes w32 form };

    #[inline(always)]
    fn word(form: [u8; 4]) -> u32
        ensures { result ≡ from_be_bytes w32 form }
    {
        u32::from_be_bytes(form)
    }
}

impl Decode<u64, 8> for u64 {
    ghost word = { λ form. from_be_bytes w64 form };

    #[inline(always)]
    fn word(form: [u8; 8]) -> u64
        ensures { result ≡ from_be_bytes w64 form }
    {
        u64::from_be_bytes(form)
    }
}

/// The numbers of types whose values take 32 bits with their sign.
pub(crate) fn narrow_numbers<D: Decode<i32, N>, const N: usize>(
    alloc: Global,
    bytes: &[u8],
) -> Result<NumberList, Memory>
    requires some { 0 < N }
    requires narrow { N ≤ 8 }
    ensures { IfOk result (λ all. all ≡ map D.word (first_chunks N (length bytes.now / N) bytes.now)) }
{
    Ok(NumberList::from_narrow(words_of::<D, i32, N>(alloc, bytes)?))
}

/// The numbers of types whose values take 64 bits with their sign.
pub(crate) fn wide_numbers<D: Decode<i64, N>, const N: usize>(
    alloc: Global,
    bytes: &[u8],
) -> Result<NumberList, Memory>
    requires some { 0 < N }
    requires narrow { N ≤ 8 }
    ensures { IfOk result (λ all. all ≡ map D.word (first_chunks N (length bytes.now / N) bytes.now)) }
{
    Ok(NumberList::from_wide(words_of::<D, i64, N>(alloc, bytes)?))
}

/// The bit patterns of float.
pub(crate) fn narrow_patterns(alloc: Global, bytes: &[u8]) -> Result<BitList, Memory>
    ensures { IfOk result (λ all. all ≡ map (λ form. from_be_bytes w32 form) (first_chunks 4 (length bytes.now / 4) bytes.now)) }
{
    Ok(BitList::from_narrow(words_of::<u32, u32, 4>(alloc, bytes)?))
}

/// The bit patterns of double.
pub(crate) fn wide_patterns(alloc: Global, bytes: &[u8]) -> Result<BitList, Memory>
    ensures { IfOk result (λ all. all ≡ map (λ form. from_be_bytes w64 form) (first_chunks 8 (length bytes.now / 8) bytes.now)) }
{
    Ok(BitList::from_vec(words_of::<u64, u64, 8>(alloc, bytes)?))
}

/// The words of bytes, `N` for each.
fn words_of<D: Decode<W, N>, W: Copy, const N: usize>(
    alloc: Global,
    bytes: &[u8],
) -> Result<Vec<W>, Memory>
    requires some { 0 < N }
    requires narrow { N ≤ 8 }
    ensures { IfOk result (λ all. all.items ≡ map D.word (first_chunks N (length bytes.now / N) bytes.now)) }
{
    let (forms, _) = bytes.as_chunks::<N>();
    let mut words = vec![in alloc; D::word([0; N]); forms.len()]?;
    write_words::<D, W, N>(forms, &mut words);
    Ok(words)
}

/// Writes the words of as many forms.
#[inline(always)]
fn write_words<D: Decode<W, N>, W: Copy, const N: usize>(forms: &[[u8; N]], words: &mut [W])
    requires { length forms.now ≡ length words.old }
    ensures { words.new ≡ map D.word forms.now }
{
    for i in 0..words.len() {
        words[i] = D::word(forms[i]);
    }
}
