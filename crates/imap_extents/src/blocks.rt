// Numbers as big-endian bytes, a block of them at a time.
ghost use Rattle.std.specs.Prelude.{◌≡◌, ◌<◌, ◌≤◌, ◌+◌, ◌^◌, ◌++◌, ℕ, length, map, flat_map, OnOk};
ghost use Rattle.std.specs.Int.{Width, w8, w16, w32, w64, to_be_bytes};
ghost use Rattle.std.specs.List.{range_with_len};
ghost use Rattle.serial_spec.specs.ExternalForm.{width_of};

use nc_base::{Memory, NcType};

/// How many values go into a block.
const BLOCK: u32 = 128;

/// Numbers by their places.
pub(crate) trait Codes: Copy {
    ghost code_at: { Self → ℕ → ℕ };

    fn code_at(self, k: u64) -> u64
        requires { k < 2 ^ 32 }
        ensures { result ≡ code_at self k };
}

/// An unsigned number that takes `N` bytes.
trait Form<const N: usize> {
    ghost width: { Width };

    /// The lowest bytes of a number, the highest of them first.
    fn form(number: u64) -> [u8; N]
        ensures { result ≡ to_be_bytes width number };
}

impl Form<1> for u8 {
    ghost width = { w8 };

    #[inline(always)]
    fn form(number: u64) -> [u8; 1] {
        ((number % (1 << 8)) as u8).to_be_bytes()
    }
}

impl Form<2> for u16 {
    ghost width = { w16 };

    #[inline(always)]
    fn form(number: u64) -> [u8; 2] {
        ((number % (1 << 16)) as u16).to_be_bytes()
    }
}

impl Form<4> for u32 {
    ghost width = { w32 };

    #[inline(always)]
    fn form(number: u64) -> [u8; 4] {
        ((number % (1 << 32)) as u32).to_be_bytes()
    }
}

impl Form<8> for u64 {
    ghost width = { w64 };

    #[inline(always)]
    fn form(number: u64) -> [u8; 8] {
        number.to_be_bytes()
    }
}

/// Adds the lowest bytes of the first `count` numbers, as many of each as a value of the type has.
pub(crate) fn push_codes<C: Codes>(
    kind: NcType,
    codes: C,
    count: u32,
    bytes: &mut Vec<u8>,
) -> Result<(), Memory>
    ensures { OnOk result (bytes.new.items ≡ bytes.old.items ++ flat_map (λ k. to_be_bytes (width_of kind) (C.code_at codes k)) (range_with_len 0 count)) }
{
    match kind {
        NcType::Byte | NcType::Char | NcType::UByte => push_blocks::<u8, C, 1>(codes, count, bytes),
        NcType::Short | NcType::UShort => push_blocks::<u16, C, 2>(codes, count, bytes),
        NcType::Int | NcType::Float | NcType::UInt => {
            push_blocks::<u32, C, 4>(codes, count, bytes)
        }
        NcType::Double | NcType::Int64 | NcType::UInt64 => {
            push_blocks::<u64, C, 8>(codes, count, bytes)
        }
    }
}

fn push_blocks<F: Form<N>, C: Codes, const N: usize>(
    codes: C,
    count: u32,
    bytes: &mut Vec<u8>,
) -> Result<(), Memory>
    requires narrow { N ≤ 8 }
    ensures { OnOk result (bytes.new.items ≡ bytes.old.items ++ flat_map (λ k. to_be_bytes F.width (C.code_at codes k)) (range_with_len 0 count)) }
{
    let mut done = 0;
    while done < count {
        let here = (count - done).min(BLOCK);
        push_block::<F, C, N>(codes, done, here, bytes)?;
        done += here;
    }
    Ok(())
}

/// Adds `count` numbers from `start` on.
fn push_block<F: Form<N>, C: Codes, const N: usize>(
    codes: C,
    start: u32,
    count: u32,
    bytes: &mut Vec<u8>,
) -> Result<(), Memory>
    requires narrow { N ≤ 8 }
    requires few { count ≤ 128 }
    requires within { start + count < 2 ^ 32 }
    ensures { OnOk result (bytes.new.items ≡ bytes.old.items ++ flat_map (λ k. to_be_bytes F.width (C.code_at codes k)) (range_with_len start count)) }
{
    let mut block = [[0; N]; BLOCK as usize];
    let forms = &mut block[..count as usize];
    write_forms::<F, C, N>(codes, start, forms);
    push_forms(forms, bytes)
}

/// Writes the numbers from `start` on.
#[inline(always)]
fn write_forms<F: Form<N>, C: Codes, const N: usize>(codes: C, start: u32, forms: &mut [[u8; N]])
    requires { start + length forms.old < 2 ^ 32 }
    ensures { forms.new ≡ map (λ k. to_be_bytes F.width (C.code_at codes k)) (range_with_len start (length forms.old)) }
{
    for i in 0..forms.len() {
        forms[i] = F::form(codes.code_at((start as usize + i) as u64));
    }
}

#[inline(always)]
fn push_forms<const N: usize>(forms: &[[u8; N]], bytes: &mut Vec<u8>) -> Result<(), Memory>
    ensures { OnOk result (bytes.new.items ≡ bytes.old.items ++ flat_map (λ form. form) forms.now) }
{
    bytes.extend_from_slice(forms.as_flattened())?;
    Ok(())
}
