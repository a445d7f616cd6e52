// Words and values.
ghost use Rattle.std.specs.Prelude.{◌≡◌, ◌<◌, ◌≤◌, ◌+◌, ◌*◌, ◌/◌, ◌%◌, ◌++◌, ◌∷◌, IfOk, OnOk, decimal, drop, length, map, set, take};
ghost use Rattle.std.specs.Fmt.{signed_decimal};
ghost use Rattle.script_spec.specs.Texts.{call_word, code_word, form_word, hex, hex_digit, kind_word, quoted, text_char, text_line, value_words, with_all};
ghost use Rattle.printed_text.specs.Spaced.{spaced};

use itoa::Buffer;
use nc_base::{BitList, Call, Code, Form, Memory, NumberList, PostKind, Values};
use script_words::vocabulary::form_word;
pub use script_words::vocabulary::type_word;

/// Bytes as they are.
pub fn push_bytes(out: &mut Vec<u8>, bytes: &[u8]) -> Result<(), Memory>
    ensures { OnOk result (out.new.items ≡ out.old.items ++ bytes.now) }
{
    out.extend_from_slice(bytes)?;
    Ok(())
}

/// A blank and a word.
pub fn push_word(out: &mut Vec<u8>, word: &[u8]) -> Result<(), Memory>
    ensures { OnOk result (out.new.items ≡ out.old.items ++ 32 ∷ word.now) }
{
    out.push(b' ')?;
    push_bytes(out, word)
}

pub fn push_decimal(out: &mut Vec<u8>, number: u64) -> Result<(), Memory>
    ensures { OnOk result (out.new.items ≡ out.old.items ++ decimal number) }
{
    push_bytes(out, Buffer::new().format(number).as_bytes())
}

/// Words and a number after them.
pub fn push_numbered(out: &mut Vec<u8>, words: &[u8], number: u64) -> Result<(), Memory>
    ensures { OnOk result (out.new.items ≡ out.old.items ++ (words.now ++ decimal number)) }
{
    push_bytes(out, words)?;
    push_decimal(out, number)
}

/// A line of words and a number after them.
pub fn push_number_line(out: &mut Vec<u8>, words: &[u8], number: u64) -> Result<(), Memory>
    ensures { OnOk result (out.new.items ≡ out.old.items ++ text_line (words.now ++ decimal number)) }
{
    push_numbered(out, words, number)?;
    out.push(b'\n')?;
    Ok(())
}

pub fn push_signed(out: &mut Vec<u8>, number: i128) -> Result<(), Memory>
    ensures { OnOk result (out.new.items ≡ out.old.items ++ signed_decimal number) }
{
    push_bytes(out, Buffer::new().format(number).as_bytes())
}

/// The two digits of each byte.
static PAIRS: [u8; 512] = *b"\
    000102030405060708090A0B0C0D0E0F\
    101112131415161718191A1B1C1D1E1F\
    202122232425262728292A2B2C2D2E2F\
    303132333435363738393A3B3C3D3E3F\
    404142434445464748494A4B4C4D4E4F\
    505152535455565758595A5B5C5D5E5F\
    606162636465666768696A6B6C6D6E6F\
    707172737475767778797A7B7C7D7E7F\
    808182838485868788898A8B8C8D8E8F\
    909192939495969798999A9B9C9D9E9F\
    A0A1A2A3A4A5A6A7A8A9AAABACADAEAF\
    B0B1B2B3B4B5B6B7B8B9BABBBCBDBEBF\
    C0C1C2C3C4C5C6C7C8C9CACBCCCDCECF\
    D0D1D2D3D4D5D6D7D8D9DADBDCDDDEDF\
    E0E1E2E3E4E5E6E7E8E9EAEBECEDEEEF\
    F0F1F2F3F4F5F6F7F8F9FAFBFCFDFEFF";

/// The last `digits` hexadecimal digits of a number, with capital letters.
pub fn push_hex(out: &mut Vec<u8>, digits: u8, number: u64) -> Result<(), Memory>
    ensures { OnOk result (out.new.items ≡ out.old.items ++ hex digits number) }
{
    if digits <= 16 {
        let mut text = [0; 16];
        write_hex(&mut text, 0, digits, number);
        return push_bytes(out, &text[..usize::from(digits)]);
    }
    push_hex(out, digits - 1, number / 16)?;
    out.push(hex_digit((number % 16) as u8))?;
    Ok(())
}

/// Writes the last `digits` hexadecimal digits of a number into the text, from `start` on.
#[inline(always)]
fn write_hex(text: &mut [u8], start: usize, digits: u8, number: u64)
    requires { start + digits ≤ length text.old }
    ensures written { take (start + digits) text.new ≡ take start text.old ++ hex digits number }
    ensures len { length text.new ≡ length text.old }
{
    let pairs = usize::from(digits / 2);
    if digits % 2 == 0 {
        write_pairs(text, start, pairs, number);
    } else {
        text[start + 2 * pairs] = hex_digit((number % 16) as u8);
        write_pairs(text, start, pairs, number / 16);
    }
}

/// Writes the last `pairs` pairs of digits of a number into the text, from `start` on, the last pair first.
#[inline(always)]
fn write_pairs(text: &mut [u8], start: usize, pairs: usize, number: u64)
    requires { start + 2 * pairs ≤ length text.old }
    ensures written { text.new ≡ take start text.old ++ hex (2 * pairs) number ++ drop (start + 2 * pairs) text.old }
    ensures len { length text.new ≡ length text.old }
{
    let mut left = pairs;
    let mut rest = number;
    while left > 0 {
        left -= 1;
        write_pair(text, start + 2 * left, (rest % 256) as u8);
        rest /= 256;
    }
}

/// Writes the two digits of a byte.
#[inline(always)]
fn write_pair(text: &mut [u8], at: usize, byte: u8)
    requires { at + 2 ≤ length text.old }
    ensures { text.new ≡ set (set text.old (at + 1) (hex_digit (byte % 16))) at (hex_digit (byte / 16)) }
{
    let from = usize::from(byte) * 2;
    text[at + 1] = PAIRS[from + 1];
    text[at] = PAIRS[from];
}

fn hex_digit(digit: u8) -> u8
    requires { digit < 16 }
    ensures { result ≡ hex_digit digit }
{
    if digit < 10 {
        b'0' + digit
    } else {
        b'A' - 10 + digit
    }
}

/// A text in quotes: a quote, a backslash, a newline and a tab are escaped, and so is each byte that is not printable ASCII.
pub fn push_quoted(out: &mut Vec<u8>, text: &[u8]) -> Result<(), Memory>
    ensures { OnOk result (out.new.items ≡ out.old.items ++ quoted text.now) }
{
    out.push(b'"')?;
    for byte in text {
        push_text_char(out, *byte)?;
    }
    out.push(b'"')?;
    Ok(())
}

fn push_text_char(out: &mut Vec<u8>, byte: u8) -> Result<(), Memory>
    ensures { OnOk result (out.new.items ≡ out.old.items ++ text_char byte) }
{
    match byte {
        b'"' => push_bytes(out, b"\\\""),
        b'\\' => push_bytes(out, b"\\\\"),
        b'\n' => push_bytes(out, b"\\n"),
        b'\t' => push_bytes(out, b"\\t"),
        b' '..=b'~' => push_bytes(out, &[byte]),
        _ => {
            push_bytes(out, b"\\x")?;
            push_hex(out, 2, u64::from(byte))
        }
    }
}

/// The name of an answer's code: that of the PnetCDF library, or of this project where it has none.
pub fn code_word(code: Code) -> &'static [u8]
    ensures { result.now ≡ code_word code }
{
    match code {
        Code::Ok => b"ok",
        Code::Null => b"null",
        Code::ENotVar => b"NC_ENOTVAR",
        Code::EInvalCoords => b"NC_EINVALCOORDS",
        Code::EEdge => b"NC_EEDGE",
        Code::EStride => b"NC_ESTRIDE",
        Code::ERange => b"NC_ERANGE",
        Code::EChar => b"NC_ECHAR",
        Code::EBadType => b"NC_EBADTYPE",
        Code::EBadDim => b"NC_EBADDIM",
        Code::EMapSize => b"EMAPSIZE",
        Code::ETooLarge => b"ETOOLARGE",
        Code::ENotIndep => b"NC_ENOTINDEP",
        Code::EIndep => b"NC_EINDEP",
        Code::EInvalRequest => b"NC_EINVAL_REQUEST",
        Code::EPrevAttachBuf => b"NC_EPREVATTACHBUF",
        Code::ENullBuf => b"NC_ENULLBUF",
        Code::ENullABuf => b"NC_ENULLABUF",
        Code::EInsuffBuf => b"NC_EINSUFFBUF",
        Code::EPendingBput => b"NC_EPENDINGBPUT",
        Code::ESelf => b"ESELF",
        Code::ENotRec => b"ENOTREC",
    }
}

fn kind_word(kind: PostKind) -> &'static [u8]
    ensures { result.now ≡ kind_word kind }
{
    match kind {
        PostKind::Iput => b"iput_",
        PostKind::Iget => b"iget_",
        PostKind::Bput => b"bput_",
    }
}

/// The word of a call, as scripts have it.
pub fn push_call_word(out: &mut Vec<u8>, call: &Call) -> Result<(), Memory>
    ensures { OnOk result (out.new.items ≡ out.old.items ++ call_word call.now) }
{
    match call {
        Call::Put { all, given, .. } => push_access(out, b"put_", given.form, *all),
        Call::Get { all, given, .. } => push_access(out, b"get_", given.form, *all),
        Call::Post { kind, given, .. } => {
            push_bytes(out, kind_word(*kind))?;
            push_bytes(out, form_word(given.form))
        }
        Call::Wait { all: false, .. } => push_bytes(out, b"wait"),
        Call::Wait { all: true, .. } => push_bytes(out, b"wait_all"),
        Call::Cancel { .. } => push_bytes(out, b"cancel"),
        Call::Attach { .. } => push_bytes(out, b"buffer_attach"),
        Call::Detach => push_bytes(out, b"buffer_detach"),
        Call::BeginIndep => push_bytes(out, b"begin_indep_data"),
        Call::EndIndep => push_bytes(out, b"end_indep_data"),
        Call::SyncRecords => push_bytes(out, b"sync_numrecs"),
        Call::InqDim { .. } => push_bytes(out, b"inq_dimlen"),
        Call::FillRec { .. } => push_bytes(out, b"fill_var_rec"),
    }
}

/// The word of a call that puts or gets a region at once.
fn push_access(out: &mut Vec<u8>, verb: &[u8], form: Form, all: bool) -> Result<(), Memory>
    ensures { OnOk result (out.new.items ≡ out.old.items ++ with_all all (verb.now ++ form_word form)) }
{
    push_bytes(out, verb)?;
    push_collective(out, form_word(form), all)
}

/// A word, with its end where the call is collective.
fn push_collective(out: &mut Vec<u8>, word: &[u8], all: bool) -> Result<(), Memory>
    ensures { OnOk result (out.new.items ≡ out.old.items ++ with_all all word.now) }
{
    push_bytes(out, word)?;
    if all {
        push_bytes(out, b"_all")?;
    }
    Ok(())
}

/// Values, each with a blank before it; bits have so many digits.
pub fn push_values(out: &mut Vec<u8>, digits: u8, values: &Values) -> Result<(), Memory>
    ensures { OnOk result (out.new.items ≡ out.old.items ++ spaced (value_words digits values.now)) }
{
    match values {
        Values::Numbers(numbers) => push_numbers(out, numbers),
        Values::Text(text) => {
            out.push(b' ')?;
            push_quoted(out, text.as_slice())
        }
        Values::Bits(patterns) => push_patterns(out, digits, patterns),
    }
}

fn push_numbers(out: &mut Vec<u8>, numbers: &NumberList) -> Result<(), Memory>
    ensures { OnOk result (out.new.items ≡ out.old.items ++ spaced (map signed_decimal numbers.now)) }
{
    for k in 0..numbers.len() {
        out.push(b' ')?;
        push_signed(out, numbers.at(k))?;
    }
    Ok(())
}

/// A blank, an x and the most digits.
const PATTERN_LEN: usize = 257;

/// How many bytes of patterns are gathered before they are copied.
const BLOCK: usize = 512;

fn push_patterns(out: &mut Vec<u8>, digits: u8, patterns: &BitList) -> Result<(), Memory>
    ensures { OnOk result (out.new.items ≡ out.old.items ++ spaced (map (λ n. 120 ∷ hex digits n) patterns.now)) }
{
    let mut block = [0; BLOCK];
    let mut at = 0;
    for k in 0..patterns.len() {
        at = with_room(out, &block, at)?;
        write_pattern(&mut block, at, digits, patterns.at(k));
        at += usize::from(digits) + 2;
    }
    push_bytes(out, &block[..at])
}

/// Copies what the block holds where it has no room for a pattern, and returns where the next one goes.
#[inline(always)]
fn with_room(out: &mut Vec<u8>, block: &[u8; BLOCK], at: usize) -> Result<usize, Memory>
    requires { at ≤ 512 }
    ensures room { IfOk result (λ next. next ≤ 255) }
    ensures same { IfOk result (λ next. out.new.items ++ take next block.now ≡ out.old.items ++ take at block.now) }
{
    if at <= BLOCK - PATTERN_LEN {
        return Ok(at);
    }
    push_bytes(out, &block[..at])?;
    Ok(0)
}

/// Writes a blank, an x and so many digits into the text, from `at` on.
#[inline(always)]
fn write_pattern(text: &mut [u8], at: usize, digits: u8, pattern: u64)
    requires { at + (digits + 2) ≤ length text.old }
    ensures written { take (at + (digits + 2)) text.new ≡ take at text.old ++ 32 ∷ 120 ∷ hex digits pattern }
    ensures len { length text.new ≡ length text.old }
{
    text[at] = b' ';
    text[at + 1] = b'x';
    write_hex(text, at + 2, digits, pattern);
}
