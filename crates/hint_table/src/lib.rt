//! The hints of a script: the word, the form, the default and the field of each.
#![tactic(auto)]

ghost use Rattle.std.specs.Prelude.{◌≡◌, ◌<◌, fold, length, option_map};
ghost use Rattle.script_spec.specs.HintTable.{hint_of_text, hint_or, hints_of, rule_number, rule_of, Within, Either};
ghost use Rattle.hint_table.specs.HintNames.{first_with, form_of, hint_place, row_of, with_hint, HasUnit};

use nc_base::{Hints, OverlapRule};

/// A hint.
#[derive(Clone, Copy, Debug, PartialEq, Eq)]
pub enum HintName {
    CbNodes,
    CbBuffer,
    RdBuffer,
    WrBuffer,
    LineRoom,
    Threads,
    Overlap,
    HeaderAlign,
    VarAlign,
    StripingUnit,
}

/// Every hint, in the order in which they are printed.
pub const HINTS: [HintName; 10] = [
    HintName::CbNodes,
    HintName::CbBuffer,
    HintName::RdBuffer,
    HintName::WrBuffer,
    HintName::LineRoom,
    HintName::Threads,
    HintName::Overlap,
    HintName::HeaderAlign,
    HintName::VarAlign,
    HintName::StripingUnit,
];

/// Before any hint is set.
const NO_HINTS: Hints = Hints {
    cb_nodes: 0,
    cb_buffer: 0,
    rd_buffer: 0,
    wr_buffer: 0,
    line_room: 0,
    threads: false,
    overlap: OverlapRule::Refuse,
    header_align: 0,
    var_align: 0,
    striping_unit: 0,
};

/// Which values a hint has.
#[derive(Clone, Copy, Debug)]
pub enum HintForm {
    /// The multiples of `unit` from `low` to `high`.
    Within {
        low: u32,
        high: u32,
        unit: u32,
    },
    /// One of two words, which are the numbers 0 and 1.
    Either {
        zero: &'static [u8],
        one: &'static [u8],
    },
}

/// Windows and units of domains have at most this many bytes.
const MOST_BYTES: u32 = 33_554_432;

impl HintName {
    /// The hint of this word.
    #[tactic(auto, using(crate::proofs::FoundLaws::place_found))]
    pub fn of_word(word: &[u8]) -> Option<HintName>
        ensures { option_map hint_place result ≡ hint_of_text word.now }
    {
        first_with(&HINTS, word)
    }

    /// The place in the table.
    pub fn place(self) -> usize
        ensures value { result ≡ hint_place self }
        ensures bound { result < 10 }
    {
        self as usize
    }

    pub fn word(self) -> &'static [u8]
        ensures { result.now ≡ (row_of self).word }
    {
        match self {
            HintName::CbNodes => b"cb_nodes",
            HintName::CbBuffer => b"cb_buffer_size",
            HintName::RdBuffer => b"ind_rd_buffer_size",
            HintName::WrBuffer => b"ind_wr_buffer_size",
            HintName::LineRoom => b"line_room",
            HintName::Threads => b"threads",
            HintName::Overlap => b"overlap",
            HintName::HeaderAlign => b"nc_header_align_size",
            HintName::VarAlign => b"nc_var_align_size",
            HintName::StripingUnit => b"striping_unit",
        }
    }

    pub fn form(self) -> HintForm
        ensures form { form_of result ≡ (row_of self).form }
        ensures unit { HasUnit result }
    {
        match self {
            HintName::CbNodes | HintName::LineRoom => within(1, 64, 1),
            HintName::CbBuffer | HintName::RdBuffer | HintName::WrBuffer => {
                within(1, MOST_BYTES, 1)
            }
            HintName::Threads => either(b"off", b"on"),
            HintName::Overlap => either(b"refuse", b"serial"),
            HintName::HeaderAlign | HintName::VarAlign => within(4, 1_048_576, 4),
            HintName::StripingUnit => within(1, MOST_BYTES, 1),
        }
    }

    /// The value where a script of so many ranks gives none. Those of buffers are the defaults of ROMIO, the others are
    /// our choice.
    pub fn default(self, ranks: u32) -> u32
        ensures { result ≡ (row_of self).default ranks }
    {
        match self {
            HintName::CbNodes => ranks.min(8),
            HintName::CbBuffer => 16_777_216,
            HintName::RdBuffer => 4_194_304,
            HintName::WrBuffer => 524_288,
            HintName::LineRoom => 2,
            HintName::Threads => 1,
            HintName::Overlap => 0,
            HintName::HeaderAlign | HintName::VarAlign => 4,
            HintName::StripingUnit => 1,
        }
    }

    /// The value, as a number.
    pub fn get(self, hints: &Hints) -> u64
        ensures { result ≡ (row_of self).seen hints.now }
    {
        match self {
            HintName::CbNodes => u64::from(hints.cb_nodes),
            HintName::CbBuffer => hints.cb_buffer,
            HintName::RdBuffer => hints.rd_buffer,
            HintName::WrBuffer => hints.wr_buffer,
            HintName::LineRoom => u64::from(hints.line_room),
            HintName::Threads => u64::from(hints.threads),
            HintName::Overlap => rule_number(hints.overlap),
            HintName::HeaderAlign => hints.header_align,
            HintName::VarAlign => hints.var_align,
            HintName::StripingUnit => hints.striping_unit,
        }
    }

    pub fn set(self, value: u32, hints: &mut Hints)
        ensures { hints.new ≡ (row_of self).set value hints.old }
    {
        let size = u64::from(value);
        match self {
            HintName::CbNodes => hints.cb_nodes = value,
            HintName::CbBuffer => hints.cb_buffer = size,
            HintName::RdBuffer => hints.rd_buffer = size,
            HintName::WrBuffer => hints.wr_buffer = size,
            HintName::LineRoom => hints.line_room = value,
            HintName::Threads => hints.threads = value == 1,
            HintName::Overlap => hints.overlap = rule_of(value),
            HintName::HeaderAlign => hints.header_align = size,
            HintName::VarAlign => hints.var_align = size,
            HintName::StripingUnit => hints.striping_unit = size,
        }
    }
}

fn first_with(names: &[HintName], word: &[u8]) -> Option<HintName>
    ensures { result ≡ first_with names.now word.now }
{
    names.iter().copied().find(|name| word == name.word())
}

/// The hints of a script of so many ranks: the values that it gives, each at its place in the table, and the defaults of
/// the others.
pub fn hints_of(ranks: u32, given: &[Option<u32>]) -> Hints
    requires { length given.now ≡ 10 }
    ensures { result ≡ hints_of ranks given.now }
{
    let mut hints = NO_HINTS;
    set_each(&HINTS, ranks, given, &mut hints);
    hints
}

fn set_each(names: &[HintName], ranks: u32, given: &[Option<u32>], hints: &mut Hints)
    requires { length given.now ≡ 10 }
    ensures { hints.new ≡ fold (with_hint ranks given.now) hints.old names.now }
{
    for name in names {
        name.set(value_or_default(*name, ranks, given), hints);
    }
}

fn value_or_default(name: HintName, ranks: u32, given: &[Option<u32>]) -> u32
    requires { length given.now ≡ 10 }
    ensures { result ≡ hint_or given.now (hint_place name) ((row_of name).default ranks) }
{
    given[name.place()].unwrap_or(name.default(ranks))
}

fn within(low: u32, high: u32, unit: u32) -> HintForm
    requires { 0 < unit }
    ensures form { form_of result ≡ Within low high unit }
    ensures unit { HasUnit result }
{
    HintForm::Within { low, high, unit }
}

fn either(zero: &'static [u8], one: &'static [u8]) -> HintForm
    ensures form { form_of result ≡ Either zero.now one.now }
    ensures unit { HasUnit result }
{
    HintForm::Either { zero, one }
}

fn rule_number(rule: OverlapRule) -> u64
    ensures { result ≡ rule_number rule }
{
    match rule {
        OverlapRule::Refuse => 0,
        OverlapRule::Serial => 1,
    }
}

fn rule_of(value: u32) -> OverlapRule
    ensures { result ≡ rule_of value }
{
    if value == 1 {
        OverlapRule::Serial
    } else {
        OverlapRule::Refuse
    }
}
