// Made scripts, the text of one, and the summary of a run.
ghost use Rattle.std.specs.Prelude.{◌≡◌, true};
ghost use Rattle.script_spec.specs.Generator.{has_counts};
ghost use Rattle.serial_spec.specs.SoundHeaders.{is_sound};
ghost use Rattle.var_layout.specs.Unplaced.{is_unplaced};

use super::ends::{Answered, Got, PLAIN, end_of};
use super::is_text;
use generated_run::{made_law, make_script, summary_text};
use nc_base::{Call, Code, Header, Mark, Script, Values};
use ncmpi_script::read_script;
use script_text::made_text;
use std::alloc::Global;
use std::process::Abort;
use test_fixtures::{NO_LAYOUT, NO_MEMORY, laid_out};

/// With this seed the bits begin again at the second value, and the shorts at the one before the last of the second record.
const SEED: u64 = 79_842_770_943;

const OPENING: &[u8] = b"create 1
ranks 8
hint cb_nodes 8
hint cb_buffer_size 16777216
hint ind_rd_buffer_size 4194304
hint ind_wr_buffer_size 524288
hint line_room 2
hint threads on
hint overlap refuse
hint nc_header_align_size 4
hint nc_var_align_size 4
hint striping_unit 1
dim t unlimited
dim y 180
dim x 360
var float temp [t,y,x]
var short precip [t,y,x]
data
0 buffer_attach 65536
0 bput_vara 0 temp [0,0,0] [1,22,360] x000000003FFFFFFF x000000003F800000 ";

const ENDING: &[u8] = b" 9899 9900 9901
7 wait_all all
7 get_vara_all temp [0,0,315] [1,180,1]
7 get_vara_all precip [0,0,315] [1,180,1]
7 buffer_detach
end
";

/// Whether the text of a made script of one record begins and ends as it should, and is read.
fn is_made(alloc: Global) -> bool {
    match made_text(alloc, SEED, 1) {
        Ok(text) => {
            let bytes = text.as_slice();
            bytes.starts_with(OPENING)
                && bytes.ends_with(ENDING)
                && read_script(alloc, bytes).is_ok()
        }
        Err(_) => false,
    }
}

#[test]
fn a_text_of_one_record_is_printed_and_read(rt: HostRuntime) {
    assert!(rt; is_made(rt.alloc()));
}

/// The call of this number of a rank.
fn call_of<'a>(rt: &impl Abort, script: &'a Script, rank: usize, number: usize) -> &'a Call {
    let own = script.calls.as_slice().get(rank).expect(rt, "rank");
    own.as_slice().get(number).expect(rt, "call")
}

/// Where the last rank's rows of the second record begin, and its column of each record.
const LAST_ROWS: &[u64] = &[1, 157, 0];

const COLUMN: &[u64] = &[0, 0, 315];

const OF_EACH_RECORD: &[u64] = &[2, 180, 1];

/// The last rank's last put.
fn has_last_put(rt: &impl Abort, script: &Script) {
    let Call::Post {
        id,
        given,
        values,
        ..
    } = call_of(rt, script, 7, 5)
    else {
        panic!(rt; "a post")
    };
    assert_eq!(rt; *id, 3);
    assert!(rt; given.start.as_slice() == LAST_ROWS);
    let Values::Numbers(numbers) = values else {
        panic!(rt; "numbers")
    };
    assert_eq!(rt;
        (numbers.get(8277), numbers.get(8278), numbers.get(8279)),
        (Some(10_000), Some(-10_000), Some(-9_999))
    );
}

/// The last rank's get of its column.
fn has_last_get(rt: &impl Abort, script: &Script) {
    let Call::Get { given, .. } = call_of(rt, script, 7, 8) else {
        panic!(rt; "a get")
    };
    assert!(rt; given.start.as_slice() == COLUMN);
    assert!(rt; given.count.as_slice() == OF_EACH_RECORD);
}

#[test]
fn a_second_record_is_made(rt: HostRuntime) {
    let script = make_script(rt.alloc(), SEED, 2).expect(&rt, NO_MEMORY);
    has_last_put(&rt, &script);
    has_last_get(&rt, &script);
    drop(script);
}

/// The script of one record that a seed makes.
fn made(rt: &impl Abort, alloc: Global, seed: u64) -> Script
    ensures counted { has_counts result ≡ true }
    ensures unplaced { is_unplaced result.header ≡ true }
{
    made_law();
    make_script(alloc, seed, 1).expect(rt, NO_MEMORY)
}

/// The header of the script with its begins.
fn placed(rt: &impl Abort, alloc: Global, script: &Script) -> Header
    requires { is_unplaced script.now.header ≡ true }
    ensures { is_sound result ≡ true }
{
    let header = script.header.clone(alloc).expect(rt, NO_MEMORY);
    laid_out(header).expect(rt, NO_LAYOUT)
}

/// Two meetings, and a call of a rank alone.
const ORDER: &[Mark] = &[Mark::Meet(0), Mark::Meet(1), Mark::Solo(1, 3)];

/// A buffer, two requests, a wait that does one of them and refuses the other, two gets, and the buffer's end.
const OF_ONE_RANK: &[Answered] = &[
    PLAIN,
    PLAIN,
    PLAIN,
    Answered {
        items: &[(0, Code::Ok, Got::Nothing), (1, Code::ERange, Got::Nothing)],
        ..PLAIN
    },
    Answered {
        values: Got::Bits(&[7, 1]),
        ..PLAIN
    },
    Answered {
        values: Got::Numbers(&[-12, 2]),
        ..PLAIN
    },
    PLAIN,
];

// Of 22 rows of 360 put, and of 180 of either variable got.
const SUMMARY: &[u8] = b"generated 7 1
ranks 8
calls 56
collectives 2
put 7920
got 360
refused 1
sum -2
records 0
file 160
";

#[test]
fn what_a_rank_did_is_summed_up(rt: HostRuntime) {
    let alloc = rt.alloc();
    let script = made(&rt, alloc, 7);
    let header = placed(&rt, alloc, &script);
    let end = end_of(&rt, alloc, ORDER, &[OF_ONE_RANK], &[]);
    let text = summary_text(alloc, 7, 1, &script, &header, &end).expect(&rt, NO_MEMORY);
    is_text(&rt, text.as_slice(), SUMMARY);
    drop(text);
    drop(end);
    drop(header);
    drop(script);
}
