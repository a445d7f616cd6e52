// Canonical texts, in which a script's definitions, calls and values are looked at.
use script_text::canonical_text;
use std::alloc::Global;

const EVERY_CALL: &[u8] = b"create 5
ranks 2
hint cb_nodes 3
hint cb_buffer_size 4096
hint ind_rd_buffer_size 5
hint ind_wr_buffer_size 6
hint line_room 7
hint threads off
hint overlap serial
hint nc_header_align_size 8
hint nc_var_align_size 12
hint striping_unit 9
fill
dim t unlimited
dim x 10
var short s [t,x]
var double d []
att : a char \"q\\\"\\xFF\"
att s c short -2 258
att d f float x000000003F800000
data
0 begin_indep_data
0 put_vara s [0,1] [1,2] 7 -8
0 get_var s
0 get_var1 s [3,4]
0 iput_vars 4 s [0,0] [1,2] [1,3] 1 2
0 iget_varm 5 s [0,0] [1,2] [1,3] [2,1]
0 wait 4 5
0 cancel
0 end_indep_data
0 get_vara_all s [0,0] [1,1]
0 put_varn_all s 2 [0,0] [1,1] [2,5] [1,2] 1 2 3
0 buffer_attach 64
0 bput_var1 4294967295 d [] x3FF0000000000000
0 wait_all all
0 buffer_detach
0 inq_dimlen t
0 fill_var_rec s 2
0 sync_numrecs
1 begin_indep_data
1 end_indep_data
1 get_varn_all s 1 [0,0] [1,1]
1 put_var_all s 4
1 wait_all all
1 fill_var_rec s 2
1 sync_numrecs
end
";

const ADDITIONS: &[u8] = b"open
ranks 1
hint cb_nodes 1
hint cb_buffer_size 16777216
hint ind_rd_buffer_size 4194304
hint ind_wr_buffer_size 524288
hint line_room 2
hint threads on
hint overlap refuse
hint nc_header_align_size 4
hint nc_var_align_size 4
hint striping_unit 1
att w u ubyte 128
var uint64 w [time,y]
dim y unlimited
att : h byte -128
data
end
";

const LOOSE: &[u8] = b"# a field
create\t2
 hint cb_nodes 2
fill
dim t unlimited
dim  x  0004

var short s [t,x]
att s m byte 1 2
ranks 2\r
att : h char \"A\\x42\"
var double d []
att s k float
data
1 get_var d
0 put_vara_all s [0,1] [1,2] seq 2 5 -6
1 put_vara_all s [0,0] [0,0]
end
# no more";

const TIGHT: &[u8] = b"create 2
ranks 2
hint cb_nodes 2
hint cb_buffer_size 16777216
hint ind_rd_buffer_size 4194304
hint ind_wr_buffer_size 524288
hint line_room 2
hint threads on
hint overlap refuse
hint nc_header_align_size 4
hint nc_var_align_size 4
hint striping_unit 1
fill
dim t unlimited
dim x 4
var short s [t,x]
var double d []
att : h char \"AB\"
att s m byte 1 2
att s k float
data
0 put_vara_all s [0,1] [1,2] 5 -1
1 get_var d
1 put_vara_all s [0,0] [0,0]
end
";

// Values in each of their forms.
const SAID: &[u8] = b"create 5
ranks 1
att : b byte -128 -1 127
att : c char \"q\\n\\x4a\\xfF\"
att : e char
att : d double x3ff0000000000000
att : f float seqx 2 x1 xFFFFFFFE
att : s short seq 3 1 -1
att : i int seqx 0 x1 x1
att : u uint64 18446744073709551615
data
0 put_var v
0 put_var v 1 -2 -0 007 -99999999999999999999
0 put_var v x0 xFf x00000000000000a0
0 put_var v \"a b\t# \xc3\xa9\"
0 put_var v \"q\\\"\\\\\\n\\t\\x00\"
0 put_var v seq 3 5 -2
0 put_var v seq 2 9223372036854775807 1
0 put_var v seq 0 1 1
0 put_var v seqx 3 x10 x8
0 put_var v seqx 2 x0 xFFFFFFFFFFFFFFFF
end
";

const WRITTEN: &[u8] = b"create 5
ranks 1
hint cb_nodes 1
hint cb_buffer_size 16777216
hint ind_rd_buffer_size 4194304
hint ind_wr_buffer_size 524288
hint line_room 2
hint threads on
hint overlap refuse
hint nc_header_align_size 4
hint nc_var_align_size 4
hint striping_unit 1
att : b byte -128 -1 127
att : c char \"q\\nJ\\xFF\"
att : e char \"\"
att : d double x3FF0000000000000
att : f float x0000000000000001 x00000000FFFFFFFF
att : s short 1 0 -1
att : i int
att : u uint64 18446744073709551615
data
0 put_var v
0 put_var v 1 -2 0 7 -99999999999999999999
0 put_var v x0000000000000000 x00000000000000FF x00000000000000A0
0 put_var v \"a b\\t# \\xC3\\xA9\"
0 put_var v \"q\\\"\\\\\\n\\t\\x00\"
0 put_var v 5 3 1
0 put_var v 9223372036854775807 9223372036854775808
0 put_var v
0 put_var v x0000000000000010 x0000000000000018 x0000000000000020
0 put_var v x0000000000000000 xFFFFFFFFFFFFFFFF
end
";

fn becomes(alloc: Global, text: &[u8], want: &[u8]) -> bool {
    match canonical_text(alloc, text) {
        Ok(out) => out.as_slice() == want,
        Err(_) => false,
    }
}

#[test]
fn canonical_texts_are_their_own(rt: HostRuntime) {
    assert!(rt; becomes(rt.alloc(), EVERY_CALL, EVERY_CALL));
    assert!(rt; becomes(rt.alloc(), ADDITIONS, ADDITIONS));
}

#[test]
fn a_loose_text_becomes_tight(rt: HostRuntime) {
    assert!(rt; becomes(rt.alloc(), LOOSE, TIGHT));
}

#[test]
fn values_are_those_of_their_words(rt: HostRuntime) {
    assert!(rt; becomes(rt.alloc(), SAID, WRITTEN));
}
