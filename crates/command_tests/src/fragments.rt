//! Fragments that tests put into segments.

// Each constant is a fragment that holds one whole record. Its checksum was computed apart from this program. In the
// comments, s(1 a=b) is a record of the series a=b under the reference 1, and v(1,1000,5) v(1,1015,6) a record of two
// samples under the reference 1, at the times 1000 and 1015 with the values 5 and 6.
//
// The first line is the header: the part, 1 for a whole record, the record's length and its checksum. The second is the
// record's type. A series then has a line for its reference, and one for the number of its labels and their texts.
// Samples have a line for the base, which is the reference and the time of the first one, and each sample has one for
// its two differences from the base (doubled, less one where negative) and its value.

// s(1 job=api)
pub const SERIES_1_JOB_API: &[u8] = b"\x01\0\x12\x8d\xac\x90\x59\
    \x01\
    \0\0\0\0\0\0\0\x01\
    \x01\x03job\x03api";

// v(1,1000,5) v(1,1015,6)
pub const SAMPLES_1_AT_1000_1015: &[u8] = b"\x01\0\x25\x88\x49\xd6\x7e\
    \x02\
    \0\0\0\0\0\0\0\x01\0\0\0\0\0\0\x03\xe8\
    \x00\x00\0\0\0\0\0\0\0\x05\
    \x00\x1e\0\0\0\0\0\0\0\x06";

// v(1,1030,8)
pub const SAMPLE_1_AT_1030: &[u8] = b"\x01\0\x1b\xd1\xec\x14\x4a\
    \x02\
    \0\0\0\0\0\0\0\x01\0\0\0\0\0\0\x04\x06\
    \x00\x00\0\0\0\0\0\0\0\x08";

// s(3 __name__=up)
pub const SERIES_3: &[u8] = b"\x01\0\x16\x91\x17\x3e\x7f\
    \x01\
    \0\0\0\0\0\0\0\x03\
    \x01\x08__name__\x02up";

// The same, compressed by Snappy's library: its length 22, a literal of 2 bytes, a copy of 6 from 1 back, and a literal of 14.
pub const SERIES_3_COMPRESSED: &[u8] = b"\x09\0\x15\xc4\xcc\xf0\xc6\
    \x16\
    \x04\x01\0\
    \x09\x01\
    \x34\x03\x01\x08__name__\x02up";

pub const RECORD_OF_NO_BYTES: &[u8] = b"\x01\0\0\0\0\0\0";

// No fragment: its type is no part's.
pub const OF_BAD_TYPE: &[u8] = b"\x06";

// s(1 job=b) s(2 job=a) s(3 zone=c)
pub const THREE_SERIES: &[u8] = b"\x01\x00\x2f\x74\x80\x19\xa3\
    \x01\
    \0\0\0\0\0\0\0\x01\
    \x01\x03job\x01b\
    \0\0\0\0\0\0\0\x02\
    \x01\x03job\x01a\
    \0\0\0\0\0\0\0\x03\
    \x01\x04zone\x01c";

// v(1,1000,10) v(2,2000,20) v(1,3000,11) v(3,3600000,30)
pub const SAMPLES_OF_THREE_SERIES: &[u8] = b"\x01\x00\x3e\x32\x1a\x55\x63\
    \x02\
    \0\0\0\0\0\0\0\x01\0\0\0\0\0\0\x03\xe8\
    \x00\x00\0\0\0\0\0\0\0\x0a\
    \x02\xd0\x0f\0\0\0\0\0\0\0\x14\
    \x00\xa0\x1f\0\0\0\0\0\0\0\x0b\
    \x04\xb0\xaa\xb7\x03\0\0\0\0\0\0\0\x1e";
