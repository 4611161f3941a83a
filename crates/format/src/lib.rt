// The packed map: definitions in specs/, laws in proofs/. Of code only the header's fields and the limits, as numbers.
//
//     AT_M, AT_N, AT_AREAS   where the fields of a map's header stand, two bytes each
//     HEADER                 the header's length
//     LONGEST                the length of the longest map
//     MOST_BORDERS           m at most
//     MOST_ENDS              2m at most
#![tactic(auto)]

pub const AT_M: usize = 0;

pub const AT_N: usize = 2;

pub const AT_AREAS: usize = 4;

pub const HEADER: usize = 6;

pub const LONGEST: usize = HEADER + 1025;

pub const MOST_BORDERS: usize = 2048;

pub const MOST_ENDS: usize = 4096;
