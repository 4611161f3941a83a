// Opening a packed map from raw bytes, and what every call on one begins with.
//
//     open                                            m and n, or the refusal of the check that declines
//     check                                           8, 20, 9 to 12: nothing, or the refusal of the first that declines
//     open_map                                        those: the bytes as an OpenMap, or the refusal
//     OpenMap                                         bytes that open: whoever has them need not ask
//     check_place                                     those, then 13
//     check_cell                                      those, then 14 or 15
//     is_number                                       whether there is such a point, such an area
//     Cell                                            a point or an area; its family of brackets, its number
//
// Conventions. No function asks anything of its caller.
//
// The source is document 01: "Tour and packed map" for the bytes, "Moves" for the calls, the table's rows
// 8 to 15 and document 02, 6/14, for the checks. The definitions that the contracts cite are those of the
// crates `format` and `answers`; specs/Checks.antt says which of them run in which function.
#![tactic(auto)]

mod cells;
mod checks;
mod numbers;
mod opened;

pub use cells::Cell;
pub use checks::{check, open, open_map};
pub use numbers::{check_cell, check_place, is_number};
pub use opened::OpenMap;
