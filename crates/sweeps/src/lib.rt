// What listed pairs reach, as a table in a lent room. Nothing here knows of barriers.
// Room and m are no struct: lent by `&` and by `&mut` they would be two, and each contract would have to say that the room is the same (relation/src/table.rt).
#![tactic(auto)]

mod sweeps; // rows joined along the pairs, sweep after sweep, until nothing changes

pub use sweeps::put_reach;
