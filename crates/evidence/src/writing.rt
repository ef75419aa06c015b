// Schedules into a room, one after the other.
ghost use Rattle.evidence.specs.Needs.{apart_in, both_ways_in, PutsAt, FitsAt, FitsAll};

use replay::write_apart;
use sheet::Pair;
use tables::Tables;

// The schedule in which d and what c does not reach go first, from a place on; answers the place after it.
pub(crate) fn write_at(
    tables: Tables,
    relation: &[u32],
    c: usize,
    d: usize,
    room: &mut [u32],
    at: usize,
) -> usize
    requires { FitsAt tables.commands.now tables.lengths.now room.old at }
    ensures { PutsAt (apart_in tables.entry.commands.now tables.entry.lengths.now relation.now c d) room.old room.new at result }
{
    at + write_apart(tables, relation, c, d, &mut room[at..]).unwrap()
}

// Both ways of each of some pairs, x first before y first, from the front; answers how many entries.
pub(crate) fn write_races(
    tables: Tables,
    relation: &[u32],
    pairs: &[Pair],
    room: &mut [u32],
) -> usize
    requires { FitsAll tables.commands.now tables.lengths.now pairs.now room.old }
    ensures { PutsAt (both_ways_in tables.entry.commands.now tables.entry.lengths.now relation.now pairs.now)
        room.old room.new 0 result }
{
    let mut at = 0;
    for pair in pairs {
        let x = pair.first;
        let y = pair.second;
        at = write_at(tables, relation, y, x, room, at);
        at = write_at(tables, relation, x, y, room, at);
    }
    at
}
