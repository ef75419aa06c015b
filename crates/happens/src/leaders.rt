// For each barrier and generation one sync of it, its leader. Whoever sits in a seat is looked at before it is one.
#![tactic(auto, unfolding(tables::specs::Limits::most_rows, tables::specs::Limits::barriers))]

ghost use Rattle.std.specs.Prelude.{◌≡◌, ◌<◌};
ghost use Rattle.tables.specs.Rows.{rows};
ghost use Rattle.happens.specs.Needs.{seats, seat, last_met_of, Seated, leader};

use crate::edges::Presented;
use tables::Table;

// A seat for each barrier and each generation that a review can have.
pub(crate) const SEATS: usize = Table::ROWS * Table::BARRIERS;

// The seat of c's barrier and generation.
fn seat(offered: &Presented, c: usize) -> usize
    requires { c < rows offered.now.commands.now }
    ensures { (result ≡ seat offered.now.commands.now offered.now.generations.now c) × (result < seats) }
{
    let barrier = offered.commands[c * 3 + 1] as usize % Table::BARRIERS;
    (offered.generations[c] as usize * Table::BARRIERS + barrier) % SEATS
}

// Each sync takes its seat, the last of a barrier and generation for good.
pub(crate) fn choose(offered: &Presented, leaders: &mut [u16; SEATS])
    ensures { Seated offered.now.commands.now offered.now.generations.now leaders.new
        (rows offered.now.commands.now) }
{
    for c in 0..offered.rows() {
        if offered.commands[c * 3] == Table::SYNC {
            leaders[seat(offered, c)] = c as u16;
        }
    }
}

// The last sync that c meets.
fn last_met(offered: &Presented, c: usize) -> Option<usize>
    ensures { result ≡ last_met_of offered.now.commands.now offered.now.generations.now c }
{
    for j in (0..offered.rows()).rev() {
        if offered.meets_row(c, j) {
            return Some(j);
        }
    }
    None
}

// The leader of c's barrier and generation, if c meets a sync.
// Only where generations are larger than a review's can another sit in its seat, and then all rows are looked through.
pub(crate) fn leader(offered: &Presented, leaders: &[u16; SEATS], c: usize) -> Option<usize>
    requires { c < rows offered.now.commands.now }
    ensures { result ≡ leader offered.now.commands.now offered.now.generations.now leaders.now c }
{
    let sits = usize::from(leaders[seat(offered, c)]);
    if offered.meets_row(c, sits) {
        return Some(sits);
    }
    if sits < offered.rows() {
        return last_met(offered, c);
    }
    None
}
