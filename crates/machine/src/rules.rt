// The rules of Table 2 for a statement, with some lane active; the stack is what lies under it.
ghost use Rattle.std.specs.Prelude.{◌≡◌, ◌∷◌, ◌+◌, ◌*◌, ◌≤◌, ◌<◌, length, set, get_or};
ghost use Rattle.warps.specs.Language.{eval};
ghost use Rattle.lanes.specs.Words.{call_token, highest_of};
ghost use Rattle.kernels.specs.Limits.{most_statements};
ghost use Rattle.kernels.specs.Rows.{statements, x_of, y_of};
ghost use Rattle.values.specs.Expressions.{expression, acting};
ghost use Rattle.machine.specs.Entries.{token, list_over};
ghost use Rattle.machine.specs.Needs.{CanStep, entries, Holds, Becomes};
ghost use Rattle.machine.specs.Step.{parted, looping, repeating, obey};

use crate::stack::{StackEntry, Tower};
use kernels::StatementKind;
use lanes::{Lanes, TokenKind, highest};
use relation::at;
use values::{acting_lanes, value};

// A row that is obeyed: both tables of the kernel, the row, and the lanes.
#[derive(Clone, Copy)]
pub(crate) struct Obeyed<'a> {
    pub(crate) code: &'a [u32],
    pub(crate) expressions: &'a [u32],
    pub(crate) i: usize,
    pub(crate) lanes: Lanes,
}

impl<'a> Obeyed<'a> {
    // The row's number that stands k after its first.
    fn number(self, k: usize) -> u32
        requires { (self.i < 256) × (k < 5) }
        ensures { result ≡ get_or self.entry.code.now (5 * self.entry.i + k) 0 }
    {
        at(self.code, 5 * self.i + k, 0)
    }

    // (assign): cell x gets the highest active lane's value of expression y.
    fn assign(self, cells: &mut [u32])
        requires { self.i < 256 }
        ensures { cells.new ≡ set cells.old (x_of self.entry.code.now self.entry.i)
            (eval (expression self.entry.expressions.now (y_of self.entry.code.now self.entry.i)) (highest_of 32 self.entry.lanes.active) cells.old) }
    {
        let x = self.number(2) as usize;
        let y = self.number(3) as usize;
        let v = value(self.expressions, y, highest(self.lanes.active), cells);
        if x < cells.len() {
            cells[x] = v;
        }
    }

    // act: the active lanes for which expression x is not 0.
    fn acting(self, cells: &[u32]) -> u32
        requires { self.i < 256 }
        ensures { result ≡ acting self.entry.lanes.active (expression self.entry.expressions.now (x_of self.entry.code.now self.entry.i)) cells.now 32 }
    {
        acting_lanes(
            self.expressions,
            self.number(2) as usize,
            self.lanes.active,
            cells,
        )
    }

    // (if): the second list, a div token with the lanes that pass, the first list, a sync token.
    fn divide(self, tower: &mut Tower<'_>, cells: &[u32]) -> Lanes
        requires { CanStep self.code.now tower.old × (self.i < 256) }
        ensures { Becomes tower.old tower.new result cells.now
            (parted self.entry.code.now self.entry.expressions.now self.entry.i (entries tower.old) self.entry.lanes cells.now) }
    {
        let acting = self.acting(cells);
        let sync = StackEntry::Token(TokenKind::Sync as u32, self.lanes.active);
        tower.put(sync);
        tower.push_list(self.code, self.number(3));
        let div = StackEntry::Token(TokenKind::Div as u32, acting);
        tower.put(div);
        tower.push_list(self.code, self.number(4));
        self.lanes.leave_out(acting)
    }

    // (while, underlined): the body once more, over the loop, which stays on top.
    pub(crate) fn repeat(self, tower: &mut Tower<'_>, cells: &[u32]) -> Lanes
        requires { (tower.old.height + 256 ≤ length tower.old.room.now) × (statements self.code.now ≤ most_statements) × (self.i < 256) }
        ensures { Becomes tower.old tower.new result cells.now
            (repeating self.entry.code.now self.entry.expressions.now self.entry.i (entries tower.old) self.entry.lanes cells.now) }
    {
        let acting = self.acting(cells);
        tower.push_list(self.code, self.number(3));
        self.lanes.only(acting)
    }

    // (while): a brk token, and over it the loop, which has begun, with its body.
    fn enter_loop(self, tower: &mut Tower<'_>, cells: &[u32]) -> Lanes
        requires { CanStep self.code.now tower.old × (self.i < 256) }
        ensures { Becomes tower.old tower.new result cells.now
            (looping self.entry.code.now self.entry.expressions.now self.entry.i (entries tower.old) self.entry.lanes cells.now) }
    {
        let brk = StackEntry::Token(TokenKind::Brk as u32, self.lanes.active);
        tower.put(brk);
        tower.put(StackEntry::Again(self.i));
        self.repeat(tower, cells)
    }

    // The statement. A number past the kinds is a return.
    pub(crate) fn obey(self, tower: &mut Tower<'_>, cells: &mut [u32]) -> Lanes
        requires { CanStep self.code.now tower.old × (self.i < 256) }
        ensures { Becomes tower.old tower.new result cells.new
            (obey self.entry.code.now self.entry.expressions.now self.entry.i (entries tower.old) self.entry.lanes cells.old) }
    {
        let lanes = self.lanes;
        let kind = StatementKind::of(self.number(1)).unwrap_or(StatementKind::Return);
        match kind {
            StatementKind::Skip => lanes,
            StatementKind::Assign => {
                self.assign(cells);
                lanes
            }
            StatementKind::If => self.divide(tower, cells),
            StatementKind::While => self.enter_loop(tower, cells),
            StatementKind::Break => {
                tower.drop_rows();
                lanes.break_off()
            }
            StatementKind::Call => {
                enter(tower, self.code, self.number(2), lanes.active);
                lanes
            }
            StatementKind::Return => {
                tower.drop_rows();
                lanes.give_up()
            }
        }
    }
}

// (call): the function's list, a call token.
pub(crate) fn enter(tower: &mut Tower<'_>, code: &[u32], x: u32, active: u32)
    requires { CanStep code.now tower.old }
    ensures { Holds tower.old tower.new 257 (list_over code.now x (token call_token active ∷ entries tower.old)) }
{
    let call = StackEntry::Token(TokenKind::Call as u32, active);
    tower.put(call);
    tower.push_list(code, x);
}
