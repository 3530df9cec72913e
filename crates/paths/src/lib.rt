// The path analysis: whether two scripts can touch the same node of some plan.
#![tactic(auto)]

ghost use Rattle.std.specs.Prelude.{◌≡◌, ◌*◌, ◌≤◌, length};
ghost use Rattle.paths_positions.specs.Steps.{max_positions};
ghost use Rattle.paths_cells.specs.Pairs.{relations};
ghost use Rattle.paths_fill.specs.Filling.{PositionsPre, TablePre};
ghost use Rattle.paths.specs.Analysis.{analysed, answer_by, analysis_by, ScriptPre, ScriptPost, AnswerPost};

use paths_cells::pairs;
use paths_emit::emit;
use paths_fill::meet;
use paths_positions::POSITIONS;
use paths_positions::packed::Positions;
use plan_table::{Refusal, Script, Table};

// Tables for so many pairs of positions, and for all: less to clear. A typical pair of scripts has 16, two of 48 steps 4,356.
const FEW: usize = 64;

const FEW_MARKS: usize = pairs::RELATIONS * FEW;

const SOME: usize = 1280;

const SOME_MARKS: usize = pairs::RELATIONS * SOME;

const MANY: usize = 2560;

const MANY_MARKS: usize = pairs::RELATIONS * MANY;

const MOST: usize = 4608;

const MOST_MARKS: usize = pairs::RELATIONS * MOST;

const ALL_MARKS: usize = pairs::RELATIONS * POSITIONS * POSITIONS;

// What the analysis answers: whether two scripts are free of one another.
#[derive(Clone, Copy, Debug, PartialEq, Eq)]
pub enum Answer {
    Free,
    Upward,
    Meet,
}

// A script refused: which of the two, and its refusal.
#[derive(Clone, Copy, Debug, PartialEq, Eq)]
pub struct ScriptRefused {
    pub script: Script,
    pub refusal: Refusal,
}

// Puts the positions of an accepted script behind position 0, which alone is there.
fn positions_of(bytes: &[u8], positions: &mut Positions)
    requires { ScriptPre bytes.now positions.old.items positions.old.count }
    ensures { ScriptPost bytes.now positions.new.items positions.new.count }
{
    let variables = [0u8; Table::BINDERS];
    let mut place = 0;
    emit::emit(bytes, &mut place, Table::DEPTH, 0, variables, positions);
}

// The answer from the positions of two scripts. An upward step anywhere, even in a branch never run, comes first.
fn answer_in(first: &[usize], second: &[usize], table: &mut [u8]) -> Answer
    requires { TablePre first.now second.now table.old }
    ensures { AnswerPost first.now second.now (answer_by result) }
{
    if meet::some_leads_up(first) {
        return Answer::Upward;
    }
    if meet::some_leads_up(second) {
        return Answer::Upward;
    }
    if meet::positions_meet(first, second, table) {
        return Answer::Meet;
    }
    Answer::Free
}

// The answer in a table of so many marks, which stands in a frame of its own: all pages of a frame are touched when it is entered.
#[inline(never)]
fn in_marks<const MARKS: usize>(first: &[usize], second: &[usize]) -> Answer
    requires first { PositionsPre first.now }
    requires second { PositionsPre second.now }
    requires room { length first.now * length second.now * relations ≤ MARKS }
    requires size { MARKS ≤ max_positions * max_positions * relations }
    ensures { AnswerPost first.now second.now (answer_by result) }
{
    let mut table = [0u8; MARKS];
    pairs::clear(&mut table);
    answer_in(first, second, &mut table)
}

// The answer in a table for many pairs.
fn in_table(first: &[usize], second: &[usize]) -> Answer
    requires first { PositionsPre first.now }
    requires second { PositionsPre second.now }
    ensures { AnswerPost first.now second.now (answer_by result) }
{
    let size = first.len() * second.len();
    if size <= SOME {
        return in_marks::<SOME_MARKS>(first, second);
    }
    if size <= MANY {
        return in_marks::<MANY_MARKS>(first, second);
    }
    if size <= MOST {
        return in_marks::<MOST_MARKS>(first, second);
    }
    in_marks::<ALL_MARKS>(first, second)
}

// The analysis of two scripts: the first refused, else whether they are free, hold an upward step, or meet. That does not depend on their
// order, so where there are many pairs the longer one is laid along the rows of the table: fewer rows, and longer ones.
pub fn analyse(first: &[u8], second: &[u8]) -> Result<Answer, ScriptRefused>
    ensures { analysis_by result ≡ analysed first.now second.now }
{
    script::read_script(first).map_err(|refusal| ScriptRefused {
        script: Script::First,
        refusal,
    })?;
    script::read_script(second).map_err(|refusal| ScriptRefused {
        script: Script::Second,
        refusal,
    })?;
    let mut positions = Positions::new();
    positions_of(first, &mut positions);
    let mut others = Positions::new();
    positions_of(second, &mut others);
    let (n, m) = (positions.count, others.count);
    let firsts = &positions.items[..n];
    let seconds = &others.items[..m];
    if n * m <= FEW {
        return Ok(in_marks::<FEW_MARKS>(firsts, seconds));
    }
    if m < n {
        return Ok(in_table(seconds, firsts));
    }
    Ok(in_table(firsts, seconds))
}
