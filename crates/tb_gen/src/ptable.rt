// The perturbation table.

ghost use Rattle.std.specs.Prelude.{◌≡◌, ◌≤◌, ◌<◌, ◌++◌, IfOk, OnOk};
ghost use Rattle.tb_gen.specs.declared.classes.TheConstants.{KEY_RANGE};
ghost use Rattle.tb_base.specs.declared.limits.TheConstants.{LAST_ROW};
ghost use Rattle.tb_gen.specs.Draws.{after};
ghost use Rattle.tb_gen.specs.Generated.{drawn_pvalue, pvalue_line, row_lines, generated_ptable};

use crate::classes::KEY_RANGE;
use crate::draws::Draws;
use crate::heading::headed;
use crate::line::Line;
use std::alloc::Global;
use tb_base::{LAST_ROW, Memory};

const HEADER: &[u8] = b"pcv,ckey,pvalue\n";
// The longest line is `750,255,-2`.
const LONGEST: usize = 11;

// The pvalue of a draw at a row.
fn pvalue_of(pcv: u32, value: u32) -> i32
    requires { (1 ≤ pcv) × (pcv ≤ LAST_ROW) }
    ensures { result ≡ drawn_pvalue pcv value }
{
    let least = -(pcv as i32);
    least.max((value % 5) as i32 - 2)
}

// Adds the line of a row and a cell key.
fn add_pvalue(file: &mut Vec<u8>, pcv: u32, ckey: u32, draws: &mut Draws) -> Result<(), Memory>
    requires { (1 ≤ pcv) × (pcv ≤ LAST_ROW) }
    ensures line { OnOk result (file.new.items ≡ file.old.items ++ pvalue_line pcv ckey draws.old) }
    ensures draws { draws.new ≡ after 1 draws.old }
{
    let pvalue = pvalue_of(pcv, draws.draw());
    let mut line = Line::end();
    line.put_signed(pvalue);
    line.put_byte(b',');
    line.put_number(ckey);
    line.put_byte(b',');
    line.put_number(pcv);
    line.add_to(file)
}

// Adds the lines of a row.
fn add_row(file: &mut Vec<u8>, pcv: u32, draws: &mut Draws) -> Result<(), Memory>
    requires { (1 ≤ pcv) × (pcv ≤ LAST_ROW) }
    ensures lines { OnOk result (file.new.items ≡ file.old.items ++ row_lines pcv draws.old) }
    ensures draws { OnOk result (draws.new ≡ after KEY_RANGE draws.old) }
{
    for ckey in 0..KEY_RANGE {
        add_pvalue(file, pcv, ckey, draws)?;
    }
    Ok(())
}

/// The perturbation table.
pub(crate) fn ptable_file(alloc: Global, start: u32) -> Result<Vec<u8>, Memory>
    ensures { IfOk result (λ file. file.items ≡ generated_ptable start) }
{
    let lines = LAST_ROW as usize * KEY_RANGE as usize;
    let mut file = headed(alloc, HEADER, HEADER.len() + lines * LONGEST)?;
    let seed = start.wrapping_add(1);
    let mut draws = Draws::from(seed);
    for i in 0..LAST_ROW {
        add_row(&mut file, i + 1, &mut draws)?;
    }
    Ok(file)
}
