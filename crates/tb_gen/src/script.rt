// The script.

ghost use Rattle.std.specs.Prelude.{◌≡◌, ◌≤◌, ◌<◌, ◌++◌, IfOk, OnOk};
ghost use Rattle.tb_gen.specs.declared.limits.TheConstants.{MOST_GENERATED};
ghost use Rattle.tb_gen.specs.Draws.{after};
ghost use Rattle.tb_gen.specs.Generated.{amend_line, amend_lines, round_lines};
ghost use Rattle.tb_gen.specs.Generated.{generated_script};

use crate::draws::Draws;
use crate::line::Line;
use crate::variables::Variable;
use std::alloc::Global;
use tb_base::Memory;

const ROUNDS: u32 = 10;

const AMENDS: u32 = 50;

const TABLES: &[u8] = b"a table AREA by SEX with totals\n\
    b table AGE10 by TENURE where SEX in (1)\na table AREA by SEX with totals\n";

const PUBLISH: &[u8] = b"custodian publish\n";

const STATS: &[u8] = b"custodian stats\n";
// The longest line of an amend is `custodian amend 1000000 TENURE=5`.
const LONGEST: usize = 33;

// Adds a line that amends one of n persons.
fn add_amend(file: &mut Vec<u8>, n: u32, draws: &mut Draws) -> Result<(), Memory>
    requires { (1 ≤ n) × (n ≤ MOST_GENERATED) }
    ensures line { OnOk result (file.new.items ≡ file.old.items ++ amend_line n draws.old) }
    ensures draws { draws.new ≡ after 2 draws.old }
{
    let person = 1 + draws.draw() % n;
    let tenure = Variable::Tenure.draw(draws);
    let mut line = Line::end();
    Variable::Tenure.put_code(tenure, &mut line);
    line.put_text(b" TENURE=");
    line.put_number(person);
    line.put_text(b"custodian amend ");
    line.add_to(file)
}

// Adds the lines of so many amends.
fn add_amends(file: &mut Vec<u8>, n: u32, draws: &mut Draws) -> Result<(), Memory>
    requires { (1 ≤ n) × (n ≤ MOST_GENERATED) }
    ensures lines { OnOk result (file.new.items ≡ file.old.items ++ amend_lines n draws.old) }
    ensures draws { OnOk result (draws.new ≡ after 100 draws.old) }
{
    for _amend in 0..AMENDS {
        add_amend(file, n, draws)?;
    }
    Ok(())
}

// Adds the lines of a round.
fn add_round(file: &mut Vec<u8>, n: u32, draws: &mut Draws) -> Result<(), Memory>
    requires { (1 ≤ n) × (n ≤ MOST_GENERATED) }
    ensures lines { OnOk result (file.new.items ≡ file.old.items ++ round_lines n draws.old) }
    ensures draws { OnOk result (draws.new ≡ after 100 draws.old) }
{
    file.extend_from_slice(TABLES)?;
    add_amends(file, n, draws)?;
    file.extend_from_slice(PUBLISH)?;
    Ok(())
}

/// The script over so many persons.
pub(crate) fn script_file(alloc: Global, n: u32, start: u32) -> Result<Vec<u8>, Memory>
    requires { (1 ≤ n) × (n ≤ MOST_GENERATED) }
    ensures { IfOk result (λ file. file.items ≡ generated_script n start) }
{
    let longest_round = TABLES.len() + AMENDS as usize * LONGEST + PUBLISH.len();
    let mut file = Vec::with_capacity(alloc, ROUNDS as usize * longest_round + STATS.len())?;
    let seed = start.wrapping_add(2);
    let mut draws = Draws::from(seed);
    for _round in 0..ROUNDS {
        add_round(&mut file, n, &mut draws)?;
    }
    file.extend_from_slice(STATS)?;
    Ok(file)
}
