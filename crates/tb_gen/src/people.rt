// The microdata.

ghost use Rattle.std.specs.Prelude.{◌≡◌, ◌≤◌, ◌++◌, IfOk, OnOk};
ghost use Rattle.tb_gen.specs.declared.limits.TheConstants.{MOST_GENERATED};
ghost use Rattle.tb_gen.specs.Draws.{after};
ghost use Rattle.tb_gen.specs.Generated.{person_line, generated_people};

use crate::classes::KEY_RANGE;
use crate::draws::Draws;
use crate::heading::headed;
use crate::line::Line;
use crate::variables::Variable;
use std::alloc::Global;
use tb_base::Memory;

const HEADER: &[u8] = b"person,record_key,AREA,AGE,SEX,TENURE\n";
// The longest line is `1000000,255,a99,100,2,5`.
const LONGEST: usize = 24;

// Adds a person's line.
fn add_person(file: &mut Vec<u8>, person: u32, draws: &mut Draws) -> Result<(), Memory>
    ensures line { OnOk result (file.new.items ≡ file.old.items ++ person_line person draws.old) }
    ensures draws { draws.new ≡ after 5 draws.old }
{
    let key = draws.draw() % KEY_RANGE;
    let area = Variable::Area.draw(draws);
    let age = Variable::Age.draw(draws);
    let sex = Variable::Sex.draw(draws);
    let tenure = Variable::Tenure.draw(draws);
    let mut line = Line::end();
    Variable::Tenure.put_code(tenure, &mut line);
    line.put_byte(b',');
    Variable::Sex.put_code(sex, &mut line);
    line.put_byte(b',');
    Variable::Age.put_code(age, &mut line);
    line.put_byte(b',');
    Variable::Area.put_code(area, &mut line);
    line.put_byte(b',');
    line.put_number(key);
    line.put_byte(b',');
    line.put_number(person);
    line.add_to(file)
}

/// The microdata of so many persons.
pub(crate) fn people_file(alloc: Global, n: u32, start: u32) -> Result<Vec<u8>, Memory>
    requires { n ≤ MOST_GENERATED }
    ensures { IfOk result (λ file. file.items ≡ generated_people n start) }
{
    let mut file = headed(alloc, HEADER, HEADER.len() + n as usize * LONGEST)?;
    let mut draws = Draws::from(start);
    for i in 0..n {
        add_person(&mut file, i + 1, &mut draws)?;
    }
    Ok(file)
}
