// The classification and the recodes.

ghost use Rattle.std.specs.Prelude.{◌≡◌, ◌<◌, ◌++◌, IfOk, OnOk};
ghost use Rattle.tb_gen.specs.Variables.{categories_of};
ghost use Rattle.tb_gen.specs.Generated.{class_line, class_lines, recode_line};
ghost use Rattle.tb_gen.specs.Generated.{generated_classes, generated_recodes};

use crate::heading::headed;
use crate::line::Line;
use crate::variables::{CATEGORIES, Variable};
use std::alloc::Global;
use tb_base::Memory;

/// The key range of the files, whose classification states none.
pub(crate) const KEY_RANGE: u32 = 256;

const CLASSES_HEADER: &[u8] = b"variable,code,label\n";

const RECODES_HEADER: &[u8] = b"recode,variable,code,group\n";

// The longest lines are `AREA,a99,a99` and `AGE10,AGE,100,g10`.
const LONGEST_CLASS: usize = 13;

const LONGEST_RECODE: usize = 18;

// Adds the line of a category.
fn add_class(file: &mut Vec<u8>, variable: Variable, category: u32) -> Result<(), Memory>
    requires { category < categories_of variable }
    ensures { OnOk result (file.new.items ≡ file.old.items ++ class_line variable category) }
{
    let mut line = Line::end();
    variable.put_code(category, &mut line);
    line.put_byte(b',');
    variable.put_code(category, &mut line);
    line.put_byte(b',');
    line.put_text(variable.name());
    line.add_to(file)
}

// Adds the lines of a variable's categories.
fn add_classes(file: &mut Vec<u8>, variable: Variable) -> Result<(), Memory>
    ensures { OnOk result (file.new.items ≡ file.old.items ++ class_lines variable) }
{
    for category in 0..variable.categories() {
        add_class(file, variable, category)?;
    }
    Ok(())
}

/// The classification.
pub(crate) fn classes_file(alloc: Global) -> Result<Vec<u8>, Memory>
    ensures { IfOk result (λ file. file.items ≡ generated_classes) }
{
    let room = CLASSES_HEADER.len() + CATEGORIES as usize * LONGEST_CLASS;
    let mut file = headed(alloc, CLASSES_HEADER, room)?;
    add_classes(&mut file, Variable::Area)?;
    add_classes(&mut file, Variable::Age)?;
    add_classes(&mut file, Variable::Sex)?;
    add_classes(&mut file, Variable::Tenure)?;
    Ok(file)
}

// Adds the line of an age.
fn add_recode(file: &mut Vec<u8>, age: u32) -> Result<(), Memory>
    requires { age < 101 }
    ensures { OnOk result (file.new.items ≡ file.old.items ++ recode_line age) }
{
    let mut line = Line::end();
    line.put_number(age / 10);
    line.put_byte(b'g');
    line.put_byte(b',');
    Variable::Age.put_code(age, &mut line);
    line.put_byte(b',');
    line.put_text(Variable::Age.name());
    line.put_byte(b',');
    line.put_text(b"AGE10");
    line.add_to(file)
}

/// The recodes.
pub(crate) fn recodes_file(alloc: Global) -> Result<Vec<u8>, Memory>
    ensures { IfOk result (λ file. file.items ≡ generated_recodes) }
{
    let ages = Variable::Age.categories();
    let room = RECODES_HEADER.len() + ages as usize * LONGEST_RECODE;
    let mut file = headed(alloc, RECODES_HEADER, room)?;
    for age in 0..ages {
        add_recode(&mut file, age)?;
    }
    Ok(file)
}
