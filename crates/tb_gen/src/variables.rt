// The variables of the generated files.

ghost use Rattle.std.specs.Prelude.{◌≡◌, ◌+◌, ◌%◌, ◌<◌, ◌≤◌, ◌++◌, length};
ghost use Rattle.tb_gen.specs.declared.line.TheConstants.{ROOM};
ghost use Rattle.tb_gen.specs.Draws.{after, draw};
ghost use Rattle.tb_gen.specs.Variables.{name_of, categories_of, code_of};

use crate::draws::Draws;
use crate::line::Line;

const AREAS: u32 = 100;

const AGES: u32 = 101;

const SEXES: u32 = 2;

const TENURES: u32 = 5;

/// How many categories the variables have together.
pub(crate) const CATEGORIES: u32 = AREAS + AGES + SEXES + TENURES;

/// A variable of the generated files, in the order of the classification.
#[derive(Clone, Copy)]
pub enum Variable {
    Area,
    Age,
    Sex,
    Tenure,
}

impl Variable {
    pub(crate) fn name(self) -> &'static [u8]
        ensures name { result.now ≡ name_of self }
        ensures short { length result.now ≤ 6 }
    {
        match self {
            Variable::Area => b"AREA",
            Variable::Age => b"AGE",
            Variable::Sex => b"SEX",
            Variable::Tenure => b"TENURE",
        }
    }

    #[inline]
    pub(crate) fn categories(self) -> u32
        ensures count { result ≡ categories_of self }
        ensures few { result ≤ 101 }
        ensures some { 0 < result }
    {
        match self {
            Variable::Area => AREAS,
            Variable::Age => AGES,
            Variable::Sex => SEXES,
            Variable::Tenure => TENURES,
        }
    }

    /// The category that the next draw chooses.
    #[inline]
    pub(crate) fn draw(self, draws: &mut Draws) -> u32
        ensures category { result ≡ draw 1 draws.old % categories_of self }
        ensures within { result < categories_of self }
        ensures draws { draws.new ≡ after 1 draws.old }
    {
        draws.draw() % self.categories()
    }

    /// Puts the code of a category in front of a line.
    #[inline]
    pub(crate) fn put_code(self, category: u32, line: &mut Line)
        requires room { length line.old + 11 ≤ ROOM }
        requires category { category < categories_of self }
        ensures code { line.new ≡ code_of self category ++ line.old }
        ensures short { length line.new ≤ length line.old + 11 }
    {
        match self {
            Variable::Area => {
                line.put_number(category);
                line.put_byte(b'a');
            }
            Variable::Age => line.put_number(category),
            Variable::Sex | Variable::Tenure => line.put_number(category + 1),
        }
    }
}
