// What the arguments ask for.
//
// Each word is read by its place: one that isn't there is the empty word, which no rule takes. So a
// list that is too short is refused by its groups, and the count refuses one that is too long.

ghost use Rattle.std.specs.Prelude.{◌≡◌, ◌+◌, ◌<◌, map, option_map, string_bytes};
ghost use Rattle.tb_command.specs.Commands.{command_of, gen_in, inputs_in, lines_in, owner_in};
ghost use Rattle.tb_command.specs.Commands.{journal_of, service_of, task_in, unit_files_in};
ghost use Rattle.tb_command.specs.Commands.{units_in};
ghost use Rattle.tb_command.specs.Forms.{form_value};
ghost use Rattle.tb_command.specs.Names.{file_or_dash, word_at as the_word};

use crate::file_name::{FileName, read_file_name};
use crate::forms::{Dwellings, Form, LinesFrom, OwnedBy, form_named};
use crate::numbers::read_within;
use crate::population::{Population, read_population};
use crate::service::{Service, read_service};
use tb_base::MOST_THRESHOLD;

/// The files and the number that each command but `gen` names first. There may be no recodes.
#[derive(Drop)]
pub struct Inputs<'a> {
    pub classes: FileName<'a>,
    pub recodes: Option<FileName<'a>>,
    pub ptable: FileName<'a>,
    pub people: FileName<'a>,
    pub threshold: u32,
}

/// The files of dwellings, and of who lives in which.
#[derive(Drop)]
pub struct UnitFiles<'a> {
    pub dwellings: FileName<'a>,
    pub links: FileName<'a>,
}

/// Who owns the chain: a custodian, one with a journal in the file of that name, or a leader.
#[derive(Drop)]
pub enum Owner<'a> {
    Custodian,
    Journal(FileName<'a>),
    Leader,
}

/// Where lines come from: the script of that name, its lanes at the same time, or ports.
#[derive(Drop)]
pub enum Lines<'a> {
    Script(FileName<'a>),
    Lanes(FileName<'a>),
    Ports(Service),
}

/// A task over files. With `units` lines may ask for dwellings too.
#[derive(Drop)]
pub struct Task<'a> {
    pub inputs: Inputs<'a>,
    pub units: Option<UnitFiles<'a>>,
    pub owner: Owner<'a>,
    pub lines: Lines<'a>,
}

/// A command: a task over files, or a generated population, whose replies are summed up.
#[derive(Drop)]
pub enum Command<'a> {
    Over(Task<'a>),
    Gen(Population),
}

// The argument at a place.
fn word_at(words: &[String], i: usize) -> &str
    ensures { result.now ≡ the_word (map string_bytes words.now) i }
{
    match words.get(i) {
        Some(word) => word.as_str(),
        None => "",
    }
}

// The file that an argument names, or none where it is `-`.
fn read_file_or_dash(word: &str) -> Option<Option<FileName<'_>>>
    ensures { result ≡ file_or_dash word.now }
{
    if word == "-" {
        return Some(None);
    }
    Some(Some(read_file_name(word)?))
}

// The inputs that `CLASSES RECODES PTABLE PEOPLE THRESHOLD` name.
fn read_inputs(words: &[String]) -> Option<Inputs<'_>>
    ensures { result ≡ inputs_in (map string_bytes words.now) }
{
    let classes = read_file_name(word_at(words, 1))?;
    let recodes = read_file_or_dash(word_at(words, 2))?;
    let ptable = read_file_name(word_at(words, 3))?;
    let people = read_file_name(word_at(words, 4))?;
    let threshold = read_within(0, MOST_THRESHOLD, word_at(words, 5))?;
    Some(Inputs {
        classes,
        recodes,
        ptable,
        people,
        threshold,
    })
}

// The files that `DWELLINGS LINKS` name.
fn read_unit_files(words: &[String]) -> Option<UnitFiles<'_>>
    ensures { result ≡ unit_files_in (map string_bytes words.now) }
{
    let dwellings = read_file_name(word_at(words, 6))?;
    let links = read_file_name(word_at(words, 7))?;
    Some(UnitFiles { dwellings, links })
}

// The files of dwellings, if any are named: `-` stands for none in both places or in neither.
fn read_units(dwellings: Dwellings, words: &[String]) -> Option<Option<UnitFiles<'_>>>
    ensures { result ≡ units_in dwellings (map string_bytes words.now) }
{
    match dwellings {
        Dwellings::Never => Some(None),
        Dwellings::Always => Some(Some(read_unit_files(words)?)),
        Dwellings::OrDashes => {
            if word_at(words, 6) == "-" && word_at(words, 7) == "-" {
                return Some(None);
            }
            Some(Some(read_unit_files(words)?))
        }
    }
}

// The owner, whose word is the journal's name where there is one.
fn read_owner(owner: OwnedBy, word: &str) -> Option<Owner<'_>>
    ensures { result ≡ owner_in owner word.now }
{
    match owner {
        OwnedBy::Custodian => Some(Owner::Custodian),
        OwnedBy::Journal => Some(Owner::Journal(read_file_name(word)?)),
        OwnedBy::Leader => Some(Owner::Leader),
    }
}

// Where lines come from, by `SCRIPT` or `PORT WORKERS SESSIONS` from this place on.
fn read_lines(lines: LinesFrom, words: &[String], i: usize) -> Option<Lines<'_>>
    // So the places behind it are numbers of the machine too.
    requires { i + 2 < 100 }
    ensures { result ≡ lines_in lines (map string_bytes words.now) i }
{
    let first = word_at(words, i);
    match lines {
        LinesFrom::Script => Some(Lines::Script(read_file_name(first)?)),
        LinesFrom::Lanes => Some(Lines::Lanes(read_file_name(first)?)),
        LinesFrom::Ports(layout) => {
            let (workers, sessions) = (word_at(words, i + 1), word_at(words, i + 2));
            Some(Lines::Ports(read_service(layout, first, workers, sessions)?))
        }
    }
}

// The task that a row's words ask for.
fn read_task<'a>(form: &Form, words: &'a [String]) -> Option<Task<'a>>
    ensures { result ≡ task_in (form_value form.now) (map string_bytes words.now) }
{
    if words.len() != form.end_place() {
        return None;
    }
    let inputs = read_inputs(words)?;
    let units = read_units(form.dwellings, words)?;
    let owner = read_owner(form.owner, word_at(words, form.owner_place()))?;
    let lines = read_lines(form.lines, words, form.lines_place())?;
    Some(Task {
        inputs,
        units,
        owner,
        lines,
    })
}

// The population that `N START` name.
fn read_gen(words: &[String]) -> Option<Population>
    ensures { result ≡ gen_in (map string_bytes words.now) }
{
    if words.len() != 3 {
        return None;
    }
    read_population(word_at(words, 1), word_at(words, 2))
}

/// What the arguments ask for, by the table; others than those of a command ask for nothing.
pub fn read_command(words: &[String]) -> Option<Command<'_>>
    ensures { result ≡ command_of (map string_bytes words.now) }
{
    let name = word_at(words, 0);
    if name == "gen" {
        return Some(Command::Gen(read_gen(words)?));
    }
    let form = form_named(name)?;
    Some(Command::Over(read_task(&form, words)?))
}

impl<'a> Command<'a> {
    /// The service that it asks for, where lines come from ports.
    pub fn service(&self) -> Option<&Service>
        ensures { option_map (λ s. s.now) result ≡ service_of self.now }
    {
        match self {
            Command::Over(task) => match &task.lines {
                Lines::Ports(service) => Some(service),
                Lines::Script(_) | Lines::Lanes(_) => None,
            },
            Command::Gen(_) => None,
        }
    }

    /// The name of the journal's file, where it has one.
    pub fn journal(&self) -> Option<&FileName<'a>>
        ensures { option_map (λ n. n.now) result ≡ journal_of self.now }
    {
        match self {
            Command::Over(task) => match &task.owner {
                Owner::Journal(name) => Some(name),
                Owner::Custodian | Owner::Leader => None,
            },
            Command::Gen(_) => None,
        }
    }
}

impl<'a> Owner<'a> {
    /// The same owner.
    pub fn copy(&self) -> Owner<'a>
        ensures { result ≡ self.now }
    {
        match self {
            Owner::Custodian => Owner::Custodian,
            Owner::Journal(name) => Owner::Journal(name.copy()),
            Owner::Leader => Owner::Leader,
        }
    }
}
