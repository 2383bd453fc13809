// The files of a run, read in their order.
//
// A file's bytes are freed once it is checked, those of PEOPLE before release 0 is made.
//
// Each step over files has one clause, `Loads`: how it goes by its definition over any contents
// that hold the files that were read, that the count of faults doesn't fall, and which reading was
// the last, by a list of named files. Two steps join by appending their lists (`proofs/LoadSteps`
// has a lemma for each exit), and a file that couldn't be read is one of other contents.

ghost use Rattle.std.specs.Prelude.{◌≡◌, ◌≤◌, ◌++◌, [], ◌∷◌, Some, true, length, is_some};
ghost use Rattle.std.specs.Prelude.{IfErr, IfOk, flat_map, option_map};
ghost use Rattle.tb_base.specs.Persons.{AreDistinct};
ghost use Rattle.tb_base.specs.Records.{AllFit};
ghost use Rattle.tb_command.specs.Commands.{asks_to_generate, asks_to_keep, asks_to_serve};
ghost use Rattle.tb_command.specs.Commands.{ports_asked, ports_for, ports_service};
ghost use Rattle.tb_model.specs.Schemas.{shape_of};
ghost use Rattle.tb_endings.specs.declared.endings.End.TheVariants as end;
ghost use Rattle.tb_endings.specs.declared.endings.Input.TheVariants as input;
ghost use Rattle.tb_top.specs.Asking.{asked_after, asked_over, base_in, bytes_in, bytes_within};
ghost use Rattle.tb_top.specs.Asking.{census_bytes, census_in, census_of, people_added};
ghost use Rattle.tb_top.specs.Asking.{come_at_ports, input_place, is_keep, is_service};
ghost use Rattle.tb_top.specs.Asking.{lines_over, most_bytes, people_in, perturbation_in};
ghost use Rattle.tb_top.specs.Asking.{ports_taken};
ghost use Rattle.tb_top.specs.Asking.{recodes_in, schema_in, script_in, scripted_in, task_over};
ghost use Rattle.tb_top.specs.Asking.{setup_in, setup_over, units_added, units_in};
ghost use Rattle.tb_top.specs.Asking.{with_units as census_with_units};
ghost use Rattle.tb_top.specs.InputFiles.{class_files, command_files, counted_files, input_files};
ghost use Rattle.tb_top.specs.InputFiles.{lines_files, named, recodes_files, script_files};
ghost use Rattle.tb_top.specs.InputFiles.{scripted_files, setup_files, task_files, unit_files};
ghost use Rattle.tb_top.specs.Loading.{AskedIsFirst, IsBase, IsFirst, Loads, asked_value};
ghost use Rattle.tb_top.specs.Loading.{census_value, reading, scripted_value};

use crate::asked::{Asked, AskedLines, Census, Scripted};
use crate::generated::load_generated;
use std::alloc::Global;
use std::thread::Threads;
use tb_base::{Keys, Record, Rules};
use tb_command::{Command, FileName, Inputs, Lines, Task, UnitFiles};
use tb_endings::{End, Input};
use tb_io::{FileRead, Files};
use tb_ptable::PTable;
use tb_records::read_people_in_parts;
use tb_release::Release;
use tb_schema::{MOST_UNSTATED, Schema};
use tb_script::{MOST_SCRIPT_BYTES, Script, ScriptFault};
use tb_text::Setup;
use tb_units::Units;

/// The most bytes that a file may have, the script apart: 256 MiB.
pub const MOST_BYTES: u64 = 268_435_456;

/// The most bytes that the persons, the dwellings and the links may each have where the
/// classification states a limit above `MOST_UNSTATED`: 32 GiB.
pub const LARGE_BYTES: u64 = 34_359_738_368;

/// The most bytes that a file may have. Persons, dwellings and links may have more, where the
/// classification states a limit above `MOST_UNSTATED`.
pub fn most_bytes_of(file: Input) -> u64
    ensures { result ≡ most_bytes file }
{
    match file {
        Input::Classes | Input::Recodes | Input::Ptable | Input::People => MOST_BYTES,
        Input::Dwellings | Input::Links => MOST_BYTES,
        Input::Script => MOST_SCRIPT_BYTES,
    }
}

// The most bytes that each of a census's files may have, its persons, dwellings and links.
fn census_bytes_of(schema: &Schema) -> u64
    ensures { result ≡ census_bytes schema.now }
{
    if schema.persons() <= MOST_UNSTATED {
        MOST_BYTES
    } else {
        LARGE_BYTES
    }
}

// The bytes of an input, whose file has this name, and so many at most.
#[tactic(auto, using(crate::proofs::LoadSteps::units_of_one))]
fn read_within<F: Files>(
    alloc: Global,
    files: &mut F,
    most: u64,
    file: Input,
    name: &FileName<'_>,
) -> Result<Vec<u8>, End>
    ensures within { IfOk result (λ bytes. length bytes.items ≤ most) }
    ensures loads { Loads
        (reading F.content F.faults F.readings files.old files.new)
        (input_place file)
        (named file name.now ∷ [])
        (λ bytes. bytes.items)
        (λ contents. bytes_within most file (contents file)) result }
{
    match files.read(alloc, name.as_str(), most) {
        FileRead::Bytes(bytes) => Ok(bytes),
        FileRead::TooLong => Err(End::TooLong(file)),
        FileRead::Failed => Err(End::Unread(file)),
        FileRead::Memory => Err(End::Memory),
    }
}

// The bytes of an input, whose file has this name.
fn read_bytes<F: Files>(
    alloc: Global,
    files: &mut F,
    file: Input,
    name: &FileName<'_>,
) -> Result<Vec<u8>, End>
    ensures within { IfOk result (λ bytes. length bytes.items ≤ most_bytes file) }
    ensures loads { Loads
        (reading F.content F.faults F.readings files.old files.new)
        (input_place file)
        (named file name.now ∷ [])
        (λ bytes. bytes.items)
        (λ contents. bytes_in file (contents file)) result }
{
    let most = most_bytes_of(file);
    read_within(alloc, files, most, file, name)
}

// The bytes of the recodes, where they are named.
fn read_recodes<F: Files>(
    alloc: Global,
    files: &mut F,
    name: &Option<FileName<'_>>,
) -> Result<Option<Vec<u8>>, End>
    ensures loads { Loads
        (reading F.content F.faults F.readings files.old files.new)
        1
        (recodes_files name.now)
        (option_map (λ bytes. bytes.items))
        (recodes_in name.now) result }
{
    match name {
        Some(name) => Ok(Some(read_bytes(alloc, files, Input::Recodes, name)?)),
        None => Ok(None),
    }
}

fn bytes_of(file: &Option<Vec<u8>>) -> Option<&[u8]>
    ensures { option_map (λ bytes. bytes.now) result ≡ option_map (λ bytes. bytes.items) file.now }
{
    match file {
        Some(bytes) => Some(bytes.as_slice()),
        None => None,
    }
}

// The classification and the recodes, both read before either is checked.
fn load_schema<F: Files>(alloc: Global, files: &mut F, inputs: &Inputs<'_>) -> Result<Schema, End>
    ensures loads { Loads
        (reading F.content F.faults F.readings files.old files.new)
        0
        (class_files inputs.now)
        (λ schema. schema)
        (schema_in inputs.now.recodes) result }
{
    let classes = read_bytes(alloc, files, Input::Classes, &inputs.classes)?;
    let recodes = read_recodes(alloc, files, &inputs.recodes)?;
    Ok(Schema::read(alloc, &classes, bytes_of(&recodes))?)
}

fn load_ptable<F: Files>(
    alloc: Global,
    files: &mut F,
    name: &FileName<'_>,
    keys: Keys,
) -> Result<PTable, End>
    ensures keys { IfOk result (λ table. table.keys ≡ keys) }
    ensures loads { Loads
        (reading F.content F.faults F.readings files.old files.new)
        2
        (named input.Ptable name.now ∷ [])
        (λ table. table)
        (perturbation_in keys) result }
{
    let bytes = read_bytes(alloc, files, Input::Ptable, name)?;
    match PTable::read(alloc, keys, &bytes) {
        Ok(ptable) => Ok(ptable),
        Err(fault) => Err(End::of(Input::Ptable, fault)),
    }
}

// The persons of the microdata, which threads read where the file is long. The bytes of the file
// are freed at the return.
fn load_people<F: Files, R: Threads + Sync>(
    rt: &R,
    alloc: Global,
    files: &mut F,
    name: &FileName<'_>,
    schema: &Schema,
) -> Result<Vec<Vec<Record>>, End>
    ensures distinct { IfOk result (λ lists.
        AreDistinct (flat_map (λ list. list.items) lists.items)) }
    ensures few { IfOk result (λ lists.
        length (flat_map (λ list. list.items) lists.items) ≤ schema.now.persons) }
    ensures fit { IfOk result (λ lists.
        AllFit (shape_of schema.now) (flat_map (λ list. list.items) lists.items)) }
    ensures loads { Loads
        (reading F.content F.faults F.readings files.old files.new)
        3
        (named input.People name.now ∷ [])
        (λ lists. flat_map (λ list. list.items) lists.items)
        (people_in schema.now) result }
{
    let most = census_bytes_of(schema);
    let bytes = read_within(alloc, files, most, Input::People, name)?;
    match read_people_in_parts(rt, alloc, schema, &bytes) {
        Ok(people) => Ok(people),
        Err(fault) => Err(End::of(Input::People, fault)),
    }
}

// The setup of a classification, without dwellings.
fn add_ptable<F: Files>(
    alloc: Global,
    files: &mut F,
    schema: Schema,
    name: &FileName<'_>,
) -> Result<Setup, End>
    ensures loads { Loads
        (reading F.content F.faults F.readings files.old files.new)
        2
        (named input.Ptable name.now ∷ [])
        (λ setup. setup)
        (setup_over schema) result }
{
    let ptable = load_ptable(alloc, files, name, schema.keys())?;
    Ok(Setup {
        schema,
        ptable,
        units: None,
    })
}

// The setup, without dwellings.
fn load_setup<F: Files>(alloc: Global, files: &mut F, inputs: &Inputs<'_>) -> Result<Setup, End>
    ensures loads { Loads
        (reading F.content F.faults F.readings files.old files.new)
        0
        (setup_files inputs.now)
        (λ setup. setup)
        (setup_in inputs.now) result }
{
    let schema = load_schema(alloc, files, inputs)?;
    add_ptable(alloc, files, schema, &inputs.ptable)
}

// Release 0 of the microdata, which is made when no file's bytes are held any more.
fn load_base<F: Files, R: Threads + Sync>(
    rt: &R,
    alloc: Global,
    files: &mut F,
    inputs: &Inputs<'_>,
    schema: &Schema,
) -> Result<Release, End>
    ensures base { IfOk result IsBase }
    ensures fit { IfOk result (λ base. AllFit (shape_of schema.now) base.records) }
    ensures loads { Loads
        (reading F.content F.faults F.readings files.old files.new)
        3
        (named input.People inputs.now.people ∷ [])
        (λ base. base)
        (base_in inputs.now schema.now) result }
{
    let people = load_people(rt, alloc, files, &inputs.people, schema)?;
    let rules = Rules::new(alloc, inputs.threshold);
    let most = schema.persons();
    let release = Release::first_in_parts(rt, alloc, most, people, rules)?;
    Ok(release)
}

// The classification of a setup.
fn schema_of(setup: &Setup) -> &Schema
    ensures { result.now ≡ setup.now.schema }
{
    &setup.schema
}

// The census of a setup.
fn add_people<F: Files, R: Threads + Sync>(
    rt: &R,
    alloc: Global,
    files: &mut F,
    inputs: &Inputs<'_>,
    setup: Setup,
) -> Result<Census, End>
    ensures first { IfOk result IsFirst }
    ensures loads { Loads
        (reading F.content F.faults F.readings files.old files.new)
        3
        (named input.People inputs.now.people ∷ [])
        census_value
        (people_added inputs.now setup) result }
{
    let release = load_base(rt, alloc, files, inputs, schema_of(&setup))?;
    Ok(Census { setup, release })
}

// The setup, without dwellings, and release 0.
fn load_census<F: Files, R: Threads + Sync>(
    rt: &R,
    alloc: Global,
    files: &mut F,
    inputs: &Inputs<'_>,
) -> Result<Census, End>
    ensures first { IfOk result IsFirst }
    ensures loads { Loads
        (reading F.content F.faults F.readings files.old files.new)
        0
        (input_files inputs.now)
        census_value
        (census_in inputs.now) result }
{
    let setup = load_setup(alloc, files, inputs)?;
    add_people(rt, alloc, files, inputs, setup)
}

// The dwellings and the links, both read before either is checked.
fn load_units<F: Files>(
    alloc: Global,
    files: &mut F,
    schema: &Schema,
    names: &UnitFiles<'_>,
) -> Result<Units, End>
    ensures loads { Loads
        (reading F.content F.faults F.readings files.old files.new)
        4
        (unit_files (Some names.now))
        (λ units. units)
        (units_in schema.now) result }
{
    let most = census_bytes_of(schema);
    let dwellings = read_within(alloc, files, most, Input::Dwellings, &names.dwellings)?;
    let links = read_within(alloc, files, most, Input::Links, &names.links)?;
    let persons = schema.persons();
    let keys = schema.keys();
    Ok(Units::read(alloc, persons, keys, &dwellings, &links)?)
}

// A census with these dwellings.
fn with_units(census: Census, units: Units) -> Census
    ensures census { census_value result ≡ census_with_units (census_value census) units }
    ensures first { IsFirst census → IsFirst result }
{
    let Census { setup, release } = census;
    let Setup {
        schema,
        ptable,
        units: _none,
    } = setup;
    let setup = Setup {
        schema,
        ptable,
        units: Some(units),
    };
    Census { setup, release }
}

// A census with the dwellings of these files.
fn add_units<F: Files>(
    alloc: Global,
    files: &mut F,
    census: Census,
    names: &UnitFiles<'_>,
) -> Result<Census, End>
    ensures first { IsFirst census → IfOk result IsFirst }
    ensures loads { Loads
        (reading F.content F.faults F.readings files.old files.new)
        4
        (unit_files (Some names.now))
        census_value
        (units_added (census_value census)) result }
{
    let units = load_units(alloc, files, schema_of(&census.setup), names)?;
    Ok(with_units(census, units))
}

// The setup, with dwellings where they are named, and release 0.
fn load_counted<F: Files, R: Threads + Sync>(
    rt: &R,
    alloc: Global,
    files: &mut F,
    inputs: &Inputs<'_>,
    units: &Option<UnitFiles<'_>>,
) -> Result<Census, End>
    ensures first { IfOk result IsFirst }
    ensures loads { Loads
        (reading F.content F.faults F.readings files.old files.new)
        0
        (counted_files inputs.now units.now)
        census_value
        (census_of inputs.now units.now) result }
{
    let census = load_census(rt, alloc, files, inputs)?;
    match units {
        Some(names) => add_units(alloc, files, census, names),
        None => Ok(census),
    }
}

// The script of that name.
fn load_script<F: Files>(alloc: Global, files: &mut F, name: &FileName<'_>) -> Result<Script, End>
    ensures loads { Loads
        (reading F.content F.faults F.readings files.old files.new)
        6
        (script_files name.now)
        (λ script. script)
        script_in result }
{
    let bytes = read_bytes(alloc, files, Input::Script, name)?;
    match Script::read(alloc, &bytes) {
        Ok(script) => Ok(script),
        Err(ScriptFault::Line(line)) => Err(End::BadLine(line)),
        Err(ScriptFault::Memory) => Err(End::Memory),
    }
}

/// The census and the script of that name, which is read last.
pub(crate) fn load_scripted<F: Files, R: Threads + Sync>(
    rt: &R,
    alloc: Global,
    files: &mut F,
    inputs: &Inputs<'_>,
    script: &FileName<'_>,
) -> Result<Scripted, End>
    ensures first { IfOk result (λ read. IsFirst read.census) }
    ensures loads { Loads
        (reading F.content F.faults F.readings files.old files.new)
        0
        (scripted_files inputs.now script.now)
        scripted_value
        (scripted_in inputs.now) result }
{
    let census = load_census(rt, alloc, files, inputs)?;
    let script = load_script(alloc, files, script)?;
    Ok(Scripted { census, script })
}

// The lines of a task, of which the script is read where there is one.
fn load_lines<F: Files>(alloc: Global, files: &mut F, lines: &Lines<'_>) -> Result<AskedLines, End>
    ensures kind { IfOk result (λ asked. come_at_ports asked
        ≡ is_some (ports_service lines.now)) }
    ensures ports { IfOk result (λ asked. ports_taken asked
        ≡ ports_for (ports_service lines.now)) }
    ensures loads { Loads
        (reading F.content F.faults F.readings files.old files.new)
        6
        (lines_files lines.now)
        (λ asked. asked)
        (lines_over lines.now) result }
{
    match lines {
        Lines::Script(name) => {
            let script = load_script(alloc, files, name)?;
            Ok(AskedLines::Script(script))
        }
        Lines::Lanes(name) => {
            let script = load_script(alloc, files, name)?;
            Ok(AskedLines::Lanes(script))
        }
        Lines::Ports(service) => Ok(AskedLines::Ports(service.copy())),
    }
}

// What a task asks for over a census that was read.
fn with_lines<'a, F: Files>(
    alloc: Global,
    files: &mut F,
    census: Census,
    task: &Task<'a>,
) -> Result<Asked<'a>, End>
    requires first { IsFirst census }
    ensures first { IfOk result AskedIsFirst }
    ensures kind { IfOk result (λ asked. is_service (asked_value asked)
        ≡ is_some (ports_service task.now.lines)) }
    ensures ports { IfOk result (λ asked. ports_taken asked.lines
        ≡ ports_for (ports_service task.now.lines)) }
    ensures owner { IfOk result (λ asked. asked.owner ≡ task.now.owner) }
    ensures loads { Loads
        (reading F.content F.faults F.readings files.old files.new)
        6
        (lines_files task.now.lines)
        asked_value
        (asked_after task.now (census_value census)) result }
{
    let lines = load_lines(alloc, files, &task.lines)?;
    Ok(Asked {
        census,
        owner: task.owner.copy(),
        lines,
    })
}

// What a task asks for over its files.
fn load_task<'a, F: Files, R: Threads + Sync>(
    rt: &R,
    alloc: Global,
    files: &mut F,
    task: &Task<'a>,
) -> Result<Asked<'a>, End>
    ensures first { IfOk result AskedIsFirst }
    ensures kind { IfOk result (λ asked. is_service (asked_value asked)
        ≡ is_some (ports_service task.now.lines)) }
    ensures ports { IfOk result (λ asked. ports_taken asked.lines
        ≡ ports_for (ports_service task.now.lines)) }
    ensures owner { IfOk result (λ asked. asked.owner ≡ task.now.owner) }
    ensures loads { Loads
        (reading F.content F.faults F.readings files.old files.new)
        0
        (task_files task.now)
        asked_value
        (task_over task.now) result }
{
    let census = load_counted(rt, alloc, files, &task.inputs, &task.units)?;
    with_lines(alloc, files, census, task)
}

/// Reads the files of a command: CLASSES and RECODES, both before either is checked, then PTABLE,
/// PEOPLE and the task's, if it has any, each checked before the next is read, but for DWELLINGS
/// and LINKS, which are checked once both are read. For a generated population it reads none, and
/// makes them. It takes memory for each file while it is read, and for what it says.
pub fn load<'a, F: Files, R: Threads + Sync>(
    rt: &R,
    alloc: Global,
    files: &mut F,
    command: &Command<'a>,
) -> Result<Asked<'a>, End>
    ensures first { IfOk result AskedIsFirst }
    ensures kind { IfOk result (λ asked. is_service (asked_value asked)
        ≡ asks_to_serve (Some command.now)) }
    ensures ports { IfOk result (λ asked. ports_taken asked.lines
        ≡ ports_asked (Some command.now)) }
    ensures keeps { IfOk result (λ asked. is_keep (asked_value asked)
        ≡ asks_to_keep (Some command.now)) }
    ensures generated { asks_to_generate (Some command.now) ≡ true
        → IfErr result (λ e. e ≡ end.Memory) }
    ensures loads { Loads
        (reading F.content F.faults F.readings files.old files.new)
        0
        (command_files command.now)
        asked_value
        (asked_over command.now) result }
{
    match command {
        Command::Over(task) => load_task(rt, alloc, files, task),
        Command::Gen(population) => load_generated(rt, alloc, population),
    }
}
