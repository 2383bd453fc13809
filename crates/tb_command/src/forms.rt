// The table of the commands, but for `gen`, which reads no files.
//
// A row is a plain value: a static holds no struct with an `impl Model`, and a clause can't name a
// static, so `all_forms` says that the rows are those of `specs/Forms`.

ghost use Rattle.std.specs.Prelude.{◌≡◌, map, option_map};
ghost use Rattle.tb_command.specs.Forms.{end_place as the_end, form_in as first_named};
ghost use Rattle.tb_command.specs.Forms.{form_value, forms, lines_place as the_lines};
ghost use Rattle.tb_command.specs.Forms.{owner_place as the_owner};

use crate::service::Layout;

/// Who owns the chain: a custodian who publishes, one who writes each batch into a journal first,
/// or a leader whose messages bring the batches.
#[derive(Clone, Copy)]
pub enum OwnedBy {
    Custodian,
    Journal,
    Leader,
}

/// Where lines come from: a script, one after another; its lanes, at the same time; or sessions at
/// ports, in a row or with a door.
#[derive(Clone, Copy)]
pub enum LinesFrom {
    Script,
    Lanes,
    Ports(Layout),
}

/// Whether a file of dwellings and one of links are named: never, always, or both or neither, where
/// `-` stands for none.
#[derive(Clone, Copy)]
pub enum Dwellings {
    Never,
    Always,
    OrDashes,
}

/// A row of the table: the command's name, and what it asks for.
#[derive(Clone, Copy)]
pub struct Form {
    pub name: &'static str,
    pub owner: OwnedBy,
    pub lines: LinesFrom,
    pub dwellings: Dwellings,
}

// The rows, in the order in which the forms of the commands are printed.
static FORMS: [Form; 8] = [
    Form {
        name: "script",
        owner: OwnedBy::Custodian,
        lines: LinesFrom::Script,
        dwellings: Dwellings::Never,
    },
    Form {
        name: "lanes",
        owner: OwnedBy::Custodian,
        lines: LinesFrom::Lanes,
        dwellings: Dwellings::Never,
    },
    Form {
        name: "keep",
        owner: OwnedBy::Journal,
        lines: LinesFrom::Script,
        dwellings: Dwellings::Never,
    },
    Form {
        name: "follow",
        owner: OwnedBy::Leader,
        lines: LinesFrom::Script,
        dwellings: Dwellings::Never,
    },
    Form {
        name: "units",
        owner: OwnedBy::Custodian,
        lines: LinesFrom::Script,
        dwellings: Dwellings::Always,
    },
    Form {
        name: "host",
        owner: OwnedBy::Journal,
        lines: LinesFrom::Ports(Layout::Door),
        dwellings: Dwellings::OrDashes,
    },
    Form {
        name: "mirror",
        owner: OwnedBy::Leader,
        lines: LinesFrom::Ports(Layout::Door),
        dwellings: Dwellings::OrDashes,
    },
    Form {
        name: "serve",
        owner: OwnedBy::Custodian,
        lines: LinesFrom::Ports(Layout::Row),
        dwellings: Dwellings::Never,
    },
];

/// The rows, as a list that contracts know.
pub fn all_forms() -> &'static [Form]
    ensures { map form_value result.now ≡ forms }
{
    FORMS.as_slice()
}

// The first of these rows with that name.
fn form_in(rows: &[Form], name: &str) -> Option<Form>
    ensures { option_map form_value result ≡ first_named (map form_value rows.now) name.now }
{
    for form in rows {
        if form.name == name {
            return Some(*form);
        }
    }
    None
}

/// The row of that name.
pub fn form_named(name: &str) -> Option<Form>
    ensures { option_map form_value result ≡ first_named forms name.now }
{
    form_in(all_forms(), name)
}

impl Form {
    // The place of the word that names the journal, where there is one.
    pub(crate) fn owner_place(&self) -> usize
        ensures { result ≡ the_owner (form_value self.now) }
    {
        match self.dwellings {
            Dwellings::Never => 6,
            Dwellings::Always | Dwellings::OrDashes => 8,
        }
    }

    // The place of the first word that says where lines come from.
    pub(crate) fn lines_place(&self) -> usize
        ensures { result ≡ the_lines (form_value self.now) }
    {
        match self.owner {
            OwnedBy::Custodian | OwnedBy::Leader => self.owner_place(),
            OwnedBy::Journal => self.owner_place() + 1,
        }
    }

    // How many words there are, the command's name among them.
    pub(crate) fn end_place(&self) -> usize
        ensures { result ≡ the_end (form_value self.now) }
    {
        match self.lines {
            LinesFrom::Script | LinesFrom::Lanes => self.lines_place() + 1,
            LinesFrom::Ports(_) => self.lines_place() + 3,
        }
    }
}
